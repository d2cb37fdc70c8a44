//! Inputs that must be alike: in the columns of keys, or in all.

ghost use Rattle.std.specs.Prelude.{◌≡◌, ◌<◌, length, map, None, IfOk};
ghost use Rattle.std.specs.List.{list_all};
ghost use Rattle.shape_base.specs.Naming.{has_columns, has_keys, NamesDiffer};
ghost use Rattle.keyed_shape.specs.Keyed.{kinds_agree, same_flag};
ghost use Rattle.keyed_shape.specs.Matched.{inputs_cause, inputs_keys, same_field, same_fields, schemas_cause, values_cause};

use crate::joining::{kinds_agree, same_kind};
use ds_schema::{Field, KeyList, Schema};
use ds_value::{Items, Name, NoMemory};
use shape_base::ShapeWhy;
use shape_base::inputs::first;
use shape_base::naming::{has_columns, has_keys, key_list};
use std::alloc::Global;

fn all_have_keys(key: &[(Name, bool)], ins: &[&Schema]) -> bool
    ensures { result ≡ list_all (λ fields. has_keys fields key.now) (map (λ s. s.now) ins.now) }
{
    match ins {
        [] => true,
        [schema, more @ ..] => has_keys(schema.as_slice(), key) && all_have_keys(key, more),
    }
}

fn all_agree(key: &[(Name, bool)], left: &[Field], ins: &[&Schema]) -> bool
    ensures { result ≡ list_all (kinds_agree key.now left.now) (map (λ s. s.now) ins.now) }
{
    match ins {
        [] => true,
        [schema, more @ ..] => {
            kinds_agree(key, left, schema.as_slice()) && all_agree(key, left, more)
        }
    }
}

/// What is wrong with keys on any number of inputs.
pub fn inputs_cause(key: &[(Name, bool)], ins: &[&Schema]) -> Option<ShapeWhy>
    requires { 0 < length ins.now }
    ensures { result ≡ inputs_cause key.now (map (λ s. s.now) ins.now) }
{
    if !all_have_keys(key, ins) {
        return Some(ShapeWhy::Field);
    }
    if !all_agree(key, first(ins).as_slice(), ins) {
        return Some(ShapeWhy::Kind);
    }
    None
}

/// The key lists of any number of inputs.
pub fn inputs_keys(
    alloc: Global,
    key: &[(Name, bool)],
    ins: &[&Schema],
) -> Result<Items<KeyList>, NoMemory>
    requires there { inputs_cause key.now (map (λ s. s.now) ins.now) ≡ None }
    requires differ { NamesDiffer key.now }
    ensures { IfOk result (λ keys. keys ≡ inputs_keys key.now (map (λ s. s.now) ins.now)) }
{
    let mut keys = Items::new(alloc);
    for schema in ins {
        keys.push(key_list(alloc, schema.as_slice(), key)?)?;
    }
    Ok(keys)
}

fn same_flag(a: bool, b: bool) -> bool
    ensures { result ≡ same_flag a b }
{
    a == b
}

fn same_field(a: &Field, b: &Field) -> bool
    ensures { result ≡ same_field a.now b.now }
{
    a.name.as_slice() == b.name.as_slice()
        && same_flag(a.nullable, b.nullable)
        && same_kind(a.kind, b.kind)
}

/// Whether these are fields of the same names and kinds in the same order.
fn same_fields(left: &[Field], right: &[Field]) -> bool
    ensures { result ≡ same_fields left.now right.now }
{
    match left {
        [] => right.is_empty(),
        [a, left @ ..] => match right {
            [] => false,
            [b, right @ ..] => same_field(a, b) && same_fields(left, right),
        },
    }
}

fn all_same(left: &[Field], ins: &[&Schema]) -> bool
    ensures { result ≡ list_all (same_fields left.now) (map (λ s. s.now) ins.now) }
{
    match ins {
        [] => true,
        [schema, more @ ..] => same_fields(left, schema.as_slice()) && all_same(left, more),
    }
}

/// Whether the inputs have equal schemas.
pub fn schemas_cause(ins: &[&Schema]) -> Option<ShapeWhy>
    requires { 0 < length ins.now }
    ensures { result ≡ schemas_cause (map (λ s. s.now) ins.now) }
{
    if all_same(first(ins).as_slice(), ins) {
        None
    } else {
        Some(ShapeWhy::Schemas)
    }
}

fn all_have_columns(names: &[Name], ins: &[&Schema]) -> bool
    ensures { result ≡ list_all (λ fields. has_columns fields names.now) (map (λ s. s.now) ins.now) }
{
    match ins {
        [] => true,
        [schema, more @ ..] => {
            has_columns(schema.as_slice(), names) && all_have_columns(names, more)
        }
    }
}

/// Whether each input has these columns.
pub fn values_cause(values: &[Name], ins: &[&Schema]) -> Option<ShapeWhy>
    ensures { result ≡ values_cause values.now (map (λ s. s.now) ins.now) }
{
    if all_have_columns(values, ins) {
        None
    } else {
        Some(ShapeWhy::Field)
    }
}
