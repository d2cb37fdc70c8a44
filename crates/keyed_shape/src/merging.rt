//! The columns of a merge: the master's, then the other columns of each update.

ghost use Rattle.std.specs.Prelude.{◌≡◌, ◌<◌, ◌++◌, length, map, None, IfOk, OnOk};
ghost use Rattle.std.specs.List.{AllByRecursion, flat_map, list_any};
ghost use Rattle.ds_schema.specs.Schemas.{IsField};
ghost use Rattle.shape_base.specs.Causes.{first_cause};
ghost use Rattle.keyed_shape.specs.Keyed.{field_named, nullable_if, other_fields};
ghost use Rattle.keyed_shape.specs.Matched.{master_field, merge_causes, merge_fields, merge_output};

use crate::alike::inputs_cause;
use crate::keying::{is_key, is_nullable, nullable_if, push_others};
use ds_schema::{Field, Schema};
use ds_value::{Name, NoMemory};
use shape_base::inputs::first;
use shape_base::{ShapeWhy, fields_cause};
use std::alloc::Global;

/// Whether the column of that name may be null on one of the inputs.
fn any_nullable(ins: &[&Schema], name: &Name) -> bool
    ensures { result ≡ list_any (λ fields. (field_named fields name.now).nullable) (map (λ s. s.now) ins.now) }
{
    match ins {
        [] => false,
        [schema, more @ ..] => is_nullable(schema.as_slice(), name) || any_nullable(more, name),
    }
}

/// A column of the master; a key may be null where it may on any input.
fn master_field(key: &[(Name, bool)], updates: &[&Schema], field: &Field) -> Result<Field, NoMemory>
    ensures { IfOk result (λ made. made ≡ master_field key.now (map (λ s. s.now) updates.now) field.now) }
{
    let test = is_key(key, &field.name) && any_nullable(updates, &field.name);
    nullable_if(test, field)
}

fn master_fields(
    alloc: Global,
    key: &[(Name, bool)],
    updates: &[&Schema],
    master: &[Field],
) -> Result<Vec<Field>, NoMemory>
    ensures { IfOk result (λ made. made.items ≡ map (master_field key.now (map (λ s. s.now) updates.now)) master.now) }
{
    let mut made = Vec::new(alloc);
    for field in master {
        made.push(master_field(key, updates, field)?)?;
    }
    Ok(made)
}

/// Appends the other columns of each update; they may also be null where the test holds.
fn push_updates(
    alloc: Global,
    made: &mut Vec<Field>,
    key: &[(Name, bool)],
    test: bool,
    updates: &[&Schema],
) -> Result<(), NoMemory>
    ensures made { OnOk result (made.new.items ≡ made.old.items ++ flat_map (λ fields. map (nullable_if test) (other_fields key.now fields)) (map (λ s. s.now) updates.now)) }
    ensures each { OnOk result (AllByRecursion IsField made.old.items → AllByRecursion IsField made.new.items) }
{
    for schema in updates {
        push_others(alloc, made, key, test, schema.as_slice())?;
    }
    Ok(())
}

fn merge_fields(
    alloc: Global,
    key: &[(Name, bool)],
    keepbad: bool,
    ins: &[&Schema],
) -> Result<Vec<Field>, NoMemory>
    requires { 0 < length ins.now }
    ensures made { IfOk result (λ made. made.items ≡ merge_fields key.now keepbad (map (λ s. s.now) ins.now)) }
    ensures each { IfOk result (λ made. AllByRecursion IsField made.items) }
{
    let updates = &ins[1..];
    let mut made = master_fields(alloc, key, updates, first(ins).as_slice())?;
    let may_miss = keepbad || updates.len() >= 2;
    push_updates(alloc, &mut made, key, may_miss, updates)?;
    Ok(made)
}

/// What is wrong at a merge; `keepbad` says that masters without any update are kept.
pub fn merge_cause(
    alloc: Global,
    key: &[(Name, bool)],
    keepbad: bool,
    ins: &[&Schema],
) -> Result<Option<ShapeWhy>, NoMemory>
    requires { 0 < length ins.now }
    ensures { IfOk result (λ cause. cause ≡ first_cause (merge_causes key.now keepbad (map (λ s. s.now) ins.now))) }
{
    if let Some(why) = inputs_cause(key, ins) {
        return Ok(Some(why));
    }
    let made = merge_fields(alloc, key, keepbad, ins)?;
    Ok(fields_cause(made.as_slice()))
}

/// The schema of merged rows, or of the updates of an input that are rejected.
pub fn merge_schema(
    alloc: Global,
    key: &[(Name, bool)],
    keepbad: bool,
    ins: &[&Schema],
    out: u32,
) -> Result<Schema, NoMemory>
    requires some { 0 < length ins.now }
    requires sound { first_cause (merge_causes key.now keepbad (map (λ s. s.now) ins.now)) ≡ None }
    ensures { IfOk result (λ schema. schema ≡ merge_output key.now keepbad (map (λ s. s.now) ins.now) out) }
{
    if out == 0 {
        let fields = merge_fields(alloc, key, keepbad, ins)?;
        return Ok(Schema::from_vec(fields));
    }
    match ins.get(out as usize) {
        Some(schema) => schema.copied(),
        None => first(ins).copied(),
    }
}
