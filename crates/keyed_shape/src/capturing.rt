//! The columns of changes between two inputs, and those of funnels.

ghost use Rattle.std.specs.Prelude.{◌≡◌, ◌<◌, ◌^◌, codes, length, map, None, IfOk};
ghost use Rattle.shape_base.specs.Causes.{first_cause};
ghost use Rattle.shape_base.specs.Fields.{first_fields};
ghost use Rattle.keyed_shape.specs.Keyed.{other_columns};
ghost use Rattle.keyed_shape.specs.Matched.{code_field, capture_fields, capture_causes, funnel_causes, value_columns};

use crate::alike::{inputs_cause, schemas_cause, values_cause};
use crate::keying::other_columns;
use ds_schema::{Field, Schema};
use ds_value::{Copied, Items, Kind, Name, NoMemory};
use shape_base::inputs::first;
use shape_base::naming::columns;
use shape_base::{ShapeWhy, fields_cause};
use std::alloc::Global;

fn code_name(alloc: Global) -> Result<Name, NoMemory>
    ensures { IfOk result (λ name. name ≡ codes "change_code") }
{
    match Name::from_bytes(alloc, b"change_code".as_slice())? {
        Some(name) => Ok(name),
        None => unreachable!(),
    }
}

/// The field `change_code: int8`.
fn code_field(alloc: Global) -> Result<Field, NoMemory>
    ensures { IfOk result (λ field. field ≡ code_field) }
{
    Ok(Field {
        name: code_name(alloc)?,
        nullable: false,
        kind: Kind::Int(8),
    })
}

fn capture_fields(alloc: Global, fields: &[Field]) -> Result<Vec<Field>, NoMemory>
    ensures { IfOk result (λ made. made.items ≡ capture_fields fields.now) }
{
    let mut made = Vec::new(alloc);
    for field in fields {
        made.push(field.copied()?)?;
    }
    made.push(code_field(alloc)?)?;
    Ok(made)
}

/// What is wrong at a capture of changes.
pub fn capture_cause(
    alloc: Global,
    key: &[(Name, bool)],
    values: &[Name],
    ins: &[&Schema],
) -> Result<Option<ShapeWhy>, NoMemory>
    requires { 0 < length ins.now }
    ensures { IfOk result (λ cause. cause ≡ first_cause (capture_causes key.now values.now (map (λ s. s.now) ins.now))) }
{
    if let Some(why) = inputs_cause(key, ins) {
        return Ok(Some(why));
    }
    if let Some(why) = values_cause(values, ins) {
        return Ok(Some(why));
    }
    if let Some(why) = schemas_cause(ins) {
        return Ok(Some(why));
    }
    let made = capture_fields(alloc, first(ins).as_slice())?;
    Ok(fields_cause(made.as_slice()))
}

/// The schema of changes: that of the inputs with the code of the change.
pub fn capture_schema(
    alloc: Global,
    key: &[(Name, bool)],
    values: &[Name],
    ins: &[&Schema],
) -> Result<Schema, NoMemory>
    requires some { 0 < length ins.now }
    requires sound { first_cause (capture_causes key.now values.now (map (λ s. s.now) ins.now)) ≡ None }
    ensures { IfOk result (λ schema. schema ≡ capture_fields (first_fields (map (λ s. s.now) ins.now))) }
{
    let fields = capture_fields(alloc, first(ins).as_slice())?;
    Ok(Schema::from_vec(fields))
}

/// The columns that are compared: those that are named, or by default all that no key names.
pub fn value_columns(
    alloc: Global,
    key: &[(Name, bool)],
    values: &[Name],
    fields: &[Field],
) -> Result<Items<u32>, NoMemory>
    requires { length fields.now < 2 ^ 32 }
    ensures { IfOk result (λ cols. cols ≡ value_columns key.now values.now fields.now) }
{
    match values {
        [] => other_columns(alloc, key, fields),
        _ => columns(alloc, fields, values),
    }
}

/// What is wrong at a funnel.
pub fn funnel_cause(sort: &[(Name, bool)], ins: &[&Schema]) -> Option<ShapeWhy>
    requires { 0 < length ins.now }
    ensures { result ≡ first_cause (funnel_causes sort.now (map (λ s. s.now) ins.now)) }
{
    match inputs_cause(sort, ins) {
        Some(why) => Some(why),
        None => schemas_cause(ins),
    }
}
