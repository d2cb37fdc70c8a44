//! The fields of a transform: present ones replaced in their place, new ones appended.

ghost use Rattle.std.specs.Prelude.{◌≡◌, ◌<◌, ◌^◌, length, IfOk, OnOk};
ghost use Rattle.std.specs.List.{list_any};
ghost use Rattle.std.specs.Str.{bytes_eq};
ghost use Rattle.flow_graph.specs.declared.op_kind.SetSpec.{SetSpec as SetOf};
ghost use Rattle.shape_base.specs.Naming.{columns};
ghost use Rattle.op_shape.specs.Columns.{put_field, set_fields, set_names, set_columns, stand_twice, sets_cause};

use ds_schema::Field;
use ds_value::{Copied, Items, Name, NoMemory};
use flow_graph::SetSpec;
use shape_base::ShapeWhy;
use shape_base::naming::{column, place_of};
use std::alloc::Global;

fn put_field(fields: &mut Vec<Field>, new: Field) -> Result<(), NoMemory>
    ensures { OnOk result (fields.new.items ≡ put_field new fields.old.items) }
{
    match place_of(fields.as_slice(), &new.name) {
        Some(at) => fields[at] = new,
        None => fields.push(new)?,
    }
    Ok(())
}

fn copied_fields(alloc: Global, fields: &[Field]) -> Result<Vec<Field>, NoMemory>
    ensures { IfOk result (λ copies. copies.items ≡ fields.now) }
{
    let mut copies = Vec::new(alloc);
    for field in fields {
        copies.push(field.copied()?)?;
    }
    Ok(copies)
}

/// The fields, each set put in its turn.
pub fn set_fields(alloc: Global, fields: &[Field], sets: &[SetSpec]) -> Result<Vec<Field>, NoMemory>
    ensures { IfOk result (λ made. made.items ≡ set_fields fields.now sets.now) }
{
    let mut made = copied_fields(alloc, fields)?;
    for set in sets {
        put_field(&mut made, set.field.copied()?)?;
    }
    Ok(made)
}

/// The columns of the sets among the fields that they give.
pub fn set_columns(
    alloc: Global,
    fields: &[Field],
    sets: &[SetSpec],
) -> Result<Items<u32>, NoMemory>
    requires { length (set_fields fields.now sets.now) < 2 ^ 32 }
    ensures { IfOk result (λ cols. cols ≡ set_columns fields.now sets.now) }
{
    let made = set_fields(alloc, fields, sets)?;
    columns_in(alloc, made.as_slice(), sets)
}

fn columns_in(alloc: Global, made: &[Field], sets: &[SetSpec]) -> Result<Items<u32>, NoMemory>
    requires { length made.now < 2 ^ 32 }
    ensures { IfOk result (λ cols. cols ≡ columns made.now (set_names sets.now)) }
{
    let mut cols = Items::new(alloc);
    for set in sets {
        cols.push(column(made, &set.field.name))?;
    }
    Ok(cols)
}

fn is_set(sets: &[SetSpec], name: &Name) -> bool
    ensures { result ≡ list_any (λ (s : SetOf). bytes_eq s.field.name name.now) sets.now }
{
    sets.iter()
        .any(|set| set.field.name.as_slice() == name.as_slice())
}

/// Whether two sets have one name.
fn has_two(sets: &[SetSpec]) -> bool
    ensures { result ≡ stand_twice (set_names sets.now) }
{
    for (i, set) in sets.iter().enumerate() {
        if is_set(&sets[i + 1..], &set.field.name) {
            return true;
        }
    }
    false
}

/// What is wrong with the names that are set.
pub fn sets_cause(sets: &[SetSpec]) -> Option<ShapeWhy>
    ensures { result ≡ sets_cause sets.now }
{
    if has_two(sets) {
        Some(ShapeWhy::Double)
    } else {
        None
    }
}
