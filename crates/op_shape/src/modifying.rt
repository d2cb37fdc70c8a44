//! The fields of a modify: those that are kept, under their new names.

ghost use Rattle.std.specs.Prelude.{◌≡◌, ◌<◌, ◌^◌, ℕ, true, length, map, IfOk};
ghost use Rattle.std.specs.List.{AllByRecursion};
ghost use Rattle.shape_base.specs.Naming.{has_columns};
ghost use Rattle.op_shape.specs.Options.{renames_cause};
ghost use Rattle.op_shape.specs.Columns.{is_among, columns_cause, left_columns, kept_columns, kept_fields, has_renamed, new_name, renamed, modified_fields};
ghost use Rattle.shape_base.specs.Fields.{field_at};

use ds_schema::Field;
use ds_value::{Copied, Items, Name, NoMemory};
use shape_base::ShapeWhy;
use shape_base::naming::{columns, has_column, has_columns};
use std::alloc::Global;

/// What is wrong with names of columns.
pub fn columns_cause(names: &[Name], fields: &[Field]) -> Option<ShapeWhy>
    ensures { result ≡ columns_cause names.now fields.now }
{
    if has_columns(fields, names) {
        None
    } else {
        Some(ShapeWhy::Field)
    }
}

fn is_among(names: &[Name], name: &Name) -> bool
    ensures { result ≡ is_among names.now name.now }
{
    names
        .iter()
        .any(|other| other.as_slice() == name.as_slice())
}

fn left_columns(alloc: Global, drop: &[Name], fields: &[Field]) -> Result<Items<u32>, NoMemory>
    requires { length fields.now < 2 ^ 32 }
    ensures { IfOk result (λ cols. cols ≡ left_columns drop.now fields.now) }
{
    let mut cols = Items::new(alloc);
    for (i, field) in fields.iter().enumerate() {
        if !is_among(drop, &field.name) {
            cols.push(i as u32)?;
        }
    }
    Ok(cols)
}

/// The columns that are kept: those of `keep`, or where it is empty all but those of `drop`.
pub fn kept_columns(
    alloc: Global,
    keep: &[Name],
    drop: &[Name],
    fields: &[Field],
) -> Result<Items<u32>, NoMemory>
    requires { length fields.now < 2 ^ 32 }
    ensures { IfOk result (λ cols. cols ≡ kept_columns keep.now drop.now fields.now) }
{
    match keep {
        [] => left_columns(alloc, drop, fields),
        _ => columns(alloc, fields, keep),
    }
}

fn fields_at(alloc: Global, fields: &[Field], cols: &[u32]) -> Result<Vec<Field>, NoMemory>
    requires { AllByRecursion (λ c. c < length fields.now) cols.now }
    ensures { IfOk result (λ kept. kept.items ≡ map (field_at fields.now) cols.now) }
{
    let mut kept = Vec::new(alloc);
    for col in cols {
        kept.push(fields[*col as usize].copied()?)?;
    }
    Ok(kept)
}

/// The kept fields, which are there.
fn kept_fields(
    alloc: Global,
    keep: &[Name],
    drop: &[Name],
    fields: &[Field],
) -> Result<Vec<Field>, NoMemory>
    requires few { length fields.now < 2 ^ 32 }
    requires there { has_columns fields.now keep.now ≡ true }
    ensures { IfOk result (λ kept. kept.items ≡ kept_fields keep.now drop.now fields.now) }
{
    let cols = kept_columns(alloc, keep, drop, fields)?;
    fields_at(alloc, fields, cols.as_slice())
}

fn has_renamed(kept: &[Field], rename: &[(Name, Name)]) -> bool
    ensures { result ≡ has_renamed kept.now rename.now }
{
    rename.iter().all(|pair| has_column(kept, &pair.1))
}

fn new_name(rename: &[(Name, Name)], name: &Name) -> Result<Name, NoMemory>
    ensures { IfOk result (λ new. new ≡ new_name rename.now name.now) }
{
    for (new, old) in rename {
        if old.as_slice() == name.as_slice() {
            return new.copied();
        }
    }
    name.copied()
}

fn renamed(rename: &[(Name, Name)], field: &Field) -> Result<Field, NoMemory>
    ensures { IfOk result (λ new. new ≡ renamed rename.now field.now) }
{
    Ok(Field {
        name: new_name(rename, &field.name)?,
        nullable: field.nullable,
        kind: field.kind,
    })
}

fn renamed_fields(
    alloc: Global,
    rename: &[(Name, Name)],
    kept: &[Field],
) -> Result<Vec<Field>, NoMemory>
    ensures { IfOk result (λ made. made.items ≡ map (renamed rename.now) kept.now) }
{
    let mut made = Vec::new(alloc);
    for field in kept {
        made.push(renamed(rename, field)?)?;
    }
    Ok(made)
}

/// The kept fields under their new names.
pub fn modified_fields(
    alloc: Global,
    keep: &[Name],
    drop: &[Name],
    rename: &[(Name, Name)],
    fields: &[Field],
) -> Result<Vec<Field>, NoMemory>
    requires few { length fields.now < 2 ^ 32 }
    requires there { has_columns fields.now keep.now ≡ true }
    ensures { IfOk result (λ made. made.items ≡ modified_fields keep.now drop.now rename.now fields.now) }
{
    let kept = kept_fields(alloc, keep, drop, fields)?;
    renamed_fields(alloc, rename, kept.as_slice())
}

/// What is wrong with the names that are renamed.
pub fn renames_cause(
    alloc: Global,
    keep: &[Name],
    drop: &[Name],
    rename: &[(Name, Name)],
    fields: &[Field],
) -> Result<Option<ShapeWhy>, NoMemory>
    requires few { length fields.now < 2 ^ 32 }
    requires there { has_columns fields.now keep.now ≡ true }
    ensures { IfOk result (λ cause. cause ≡ renames_cause rename.now (kept_fields keep.now drop.now fields.now)) }
{
    let kept = kept_fields(alloc, keep, drop, fields)?;
    if has_renamed(kept.as_slice(), rename) {
        Ok(None)
    } else {
        Ok(Some(ShapeWhy::Field))
    }
}
