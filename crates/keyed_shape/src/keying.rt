//! The fields of keys, and those of the columns that no key names.

ghost use Rattle.std.specs.Prelude.{◌≡◌, ◌<◌, ◌^◌, ◌++◌, not, length, map, true, IfOk, OnOk};
ghost use Rattle.std.specs.List.{filter};
ghost use Rattle.ds_schema.specs.Rows.{cols};
ghost use Rattle.op_base.specs.Columns.{all_columns, is_in};
ghost use Rattle.shape_base.specs.Fields.{field_at};
ghost use Rattle.shape_base.specs.Naming.{has_column, key_columns};
ghost use Rattle.keyed_shape.specs.Keyed.{field_named, nullable_if, is_key, other_columns, other_fields};

use ds_schema::Field;
use ds_value::{Copied, Items, Kind, Name, NoMemory};
use shape_base::naming::{column, place_of};
use std::alloc::Global;

/// The field of that name, which is there.
pub fn field_named<'a>(fields: &'a [Field], name: &Name) -> &'a Field
    requires { has_column fields.now name.now ≡ true }
    ensures { result.now ≡ field_named fields.now name.now }
{
    match place_of(fields, name) {
        Some(at) => &fields[at],
        None => unreachable!(),
    }
}

/// Whether the field of that name may be null; so may one that isn't there.
pub fn is_nullable(fields: &[Field], name: &Name) -> bool
    ensures { result ≡ (field_named fields.now name.now).nullable }
{
    match place_of(fields, name) {
        Some(at) => fields[at].nullable,
        None => true,
    }
}

/// The kind of the field of that name; of one that isn't there a date.
pub fn kind_of(fields: &[Field], name: &Name) -> Kind
    ensures { result ≡ (field_named fields.now name.now).kind }
{
    match place_of(fields, name) {
        Some(at) => fields[at].kind,
        None => Kind::Date,
    }
}

/// A copy of the field that may also be null where the test holds.
pub fn nullable_if(test: bool, field: &Field) -> Result<Field, NoMemory>
    ensures { IfOk result (λ copy. copy ≡ nullable_if test field.now) }
{
    Ok(Field {
        name: field.name.copied()?,
        nullable: field.nullable || test,
        kind: field.kind,
    })
}

pub fn is_key(key: &[(Name, bool)], name: &Name) -> bool
    ensures { result ≡ is_key key.now name.now }
{
    key.iter().any(|part| part.0.as_slice() == name.as_slice())
}

fn columns_of(alloc: Global, key: &[(Name, bool)], fields: &[Field]) -> Result<Vec<u32>, NoMemory>
    requires { length fields.now < 2 ^ 32 }
    ensures { IfOk result (λ found. found.items ≡ cols (key_columns fields.now key.now)) }
{
    let mut found = Vec::new(alloc);
    for (name, _) in key {
        found.push(column(fields, name))?;
    }
    Ok(found)
}

/// The columns that no key names.
pub fn other_columns(
    alloc: Global,
    key: &[(Name, bool)],
    fields: &[Field],
) -> Result<Items<u32>, NoMemory>
    requires { length fields.now < 2 ^ 32 }
    ensures { IfOk result (λ found. found ≡ other_columns key.now fields.now) }
{
    let columns = columns_of(alloc, key, fields)?;
    let mut found = Items::new(alloc);
    for i in 0..fields.len() as u32 {
        if !columns.contains(&i) {
            found.push(i)?;
        }
    }
    Ok(found)
}

/// Appends the fields but those in these columns; they may also be null where the test holds.
fn push_rest(
    made: &mut Vec<Field>,
    columns: &[u32],
    test: bool,
    fields: &[Field],
) -> Result<(), NoMemory>
    requires { length fields.now < 2 ^ 32 }
    ensures { OnOk result (made.new.items ≡ made.old.items ++ map (nullable_if test) (map (field_at fields.now) (filter (λ c. not (is_in c columns.now)) (all_columns (length fields.now))))) }
{
    for (i, field) in fields.iter().enumerate() {
        if !columns.contains(&(i as u32)) {
            made.push(nullable_if(test, field)?)?;
        }
    }
    Ok(())
}

/// Appends the fields that no key names; they may also be null where the test holds.
pub fn push_others(
    alloc: Global,
    made: &mut Vec<Field>,
    key: &[(Name, bool)],
    test: bool,
    fields: &[Field],
) -> Result<(), NoMemory>
    requires { length fields.now < 2 ^ 32 }
    ensures { OnOk result (made.new.items ≡ made.old.items ++ map (nullable_if test) (other_fields key.now fields.now)) }
{
    let columns = columns_of(alloc, key, fields)?;
    push_rest(made, columns.as_slice(), test, fields)
}
