ghost use Rattle.std.specs.Prelude.{◌≡◌, ◌<◌, ◌≤◌, ◌^◌, length, position, true, IfOk, IfSome};
ghost use Rattle.std.specs.List.{position_or_len};
ghost use Rattle.std.specs.Str.{bytes_eq};
ghost use Rattle.ds_schema.specs.Rows.{KeysDiffer};
ghost use Rattle.shape_base.specs.Naming.{is_named, has_column, has_columns, has_keys, column, columns, key_columns, NamesDiffer};

use ds_schema::{Field, Key, KeyList};
use ds_value::{Items, Name, NoMemory};
use std::alloc::Global;

pub fn is_named(name: &Name, field: &Field) -> bool
    ensures { result ≡ is_named name.now field.now }
{
    field.name.as_slice() == name.as_slice()
}

pub fn has_column(fields: &[Field], name: &Name) -> bool
    ensures { result ≡ has_column fields.now name.now }
{
    fields.iter().any(|field| is_named(name, field))
}

pub fn has_columns(fields: &[Field], names: &[Name]) -> bool
    ensures { result ≡ has_columns fields.now names.now }
{
    names.iter().all(|name| has_column(fields, name))
}

pub fn has_keys(fields: &[Field], keys: &[(Name, bool)]) -> bool
    ensures { result ≡ has_keys fields.now keys.now }
{
    keys.iter().all(|key| has_column(fields, &key.0))
}

/// The first field of that name.
pub fn place_of(fields: &[Field], name: &Name) -> Option<usize>
    ensures place { result ≡ position (is_named name.now) fields.now }
    ensures within { IfSome result (λ k. k < length fields.now) }
{
    fields.iter().position(|field| is_named(name, field))
}

/// The column of that name; the number of columns where none has it.
pub fn column(fields: &[Field], name: &Name) -> u32
    requires { length fields.now < 2 ^ 32 }
    ensures { result ≡ column fields.now name.now }
{
    match place_of(fields, name) {
        Some(at) => at as u32,
        None => fields.len() as u32,
    }
}

pub fn columns(alloc: Global, fields: &[Field], names: &[Name]) -> Result<Items<u32>, NoMemory>
    requires { length fields.now < 2 ^ 32 }
    ensures { IfOk result (λ cols. cols ≡ columns fields.now names.now) }
{
    let mut cols = Items::new(alloc);
    for name in names {
        cols.push(column(fields, name))?;
    }
    Ok(cols)
}

/// A key list of the columns that the keys name.
pub fn key_list(alloc: Global, fields: &[Field], keys: &[(Name, bool)]) -> Result<KeyList, NoMemory>
    requires few { length fields.now < 2 ^ 32 }
    requires named { has_keys fields.now keys.now ≡ true }
    requires differ { NamesDiffer keys.now }
    ensures { IfOk result (λ list. list ≡ key_columns fields.now keys.now) }
{
    let mut list = Vec::new(alloc);
    for (name, desc) in keys {
        list.push(Key {
            col: column(fields, name),
            desc: *desc,
        })?;
    }
    Ok(KeyList::from_vec(list))
}
