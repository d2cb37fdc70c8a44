//! Names of columns and keys.

ghost use Rattle.std.specs.Prelude.{◌≡◌, ◌++◌, OnOk, codes};
ghost use Rattle.std.specs.List.{flat_map};
ghost use Rattle.flow_score.specs.Texts.{column_name, columns_text, key_text, keys_text, bracketed};

use ds_schema::{Field, Key};
use ds_value::{Bytes, NoMemory};

/// Puts a text behind another.
pub fn put(text: &mut Bytes, more: &str) -> Result<(), NoMemory>
    ensures { OnOk result (text.new ≡ text.old ++ more.now) }
{
    text.append(more.as_bytes())
}

pub fn put_column(text: &mut Bytes, fields: &[Field], column: u32) -> Result<(), NoMemory>
    ensures { OnOk result (text.new ≡ text.old ++ column_name fields.now column) }
{
    match fields.get(column as usize) {
        Some(field) => text.append(field.name.as_slice()),
        None => Ok(()),
    }
}

/// The names of columns, each behind a comma.
fn put_further_columns(text: &mut Bytes, fields: &[Field], columns: &[u32]) -> Result<(), NoMemory>
    ensures { OnOk result (text.new ≡ text.old ++ flat_map (λ c. codes "," ++ column_name fields.now c) columns.now) }
{
    for column in columns {
        put(text, ",")?;
        put_column(text, fields, *column)?;
    }
    Ok(())
}

/// The names of columns, with commas between them.
pub fn put_columns(text: &mut Bytes, fields: &[Field], columns: &[u32]) -> Result<(), NoMemory>
    ensures { OnOk result (text.new ≡ text.old ++ columns_text fields.now columns.now) }
{
    match columns.split_first() {
        None => Ok(()),
        Some((first, further)) => {
            put_column(text, fields, *first)?;
            put_further_columns(text, fields, further)
        }
    }
}

fn put_key(text: &mut Bytes, fields: &[Field], key: &Key) -> Result<(), NoMemory>
    ensures { OnOk result (text.new ≡ text.old ++ key_text fields.now key.now) }
{
    put_column(text, fields, key.col)?;
    if key.desc {
        put(text, " desc")?;
    }
    Ok(())
}

/// The keys, each behind a comma.
fn put_further_keys(text: &mut Bytes, fields: &[Field], keys: &[Key]) -> Result<(), NoMemory>
    ensures { OnOk result (text.new ≡ text.old ++ flat_map (λ k. codes "," ++ key_text fields.now k) keys.now) }
{
    for key in keys {
        put(text, ",")?;
        put_key(text, fields, key)?;
    }
    Ok(())
}

/// The keys, with commas between them.
pub fn put_keys(text: &mut Bytes, fields: &[Field], keys: &[Key]) -> Result<(), NoMemory>
    ensures { OnOk result (text.new ≡ text.old ++ keys_text fields.now keys.now) }
{
    match keys.split_first() {
        None => Ok(()),
        Some((first, further)) => {
            put_key(text, fields, first)?;
            put_further_keys(text, fields, further)
        }
    }
}

/// A word, and the names of columns in brackets.
pub fn put_named_columns(
    text: &mut Bytes,
    word: &str,
    fields: &[Field],
    columns: &[u32],
) -> Result<(), NoMemory>
    ensures { OnOk result (text.new ≡ text.old ++ bracketed word.now (columns_text fields.now columns.now)) }
{
    put(text, word)?;
    put(text, "(")?;
    put_columns(text, fields, columns)?;
    put(text, ")")
}

/// A word, and keys in brackets.
pub fn put_named_keys(
    text: &mut Bytes,
    word: &str,
    fields: &[Field],
    keys: &[Key],
) -> Result<(), NoMemory>
    ensures { OnOk result (text.new ≡ text.old ++ bracketed word.now (keys_text fields.now keys.now)) }
{
    put(text, word)?;
    put(text, "(")?;
    put_keys(text, fields, keys)?;
    put(text, ")")
}
