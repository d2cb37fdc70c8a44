ghost use Rattle.std.specs.Prelude.{◌≡◌, ◌≤◌, ◌==◌, ◌++◌, ◌∷◌, ◌||◌, ◌&&◌, [], true, false, length, take, drop, OnOk, if◌then◌else◌};
ghost use Rattle.std.specs.List.{AllByRecursion, list_any};
ghost use Rattle.ds_value.specs.Kinds.{IsKind};
ghost use Rattle.ds_schema.specs.Schemas.{IsField, fits_field, row_fits};
ghost use Rattle.ds_text.specs.Cells.{doubled, text_of};
ghost use Rattle.ds_text.specs.Records.{is_null, is_empty, has_byte, needs_quotes, written_field, written_fields};

use crate::cell::is_empty;
use ds_schema::Field;
use ds_value::{Bytes, NoMemory, Value, write_text};
use memchr::{memchr, memchr3};
use std::alloc::Global;

pub fn is_null(value: &Value) -> bool
    ensures { result ≡ is_null value.now }
{
    match value {
        Value::Null => true,
        _ => false,
    }
}

pub fn has_byte(byte: u8, bytes: &[u8]) -> bool
    ensures { result ≡ has_byte byte bytes.now }
{
    memchr(byte, bytes).is_some()
}

fn has_mark(delimiter: u8, bytes: &[u8]) -> bool
    ensures { result ≡ list_any (λ b. b == delimiter || b == 34 || b == 13) bytes.now }
{
    memchr3(delimiter, b'"', b'\r', bytes).is_some()
}

fn is_bare(nullable: bool, bytes: &[u8]) -> bool
    ensures { result ≡ (nullable && is_empty bytes.now) }
{
    nullable && is_empty(bytes)
}

fn needs_quotes(delimiter: u8, nullable: bool, bytes: &[u8]) -> bool
    ensures { result ≡ needs_quotes delimiter nullable bytes.now }
{
    has_mark(delimiter, bytes) || is_bare(nullable, bytes)
}

/// Appends the bytes with each quote twice.
fn write_doubled(bytes: &[u8], into: &mut Bytes) -> Result<(), NoMemory>
    ensures { OnOk result (into.new ≡ into.old ++ doubled bytes.now) }
{
    for b in bytes {
        if *b == b'"' {
            into.push(b'"')?;
        }
        into.push(*b)?;
    }
    Ok(())
}

fn write_quoted(bytes: &[u8], into: &mut Bytes) -> Result<(), NoMemory>
    ensures { OnOk result (into.new ≡ into.old ++ text_of true bytes.now) }
{
    into.push(b'"')?;
    write_doubled(bytes, into)?;
    into.push(b'"')
}

/// Puts what stands from a place on between quotes.
fn quote_from(alloc: Global, at: usize, into: &mut Bytes) -> Result<(), NoMemory>
    requires { at ≤ length into.old }
    ensures { OnOk result (into.new ≡ take at into.old ++ text_of true (drop at into.old)) }
{
    let text = into.as_slice()[at..].to_vec(alloc)?;
    into.truncate(at);
    write_quoted(&text, into)
}

fn write_field(
    alloc: Global,
    delimiter: u8,
    field: &Field,
    value: &Value,
    into: &mut Bytes,
) -> Result<(), NoMemory>
    requires kind { IsKind field.now.kind }
    requires fits { fits_field field.now value.now ≡ true }
    ensures { OnOk result (into.new ≡ into.old ++ written_field delimiter field.now value.now) }
{
    if is_null(value) {
        return Ok(());
    }
    let at = into.as_slice().len();
    write_text(alloc, &field.kind, value, into)?;
    if needs_quotes(delimiter, field.nullable, &into.as_slice()[at..]) {
        return quote_from(alloc, at, into);
    }
    Ok(())
}

/// Appends the delimiter, but not before the first field.
fn separate(i: usize, delimiter: u8, into: &mut Bytes) -> Result<(), NoMemory>
    ensures { OnOk result (into.new ≡ into.old ++ (if i == 0 then [] else delimiter ∷ [])) }
{
    if i == 0 {
        return Ok(());
    }
    into.push(delimiter)
}

pub fn write_fields(
    alloc: Global,
    delimiter: u8,
    fields: &[Field],
    row: &[Value],
    into: &mut Bytes,
) -> Result<(), NoMemory>
    requires fields { AllByRecursion IsField fields.now }
    requires fits { row_fits fields.now row.now ≡ true }
    ensures { OnOk result (into.new ≡ into.old ++ written_fields delimiter fields.now row.now) }
{
    for (i, field) in fields.iter().enumerate() {
        separate(i, delimiter, into)?;
        write_field(alloc, delimiter, field, &row[i], into)?;
    }
    Ok(())
}
