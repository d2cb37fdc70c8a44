ghost use Rattle.std.specs.Prelude.{◌≡◌, ◌≤◌, ◌<◌, ◌+◌, ◌-◌, ◌++◌, ◌∷◌, ◌==◌, ◌||◌, ◌&&◌, not, if◌then◌else◌, ℕ, [], true, false, length, take, drop, IfOk, IfSome, IfNone, OnOk, OnErr, Ok, Err, Some, None};
ghost use Rattle.ds_value.specs.Kinds.{IsKind};
ghost use Rattle.ds_text.specs.Cells.{BeginsPlain};
ghost use Rattle.ds_text.specs.Records.{Means, is_empty, is_null_cell};
ghost use Rattle.ds_text.specs.Reading.{unquoted, begins_quoted, HasPiece, plain_len, ends_field, FieldAt, NoField, MeansNone};

use crate::fault::RecordFault;
use crate::meaning::null_or;
use ds_schema::Field;
use ds_value::{Bytes, NoMemory, Value};
use memchr::memchr;
use std::alloc::Global;

/// How many bytes stand before the delimiter.
fn plain_len(delimiter: u8, bytes: &[u8]) -> usize
    ensures len { result ≡ plain_len delimiter bytes.now }
    ensures within { result ≤ length bytes.now }
{
    match memchr(delimiter, bytes) {
        Some(at) => at,
        None => bytes.len(),
    }
}

/// Where the next quote stands.
fn quote_at(bytes: &[u8]) -> Option<usize>
    ensures piece { IfSome result (λ n. HasPiece bytes.now n) }
    ensures none { IfNone result (unquoted false bytes.now ≡ None) }
{
    memchr(b'"', bytes)
}

fn begins_quoted(bytes: &[u8]) -> bool
    ensures { result ≡ begins_quoted bytes.now }
{
    match bytes {
        [] => false,
        [b, ..] => *b == b'"',
    }
}

/// The content of a quoted field, and how many bytes it takes with its closing quote.
fn unquote(bytes: &[u8], into: &mut Bytes) -> Result<Option<usize>, NoMemory>
    requires { into.old ≡ [] }
    ensures some { (n : ℕ) → result ≡ Ok (Some n)
        → unquoted false bytes.now ≡ Some (record { bytes = into.new; rest = drop n bytes.now }) }
    ensures within { IfOk result (λ r. IfSome r (λ n. n ≤ length bytes.now)) }
    ensures none { result ≡ Ok None → unquoted false bytes.now ≡ None }
{
    let mut at = 0;
    while let Some(len) = quote_at(&bytes[at..]) {
        into.append(&bytes[at..at + len])?;
        at += len + 1;
        if !begins_quoted(&bytes[at..]) {
            return Ok(Some(at));
        }
        into.push(b'"')?;
        at += 1;
    }
    Ok(None)
}

/// Whether a field may end before these bytes.
fn ends_field(delimiter: u8, rest: &[u8]) -> bool
    ensures { result ≡ ends_field delimiter rest.now }
{
    match rest {
        [] => true,
        [b, ..] => *b == delimiter,
    }
}

pub fn is_empty(bytes: &[u8]) -> bool
    ensures { result ≡ is_empty bytes.now }
{
    match bytes {
        [] => true,
        _ => false,
    }
}

fn is_null_cell(field: &Field, quoted: bool, bytes: &[u8]) -> bool
    ensures { result ≡ is_null_cell field.now quoted bytes.now }
{
    field.nullable && !quoted && is_empty(bytes)
}

/// The value that a field of a line means.
fn meaning(alloc: Global, field: &Field, quoted: bool, bytes: &[u8]) -> Result<Value, RecordFault>
    requires { IsKind field.now.kind }
    ensures found { IfOk result (λ value. Means field.now quoted bytes.now value) }
    ensures bad { result ≡ Err RecordFault.Bad
        → MeansNone (is_null_cell field.now quoted bytes.now) field.now.kind bytes.now }
{
    null_or(
        alloc,
        is_null_cell(field, quoted, bytes),
        &field.kind,
        bytes,
    )
}

/// The value of the quoted field at the front of a line, behind its first quote, and how many
/// bytes it takes from there.
fn quoted_value(
    alloc: Global,
    field: &Field,
    delimiter: u8,
    inside: &[u8],
) -> Result<(Value, usize), RecordFault>
    requires { IsKind field.now.kind }
    ensures found { IfOk result (λ x. FieldAt delimiter field.now (34 ∷ inside.now) x.0 (x.1 + 1)) }
    ensures within { IfOk result (λ x. x.1 ≤ length inside.now) }
    ensures bad { result ≡ Err RecordFault.Bad → NoField delimiter field.now (34 ∷ inside.now) }
{
    let mut text = Bytes::new(alloc);
    let len = match unquote(inside, &mut text) {
        Ok(Some(len)) => len,
        Ok(None) => return Err(RecordFault::Bad),
        Err(_) => return Err(RecordFault::Memory),
    };
    if !ends_field(delimiter, &inside[len..]) {
        return Err(RecordFault::Bad);
    }
    match meaning(alloc, field, true, text.as_slice()) {
        Ok(value) => Ok((value, len)),
        Err(fault) => Err(fault),
    }
}

fn plain_value(
    alloc: Global,
    field: &Field,
    delimiter: u8,
    line: &[u8],
) -> Result<(Value, usize), RecordFault>
    requires kind { IsKind field.now.kind }
    requires plain { BeginsPlain line.now }
    ensures found { IfOk result (λ x. FieldAt delimiter field.now line.now x.0 x.1) }
    ensures bad { result ≡ Err RecordFault.Bad → NoField delimiter field.now line.now }
{
    let len = plain_len(delimiter, line);
    match meaning(alloc, field, false, &line[..len]) {
        Ok(value) => Ok((value, len)),
        Err(fault) => Err(fault),
    }
}

/// The value of the field at the front of a line, and how many bytes it takes.
pub fn field_value(
    alloc: Global,
    field: &Field,
    delimiter: u8,
    line: &[u8],
) -> Result<(Value, usize), RecordFault>
    requires { IsKind field.now.kind }
    ensures found { IfOk result (λ x. FieldAt delimiter field.now line.now x.0 x.1) }
    ensures bad { result ≡ Err RecordFault.Bad → NoField delimiter field.now line.now }
{
    match line {
        [b'"', inside @ ..] => match quoted_value(alloc, field, delimiter, inside) {
            Ok((value, len)) => Ok((value, len + 1)),
            Err(fault) => Err(fault),
        },
        _ => plain_value(alloc, field, delimiter, line),
    }
}
