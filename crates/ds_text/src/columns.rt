ghost use Rattle.std.specs.Prelude.{◌≡◌, ◌≤◌, ◌<◌, ◌==◌, ◌&&◌, ◌-◌, ℕ, List, [], true, length, take, drop, IfOk, Err, slice_index};
ghost use Rattle.std.specs.List.{AllByRecursion, prefix_len};
ghost use Rattle.ds_value.specs.Kinds.{IsKind};
ghost use Rattle.ds_schema.specs.Schemas.{IsField};
ghost use Rattle.ds_value.specs.declared.value.Value.{Value as Datum};
ghost use Rattle.ds_text.specs.Columns.{is_space, is_blank, is_text, trimmed, without_left_spaces, without_right_spaces};
ghost use Rattle.ds_text.specs.Records.{MeansColumn, SpellsFixed};

use crate::fault::RecordFault;
use crate::meaning::null_or;
use ds_schema::Field;
use ds_value::{Kind, Value};
use std::alloc::Global;

pub fn is_text(kind: &Kind) -> bool
    ensures { result ≡ is_text kind.now }
{
    match kind {
        Kind::Text { .. } => true,
        _ => false,
    }
}

fn is_blank(bytes: &[u8]) -> bool
    ensures { result ≡ is_blank bytes.now }
{
    bytes.iter().all(|b| *b == b' ')
}

/// How many bytes there are without the spaces at the right end.
fn right_end(bytes: &[u8]) -> usize
    ensures within { result ≤ length bytes.now }
    ensures bytes { take result bytes.now ≡ without_right_spaces bytes.now }
{
    let mut end = bytes.len();
    while end > 0 {
        if bytes[end - 1] != b' ' {
            return end;
        }
        end -= 1;
    }
    0
}

fn without_right_spaces(bytes: &[u8]) -> &[u8]
    ensures { result.now ≡ without_right_spaces bytes.now }
{
    &bytes[..right_end(bytes)]
}

fn left_len(bytes: &[u8]) -> usize
    ensures len { result ≡ prefix_len is_space bytes.now }
    ensures within { result ≤ length bytes.now }
{
    bytes.iter().take_while(|b| **b == b' ').count()
}

fn without_left_spaces(bytes: &[u8]) -> &[u8]
    ensures { result.now ≡ without_left_spaces bytes.now }
{
    &bytes[left_len(bytes)..]
}

/// What is read of a column.
fn trimmed<'a>(kind: &Kind, column: &'a [u8]) -> &'a [u8]
    ensures { result.now ≡ trimmed kind.now column.now }
{
    let begun = without_right_spaces(column);
    if is_text(kind) {
        return begun;
    }
    without_left_spaces(begun)
}

fn column_value(alloc: Global, field: &Field, column: &[u8]) -> Result<Value, RecordFault>
    requires { IsKind field.now.kind }
    ensures found { IfOk result (λ value. MeansColumn field.now column.now value) }
    ensures bad { result ≡ Err RecordFault.Bad → (value : Datum) → MeansColumn field.now column.now value → ⊥ }
{
    let null = field.nullable && is_blank(column);
    null_or(alloc, null, &field.kind, trimmed(&field.kind, column))
}

/// The front of a line, and what stands behind it.
fn cut(line: &[u8], width: usize) -> (&[u8], &[u8])
    ensures front { result.0.now ≡ take width line.now }
    ensures back { result.1.now ≡ drop width line.now }
{
    line.split_at(width.min(line.len()))
}

/// The values of a line of columns.
pub fn read_columns(
    alloc: Global,
    fields: &[Field],
    widths: &[u32],
    line: &[u8],
) -> Result<Vec<Value>, RecordFault>
    requires widths { length widths.now ≡ length fields.now }
    requires fields { AllByRecursion IsField fields.now }
    ensures found { IfOk result (λ row. SpellsFixed fields.now widths.now line.now row.items) }
    ensures bad { result ≡ Err RecordFault.Bad
        → (row : List Datum) → SpellsFixed fields.now widths.now line.now row → ⊥ }
{
    let mut row = match Vec::with_capacity(alloc, fields.len()) {
        Ok(row) => row,
        Err(_) => return Err(RecordFault::Memory),
    };
    let mut rest = line;
    for (i, field) in fields.iter().enumerate() {
        let (column, more) = cut(rest, widths[i] as usize);
        let value = match column_value(alloc, field, column) {
            Ok(value) => value,
            Err(fault) => return Err(fault),
        };
        match row.push(value) {
            Ok(()) => {}
            Err(_) => return Err(RecordFault::Memory),
        }
        rest = more;
    }
    if !rest.is_empty() {
        return Err(RecordFault::Bad);
    }
    Ok(row)
}
