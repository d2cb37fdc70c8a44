ghost use Rattle.std.specs.Prelude.{◌≡◌, ◌≤◌, ◌<◌, ◌==◌, ◌++◌, ◌-◌, true, false, length, replicate, nat_lt, OnOk, OnErr, Ok, Err, if◌then◌else◌};
ghost use Rattle.std.specs.List.{AllByRecursion};
ghost use Rattle.ds_value.specs.Kinds.{IsKind};
ghost use Rattle.ds_schema.specs.Schemas.{IsField, fits_field, row_fits};
ghost use Rattle.ds_text.specs.Columns.{is_text};
ghost use Rattle.ds_text.specs.Records.{is_null, is_wide, any_wide, padded, written_column, written_columns};

use crate::columns::is_text;
use crate::fault::RecordFault;
use crate::write_fields::is_null;
use ds_schema::Field;
use ds_value::{Bytes, NoMemory, Value, write_text};
use std::alloc::Global;

fn write_spaces(count: usize, into: &mut Bytes) -> Result<(), NoMemory>
    ensures { OnOk result (into.new ≡ into.old ++ replicate count 32) }
{
    for _given in 0..count {
        into.push(b' ')?;
    }
    Ok(())
}

/// Appends a text and the spaces beside it: behind it where `left` says that it stands to the left.
fn write_padded(left: bool, text: &[u8], width: usize, into: &mut Bytes) -> Result<(), NoMemory>
    ensures { OnOk result (into.new ≡ into.old ++ padded left width text.now) }
{
    let free = width.saturating_sub(text.len());
    if left {
        into.append(text)?;
        return write_spaces(free, into);
    }
    write_spaces(free, into)?;
    into.append(text)
}

fn write_column(
    alloc: Global,
    field: &Field,
    width: usize,
    value: &Value,
    into: &mut Bytes,
) -> Result<(), RecordFault>
    requires kind { IsKind field.now.kind }
    requires fits { fits_field field.now value.now ≡ true }
    ensures ok { OnOk result (into.new ≡ into.old ++ written_column field.now width value.now) }
    ensures narrow { OnOk result (is_wide field.now width value.now ≡ false) }
    ensures bad { result ≡ Err RecordFault.Bad → is_wide field.now width value.now ≡ true }
{
    if is_null(value) {
        return match write_spaces(width, into) {
            Ok(()) => Ok(()),
            Err(_) => Err(RecordFault::Memory),
        };
    }
    let mut text = Bytes::new(alloc);
    match write_text(alloc, &field.kind, value, &mut text) {
        Ok(()) => {}
        Err(_) => return Err(RecordFault::Memory),
    }
    if text.as_slice().len() > width {
        return Err(RecordFault::Bad);
    }
    match write_padded(is_text(&field.kind), text.as_slice(), width, into) {
        Ok(()) => Ok(()),
        Err(_) => Err(RecordFault::Memory),
    }
}

pub fn write_columns(
    alloc: Global,
    fields: &[Field],
    widths: &[u32],
    row: &[Value],
    into: &mut Bytes,
) -> Result<(), RecordFault>
    requires widths { length widths.now ≡ length fields.now }
    requires fields { AllByRecursion IsField fields.now }
    requires fits { row_fits fields.now row.now ≡ true }
    ensures ok { OnOk result (into.new ≡ into.old ++ written_columns fields.now widths.now row.now) }
    ensures narrow { OnOk result (any_wide fields.now widths.now row.now ≡ false) }
    ensures bad { result ≡ Err RecordFault.Bad → any_wide fields.now widths.now row.now ≡ true }
{
    for (i, field) in fields.iter().enumerate() {
        match write_column(alloc, field, widths[i] as usize, &row[i], into) {
            Ok(()) => {}
            Err(fault) => return Err(fault),
        }
    }
    Ok(())
}
