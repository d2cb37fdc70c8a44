ghost use Rattle.std.specs.Prelude.{◌≡◌, ◌≤◌, ◌<◌, ◌+◌, ◌==◌, ◌∷◌, ℕ, List, [], true, false, length, drop, IfOk, Ok, Err, Some};
ghost use Rattle.std.specs.List.{AllByRecursion};
ghost use Rattle.ds_schema.specs.Schemas.{IsField};
ghost use Rattle.ds_value.specs.declared.value.Value.{Value as Datum};
ghost use Rattle.ds_text.specs.Records.{SpellsFields};

use crate::cell::field_value;
use crate::fault::RecordFault;
use ds_schema::Field;
use ds_value::Value;
use std::alloc::Global;

/// What stands behind a field and its delimiter.
fn behind(line: &[u8], len: usize) -> &[u8]
    ensures { result.now ≡ drop (len + 1) line.now }
{
    if len < line.len() {
        &line[len + 1..]
    } else {
        &[]
    }
}

/// The values of a delimited line.
pub fn read_fields(
    alloc: Global,
    fields: &[Field],
    delimiter: u8,
    line: &[u8],
) -> Result<Vec<Value>, RecordFault>
    requires delimiter { (delimiter == 34) ≡ false }
    requires fields { AllByRecursion IsField fields.now }
    ensures found { IfOk result (λ row. SpellsFields delimiter fields.now (Some line.now) row.items) }
    ensures bad { result ≡ Err RecordFault.Bad
        → (row : List Datum) → SpellsFields delimiter fields.now (Some line.now) row → ⊥ }
{
    let mut row = match Vec::with_capacity(alloc, fields.len()) {
        Ok(row) => row,
        Err(_) => return Err(RecordFault::Memory),
    };
    let mut rest = line;
    let mut more = true;
    for field in fields {
        if !more {
            return Err(RecordFault::Bad);
        }
        let (value, len) = match field_value(alloc, field, delimiter, rest) {
            Ok(found) => found,
            Err(fault) => return Err(fault),
        };
        match row.push(value) {
            Ok(()) => {}
            Err(_) => return Err(RecordFault::Memory),
        }
        more = len < rest.len();
        rest = behind(rest, len);
    }
    if more {
        return Err(RecordFault::Bad);
    }
    Ok(row)
}
