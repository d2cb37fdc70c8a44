ghost use Rattle.std.specs.Prelude.{◌≡◌, ◌&&◌, IfOk, Err};
ghost use Rattle.ds_value.specs.Kinds.{IsKind};
ghost use Rattle.ds_text.specs.Records.{NullOr};
ghost use Rattle.ds_text.specs.Reading.{MeansNone};

use crate::fault::RecordFault;
use ds_value::{Kind, TextFault, Value, read_text};
use std::alloc::Global;

/// Null where that is said, else the value that the bytes spell.
pub fn null_or(alloc: Global, null: bool, kind: &Kind, bytes: &[u8]) -> Result<Value, RecordFault>
    requires { IsKind kind.now }
    ensures found { IfOk result (λ value. NullOr null kind.now bytes.now value) }
    ensures bad { result ≡ Err RecordFault.Bad → MeansNone null kind.now bytes.now }
{
    if null {
        return Ok(Value::Null);
    }
    match read_text(alloc, kind, bytes) {
        Ok(value) => Ok(value),
        Err(TextFault::Bad) => Err(RecordFault::Bad),
        Err(TextFault::Memory) => Err(RecordFault::Memory),
    }
}
