ghost use Rattle.std.specs.Prelude.{◌≡◌, ◌++◌, OnOk, OnErr, length, take};
ghost use Rattle.ds_value.specs.Canonical.{canonical_bytes, IsShort};

use crate::{Bytes, NoMemory, Value};
use std::alloc::Global;

fn push_canonical(value: &Value, into: &mut Bytes) -> Result<(), NoMemory>
    requires { IsShort value.now }
    ensures ok { OnOk result (into.new ≡ into.old ++ canonical_bytes value.now) }
    ensures err { OnErr result (take (length into.old) into.new ≡ into.old) }
{
    match value {
        Value::Null => into.push(0),
        Value::Int(int) => {
            into.push(1)?;
            into.append(&int.to_be_bytes())
        }
        Value::UInt(uint) => {
            into.push(2)?;
            into.append(&uint.to_be_bytes())
        }
        Value::Dec(units) => {
            into.push(3)?;
            into.append(&units.to_be_bytes())
        }
        Value::Text(text) => {
            into.push(4)?;
            into.append(&(text.as_slice().len() as u32).to_be_bytes())?;
            into.append(text.as_slice())
        }
        Value::Date(day) => {
            into.push(5)?;
            into.append(&day.to_be_bytes())
        }
    }
}

/// Appends the canonical bytes of a value.
pub fn canonical(_alloc: Global, value: &Value, into: &mut Bytes) -> Result<(), NoMemory>
    requires { IsShort value.now }
    ensures ok { OnOk result (into.new ≡ into.old ++ canonical_bytes value.now) }
    ensures err { OnErr result (into.new ≡ into.old) }
{
    let before = into.as_slice().len();
    let done = push_canonical(value, into);
    if done.is_err() {
        into.truncate(before);
    }
    done
}
