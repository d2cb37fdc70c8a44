ghost use Rattle.std.specs.Prelude.{◌≡◌, ◌++◌, All, OnOk, OnErr, length, take};
ghost use Rattle.std.specs.List.{AllByRecursion};
ghost use Rattle.ds_value.specs.Canonical.{IsHeld, IsShort};
ghost use Rattle.ds_pack.specs.Packed.{packed};

use ds_schema::Row;
use ds_value::{Bytes, NoMemory, Value, canonical};
use std::alloc::Global;

/// The number that a value holds lies in the range of its variant. It is read for the
/// contract's sake, which knows the ranges of numbers that are read.
fn check_held(value: &Value)
    ensures { IsHeld value.now }
{
    match value {
        Value::Null | Value::Text(_) => {}
        Value::Int(n) => {
            let _n = *n;
        }
        Value::UInt(n) => {
            let _n = *n;
        }
        Value::Dec(n) => {
            let _n = *n;
        }
        Value::Date(n) => {
            let _n = *n;
        }
    }
}

fn push_values(alloc: Global, row: &Row, into: &mut Bytes) -> Result<(), NoMemory>
    requires { All IsShort row.now }
    ensures ok { OnOk result (into.new ≡ into.old ++ packed row.now) }
    ensures held { OnOk result (AllByRecursion IsHeld row.now) }
    ensures err { OnErr result (take (length into.old) into.new ≡ into.old) }
{
    for value in row.as_slice() {
        check_held(value);
        canonical(alloc, value, into)?;
    }
    Ok(())
}

/// Appends the packed row. Each text has fewer than 2^32 bytes; after an error nothing is appended.
pub fn pack_row(alloc: Global, row: &Row, into: &mut Bytes) -> Result<(), NoMemory>
    requires { All IsShort row.now }
    ensures ok { OnOk result (into.new ≡ into.old ++ packed row.now) }
    ensures held { OnOk result (AllByRecursion IsHeld row.now) }
    ensures err { OnErr result (into.new ≡ into.old) }
{
    let before = into.as_slice().len();
    let done = push_values(alloc, row, into);
    if done.is_err() {
        into.truncate(before);
    }
    done
}
