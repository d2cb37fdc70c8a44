ghost use Rattle.std.specs.Prelude.{◌≡◌, IfOk};
ghost use Rattle.ds_value.specs.Values.{value_cmp};

use crate::{Bytes, Copied, NoMemory};
use std::alloc::Global;
use std::cmp::Ordering;

/// A value of a column. `Dec` holds units of the column's scale, `Date` days since 1970-01-01.
#[derive(Debug, Drop)]
pub enum Value {
    Null,
    Int(i64),
    UInt(u64),
    Dec(i128),
    Text(Bytes),
    Date(i32),
}

impl Copied for Value {
    fn copied(&self) -> Result<Value, NoMemory> {
        match self {
            Value::Null => Ok(Value::Null),
            Value::Int(n) => Ok(Value::Int(*n)),
            Value::UInt(n) => Ok(Value::UInt(*n)),
            Value::Dec(n) => Ok(Value::Dec(*n)),
            Value::Text(text) => Ok(Value::Text(text.copied()?)),
            Value::Date(day) => Ok(Value::Date(*day)),
        }
    }
}

/// An equal value.
pub fn copy_value(_alloc: Global, value: &Value) -> Result<Value, NoMemory>
    ensures { IfOk result (λ copy. copy ≡ value.now) }
{
    value.copied()
}

/// The order of two values: null first, then by variant, then by content.
pub fn cmp(a: &Value, b: &Value) -> Ordering
    ensures { result ≡ value_cmp a.now b.now }
{
    match (a, b) {
        (Value::Null, Value::Null) => Ordering::Equal,
        (Value::Null, _) => Ordering::Less,
        (_, Value::Null) => Ordering::Greater,
        (Value::Int(x), Value::Int(y)) => x.cmp(y),
        (Value::Int(_), _) => Ordering::Less,
        (_, Value::Int(_)) => Ordering::Greater,
        (Value::UInt(x), Value::UInt(y)) => x.cmp(y),
        (Value::UInt(_), _) => Ordering::Less,
        (_, Value::UInt(_)) => Ordering::Greater,
        (Value::Dec(x), Value::Dec(y)) => x.cmp(y),
        (Value::Dec(_), _) => Ordering::Less,
        (_, Value::Dec(_)) => Ordering::Greater,
        (Value::Text(x), Value::Text(y)) => x.as_slice().cmp(y.as_slice()),
        (Value::Text(_), _) => Ordering::Less,
        (_, Value::Text(_)) => Ordering::Greater,
        (Value::Date(x), Value::Date(y)) => x.cmp(y),
    }
}
