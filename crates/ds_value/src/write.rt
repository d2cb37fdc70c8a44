ghost use Rattle.std.specs.Prelude.{◌≡◌, ◌≤◌, ◌<◌, ◌++◌, true, OnOk, OnErr, length, take, decimal, unsigned_abs, replicate, ◌-◌, ◌+◌};
ghost use Rattle.ds_value.specs.Kinds.{IsKind, fits_kind};
ghost use Rattle.ds_value.specs.Spellings.{written, pointed, scaled_digits, minus_text};

use crate::date::date_text;
use crate::{Bytes, Kind, NoMemory, Value};
use itoa::Buffer;
use std::alloc::Global;

const ZEROS: [u8; 38] = [b'0'; 38];

/// The digits with a point before the last s of them, and zeros in front where there are too few.
fn push_pointed(s: usize, digits: &[u8], into: &mut Bytes) -> Result<(), NoMemory>
    requires scale { s ≤ 38 }
    requires some { 1 ≤ length digits.now }
    ensures ok { OnOk result (into.new ≡ into.old ++ pointed s (replicate (s + 1 - length digits.now) 48 ++ digits.now)) }
    ensures err { OnErr result (take (length into.old) into.new ≡ into.old) }
{
    if digits.len() <= s {
        into.append(b"0.")?;
        into.append(&ZEROS[..s - digits.len()])?;
        return into.append(digits);
    }
    let at = digits.len() - s;
    into.append(&digits[..at])?;
    if s > 0 {
        into.push(b'.')?;
        into.append(&digits[at..])?;
    }
    Ok(())
}

fn push_decimal(s: usize, units: i128, into: &mut Bytes) -> Result<(), NoMemory>
    requires scale { s ≤ 38 }
    ensures ok { OnOk result (into.new ≡ into.old ++ (minus_text units ++ pointed s (scaled_digits s (unsigned_abs units)))) }
    ensures err { OnErr result (take (length into.old) into.new ≡ into.old) }
{
    if units < 0 {
        into.push(b'-')?;
    }
    let mut buffer = Buffer::new();
    push_pointed(s, buffer.format(units.unsigned_abs()).as_bytes(), into)
}

fn write_decimal(s: u8, units: i128, into: &mut Bytes) -> Result<(), NoMemory>
    requires scale { s ≤ 38 }
    ensures ok { OnOk result (into.new ≡ into.old ++ (minus_text units ++ pointed s (scaled_digits s (unsigned_abs units)))) }
    ensures err { OnErr result (into.new ≡ into.old) }
{
    let before = into.as_slice().len();
    let done = push_decimal(usize::from(s), units, into);
    if done.is_err() {
        into.truncate(before);
    }
    done
}

/// Appends the text that is written for a value of the kind.
pub fn write_text(
    _alloc: Global,
    kind: &Kind,
    value: &Value,
    into: &mut Bytes,
) -> Result<(), NoMemory>
    requires kind { IsKind kind.now }
    requires fits { fits_kind kind.now value.now ≡ true }
    ensures ok { OnOk result (into.new ≡ into.old ++ written kind.now value.now) }
    ensures err { OnErr result (into.new ≡ into.old) }
{
    match (kind, value) {
        (Kind::Int(_), Value::Int(int)) => into.append(Buffer::new().format(*int).as_bytes()),
        (Kind::UInt(_), Value::UInt(uint)) => into.append(Buffer::new().format(*uint).as_bytes()),
        (Kind::Dec { s, .. }, Value::Dec(units)) => write_decimal(*s, *units, into),
        (Kind::Text { .. }, Value::Text(text)) => into.append(text.as_slice()),
        (Kind::Date, Value::Date(day)) => into.append(&date_text(*day)),
        _ => unreachable!(),
    }
}
