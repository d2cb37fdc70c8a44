ghost use Rattle.std.specs.Prelude.{◌≡◌, ◌≤◌, ◌++◌, true, Err, IfOk, OnOk, OnErr, length, if◌then◌else◌};
ghost use Rattle.ds_value.specs.declared.value.Value.{Value as Cell};
ghost use Rattle.ds_value.specs.Kinds.{IsKind, fits_kind};
ghost use Rattle.ds_value.specs.Spellings.{Spells, written, filled};

use crate::date::{date_text, read_date};
use crate::decimal::read_decimal;
use crate::numeral::{read_int, read_uint};
use crate::{Bytes, Kind, NoMemory, Value};
use std::alloc::Global;
use thiserror::Error;

/// Why a text gives no value.
#[derive(Clone, Copy, Debug, PartialEq, Eq, Error)]
pub enum TextFault {
    #[error("the text spells no value of the kind")]
    Bad,
    #[error("want of memory")]
    Memory,
}

impl From<NoMemory> for TextFault {
    ghost use Rattle.ds_value.specs.declared.text.TextFault.TheVariants as fault;

    ghost from_gives = { λ _ made. made ≡ fault.Memory };

    fn from(_: NoMemory) -> Self {
        TextFault::Memory
    }
}

/// The bytes, filled with spaces to so many.
fn fill(alloc: Global, max: usize, bytes: &[u8]) -> Result<Bytes, NoMemory>
    requires { length bytes.now ≤ max }
    ensures { IfOk result (λ text. text ≡ filled max bytes.now) }
{
    let mut text = Vec::with_capacity(alloc, max)?;
    text.extend_from_slice(bytes)?;
    text.resize(max, b' ')?;
    Ok(Bytes::from_vec(text))
}

fn read_bytes(alloc: Global, max: usize, fixed: bool, bytes: &[u8]) -> Result<Bytes, NoMemory>
    requires { length bytes.now ≤ max }
    ensures { IfOk result (λ text. text ≡ (if fixed then filled max bytes.now else bytes.now)) }
{
    if fixed {
        return fill(alloc, max, bytes);
    }
    Ok(Bytes::from_vec(bytes.to_vec(alloc)?))
}

/// The value of the kind that the bytes spell.
pub fn read_text(alloc: Global, kind: &Kind, bytes: &[u8]) -> Result<Value, TextFault>
    requires { IsKind kind.now }
    ensures found { IfOk result (λ value. Spells kind.now bytes.now value) }
    ensures bad { result ≡ Err TextFault.Bad → (value : Cell) → Spells kind.now bytes.now value → ⊥ }
{
    match kind {
        Kind::Int(bits) => match read_int(*bits, bytes) {
            Some(int) => Ok(Value::Int(int)),
            None => Err(TextFault::Bad),
        },
        Kind::UInt(bits) => match read_uint(*bits, bytes) {
            Some(uint) => Ok(Value::UInt(uint)),
            None => Err(TextFault::Bad),
        },
        Kind::Dec { p, s } => match read_decimal(*p, *s, bytes) {
            Some(units) => Ok(Value::Dec(units)),
            None => Err(TextFault::Bad),
        },
        Kind::Text { max, fixed } => {
            let max = *max as usize;
            if bytes.len() > max {
                return Err(TextFault::Bad);
            }
            Ok(Value::Text(read_bytes(alloc, max, *fixed, bytes)?))
        }
        Kind::Date => match read_date(bytes) {
            Some(day) => Ok(Value::Date(day)),
            None => Err(TextFault::Bad),
        },
    }
}
