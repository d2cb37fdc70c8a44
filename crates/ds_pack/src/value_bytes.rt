//! The value that stands in front of some bytes. Its first byte names its variant.

ghost use Rattle.std.specs.Prelude.{◌∷◌, IfOk};
ghost use Rattle.ds_pack.specs.Packed.{FirstValue};

use byteorder::{BigEndian, ByteOrder};
use ds_value::{Bytes, NoMemory, Value};
use std::alloc::Global;

fn int_in(content: &[u8]) -> Option<(Value, usize)>
    ensures { FirstValue (1 ∷ content.now) result }
{
    if content.len() < 8 {
        return None;
    }
    Some((Value::Int(BigEndian::read_i64(content)), 9))
}

fn uint_in(content: &[u8]) -> Option<(Value, usize)>
    ensures { FirstValue (2 ∷ content.now) result }
{
    if content.len() < 8 {
        return None;
    }
    Some((Value::UInt(BigEndian::read_u64(content)), 9))
}

fn dec_in(content: &[u8]) -> Option<(Value, usize)>
    ensures { FirstValue (3 ∷ content.now) result }
{
    if content.len() < 16 {
        return None;
    }
    Some((Value::Dec(BigEndian::read_i128(content)), 17))
}

fn text_in(alloc: Global, content: &[u8]) -> Result<Option<(Value, usize)>, NoMemory>
    ensures { IfOk result (FirstValue (4 ∷ content.now)) }
{
    if content.len() < 4 {
        return Ok(None);
    }
    let count = BigEndian::read_u32(content) as usize;
    let text = &content[4..];
    if text.len() < count {
        return Ok(None);
    }
    let text = Bytes::from_vec(text[..count].to_vec(alloc)?);
    Ok(Some((Value::Text(text), 5 + count)))
}

fn date_in(content: &[u8]) -> Option<(Value, usize)>
    ensures { FirstValue (5 ∷ content.now) result }
{
    if content.len() < 4 {
        return None;
    }
    Some((Value::Date(BigEndian::read_i32(content)), 5))
}

/// The first value, and how many bytes it takes.
pub(crate) fn first_value(alloc: Global, bytes: &[u8]) -> Result<Option<(Value, usize)>, NoMemory>
    ensures { IfOk result (FirstValue bytes.now) }
{
    let Some((variant, content)) = bytes.split_first() else {
        return Ok(None);
    };
    match *variant {
        0 => Ok(Some((Value::Null, 1))),
        1 => Ok(int_in(content)),
        2 => Ok(uint_in(content)),
        3 => Ok(dec_in(content)),
        4 => text_in(alloc, content),
        5 => Ok(date_in(content)),
        _ => Ok(None),
    }
}
