ghost use Rattle.std.specs.Prelude.{◌≡◌, ◌≤◌, ◌^◌, nat_lt};
ghost use Rattle.ds_value.specs.Kinds.{fits_kind, IsKind, IsBits, is_between, least_int, greatest_int};

use crate::Value;

/// The kind of a column. Whole kinds have their number of bits, 8, 16, 32 or 64;
/// a decimal has `p` digits, `s` of them behind the point; a text has its greatest
/// number of bytes, and with `fixed` exactly these.
#[derive(Clone, Copy, Debug, PartialEq, Eq)]
pub enum Kind {
    Int(u8),
    UInt(u8),
    Dec { p: u8, s: u8 },
    Text { max: u32, fixed: bool },
    Date,
}

pub fn fits_int(bits: u8, n: i64) -> bool
    requires { IsBits bits }
    ensures { result ≡ is_between (least_int bits) (greatest_int bits) n }
{
    match bits {
        8 => i64::from(i8::MIN) <= n && n <= i64::from(i8::MAX),
        16 => i64::from(i16::MIN) <= n && n <= i64::from(i16::MAX),
        32 => i64::from(i32::MIN) <= n && n <= i64::from(i32::MAX),
        _ => true,
    }
}

pub fn fits_uint(bits: u8, n: u64) -> bool
    requires { IsBits bits }
    ensures { result ≡ nat_lt n (2 ^ bits) }
{
    match bits {
        8 => n <= u64::from(u8::MAX),
        16 => n <= u64::from(u16::MAX),
        32 => n <= u64::from(u32::MAX),
        _ => true,
    }
}

pub fn ten_to(digits: u8) -> u128
    requires { digits ≤ 38 }
    ensures { result ≡ 10 ^ digits }
{
    10_u128.pow(u32::from(digits))
}

/// Whether the value isn't null and lies in the kind's range.
pub fn fits(kind: &Kind, value: &Value) -> bool
    requires { IsKind kind.now }
    ensures { result ≡ fits_kind kind.now value.now }
{
    match (kind, value) {
        (Kind::Int(bits), Value::Int(n)) => fits_int(*bits, *n),
        (Kind::UInt(bits), Value::UInt(n)) => fits_uint(*bits, *n),
        (Kind::Dec { p, .. }, Value::Dec(n)) => n.unsigned_abs() < ten_to(*p),
        (Kind::Text { max, fixed }, Value::Text(text)) => {
            let len = text.as_slice().len();
            if *fixed {
                len == *max as usize
            } else {
                len <= *max as usize
            }
        }
        (Kind::Date, Value::Date(day)) => -719162 <= *day && *day <= 2932896,
        _ => false,
    }
}
