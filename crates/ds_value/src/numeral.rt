ghost use Rattle.std.specs.Prelude.{◌≡◌, ◌<◌, ◌≤◌, ◌^◌, ℤ, pos, neg_ℤ, cond, true, ℤ, ℕ, MatchOption, nat_lt};
ghost use Rattle.std.specs.Option.{SomeIff};
ghost use Rattle.std.specs.Str.{all_ascii_digits};
ghost use Rattle.std.specs.Str.Parse.{starts_with_minus, without_leading_sign};
ghost use Rattle.ds_value.specs.Kinds.{IsBits, is_between, least_int, greatest_int};
ghost use Rattle.ds_value.specs.Spellings.{number_behind, number_of, IsNumeral, SpellsInt, SpellsUInt};

use crate::kind::{fits_int, fits_uint};

/// 10 ^ 37
const TENTH: u128 = 10_000_000_000_000_000_000_000_000_000_000_000_000;

/// Whether a minus stands in front, and what follows the sign.
pub fn split_sign(bytes: &[u8]) -> (bool, &[u8])
    ensures minus { result.0 ≡ starts_with_minus bytes.now }
    ensures rest { result.1.now ≡ without_leading_sign bytes.now }
{
    match bytes {
        [b'-', digits @ ..] => (true, digits),
        [b'+', digits @ ..] => (false, digits),
        _ => (false, bytes),
    }
}

/// The number that the digits write behind those of `so_far`, where it stays below 10 ^ 38.
pub fn number_behind(so_far: u128, digits: &[u8]) -> Option<u128>
    requires { so_far < 10 ^ 38 }
    ensures { SomeIff result ((all_ascii_digits digits.now ≡ true) × (number_behind so_far digits.now < 10 ^ 38)) (number_behind so_far digits.now) }
{
    let mut number = so_far;
    for digit in digits {
        if !digit.is_ascii_digit() || number >= TENTH {
            return None;
        }
        number = number * 10 + u128::from(*digit - b'0');
    }
    Some(number)
}

/// The number that one or more digits write, where it is below 10 ^ 38.
pub fn number_of(digits: &[u8]) -> Option<u128>
    ensures { SomeIff result (IsNumeral digits.now × (number_of digits.now < 10 ^ 38)) (number_of digits.now) }
{
    if digits.is_empty() {
        return None;
    }
    number_behind(0, digits)
}

pub fn signed(minus: bool, number: u128) -> i128
    requires { number < 10 ^ 38 }
    ensures { result ≡ cond minus (neg_ℤ (pos number)) (pos number) }
{
    if minus {
        -(number as i128)
    } else {
        number as i128
    }
}

fn fit_int(bits: u8, number: i128) -> Option<i64>
    requires { IsBits bits }
    ensures { SomeIff result (is_between (least_int bits) (greatest_int bits) number ≡ true) number }
{
    match i64::try_from(number) {
        Ok(int) if fits_int(bits, int) => Some(int),
        _ => None,
    }
}

fn fit_uint(bits: u8, number: u128) -> Option<u64>
    requires { IsBits bits }
    ensures { SomeIff result (nat_lt number (2 ^ bits) ≡ true) number }
{
    match u64::try_from(number) {
        Ok(uint) if fits_uint(bits, uint) => Some(uint),
        _ => None,
    }
}

/// The signed number of so many bits that the bytes spell.
pub fn read_int(bits: u8, bytes: &[u8]) -> Option<i64>
    requires { IsBits bits }
    ensures { MatchOption result ((z : ℤ) → SpellsInt bytes.now z → is_between (least_int bits) (greatest_int bits) z ≡ true → ⊥) (λ z. SpellsInt bytes.now z × (is_between (least_int bits) (greatest_int bits) z ≡ true)) }
{
    let (minus, digits) = split_sign(bytes);
    let number = number_of(digits)?;
    fit_int(bits, signed(minus, number))
}

/// The unsigned number of so many bits that the bytes spell.
pub fn read_uint(bits: u8, bytes: &[u8]) -> Option<u64>
    requires { IsBits bits }
    ensures { MatchOption result ((n : ℕ) → SpellsUInt bytes.now n → nat_lt n (2 ^ bits) ≡ true → ⊥) (λ n. SpellsUInt bytes.now n × (nat_lt n (2 ^ bits) ≡ true)) }
{
    let (minus, digits) = split_sign(bytes);
    if minus {
        return None;
    }
    let number = number_of(digits)?;
    fit_uint(bits, number)
}
