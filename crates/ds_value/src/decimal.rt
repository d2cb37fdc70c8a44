ghost use Rattle.std.specs.Prelude.{◌≡◌, ◌≢◌, ◌<◌, ◌≤◌, ◌*◌, ◌++◌, ◌^◌, ℤ, ℕ, List, true, MatchOption, length, drop, nat_lt, unsigned_abs, ◌==◌};
ghost use Rattle.std.specs.Option.{SomeIff};
ghost use Rattle.std.specs.List.{list_all, take_while};
ghost use Rattle.std.specs.Char.{is_ascii_digit};
ghost use Rattle.std.specs.Str.{all_ascii_digits};
ghost use Rattle.ds_value.specs.Spellings.{number_of, IsNumeral, point_text, scaled, SpellsDec};

use crate::kind::ten_to;
use crate::numeral::{number_behind, number_of, signed, split_sign};

fn digit_count(bytes: &[u8]) -> usize
    ensures count { result ≡ length (take_while is_ascii_digit bytes.now) }
    ensures within { result ≤ length bytes.now }
{
    bytes
        .iter()
        .take_while(|byte| byte.is_ascii_digit())
        .count()
}

/// The digits in front, and those behind the point where there is one. None where something
/// other than a point follows the digits, or nothing follows the point.
fn split_point(bytes: &[u8]) -> Option<(&[u8], &[u8])>
    ensures { MatchOption result ((whole fraction : List ℕ) → all_ascii_digits whole ≡ true → bytes.now ≢ whole ++ point_text fraction) (λ p. (all_ascii_digits p.0.now ≡ true) × (bytes.now ≡ p.0.now ++ point_text p.1.now)) }
{
    let count = digit_count(bytes);
    if count == bytes.len() {
        return Some((bytes, &bytes[count..]));
    }
    if bytes[count] != b'.' || count + 1 == bytes.len() {
        return None;
    }
    Some((&bytes[..count], &bytes[count + 1..]))
}

/// The number that many places further left, where it is below 10 ^ 38.
fn shifted(number: u128, places: u8) -> Option<u128>
    requires { places ≤ 38 }
    ensures { SomeIff result (number * 10 ^ places < 10 ^ 38) (number * 10 ^ places) }
{
    match number.checked_mul(ten_to(places)) {
        Some(product) if product < 100_000_000_000_000_000_000_000_000_000_000_000_000 => {
            Some(product)
        }
        _ => None,
    }
}

fn are_zeros(digits: &[u8]) -> bool
    ensures { result ≡ list_all (λ digit. digit == 48) digits.now }
{
    digits.iter().all(|digit| *digit == b'0')
}

/// The units of 10 ^ -s that the digits write, where they are below 10 ^ 38.
fn units(s: u8, whole: &[u8], fraction: &[u8]) -> Option<u128>
    requires { s ≤ 38 }
    ensures { SomeIff result (IsNumeral whole.now × (all_ascii_digits fraction.now ≡ true) × (list_all (λ digit. digit == 48) (drop s fraction.now) ≡ true) × (number_of (whole.now ++ scaled s fraction.now) < 10 ^ 38)) (number_of (whole.now ++ scaled s fraction.now)) }
{
    let kept = fraction.len().min(usize::from(s));
    if !are_zeros(&fraction[kept..]) {
        return None;
    }
    let number = number_behind(number_of(whole)?, &fraction[..kept])?;
    shifted(number, s - kept as u8)
}

/// The decimal that the bytes spell, in units of 10 ^ -s.
pub fn read_decimal(p: u8, s: u8, bytes: &[u8]) -> Option<i128>
    requires digits { p ≤ 38 }
    requires scale { s ≤ 38 }
    ensures { MatchOption result ((z : ℤ) → SpellsDec s bytes.now z → nat_lt (unsigned_abs z) (10 ^ p) ≡ true → ⊥) (λ z. SpellsDec s bytes.now z × (nat_lt (unsigned_abs z) (10 ^ p) ≡ true)) }
{
    let (minus, rest) = split_sign(bytes);
    let (whole, fraction) = split_point(rest)?;
    let number = units(s, whole, fraction)?;
    if number >= ten_to(p) {
        return None;
    }
    Some(signed(minus, number))
}
