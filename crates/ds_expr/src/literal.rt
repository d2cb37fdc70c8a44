//! Numbers and dates that stand in an expression.

ghost use Rattle.std.specs.Prelude.{◌≡◌, ◌<◌, ◌==◌, IfOk, IfErr, IfSome, position, length};
ghost use Rattle.ds_expr.specs.declared.fault.TypeFault.TheVariants as fault;
ghost use Rattle.ds_expr.specs.Literals.{date_literal, day_in, number_literal, scale_of, units_below};

use crate::fault::TypeFault;
use ds_value::{Kind, TextFault, Value, read_text};
use std::alloc::Global;

/// Units of 10^-scale.
#[derive(Clone, Copy, Debug, PartialEq, Eq)]
pub struct Number {
    pub units: i128,
    pub scale: u8,
}

/// 10^37
const TENTH: u128 = 10_000_000_000_000_000_000_000_000_000_000_000_000;

fn point(digits: &[u8]) -> Option<usize>
    ensures value { result ≡ position (λ b. b == 46) digits.now }
    ensures within { IfSome result (λ i. i < length digits.now) }
{
    digits.iter().position(|b| *b == b'.')
}

/// How many digits stand behind the point.
fn scale_of(digits: &[u8]) -> usize
    ensures { result ≡ scale_of digits.now }
{
    match point(digits) {
        None => 0,
        Some(i) => digits.len() - (i + 1),
    }
}

/// The number that the digits write without their point, where it is below 10^38.
fn units_of(digits: &[u8]) -> Option<u128>
    ensures { result ≡ units_below digits.now }
{
    let mut units = 0_u128;
    for b in digits {
        if *b != b'.' {
            if units >= TENTH {
                return None;
            }
            units = units * 10 + u128::from(b.saturating_sub(b'0'));
        }
    }
    if units < 10 * TENTH {
        Some(units)
    } else {
        None
    }
}

/// The number that stands there, where it is one that an expression may have.
#[tactic(auto, unfolding(crate::specs::Literals::number_literal))]
pub fn number_literal(digits: &[u8]) -> Option<Number>
    ensures { result ≡ number_literal digits.now }
{
    let scale = scale_of(digits);
    if scale > 38 {
        return None;
    }
    let units = units_of(digits)?;
    Some(Number {
        units: units as i128,
        scale: scale as u8,
    })
}

fn day_in(value: &Value) -> Option<i32>
    ensures { result ≡ day_in value.now }
{
    match value {
        Value::Date(day) => Some(*day),
        _ => None,
    }
}

/// The day of a date that is written YYYY-MM-DD.
pub fn date_literal(alloc: Global, bytes: &[u8]) -> Result<Option<i32>, TypeFault>
    ensures value { IfOk result (λ day. day ≡ date_literal bytes.now) }
    ensures fault { IfErr result (λ e. e ≡ fault.Memory) }
{
    match read_text(alloc, &Kind::Date, bytes) {
        Ok(value) => Ok(day_in(&value)),
        Err(TextFault::Bad) => Ok(None),
        Err(TextFault::Memory) => Err(TypeFault::Memory),
    }
}
