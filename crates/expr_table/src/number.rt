ghost use Rattle.std.specs.Prelude.{◌≡◌, ◌≤◌, ◌<◌, ◌^◌, ◌+ℤ◌, ◌-ℤ◌, ◌*ℤ◌, neg_ℤ, pos, unsigned_abs, int_div, int_rem};
ghost use Rattle.expr_table.specs.Meaning.{bounded, number, raised, divided, nearest, nearest_ℤ};

use crate::{Arg, EvalFault};

/// 10 ^ 38
const LIMIT: u128 = 100_000_000_000_000_000_000_000_000_000_000_000_000;

/// The number, where it is below 10 ^ 38 in absolute value.
fn bounded(n: i128) -> Result<i128, EvalFault>
    ensures { result ≡ bounded n }
{
    if n.unsigned_abs() < LIMIT {
        Ok(n)
    } else {
        Err(EvalFault::Overflow)
    }
}

pub fn number(n: i128) -> Result<Arg, EvalFault>
    ensures { result ≡ number n }
{
    Ok(Arg::Num(bounded(n)?))
}

/// Units of 10 ^ -from as units of 10 ^ -to.
pub fn raised(n: i128, from: u8, to: u8) -> Result<i128, EvalFault>
    requires order { from ≤ to }
    requires scale { to ≤ 38 }
    ensures { result ≡ bounded (raised from to n) }
{
    let factor = 10_i128.pow(u32::from(to - from));
    match n.checked_mul(factor) {
        Some(product) => bounded(product),
        None => Err(EvalFault::Overflow),
    }
}

pub fn sum(a: i128, b: i128) -> Result<Arg, EvalFault>
    ensures { result ≡ number (a +ℤ b) }
{
    match a.checked_add(b) {
        Some(sum) => number(sum),
        None => Err(EvalFault::Overflow),
    }
}

pub fn difference(a: i128, b: i128) -> Result<Arg, EvalFault>
    ensures { result ≡ number (a -ℤ b) }
{
    match a.checked_sub(b) {
        Some(difference) => number(difference),
        None => Err(EvalFault::Overflow),
    }
}

pub fn product(a: i128, b: i128) -> Result<Arg, EvalFault>
    ensures { result ≡ number (a *ℤ b) }
{
    match a.checked_mul(b) {
        Some(product) => number(product),
        None => Err(EvalFault::Overflow),
    }
}

pub fn negated(a: i128) -> Result<Arg, EvalFault>
    ensures { result ≡ number (neg_ℤ a) }
{
    match a.checked_neg() {
        Some(negated) => number(negated),
        None => Err(EvalFault::Overflow),
    }
}

pub fn quotient(a: i128, b: i128) -> Result<Arg, EvalFault>
    requires { unsigned_abs a < 10 ^ 38 }
    ensures { result ≡ divided int_div a b }
{
    if b == 0 {
        return Err(EvalFault::ZeroDivisor);
    }
    number(a / b)
}

pub fn remainder(a: i128, b: i128) -> Result<Arg, EvalFault>
    requires { unsigned_abs a < 10 ^ 38 }
    ensures { result ≡ divided int_rem a b }
{
    if b == 0 {
        return Err(EvalFault::ZeroDivisor);
    }
    number(a % b)
}

fn ten_to(digits: u8) -> u128
    requires { digits ≤ 38 }
    ensures value { result ≡ 10 ^ digits }
    ensures some { 0 < result }
    ensures limit { result ≤ 10 ^ 38 }
{
    10_u128.pow(u32::from(digits))
}

fn nearest(n: u128, divisor: u128) -> u128
    requires some { 0 < divisor }
    requires limit { divisor ≤ 10 ^ 38 }
    requires number { n < 10 ^ 38 }
    ensures value { result ≡ nearest n divisor }
    ensures limit { result ≤ 10 ^ 38 }
{
    if 2 * (n % divisor) >= divisor {
        n / divisor + 1
    } else {
        n / divisor
    }
}

/// The number without so many of its digits, to the nearest, a half away from zero.
pub fn rounded(n: i128, digits: u8) -> Result<Arg, EvalFault>
    requires digits { digits ≤ 38 }
    requires number { unsigned_abs n < 10 ^ 38 }
    ensures { result ≡ number (nearest_ℤ n (10 ^ digits)) }
{
    let nearest = nearest(n.unsigned_abs(), ten_to(digits)) as i128;
    number(if n < 0 { -nearest } else { nearest })
}
