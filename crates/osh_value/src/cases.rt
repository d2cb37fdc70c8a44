//! The cases of a switch.

ghost use Rattle.std.specs.Prelude.{◌≡◌, ◌≤◌, Some, None, IfSome, if◌then◌else◌};
ghost use Rattle.std.specs.Str.Parse.{digits_value};
ghost use Rattle.ds_lex.specs.Reading.{Moves};
ghost use Rattle.ds_schema.specs.SchemaReading.{is_size};
ghost use Rattle.osh_value.specs.Values.{case_at, cases_at, greatest_case, has_case, signed_case};

use crate::lists::refuse;
use crate::name::push;
use ds_lex::{Cursor, Refusal, Sort, Stop, is_digit};
use ds_value::Items;
use std::alloc::Global;

/// The number that digits alone write, where it isn't greater than `high`.
fn number_up_to(high: u64, bytes: &[u8]) -> Option<u64>
    ensures number { result ≡ (if is_size 0 high bytes.now then Some (digits_value 10 bytes.now) else None) }
    ensures bound { IfSome result (λ n. n ≤ high) }
{
    let mut value: u64 = 0;
    for byte in bytes {
        if !is_digit(*byte) {
            return None;
        }
        let more = u128::from(value) * 10 + u128::from(*byte - b'0');
        if u128::from(high) < more {
            return None;
        }
        value = more as u64;
    }
    if bytes.is_empty() {
        return None;
    }
    Some(value)
}

fn greatest_case(minus: bool) -> u64
    ensures { result ≡ greatest_case minus }
{
    if minus { 1 << 63 } else { (1 << 63) - 1 }
}

fn signed_case(minus: bool, number: u64) -> i64
    requires { number ≤ greatest_case minus }
    ensures { result ≡ signed_case minus number }
{
    if minus {
        -i128::from(number) as i64
    } else {
        number as i64
    }
}

fn has_case(found: &[i64], number: i64) -> bool
    ensures { result ≡ has_case found.now number }
{
    found.iter().any(|case| *case == number)
}

/// A number that isn't among those before it.
#[tactic(auto, unfolding(crate::specs::Values::case_at))]
fn case(found: &[i64], cursor: &mut Cursor<'_>) -> Result<i64, Stop<()>>
    ensures { Moves result cursor.new (case_at found.now cursor.old) }
{
    let minus = cursor.accept(b"-");
    let digits = cursor.expect_sort(Sort::Number, ())?;
    let Some(number) = number_up_to(greatest_case(minus), digits.bytes) else {
        return Err(refuse(digits));
    };
    let case = signed_case(minus, number);
    if has_case(found, case) {
        return Err(refuse(digits));
    }
    Ok(case)
}

/// Distinct whole numbers, with commas between them.
pub fn cases(alloc: Global, cursor: &mut Cursor<'_>) -> Result<Items<i64>, Stop<()>>
    ensures { Moves result cursor.new (cases_at cursor.old) }
{
    let count = cursor.len();
    let mut found = Items::new(alloc);
    for _count in 0..count {
        let case = case(found.as_slice(), cursor)?;
        push(&mut found, case)?;
        if !cursor.accept(b",") {
            return Ok(found);
        }
    }
    Err(Stop::Refused(Refusal::AtEnd))
}
