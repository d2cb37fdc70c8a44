ghost use Rattle.std.specs.Prelude.{◌≡◌, ◌≢◌, ◌<◌, ◌≤◌, ◌+◌, ◌%◌, ℤ, ℕ, pos, neg_ℤ, true, MatchOption, length, IfSome};
ghost use Rattle.std.specs.Option.{SomeIff};
ghost use Rattle.ds_value.specs.Kinds.{is_between};
ghost use Rattle.ds_value.specs.Calendar.{IsDate, day_number, year_of, month_of, day_of};
ghost use Rattle.ds_value.specs.Spellings.{number_of, IsNumeral, date_text, SpellsDate};

use crate::numeral::number_of;
use jiff::civil::Date;
use jiff_core::civil as plain;

/// The number of up to four digits.
fn number_in(digits: &[u8]) -> Option<u16>
    requires { length digits.now ≤ 4 }
    ensures { SomeIff result (IsNumeral digits.now) (number_of digits.now) }
{
    let number = number_of(digits)?;
    Some(number as u16)
}

/// The year, the month and the day of a date's text, whether the calendar has the date or not.
fn date_parts(bytes: &[u8]) -> Option<(u16, u8, u8)>
    ensures { MatchOption result ((year month day : ℕ) → year < 10000 → month < 100 → day < 100 → bytes.now ≢ date_text year month day) (λ p. (p.0 < 10000) × (p.1 < 100) × (p.2 < 100) × (bytes.now ≡ date_text p.0 p.1 p.2)) }
{
    if bytes.len() != 10 || bytes[4] != b'-' || bytes[7] != b'-' {
        return None;
    }
    let year = number_in(&bytes[..4])?;
    let month = number_in(&bytes[5..7])?;
    let day = number_in(&bytes[8..])?;
    Some((year, month as u8, day as u8))
}

/// The number of a day, where the calendar has it.
fn civil_day(year: u16, month: u8, day: u8) -> Option<i32>
    requires year { year < 10000 }
    requires month { month < 100 }
    requires day { day < 100 }
    ensures { MatchOption result (¬ (IsDate year month day)) (λ n. IsDate year month day × (n ≡ day_number year month day)) }
{
    if year == 0 {
        return None;
    }
    match Date::new(year as i16, month as i8, day as i8) {
        Ok(date) => Some(date.to_plain().to_unix_epoch_day()),
        Err(_) => None,
    }
}

/// The day that the bytes spell.
pub fn read_date(bytes: &[u8]) -> Option<i32>
    ensures { MatchOption result ((number : ℤ) → ¬ (SpellsDate bytes.now number)) (λ number. SpellsDate bytes.now number) }
{
    let (year, month, day) = date_parts(bytes)?;
    civil_day(year, month, day)
}

fn digit(number: u16) -> u8
    ensures { result ≡ 48 + number % 10 }
{
    b'0' + (number % 10) as u8
}

/// The year, the month and the day in the month of a day from 0001-01-01 to 9999-12-31.
pub fn civil_date(number: i32) -> (u16, u8, u8)
    requires { is_between (neg_ℤ (pos 719162)) (pos 2932896) number ≡ true }
    ensures year { result.0 ≡ year_of number }
    ensures month { result.1 ≡ month_of number }
    ensures day { result.2 ≡ day_of number }
{
    let plain = plain::Date::from_unix_epoch_day(i64::from(number)).unwrap();
    let date = Date::from_plain(plain);
    (date.year() as u16, date.month() as u8, date.day() as u8)
}

/// The text of a day from 0001-01-01 to 9999-12-31.
pub fn date_text(number: i32) -> [u8; 10]
    requires { is_between (neg_ℤ (pos 719162)) (pos 2932896) number ≡ true }
    ensures { result ≡ date_text (year_of number) (month_of number) (day_of number) }
{
    let (year, month, day) = civil_date(number);
    let (month, day) = (u16::from(month), u16::from(day));
    [
        digit(year / 1000),
        digit(year / 100),
        digit(year / 10),
        digit(year),
        b'-',
        digit(month / 10),
        digit(month),
        b'-',
        digit(day / 10),
        digit(day),
    ]
}
