ghost use Rattle.std.specs.Prelude.{◌≡◌, true, IfOk, List, ℕ};
ghost use Rattle.ds_value.specs.declared.kind.Kind.TheVariants as kind;
ghost use Rattle.ds_value.specs.declared.value.Value.TheVariants as value;
ghost use Rattle.ds_value.specs.Kinds.{fits_kind};
ghost use Rattle.expr_table.specs.Calls.{AreInRange};
ghost use Rattle.expr_table.specs.Groups.{IsOfDate};
ghost use Rattle.expr_table.specs.Meaning.{date, later_date, one_date, value_of};

use crate::number::number;
use crate::{Arg, EvalFault, FnName};
use ds_value::civil_date;

/// The date, where it is from 0001-01-01 to 9999-12-31.
fn date(day: i128) -> Result<Arg, EvalFault>
    ensures { result ≡ date day }
{
    if -719162 <= day && day <= 2932896 {
        Ok(Arg::Date(day as i32))
    } else {
        Err(EvalFault::Overflow)
    }
}

fn single(args: &[Arg]) -> Result<i32, EvalFault>
    requires { AreInRange args.now }
    ensures value { result ≡ one_date args.now }
    ensures range { IfOk result (λ day. fits_kind kind.Date (value.Date day) ≡ true) }
{
    match args {
        [Arg::Date(day)] => Ok(*day),
        _ => Err(EvalFault::NullUsed),
    }
}

fn later(args: &[Arg]) -> Result<Arg, EvalFault>
    requires { AreInRange args.now }
    ensures { result ≡ later_date args.now }
{
    match args {
        [Arg::Date(day), Arg::Num(n)] => date(i128::from(*day) + *n),
        _ => Err(EvalFault::NullUsed),
    }
}

/// The rows of a date.
pub fn of_date(name: FnName, args: &[Arg]) -> Result<Arg, EvalFault>
    requires name { IsOfDate name }
    requires range { AreInRange args.now }
    ensures { (scales : List ℕ) → result ≡ value_of name scales args.now }
{
    macro_rules! of {
        ($day:ident => $value:expr) => {{
            let $day = single(args)?;
            number(i128::from($value))
        }};
    }
    match name {
        FnName::Year => of!(day => civil_date(day).0),
        FnName::Month => of!(day => civil_date(day).1),
        FnName::Day => of!(day => civil_date(day).2),
        FnName::DayNumber => of!(day => day),
        FnName::AddDays => later(args),
        _ => unreachable!(),
    }
}
