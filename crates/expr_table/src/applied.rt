ghost use Rattle.std.specs.Prelude.{◌<◌, IfSome, slice_get};
ghost use Rattle.expr_table.specs.Calls.{AreSmall, AreInRange, Answers};
ghost use Rattle.expr_table.specs.Meaning.{value_of};
ghost use Rattle.expr_table.specs.TableRows.{rows};

use crate::arithmetic::arithmetic;
use crate::choose::choice;
use crate::compare::comparison;
use crate::dates::of_date;
use crate::rows::row_at;
use crate::single::of_number;
use crate::texts::of_text;
use crate::{Arg, EvalFault, FnName};
use std::alloc::Global;

fn value_of(alloc: Global, name: FnName, scales: &[u8], args: &[Arg]) -> Result<Arg, EvalFault>
    requires scales { AreSmall scales.now }
    requires range { AreInRange args.now }
    ensures { Answers result (value_of name scales.now args.now) }
{
    match name {
        FnName::Equal
        | FnName::NotEqual
        | FnName::Less
        | FnName::AtMost
        | FnName::Greater
        | FnName::AtLeast => comparison(name, scales, args),
        FnName::Plus
        | FnName::Minus
        | FnName::Times
        | FnName::Divide
        | FnName::Remainder
        | FnName::Least
        | FnName::Greatest => arithmetic(name, scales, args),
        FnName::And | FnName::Or | FnName::Not | FnName::IsNull | FnName::IfNull | FnName::If =>
            choice(name, scales, args),
        FnName::Abs | FnName::Sign | FnName::Round | FnName::Text => {
            of_number(alloc, name, scales, args)
        }
        FnName::Length | FnName::Concat | FnName::Substr | FnName::Trim => {
            of_text(alloc, name, args)
        }
        FnName::Year | FnName::Month | FnName::Day | FnName::DayNumber | FnName::AddDays => {
            of_date(name, args)
        }
    }
}

/// The value of a row for arguments of these scales, or its fault.
pub fn apply(alloc: Global, row: u32, scales: &[u8], args: &[Arg]) -> Result<Arg, EvalFault>
    requires row { row < 53 }
    requires scales { AreSmall scales.now }
    requires range { AreInRange args.now }
    ensures { IfSome (slice_get rows row) (λ e. Answers result (value_of e.name scales.now args.now)) }
{
    value_of(alloc, row_at(row).name, scales, args)
}
