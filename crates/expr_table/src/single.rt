ghost use Rattle.std.specs.Prelude.{◌≡◌, pos, unsigned_abs};
ghost use Rattle.expr_table.specs.Calls.{AreSmall, AreInRange, Answers};
ghost use Rattle.expr_table.specs.Groups.{IsOfNumber};
ghost use Rattle.expr_table.specs.Meaning.{number, number_text, one_number, rounded, value_of};

use crate::number::{number, rounded};
use crate::{Arg, EvalFault, FnName};
use ds_value::{Bytes, Kind, Value, write_text};
use std::alloc::Global;

fn single(args: &[Arg]) -> Result<i128, EvalFault>
    ensures { result ≡ one_number args.now }
{
    match args {
        [Arg::Num(n)] => Ok(*n),
        _ => Err(EvalFault::NullUsed),
    }
}

fn absolute(n: i128) -> Result<Arg, EvalFault>
    ensures { result ≡ number (pos (unsigned_abs n)) }
{
    match n.checked_abs() {
        Some(absolute) => number(absolute),
        None => Err(EvalFault::Overflow),
    }
}

fn round(scales: &[u8], args: &[Arg]) -> Result<Arg, EvalFault>
    requires scales { AreSmall scales.now }
    requires range { AreInRange args.now }
    ensures { result ≡ rounded scales.now args.now }
{
    match (scales, args) {
        ([s, _], [Arg::Num(n), Arg::Num(places)]) => {
            let dropped = u128::from(*s).saturating_sub(places.unsigned_abs());
            rounded(*n, dropped as u8)
        }
        _ => Err(EvalFault::NullUsed),
    }
}

fn text(alloc: Global, scales: &[u8], args: &[Arg]) -> Result<Arg, EvalFault>
    requires scales { AreSmall scales.now }
    requires range { AreInRange args.now }
    ensures { Answers result (number_text scales.now args.now) }
{
    match (scales, args) {
        ([s], [Arg::Num(n)]) => {
            let mut text = Bytes::new(alloc);
            write_text(
                alloc,
                &Kind::Dec { p: 38, s: *s },
                &Value::Dec(*n),
                &mut text,
            )?;
            Ok(Arg::Text(text))
        }
        _ => Err(EvalFault::NullUsed),
    }
}

/// The rows of one number.
pub fn of_number(alloc: Global, name: FnName, scales: &[u8], args: &[Arg]) -> Result<Arg, EvalFault>
    requires name { IsOfNumber name }
    requires scales { AreSmall scales.now }
    requires range { AreInRange args.now }
    ensures { Answers result (value_of name scales.now args.now) }
{
    macro_rules! of {
        ($n:ident => $value:expr) => {{
            let $n = single(args)?;
            $value
        }};
    }
    match name {
        FnName::Abs => of!(n => absolute(n)),
        FnName::Sign => of!(n => number(n.signum())),
        FnName::Round => round(scales, args),
        FnName::Text => text(alloc, scales, args),
        _ => unreachable!(),
    }
}
