ghost use Rattle.std.specs.Prelude.{◌≡◌, ◌<◌, ◌^◌, IfOk, unsigned_abs};
ghost use Rattle.expr_table.specs.Calls.{AreSmall, AreInRange};
ghost use Rattle.expr_table.specs.Groups.{IsArithmetic};
ghost use Rattle.expr_table.specs.Meaning.{difference, numbers, units, value_of};

use crate::number::{difference, negated, number, product, quotient, raised, remainder, sum};
use crate::{Arg, EvalFault, FnName};

/// Two numbers at the greater of their scales.
fn numbers(scales: &[u8], args: &[Arg]) -> Result<(i128, i128), EvalFault>
    requires { AreSmall scales.now }
    ensures { result ≡ numbers scales.now args.now }
{
    match (scales, args) {
        ([s, t], [Arg::Num(a), Arg::Num(b)]) => {
            let top = (*s).max(*t);
            let a = raised(*a, *s, top)?;
            let b = raised(*b, *t, top)?;
            Ok((a, b))
        }
        _ => Err(EvalFault::NullUsed),
    }
}

/// Two numbers as they are.
fn units(args: &[Arg]) -> Result<(i128, i128), EvalFault>
    requires { AreInRange args.now }
    ensures value { result ≡ units args.now }
    ensures range { IfOk result (λ p. unsigned_abs p.0 < 10 ^ 38) }
{
    match args {
        [Arg::Num(a), Arg::Num(b)] => Ok((*a, *b)),
        _ => Err(EvalFault::NullUsed),
    }
}

/// The rows of a minus: two numbers, two dates, or one number.
fn minus(scales: &[u8], args: &[Arg]) -> Result<Arg, EvalFault>
    requires { AreSmall scales.now }
    ensures { result ≡ difference scales.now args.now }
{
    match args {
        [Arg::Date(a), Arg::Date(b)] => number(i128::from(*a) - i128::from(*b)),
        [Arg::Num(a)] => negated(*a),
        _ => {
            let (a, b) = numbers(scales, args)?;
            difference(a, b)
        }
    }
}

/// The rows of two numbers, and those of a minus.
pub fn arithmetic(name: FnName, scales: &[u8], args: &[Arg]) -> Result<Arg, EvalFault>
    requires name { IsArithmetic name }
    requires scales { AreSmall scales.now }
    requires range { AreInRange args.now }
    ensures { result ≡ value_of name scales.now args.now }
{
    macro_rules! of {
        ($a:ident, $b:ident in $numbers:expr => $value:expr) => {{
            let ($a, $b) = $numbers?;
            $value
        }};
    }
    match name {
        FnName::Plus => of!(a, b in numbers(scales, args) => sum(a, b)),
        FnName::Minus => minus(scales, args),
        FnName::Times => of!(a, b in units(args) => product(a, b)),
        FnName::Divide => of!(a, b in units(args) => quotient(a, b)),
        FnName::Remainder => of!(a, b in units(args) => remainder(a, b)),
        FnName::Least => of!(a, b in numbers(scales, args) => number(a.min(b))),
        FnName::Greatest => of!(a, b in numbers(scales, args) => number(a.max(b))),
        _ => unreachable!(),
    }
}
