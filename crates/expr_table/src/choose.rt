ghost use Rattle.std.specs.Prelude.{◌≡◌, ◌≤◌, Ok};
ghost use Rattle.expr_table.specs.Calls.{AreSmall, Answers};
ghost use Rattle.expr_table.specs.Groups.{IsChoice};
ghost use Rattle.expr_table.specs.Meaning.{brought, choice, first_given, null_test, of_both, one_truth, two_truths, value_of};

use crate::number::raised;
use crate::{Arg, EvalFault, FnName};
use ds_value::Copied;

fn truth(args: &[Arg]) -> Result<bool, EvalFault>
    ensures { result ≡ one_truth args.now }
{
    match args {
        [Arg::Truth(a)] => Ok(*a),
        _ => Err(EvalFault::NullUsed),
    }
}

fn truths(args: &[Arg]) -> Result<(bool, bool), EvalFault>
    ensures { result ≡ two_truths args.now }
{
    match args {
        [Arg::Truth(a), Arg::Truth(b)] => Ok((*a, *b)),
        _ => Err(EvalFault::NullUsed),
    }
}

fn is_null(args: &[Arg]) -> Result<Arg, EvalFault>
    ensures { result ≡ null_test args.now }
{
    match args {
        [Arg::Null] => Ok(Arg::Truth(true)),
        [_] => Ok(Arg::Truth(false)),
        _ => Err(EvalFault::NullUsed),
    }
}

/// A copy of an argument, brought to a greater scale where it is a number.
fn brought(arg: &Arg, from: u8, to: u8) -> Result<Arg, EvalFault>
    requires order { from ≤ to }
    requires scale { to ≤ 38 }
    ensures { Answers result (brought from to arg.now) }
{
    match arg {
        Arg::Num(n) => Ok(Arg::Num(raised(*n, from, to)?)),
        other => Ok(other.copied()?),
    }
}

fn if_null(scales: &[u8], args: &[Arg]) -> Result<Arg, EvalFault>
    requires { AreSmall scales.now }
    ensures { Answers result (of_both scales.now args.now (λ a b. Ok (first_given a b))) }
{
    match (scales, args) {
        ([s, t], [a, b]) => {
            let top = (*s).max(*t);
            let first = brought(a, *s, top)?;
            let second = brought(b, *t, top)?;
            match first {
                Arg::Null => Ok(second),
                first => Ok(first),
            }
        }
        _ => Err(EvalFault::NullUsed),
    }
}

fn chosen(scales: &[u8], args: &[Arg]) -> Result<Arg, EvalFault>
    requires { AreSmall scales.now }
    ensures { Answers result (choice scales.now args.now) }
{
    match (scales, args) {
        ([_, s, t], [Arg::Truth(test), a, b]) => {
            let top = (*s).max(*t);
            if *test {
                brought(a, *s, top)
            } else {
                brought(b, *t, top)
            }
        }
        _ => Err(EvalFault::NullUsed),
    }
}

/// The rows that choose, and those of truths.
pub fn choice(name: FnName, scales: &[u8], args: &[Arg]) -> Result<Arg, EvalFault>
    requires name { IsChoice name }
    requires scales { AreSmall scales.now }
    ensures { Answers result (value_of name scales.now args.now) }
{
    macro_rules! of {
        ($truths:pat in $args:expr => $value:expr) => {{
            let $truths = $args?;
            Ok(Arg::Truth($value))
        }};
    }
    match name {
        FnName::And => of!((a, b) in truths(args) => a && b),
        FnName::Or => of!((a, b) in truths(args) => a || b),
        FnName::Not => of!(a in truth(args) => !a),
        FnName::IsNull => is_null(args),
        FnName::IfNull => if_null(scales, args),
        FnName::If => chosen(scales, args),
        _ => unreachable!(),
    }
}
