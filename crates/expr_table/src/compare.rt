ghost use Rattle.std.specs.Prelude.{◌≡◌, ◌≤◌, Ok};
ghost use Rattle.ds_value.specs.Values.{value_cmp};
ghost use Rattle.expr_table.specs.Calls.{AreSmall};
ghost use Rattle.expr_table.specs.Groups.{IsComparison};
ghost use Rattle.expr_table.specs.Meaning.{as_value, of_two, order_of, value_of};

use crate::number::raised;
use crate::{Arg, EvalFault, FnName};
use std::cmp::Ordering;

/// The order of two arguments in units of one scale.
fn order(a: &Arg, b: &Arg) -> Ordering
    ensures { result ≡ value_cmp (as_value a.now) (as_value b.now) }
{
    match (a, b) {
        (Arg::Null | Arg::Truth(_), Arg::Null | Arg::Truth(_)) => Ordering::Equal,
        (Arg::Null | Arg::Truth(_), _) => Ordering::Less,
        (_, Arg::Null | Arg::Truth(_)) => Ordering::Greater,
        (Arg::Num(x), Arg::Num(y)) => x.cmp(y),
        (Arg::Num(_), _) => Ordering::Less,
        (_, Arg::Num(_)) => Ordering::Greater,
        (Arg::Text(x), Arg::Text(y)) => x.as_slice().cmp(y.as_slice()),
        (Arg::Text(_), _) => Ordering::Less,
        (_, Arg::Text(_)) => Ordering::Greater,
        (Arg::Date(x), Arg::Date(y)) => x.cmp(y),
    }
}

/// The order of two arguments of these scales, where both lie in their range at the greater one.
fn order_at(s: u8, t: u8, a: &Arg, b: &Arg) -> Result<Ordering, EvalFault>
    requires first { s ≤ 38 }
    requires second { t ≤ 38 }
    ensures { result ≡ of_two s t a.now b.now (λ x y. Ok (value_cmp (as_value x) (as_value y))) }
{
    let top = s.max(t);
    match (a, b) {
        (Arg::Num(x), Arg::Num(y)) => {
            let x = raised(*x, s, top)?;
            let y = raised(*y, t, top)?;
            Ok(x.cmp(&y))
        }
        (Arg::Num(x), _) => {
            let x = raised(*x, s, top)?;
            Ok(order(&Arg::Num(x), b))
        }
        (_, Arg::Num(y)) => {
            let y = raised(*y, t, top)?;
            Ok(order(a, &Arg::Num(y)))
        }
        _ => Ok(order(a, b)),
    }
}

fn order_of(scales: &[u8], args: &[Arg]) -> Result<Ordering, EvalFault>
    requires { AreSmall scales.now }
    ensures { result ≡ order_of scales.now args.now }
{
    match (scales, args) {
        ([s, t], [a, b]) => order_at(*s, *t, a, b),
        _ => Err(EvalFault::NullUsed),
    }
}

/// The rows that compare.
pub fn comparison(name: FnName, scales: &[u8], args: &[Arg]) -> Result<Arg, EvalFault>
    requires name { IsComparison name }
    requires scales { AreSmall scales.now }
    ensures { result ≡ value_of name scales.now args.now }
{
    let order = order_of(scales, args)?;
    macro_rules! when {
        ($($ordering:ident)|+) => { Ok(Arg::Truth(matches!(order, $(Ordering::$ordering)|+))) };
    }
    match name {
        FnName::Equal => when!(Equal),
        FnName::NotEqual => when!(Less | Greater),
        FnName::Less => when!(Less),
        FnName::AtMost => when!(Less | Equal),
        FnName::Greater => when!(Greater),
        FnName::AtLeast => when!(Equal | Greater),
        _ => unreachable!(),
    }
}
