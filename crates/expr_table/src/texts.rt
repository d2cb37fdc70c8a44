ghost use Rattle.std.specs.Prelude.{◌≡◌, ◌-◌, ◌++◌, ℕ, List, pos, unsigned_abs, take, drop, Ok};
ghost use Rattle.expr_table.specs.declared.arg.Arg.TheVariants as arg;
ghost use Rattle.std.specs.Int.{int_max};
ghost use Rattle.expr_table.specs.Calls.{Answers};
ghost use Rattle.expr_table.specs.Groups.{IsOfText};
ghost use Rattle.expr_table.specs.Meaning.{text_up_to_limit, value_of, without_front_spaces, without_spaces};

use crate::number::number;
use crate::{Arg, EvalFault, FnName};
use ds_value::Bytes;
use std::alloc::Global;

fn text_of(alloc: Global, bytes: &[u8]) -> Result<Arg, EvalFault>
    ensures { Answers result (Ok (arg.Text bytes.now)) }
{
    let mut text = Bytes::new(alloc);
    text.append(bytes)?;
    Ok(Arg::Text(text))
}

fn joined(first: &Bytes, second: &Bytes) -> Result<Arg, EvalFault>
    ensures { Answers result (text_up_to_limit (first.now ++ second.now)) }
{
    if first.as_slice().len() + second.as_slice().len() > 65536 {
        return Err(EvalFault::TooLong);
    }
    let mut text = first.copied()?;
    text.append(second.as_slice())?;
    Ok(Arg::Text(text))
}

/// Up to n bytes from the byte `from`, where the first is 1.
fn part(bytes: &[u8], from: i128, n: i128) -> &[u8]
    ensures { result.now ≡ take (unsigned_abs (int_max n (pos 0))) (drop (unsigned_abs (int_max from (pos 1)) - 1) bytes.now) }
{
    let from = from.max(1).unsigned_abs() - 1;
    let n = n.max(0).unsigned_abs();
    let rest = &bytes[from.min(bytes.len() as u128) as usize..];
    &rest[..n.min(rest.len() as u128) as usize]
}

fn without_front_spaces(bytes: &[u8]) -> &[u8]
    ensures { result.now ≡ without_front_spaces bytes.now }
{
    let mut rest = bytes;
    while let [b' ', more @ ..] = rest {
        rest = more;
    }
    rest
}

fn without_spaces(bytes: &[u8]) -> &[u8]
    ensures { result.now ≡ without_spaces bytes.now }
{
    let mut rest = without_front_spaces(bytes);
    while let [more @ .., b' '] = rest {
        rest = more;
    }
    rest
}

/// The rows of texts.
pub fn of_text(alloc: Global, name: FnName, args: &[Arg]) -> Result<Arg, EvalFault>
    requires { IsOfText name }
    ensures { (scales : List ℕ) → Answers result (value_of name scales args.now) }
{
    macro_rules! of {
        ($args:pat => $value:expr) => {
            match args {
                $args => $value,
                _ => Err(EvalFault::NullUsed),
            }
        };
    }
    match name {
        FnName::Length => of!([Arg::Text(text)] => number(text.as_slice().len() as i128)),
        FnName::Concat => of!([Arg::Text(a), Arg::Text(b)] => joined(a, b)),
        FnName::Substr => of!([Arg::Text(text), Arg::Num(from), Arg::Num(n)] => {
            text_of(alloc, part(text.as_slice(), *from, *n))
        }),
        FnName::Trim => of!([Arg::Text(text)] => text_of(alloc, without_spaces(text.as_slice()))),
        _ => unreachable!(),
    }
}
