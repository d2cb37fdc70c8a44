ghost use Rattle.std.specs.Prelude.{◌≡◌};

use ds_value::{Bytes, Copied, NoMemory};
use thiserror::Error;

/// A value of an expression. `Num` holds units of a scale that stands beside it, `Date` days since 1970-01-01.
#[derive(Debug, Drop)]
pub enum Arg {
    Null,
    Num(i128),
    Text(Bytes),
    Date(i32),
    Truth(bool),
}

/// Why an expression has no value.
#[derive(Clone, Copy, Debug, PartialEq, Eq, Error)]
pub enum EvalFault {
    #[error("a number or a date is outside its range")]
    Overflow,
    #[error("the divisor is zero")]
    ZeroDivisor,
    #[error("null is used as a value")]
    NullUsed,
    #[error("the text is too long")]
    TooLong,
    #[error("want of memory")]
    Memory,
}

impl From<NoMemory> for EvalFault {
    ghost use Rattle.expr_table.specs.declared.arg.EvalFault.TheVariants as fault;

    ghost from_gives = { λ _ made. made ≡ fault.Memory };

    fn from(_: NoMemory) -> Self {
        EvalFault::Memory
    }
}

impl Copied for Arg {
    fn copied(&self) -> Result<Arg, NoMemory> {
        match self {
            Arg::Null => Ok(Arg::Null),
            Arg::Num(n) => Ok(Arg::Num(*n)),
            Arg::Text(text) => Ok(Arg::Text(text.copied()?)),
            Arg::Date(day) => Ok(Arg::Date(*day)),
            Arg::Truth(truth) => Ok(Arg::Truth(*truth)),
        }
    }
}
