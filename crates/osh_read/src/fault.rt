//! Why a text is no flow.

ghost use Rattle.std.specs.Prelude.{◌≡◌};
ghost use Rattle.osh_read.specs.declared.fault.OshFault.TheVariants as fault;

use std::alloc::AllocError;
use thiserror::Error;

#[derive(Clone, Copy, Debug, PartialEq, Eq, Error)]
pub enum OshWhy {
    #[error("the text is too long")]
    TooLong,
    #[error("no token begins here")]
    Token,
    #[error("no rule goes on here")]
    Syntax,
    #[error("no operator is called so")]
    UnknownOperator,
    #[error("the operator has no such option")]
    UnknownOption,
    #[error("the value isn't what the option needs")]
    BadValue,
    #[error("the option stands already, or one that excludes it")]
    DoubleOption,
    #[error("the operator lacks an option")]
    MissingOption,
    #[error("the operator can't have this mark")]
    Constraint,
    #[error("more than 200 operators")]
    TooMany,
    #[error("the data set isn't written once and read once")]
    Unjoined,
}

#[derive(Clone, Copy, Debug, PartialEq, Eq, Error)]
pub enum OshFault {
    #[error("{why} at byte {at}")]
    Bad { at: usize, why: OshWhy },
    #[error("out of memory")]
    Memory,
}

impl From<AllocError> for OshFault {
    ghost from_gives = { λ _ e. e ≡ fault.Memory };

    fn from(_e: AllocError) -> OshFault {
        OshFault::Memory
    }
}
