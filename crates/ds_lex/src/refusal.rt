//! Why a reader stops.

ghost use Rattle.std.specs.Prelude.{◌≡◌};
ghost use Rattle.ds_lex.specs.declared.refusal.Stop.TheVariants as stop;

use std::alloc::{AllocError, AllocFailed};

/// Where reading doesn't go on: the tokens came to an end too soon, or the token
/// at a place is refused for a cause.
#[derive(Clone, Copy, Debug, PartialEq, Eq)]
pub enum Refusal<W> {
    AtEnd,
    At { at: usize, why: W },
}

/// A refusal, or want of memory.
#[derive(Clone, Copy, Debug, PartialEq, Eq)]
pub enum Stop<W> {
    Refused(Refusal<W>),
    Memory,
}

impl<W> From<Refusal<W>> for Stop<W> {
    ghost from_gives = { λ r e. e ≡ stop.Refused r };

    fn from(refusal: Refusal<W>) -> Stop<W> {
        Stop::Refused(refusal)
    }
}

impl<W> From<AllocError> for Stop<W> {
    ghost from_gives = { λ _ e. e ≡ stop.Memory };

    fn from(_e: AllocError) -> Stop<W> {
        Stop::Memory
    }
}

impl<W, T: Drop> From<AllocFailed<T>> for Stop<W> {
    ghost from_gives = { λ _ e. e ≡ stop.Memory };

    fn from(_e: AllocFailed<T>) -> Stop<W> {
        Stop::Memory
    }
}
