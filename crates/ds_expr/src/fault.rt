ghost use Rattle.std.specs.Prelude.{◌≡◌};
ghost use Rattle.ds_expr.specs.declared.fault.TypeFault.TheVariants.{Memory};

use ds_value::NoMemory;
use std::alloc::{AllocError, AllocFailed};
use thiserror::Error;

#[derive(Clone, Copy, Debug, PartialEq, Eq, Error)]
pub enum TypeFault {
    /// The place of the first node, operands first, that isn't typed.
    #[error("this isn't typed, at byte {at}")]
    Wrong { at: usize },
    #[error("out of memory")]
    Memory,
}

impl From<AllocError> for TypeFault {
    ghost from_gives = { λ _ e. e ≡ Memory };

    fn from(_: AllocError) -> Self {
        TypeFault::Memory
    }
}

impl From<NoMemory> for TypeFault {
    ghost from_gives = { λ _ e. e ≡ Memory };

    fn from(_: NoMemory) -> Self {
        TypeFault::Memory
    }
}
