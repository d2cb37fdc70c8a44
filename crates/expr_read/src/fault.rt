ghost use Rattle.std.specs.Prelude.{◌≡◌};
ghost use Rattle.expr_read.specs.declared.fault.ExprFault.TheVariants.{Memory};

use std::alloc::AllocError;
use thiserror::Error;

#[derive(Clone, Copy, Debug, PartialEq, Eq, Error)]
pub enum ExprFault {
    /// The first place from which no expression goes on.
    #[error("no expression goes on at byte {at}")]
    Syntax { at: usize },
    #[error("out of memory")]
    Memory,
}

impl From<AllocError> for ExprFault {
    ghost from_gives = { λ _ e. e ≡ Memory };

    fn from(_: AllocError) -> Self {
        ExprFault::Memory
    }
}
