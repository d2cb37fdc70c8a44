ghost use Rattle.std.specs.Prelude.{◌≡◌};
ghost use Rattle.config_read.specs.declared.fault.ConfigFault.TheVariants.{Memory};

use std::alloc::AllocError;
use thiserror::Error;

#[derive(Clone, Copy, Debug, PartialEq, Eq, Error)]
pub enum ConfigWhy {
    #[error("the text is too long")]
    TooLong,
    #[error("no token begins here")]
    Token,
    #[error("syntax")]
    Syntax,
    #[error("this can't be a name")]
    Name,
    #[error("a node of this name stands before")]
    DoubleNode,
    #[error("more than 64 nodes")]
    TooMany,
    #[error("no node is in the default pool")]
    NoDefault,
}

#[derive(Clone, Copy, Debug, PartialEq, Eq, Error)]
pub enum ConfigFault {
    /// The first fault, by its place in bytes.
    #[error("{why} at byte {at}")]
    Bad { at: usize, why: ConfigWhy },
    #[error("out of memory")]
    Memory,
}

impl From<AllocError> for ConfigFault {
    ghost from_gives = { λ _ e. e ≡ Memory };

    fn from(_: AllocError) -> Self {
        ConfigFault::Memory
    }
}
