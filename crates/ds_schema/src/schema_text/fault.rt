//! Why a text is no schema.

use thiserror::Error;

#[derive(Clone, Copy, Debug, PartialEq, Eq, Error)]
pub enum SchemaWhy {
    #[error("no token begins here")]
    Token,
    #[error("no rule goes on here")]
    Syntax,
    #[error("no type is called so")]
    NoType,
    #[error("the number is out of range")]
    Size,
    #[error("the name stands twice, is too long or has a dot")]
    Name,
    #[error("more than 256 fields")]
    Count,
}

#[derive(Clone, Copy, Debug, PartialEq, Eq, Error)]
pub enum SchemaFault {
    #[error("{why} at byte {at}")]
    BadSchema { at: usize, why: SchemaWhy },
    #[error("out of memory")]
    Memory,
}
