//! Joins of two inputs by keys.
#![tactic(auto)]

mod columns;
mod joiner;
mod kind;
pub mod laws;
mod layout;
mod maker;
mod side;

pub use joiner::Join;
pub use kind::JoinKind;
pub use maker::join;
