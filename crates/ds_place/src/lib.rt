//! The partition in which a row lies.
#![tactic(auto)]

mod hash;
mod place;

pub use hash::fnv;
pub use place::{Place, partition_of};
