//! Sorting and the removal of duplicates.
#![tactic(auto)]

mod deduplicator;
pub mod laws;
mod marked;
mod orders;
mod sorter;

pub use deduplicator::Remdup;
pub use orders::{remdup, tsort};
pub use sorter::Tsort;
