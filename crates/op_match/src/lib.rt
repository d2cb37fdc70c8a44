//! Merges of updates into a master, and changes between two inputs, by keys.
#![tactic(auto)]

mod captures;
mod change;
mod columns;
pub mod laws;
mod layout;
mod maker;
mod merge;
mod side;
mod sides;

pub use captures::Capture;
pub use maker::{capture, merger};
pub use merge::Merger;
