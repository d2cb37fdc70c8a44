//! The lookup of main rows in a reference.
#![tactic(auto)]

mod columns;
mod key_bytes;
pub mod laws;
mod looker;
mod maker;
mod rows;
mod table;

pub use looker::Lookup;
pub use maker::lookup;
