//! Groups of rows of one key value: sums, counts, and the least, greatest, first and last values.
#![tactic(auto)]

mod agg;
mod giving;
mod groups;
mod hashed;
pub mod laws;
mod running;
mod sorted;
mod sum;
mod table;
mod tally;

pub use agg::Agg;
pub use groups::{group_hashed, group_sorted};
pub use hashed::GroupHashed;
pub use sorted::GroupSorted;
