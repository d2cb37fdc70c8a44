//! A run of a flow in memory: each operator in turn, over the lists of its partitions.
#![tactic(auto)]

mod by_row;
pub mod delivery;
mod emitting;
mod grouping;
mod held;
mod lanes;
mod matching;
mod numbering;
mod partitions;
mod ran;
mod run;
mod tally;
mod whole;
pub mod work;

pub use lanes::Partitions;
pub use ran::Ran;
pub use run::run_lists;
