//! Collectors and funnels: several inputs made one.
#![tactic(auto)]

mod any_order;
mod in_order;
mod in_sequence;
mod in_turn;
pub mod laws;
mod makers;
mod merging;
mod ports;

pub use any_order::Gather;
pub use in_order::Ordered;
pub use in_sequence::Sequence;
pub use in_turn::Round;
pub use makers::{gather, ordered, round, sequence, sort_merge};
pub use merging::SortMerge;
