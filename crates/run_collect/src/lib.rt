//! Collectors run over whole lists: the lists of several partitions made one.
#![tactic(auto)]

mod collect;

pub use collect::{merge_lists, take_turns};
