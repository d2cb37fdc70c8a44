//! Whole files, and the outputs of a run, which are all written before the first becomes a file.
#![tactic(auto)]

mod outputs;
mod transfer;
mod whole;

pub use outputs::{commit_all, discard_all};
pub use transfer::{ReadFault, print, read_front, write_whole};
pub use whole::{LoadFault, load};
