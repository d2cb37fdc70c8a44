//! The command `run`, from the names of its files to its end.
#![tactic(auto)]

mod running;
mod seating;
mod stages;

pub use running::run;
pub use stages::{Prepared, prepare};
