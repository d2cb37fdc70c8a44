//! The words of a command line, and the commands that they spell.
#![tactic(auto)]

mod command;
pub mod laws;
mod options;
mod word;
mod words;

pub use command::{Command, WordFault};
pub use words::read_words;
