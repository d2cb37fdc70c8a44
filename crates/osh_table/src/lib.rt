//! The operators' words, and the options of each, which reading and printing share.
#![tactic(auto)]

mod operator;
mod option;

pub use operator::{OpName, operator_named, operator_word};
pub use option::{Form, OptName, OptRow, option_word, options_of, row_named};
