//! Printing flows.
#![tactic(auto)]

mod flow;
mod links;
mod method;
mod options;
mod value;

pub use flow::print_flow;
