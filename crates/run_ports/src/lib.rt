//! Operators of any number of inputs, run over whole lists.
#![tactic(auto)]

mod input;
mod run;

pub use run::run_ports;
