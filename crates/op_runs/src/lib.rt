//! Operators that work key value by key value, run by run, as streams of any number of ports.
#![tactic(auto)]

pub mod laws;
