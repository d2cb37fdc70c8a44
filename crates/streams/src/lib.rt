//! Operators as streams, players and nets, the step core, and their laws.
#![tactic(auto)]

pub mod laws;
