//! Operators of a plan in turn as one: what a plan with combined links does, the plan does too.
#![tactic(auto)]

pub mod laws;
mod worked;

pub use worked::three_in_turn;
