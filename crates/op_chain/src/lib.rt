//! Operators in turn as one operator: what one sends on its output 0 is fed to the next at once.
#![tactic(auto)]

mod along;
mod apart;
mod chain;

pub use chain::Then;
