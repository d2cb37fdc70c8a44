//! Which links of a flow's plan are combined, so that one player runs the operators along them.
#![tactic(auto)]

pub mod laws;
