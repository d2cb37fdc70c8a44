//! Why each legal execution of a flow's plan is a legal run of the flow.
#![tactic(auto)]

pub mod laws;
