//! By which output each link of a flow leaves its producer.
#![tactic(auto)]

pub mod laws;
