//! The plan of a flow: its operators and inserted sorts as operators of players, and the links between them.
#![tactic(auto)]

pub mod laws;
