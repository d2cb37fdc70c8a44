//! What is asked of the choices for a flow's links, its routes and its inserted sorts, and why a legal
//! run by them keeps what the flow means.
#![tactic(auto)]

pub mod laws;
