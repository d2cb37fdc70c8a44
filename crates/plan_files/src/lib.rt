//! The files of a flow, as what the sources and the exports of its plan have.
#![tactic(auto)]

pub mod laws;
