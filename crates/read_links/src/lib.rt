//! What holds of the links of each flow that is read.
#![tactic(auto)]

pub mod laws;
