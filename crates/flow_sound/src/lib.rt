//! Why an accepted flow of the operators that are built is right: what its shape, its verdict and a
//! legal run say of its links, its exports and its faults.
#![tactic(auto)]

pub mod laws;
