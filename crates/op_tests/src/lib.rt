//! Tests of the crates of operators of one input, through their public calls.
#![tactic(auto)]

#[cfg(test)]
mod emitting;
#[cfg(test)]
mod groups;
#[cfg(test)]
mod orders;
#[cfg(test)]
mod rows;
