//! Tests of the crates of operators of several inputs, through their public calls.
#![tactic(auto)]

#[cfg(test)]
mod collectors;
#[cfg(test)]
mod joins;
#[cfg(test)]
mod lookups;
#[cfg(test)]
mod matching;
#[cfg(test)]
mod ports;
#[cfg(test)]
mod running;
