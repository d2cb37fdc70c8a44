//! Tests of the crates of values and of the table of functions, through their public calls.
#![tactic(auto)]

#[cfg(test)]
mod edges;
#[cfg(test)]
mod names;
#[cfg(test)]
mod table;
#[cfg(test)]
mod values;
