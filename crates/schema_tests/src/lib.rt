//! Tests of the crates of schemas, expressions, partitions and packed rows, through their public calls.
#![tactic(auto)]

#[cfg(test)]
mod expressions;
#[cfg(test)]
mod packing;
#[cfg(test)]
mod places;
#[cfg(test)]
mod schemas;
