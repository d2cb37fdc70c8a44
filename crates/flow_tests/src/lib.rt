//! Tests of the crates of shapes and of files as rows, through their public calls.
#![tactic(auto)]

#[cfg(test)]
mod files;
#[cfg(test)]
mod files_of_kinds;
#[cfg(test)]
mod flow_shapes;
#[cfg(test)]
mod keyed_flow_shapes;
#[cfg(test)]
mod keyed_op_shapes;
#[cfg(test)]
mod matched_shapes;
#[cfg(test)]
mod op_shapes;
