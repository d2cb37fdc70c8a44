//! What the shape of every operator stands on: what may be wrong with a flow's shape, names and the
//! columns that they name, how wide the fields of an output are, and the schemas of inputs by port.
#![tactic(auto)]

mod fault;
pub mod inputs;
pub mod naming;
mod widths;

pub use fault::ShapeWhy;
pub use widths::fields_cause;
