//! The shape of a flow: the schema of each link, names turned to columns, and the order of the
//! operators; or its first fault.
#![tactic(auto)]

mod answers;
mod cycle;
mod fault;
mod files;
mod finding;
mod giving;
mod inputs;
mod methods;
mod operator;
mod outputs;
mod ports;
mod reading;
mod sequence;
mod shaping;
mod typing;

pub use answers::one_answer;
pub use fault::ShapeFault;
pub use op_shape::ShapeWhy;
pub use sequence::{one_order, ordered_is_free};
pub use shaping::shape;
