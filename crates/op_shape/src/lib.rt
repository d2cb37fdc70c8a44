//! The shape of one operator: what is wrong at its options and outputs, the fields of its
//! outputs, and what the names and expressions of its options stand for.
#![tactic(auto)]

mod expressions;
mod modifying;
mod options;
mod outputs;
mod parts;
mod setting;

pub use options::own_cause;
pub use outputs::{line_schema, output_schema};
pub use parts::operator_parts;
pub use shape_base::{ShapeWhy, naming};
