//! Schemas as text.

mod fault;
mod fields;
mod kinds;
pub mod laws;
mod printing;

pub use fault::{SchemaFault, SchemaWhy};
pub use fields::{is_field_name, parse_field, parse_schema, read_schema};
pub use kinds::{parse_kind, refuse, size_of};
pub use printing::print_schema;
