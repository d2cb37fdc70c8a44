//! Column lists, as `a,b`, and key lists, as `a desc,b`: names with commas between them, of
//! which none stands twice.

pub mod laws;
mod printing;
mod reading;
mod values;

pub use printing::{print_keys, print_names};
pub use reading::{parse_keys, parse_name, parse_names};
pub use values::{read_keys, read_names};
