//! The lines of a file, and records as text.
#![tactic(auto)]

mod cell;
mod columns;
mod fault;
mod fields;
mod form;
mod line_reader;
mod meaning;
mod record;
mod write_columns;
mod write_fields;

pub use fault::RecordFault;
pub use form::{Form, form_fits};
pub use line_reader::{LineEnd, LineFault, Lines, lines_again};
pub use record::{one_row, read_record, reads_back, spelled_fits, write_line, write_record};
