//! Files as rows, and rows as files: what an import reads, and what an export writes.
#![tactic(auto)]

mod export;
mod fault;
mod import;
pub mod laws;
mod tally;

pub use export::export_rows;
pub use fault::FileFault;
pub use import::{Imported, import_rows};
pub use tally::Tally;
