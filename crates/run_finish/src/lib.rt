//! The end of a run: the files of its exports, and the report.
#![tactic(auto)]

mod ending;
mod finish;
mod report;
mod sinks;

pub use ending::{Ending, deliver, refuse};
pub use finish::finish_run;
pub use report::{fault_text, report_text};
pub use sinks::{write_sink, write_sinks};
