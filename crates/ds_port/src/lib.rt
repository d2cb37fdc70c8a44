//! What the engine asks of the outside: sources, sinks and files, with those in memory and the real ones.
#![tactic(auto)]

ghost use Rattle.ds_port.specs.FileMap.{MapLaws};

mod disk;
mod failures;
mod file_id;
mod files;
mod memory_files;
mod memory_sink;
mod memory_source;
mod printed;
mod sink;
mod source;

pub use disk::{DiskFiles, DiskInput, DiskOutput};
pub use failures::{FailsAt, Failures, NeverFails};
pub use files::{Files, FindFault, MakeFault};
pub use memory_files::MemFiles;
pub use memory_sink::MemSink;
pub use memory_source::MemSource;
pub use printed::StdoutSink;
pub use sink::Sink;
pub use source::Source;

/// A device has failed.
#[derive(Clone, Copy, Debug, PartialEq, Eq)]
pub struct DeviceFault;

/// A map of files gives what was put into it last.
pub fn map_laws()
    ensures { MapLaws }
{}
