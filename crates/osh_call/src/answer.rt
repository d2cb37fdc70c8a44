use config_read::ConfigWhy;
use ds_value::Name;
use op_shape::ShapeWhy;
use osh_read::OshWhy;

/// How a call ends.
#[derive(Drop)]
pub enum Answer {
    /// The words are no command.
    Usage,
    /// A command or a part of a flow that isn't built.
    Unbuilt,
    BadFlow { at: usize, why: OshWhy },
    BadConfig { at: usize, why: ConfigWhy },
    BadShape { why: ShapeWhy, op: u32 },
    /// A file that is named isn't there.
    Absent(Name),
    /// The verdict is printed, and the flow is refused.
    Refused,
    /// The verdict is printed, and the flow is accepted.
    Checked,
    /// A link's `same` joins unequal degrees.
    Mismatch { link: u32, from: u32, to: u32 },
    Crowded { players: u32 },
    /// The files are made, and the report is printed.
    Done,
    /// The flow has record faults, which are printed.
    Faulty,
    Device,
    Memory,
}
