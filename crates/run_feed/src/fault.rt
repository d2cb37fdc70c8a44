use ds_value::Name;

/// Why not all inputs of a flow were found.
#[derive(Debug, Drop)]
pub enum InputFault {
    /// The first file that isn't there.
    Absent(Name),
    Device,
    Memory,
}
