/// What a lookup does with a main row whose key has no reference row.
#[derive(Clone, Copy, Debug, PartialEq, Eq)]
pub enum Missing {
    /// Kept, with nulls for the reference's columns.
    Continue,
    Drop,
    /// A fault.
    Fail,
    /// The main row goes to output 1.
    Reject,
}
