/// A result of a group, of the column with this number.
#[derive(Clone, Copy, Debug, PartialEq, Eq)]
pub enum Agg {
    Sum(u32),
    /// The number of rows.
    Count,
    Min(u32),
    Max(u32),
    First(u32),
    Last(u32),
}
