/// Why a line is no record, or a row can't be written.
#[derive(Clone, Copy, Debug, PartialEq, Eq)]
pub enum RecordFault {
    Bad,
    Memory,
}
