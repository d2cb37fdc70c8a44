use crate::Batch;

/// What is handed on along a lane: some rows, or that no more come.
#[derive(Debug, Drop)]
pub enum Msg {
    Rows(Batch),
    End,
}
