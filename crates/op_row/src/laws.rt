//! What the streams of this crate give of whole lists.
ghost use Rattle.op_row.specs.Laws.{RowsAlone};

/// What an operator by rows gives of a list is what its rule means, on each output and of faults.
pub fn rows_alone()
    ensures { RowsAlone }
{}
