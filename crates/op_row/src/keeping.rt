ghost use Rattle.std.specs.Prelude.{◌≡◌, OnOk, []};
ghost use Rattle.op_row.specs.ByRow.{modify_stream, each_row, has_columns};

use ds_schema::{Row, project};
use ds_value::NoMemory;
use op_base::{Emit, Operator, Want};
use std::alloc::Global;

/// Rows of the kept columns.
#[derive(Debug, Drop)]
pub struct Modify {
    cols: Vec<u32>,
    alloc: Global,
    over: bool,
}

impl Modify {
    pub(crate) fn new(alloc: Global, cols: Vec<u32>) -> Modify
        ensures stream { ⟦<Modify as Operator>⟧.stream result ≡ modify_stream cols.items }
        ensures suits { ⟦<Modify as Operator>⟧.suits result ≡ each_row (has_columns cols.items) }
        ensures stands { ⟦<Modify as Operator>⟧.Stands result [] }
    {
        Modify {
            cols,
            alloc,
            over: false,
        }
    }
}

impl Operator for Modify {
    ghost use Rattle.streams.specs.Streams.{ended};
    ghost use Rattle.op_base.specs.RowOperators.{modify_rule};
    ghost use Rattle.op_row.specs.ByRow.{modify_stream, each_row, has_columns};
    ghost use Rattle.op_row.specs.AreStreams.{by_row_is};

    ghost stream = { λ s. modify_stream s.cols.items };

    ghost suits = { λ s. each_row (has_columns s.cols.items) };

    ghost Stands = { λ s feeds. s.over ≡ ended 0 feeds };

    ghost is_stream = { λ s. by_row_is (modify_rule s.cols.items) 1 };

    fn wants(&self) -> Want {
        if self.over {
            Want::Nothing
        } else {
            Want::Port(0)
        }
    }

    fn feed(&mut self, _port: u32, row: Row, emit: &mut Emit) -> Result<(), NoMemory> {
        let kept = project(self.alloc, &row, self.cols.as_slice())?;
        emit.send(0, kept)?;
        Ok(())
    }

    fn end(&mut self, _port: u32, _emit: &mut Emit) -> Result<(), NoMemory> {
        self.over = true;
        Ok(())
    }

    fn finish(&mut self, _emit: &mut Emit) -> Result<(), NoMemory> {
        Ok(())
    }
}
