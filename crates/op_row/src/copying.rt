ghost use Rattle.std.specs.Prelude.{◌≡◌, OnOk, true, []};
ghost use Rattle.op_base.specs.Emits.{Adds};
ghost use Rattle.op_base.specs.RowOperators.{copy_rule};
ghost use Rattle.op_row.specs.ByRow.{copier_stream, to_outputs};

use ds_schema::{Row, copy_row};
use ds_value::NoMemory;
use op_base::{Emit, Operator, Want};
use std::alloc::Global;

/// Each row to each output.
#[derive(Debug, Drop)]
pub struct Copier {
    outs: u32,
    alloc: Global,
    over: bool,
}

/// Sends copies of a row to the first outputs.
fn send_copies(alloc: Global, outs: u32, row: &Row, emit: &mut Emit) -> Result<(), NoMemory>
    ensures { OnOk result (Adds emit.old emit.new (to_outputs copy_rule outs row.now)) }
{
    for out in 0..outs {
        emit.send(out, copy_row(alloc, row)?)?;
    }
    Ok(())
}

/// Sends a row to the first outputs. The last needs no copy.
fn send_to_each(alloc: Global, outs: u32, row: Row, emit: &mut Emit) -> Result<(), NoMemory>
    ensures { OnOk result (Adds emit.old emit.new (to_outputs copy_rule outs row)) }
{
    if outs == 0 {
        return Ok(());
    }
    let last = outs - 1;
    send_copies(alloc, last, &row, emit)?;
    emit.send(last, row)?;
    Ok(())
}

impl Copier {
    pub(crate) fn new(alloc: Global, outs: u32) -> Copier
        ensures stream { ⟦<Copier as Operator>⟧.stream result ≡ copier_stream outs }
        ensures suits { ⟦<Copier as Operator>⟧.suits result ≡ (λ feeds. true) }
        ensures stands { ⟦<Copier as Operator>⟧.Stands result [] }
    {
        Copier {
            outs,
            alloc,
            over: false,
        }
    }
}

impl Operator for Copier {
    ghost use Rattle.std.specs.Prelude.{true};
    ghost use Rattle.streams.specs.Streams.{ended};
    ghost use Rattle.op_base.specs.RowOperators.{copy_rule};
    ghost use Rattle.op_row.specs.ByRow.{copier_stream};
    ghost use Rattle.op_row.specs.AreStreams.{by_row_is};

    ghost stream = { λ s. copier_stream s.outs };

    ghost suits = { λ s feeds. true };

    ghost Stands = { λ s feeds. s.over ≡ ended 0 feeds };

    ghost is_stream = { λ s. by_row_is copy_rule s.outs };

    fn wants(&self) -> Want {
        if self.over {
            Want::Nothing
        } else {
            Want::Port(0)
        }
    }

    fn feed(&mut self, _port: u32, row: Row, emit: &mut Emit) -> Result<(), NoMemory> {
        send_to_each(self.alloc, self.outs, row, emit)?;
        Ok(())
    }

    fn end(&mut self, _port: u32, _emit: &mut Emit) -> Result<(), NoMemory> {
        self.over = true;
        Ok(())
    }

    fn finish(&mut self, _emit: &mut Emit) -> Result<(), NoMemory> {
        Ok(())
    }
}
