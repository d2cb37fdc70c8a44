ghost use Rattle.std.specs.Prelude.{◌≡◌, OnOk, []};
ghost use Rattle.op_base.specs.Emits.{Adds};
ghost use Rattle.op_order.specs.Ordered.{remdup_stream, row_gain, end_gain};

use ds_schema::{KeyList, Row, compare_rows, copy_row};
use ds_value::{Copied, NoMemory};
use op_base::{Emit, Operator, Want};
use std::alloc::Global;
use std::cmp::Ordering;

/// The first row of each run of rows of one key value at once, or the last of each once the
/// run is complete.
#[derive(Debug, Drop)]
pub struct Remdup {
    keys: KeyList,
    last: bool,
    alloc: Global,
    newest: Option<Row>,
    over: bool,
}

/// Emits what a row gives after the newest one before it.
fn emit_between(
    alloc: Global,
    keys: &KeyList,
    last: bool,
    before: Option<Row>,
    row: &Row,
    emit: &mut Emit,
) -> Result<(), NoMemory>
    ensures { OnOk result (Adds emit.old emit.new (row_gain keys.now last before row.now)) }
{
    match before {
        None => {
            if last {
                return Ok(());
            }
            emit.send(0, copy_row(alloc, row)?)?;
            Ok(())
        }
        Some(old) => {
            if compare_rows(keys, &old, row) == Ordering::Equal {
                return Ok(());
            }
            if last {
                emit.send(0, old)?;
            } else {
                emit.send(0, copy_row(alloc, row)?)?;
            }
            Ok(())
        }
    }
}

/// Emits the newest row at the end, where the last of each run is kept.
fn emit_newest(last: bool, before: Option<Row>, emit: &mut Emit) -> Result<(), NoMemory>
    ensures { OnOk result (Adds emit.old emit.new (end_gain last before)) }
{
    match before {
        None => Ok(()),
        Some(old) => {
            if last {
                emit.send(0, old)?;
            }
            Ok(())
        }
    }
}

impl Remdup {
    pub(crate) fn new(alloc: Global, keys: KeyList, last: bool) -> Remdup
        ensures stream { ⟦<Remdup as Operator>⟧.stream result ≡ remdup_stream keys last }
        ensures stands { ⟦<Remdup as Operator>⟧.Stands result [] }
    {
        Remdup {
            keys,
            last,
            alloc,
            newest: None,
            over: false,
        }
    }
}

impl Operator for Remdup {
    ghost use Rattle.std.specs.Prelude.{true};
    ghost use Rattle.op_order.specs.Ordered.{remdup_stream, RemdupStands};
    ghost use Rattle.op_order.specs.AreStreams.{remdup_is};

    ghost stream = { λ s. remdup_stream s.keys s.last };

    ghost suits = { λ s feeds. true };

    ghost Stands = { λ s feeds. RemdupStands s.over s.newest feeds };

    ghost is_stream = { λ s. remdup_is s.keys s.last };

    fn wants(&self) -> Want {
        if self.over {
            Want::Nothing
        } else {
            Want::Port(0)
        }
    }

    fn feed(&mut self, _port: u32, row: Row, emit: &mut Emit) -> Result<(), NoMemory> {
        let before = self.newest.take();
        emit_between(self.alloc, &self.keys, self.last, before, &row, emit)?;
        self.newest = Some(row);
        Ok(())
    }

    fn end(&mut self, _port: u32, emit: &mut Emit) -> Result<(), NoMemory> {
        self.over = true;
        let before = self.newest.take();
        emit_newest(self.last, before, emit)?;
        Ok(())
    }

    fn finish(&mut self, _emit: &mut Emit) -> Result<(), NoMemory> {
        Ok(())
    }
}
