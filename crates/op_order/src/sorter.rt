ghost use Rattle.std.specs.Prelude.{◌≡◌, OnOk, OnErr, map, List, []};
ghost use Rattle.streams.specs.Streams.{sends};
ghost use Rattle.op_base.specs.Emits.{Adds};
ghost use Rattle.op_order.specs.Ordered.{tsort_stream};
ghost use Rattle.op_order.specs.Marks.{rows_in};

use crate::marked::{Marked, arrange, mark_row};
use ds_schema::{KeyList, Row};
use ds_value::NoMemory;
use op_base::{Emit, Operator, Want};
use std::alloc::Global;
use std::mem;

/// All rows in the order of the keys, once the last has come; rows that tie stand as they came.
#[derive(Debug, Drop)]
pub struct Tsort {
    keys: KeyList,
    rows: Vec<Marked>,
    over: bool,
}

/// Sends each row.
fn send_all(rows: Vec<Marked>, emit: &mut Emit) -> Result<(), NoMemory>
    ensures { OnOk result (Adds emit.old emit.new (map (sends 0) (rows_in rows.items))) }
{
    for row in rows {
        emit.send(0, row.row)?;
    }
    Ok(())
}

impl Tsort {
    pub(crate) fn new(alloc: Global, keys: KeyList) -> Tsort
        ensures stream { ⟦<Tsort as Operator>⟧.stream result ≡ tsort_stream keys }
        ensures stands { ⟦<Tsort as Operator>⟧.Stands result [] }
    {
        Tsort {
            keys,
            rows: Vec::new(alloc),
            over: false,
        }
    }
}

impl Operator for Tsort {
    ghost use Rattle.std.specs.Prelude.{true};
    ghost use Rattle.op_order.specs.Ordered.{tsort_stream, TsortStands};
    ghost use Rattle.op_order.specs.AreStreams.{tsort_is};

    ghost stream = { λ s. tsort_stream s.keys };

    ghost suits = { λ s feeds. true };

    ghost Stands = { λ s feeds. TsortStands s.keys s.over s.rows.items feeds };

    ghost is_stream = { λ s. tsort_is s.keys };

    fn wants(&self) -> Want {
        if self.over {
            Want::Nothing
        } else {
            Want::Port(0)
        }
    }

    fn feed(&mut self, _port: u32, row: Row, _emit: &mut Emit) -> Result<(), NoMemory> {
        self.rows.push(mark_row(&self.keys, row))?;
        Ok(())
    }

    fn end(&mut self, _port: u32, emit: &mut Emit) -> Result<(), NoMemory> {
        let alloc = *self.rows.allocator();
        self.over = true;
        let mut rows = mem::replace(&mut self.rows, Vec::new(alloc));
        arrange(&self.keys, &mut rows)?;
        send_all(rows, emit)?;
        Ok(())
    }

    fn finish(&mut self, _emit: &mut Emit) -> Result<(), NoMemory> {
        Ok(())
    }
}
