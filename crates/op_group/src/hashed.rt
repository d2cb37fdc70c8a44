ghost use Rattle.std.specs.Prelude.{◌≡◌, []};
ghost use Rattle.op_group.specs.Groups.{hashed_stream, group_suits};

use crate::Agg;
use crate::table::{Table, add_row, give_each};
use ds_schema::{KeyList, Row};
use ds_value::NoMemory;
use op_base::{Emit, Operator, Want};
use std::alloc::Global;
use std::mem;

/// One row for each key value, in the order of first rows, once all rows are there.
#[derive(Debug, Drop)]
pub struct GroupHashed {
    keys: KeyList,
    aggs: Vec<Agg>,
    alloc: Global,
    table: Table,
    over: bool,
}

impl GroupHashed {
    pub(crate) fn new(alloc: Global, keys: KeyList, aggs: Vec<Agg>) -> GroupHashed
        ensures stream { ⟦<GroupHashed as Operator>⟧.stream result ≡ hashed_stream keys aggs.items }
        ensures suits { ⟦<GroupHashed as Operator>⟧.suits result ≡ group_suits keys aggs.items }
        ensures stands { ⟦<GroupHashed as Operator>⟧.Stands result [] }
    {
        GroupHashed {
            keys,
            aggs,
            alloc,
            table: Table::new(alloc),
            over: false,
        }
    }
}

impl Operator for GroupHashed {
    ghost use Rattle.op_group.specs.Groups.{hashed_stream, group_suits};
    ghost use Rattle.op_group.specs.Tables.{HashedStands};
    ghost use Rattle.op_group.specs.AreStreams.{hashed_is};

    ghost stream = { λ s. hashed_stream s.keys s.aggs.items };

    ghost suits = { λ s. group_suits s.keys s.aggs.items };

    ghost Stands = { λ s feeds. HashedStands s.keys s.aggs.items s.over s.table.entries feeds };

    ghost is_stream = { λ s. hashed_is s.keys s.aggs.items };

    fn wants(&self) -> Want {
        if self.over {
            Want::Nothing
        } else {
            Want::Port(0)
        }
    }

    fn feed(&mut self, _port: u32, row: Row, _emit: &mut Emit) -> Result<(), NoMemory> {
        add_row(self.alloc, &self.keys, &self.aggs, &mut self.table, &row)?;
        Ok(())
    }

    fn end(&mut self, _port: u32, emit: &mut Emit) -> Result<(), NoMemory> {
        self.over = true;
        let table = mem::replace(&mut self.table, Table::new(self.alloc));
        give_each(self.alloc, table, emit)?;
        Ok(())
    }

    fn finish(&mut self, _emit: &mut Emit) -> Result<(), NoMemory> {
        Ok(())
    }
}
