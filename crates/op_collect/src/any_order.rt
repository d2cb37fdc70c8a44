ghost use Rattle.std.specs.Prelude.{◌≡◌, ◌<◌, IfOk, length, []};
ghost use Rattle.streams.specs.Operators.{any_stream};

use crate::ports::first_open;
use ds_schema::Row;
use ds_value::NoMemory;
use op_base::{Emit, Operator, Want};
use std::alloc::Global;

/// Rows of any input as they come.
#[derive(Debug, Drop)]
pub struct Gather {
    ports: u32,
    over: Vec<bool>,
    ghost some: { 0 < ports },
    ghost each: { length over.items ≡ ports },
}

impl Gather {
    pub(crate) fn new(alloc: Global, ports: u32) -> Result<Gather, NoMemory>
        requires { 0 < ports }
        ensures stream { IfOk result (λ op. ⟦<Gather as Operator>⟧.stream op ≡ any_stream ports) }
        ensures stands { IfOk result (λ op. ⟦<Gather as Operator>⟧.Stands op []) }
    {
        let over = vec![in alloc; false; ports as usize]?;
        Ok(Gather { ports, over })
    }
}

impl Operator for Gather {
    ghost use Rattle.std.specs.Prelude.{true};
    ghost use Rattle.op_collect.specs.Standing.{GatherStands};
    ghost use Rattle.op_collect.specs.AreStreams.{gather_is};

    ghost stream = { λ s. any_stream s.ports };

    ghost suits = { λ s feeds. true };

    ghost Stands = { λ s feeds. GatherStands s.over.items feeds };

    ghost is_stream = { λ s. gather_is s.ports s.some };

    fn wants(&self) -> Want {
        match first_open(self.over.as_slice(), 0, self.ports) {
            Some(_) => Want::Any,
            None => Want::Nothing,
        }
    }

    fn feed(&mut self, _port: u32, row: Row, emit: &mut Emit) -> Result<(), NoMemory> {
        emit.send(0, row)?;
        Ok(())
    }

    fn end(&mut self, port: u32, _emit: &mut Emit) -> Result<(), NoMemory> {
        self.over[port as usize] = true;
        Ok(())
    }

    fn finish(&mut self, _emit: &mut Emit) -> Result<(), NoMemory> {
        Ok(())
    }
}
