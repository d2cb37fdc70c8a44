ghost use Rattle.std.specs.Prelude.{◌≡◌, ◌≤◌, ◌<◌, IfOk, length, []};
ghost use Rattle.streams.specs.Operators.{round_robin_stream};

use crate::ports::first_open;
use ds_schema::Row;
use ds_value::NoMemory;
use op_base::{Emit, Operator, Want};
use std::alloc::Global;

/// The inputs in turn, without those that have ended. `turn` is the port after the one that
/// was fed last.
#[derive(Debug, Drop)]
pub struct Round {
    ports: u32,
    over: Vec<bool>,
    turn: u32,
    ghost some: { 0 < ports },
    ghost each: { length over.items ≡ ports },
    ghost within: { turn ≤ ports },
}

impl Round {
    pub(crate) fn new(alloc: Global, ports: u32) -> Result<Round, NoMemory>
        requires { 0 < ports }
        ensures stream { IfOk result (λ op. ⟦<Round as Operator>⟧.stream op ≡ round_robin_stream ports) }
        ensures stands { IfOk result (λ op. ⟦<Round as Operator>⟧.Stands op []) }
    {
        let over = vec![in alloc; false; ports as usize]?;
        Ok(Round {
            ports,
            over,
            turn: 0,
        })
    }
}

impl Operator for Round {
    ghost use Rattle.std.specs.Prelude.{true};
    ghost use Rattle.op_collect.specs.Standing.{RoundStands};
    ghost use Rattle.op_collect.specs.AreStreams.{round_is};

    ghost stream = { λ s. round_robin_stream s.ports };

    ghost suits = { λ s feeds. true };

    ghost Stands = { λ s feeds. RoundStands s.over.items s.turn feeds };

    ghost is_stream = { λ s. round_is s.ports s.some };

    fn wants(&self) -> Want {
        let over = self.over.as_slice();
        match first_open(over, self.turn, self.ports) {
            Some(port) => Want::Port(port),
            None => match first_open(over, 0, self.turn) {
                Some(port) => Want::Port(port),
                None => Want::Nothing,
            },
        }
    }

    fn feed(&mut self, port: u32, row: Row, emit: &mut Emit) -> Result<(), NoMemory> {
        self.turn = port + 1;
        emit.send(0, row)?;
        Ok(())
    }

    fn end(&mut self, port: u32, _emit: &mut Emit) -> Result<(), NoMemory> {
        self.turn = port + 1;
        self.over[port as usize] = true;
        Ok(())
    }

    fn finish(&mut self, _emit: &mut Emit) -> Result<(), NoMemory> {
        Ok(())
    }
}
