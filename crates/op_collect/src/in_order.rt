ghost use Rattle.std.specs.Prelude.{◌≡◌, ◌≤◌, ◌<◌, []};
ghost use Rattle.streams.specs.Operators.{ordered_stream};

use ds_schema::Row;
use ds_value::NoMemory;
use op_base::{Emit, Operator, Want};

/// One input after another. Those before `turn` have ended.
#[derive(Debug, Drop)]
pub struct Ordered {
    ports: u32,
    turn: u32,
    ghost some: { 0 < ports },
    ghost within: { turn ≤ ports },
}

impl Ordered {
    pub(crate) fn new(ports: u32) -> Ordered
        requires { 0 < ports }
        ensures stream { ⟦<Ordered as Operator>⟧.stream result ≡ ordered_stream ports }
        ensures stands { ⟦<Ordered as Operator>⟧.Stands result [] }
    {
        Ordered { ports, turn: 0 }
    }
}

impl Operator for Ordered {
    ghost use Rattle.std.specs.Prelude.{true};
    ghost use Rattle.op_collect.specs.Standing.{OrderedStands};
    ghost use Rattle.op_collect.specs.AreStreams.{ordered_is};

    ghost stream = { λ s. ordered_stream s.ports };

    ghost suits = { λ s feeds. true };

    ghost Stands = { λ s feeds. OrderedStands s.turn feeds };

    ghost is_stream = { λ s. ordered_is s.ports s.some };

    fn wants(&self) -> Want {
        if self.turn < self.ports {
            Want::Port(self.turn)
        } else {
            Want::Nothing
        }
    }

    fn feed(&mut self, _port: u32, row: Row, emit: &mut Emit) -> Result<(), NoMemory> {
        emit.send(0, row)?;
        Ok(())
    }

    fn end(&mut self, _port: u32, _emit: &mut Emit) -> Result<(), NoMemory> {
        self.turn += 1;
        Ok(())
    }

    fn finish(&mut self, _emit: &mut Emit) -> Result<(), NoMemory> {
        Ok(())
    }
}
