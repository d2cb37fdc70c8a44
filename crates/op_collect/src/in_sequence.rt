ghost use Rattle.std.specs.Prelude.{◌≡◌, ◌<◌, []};
ghost use Rattle.streams.specs.Operators.{ordered_stream};

use crate::Ordered;
use ds_schema::Row;
use ds_value::NoMemory;
use op_base::{Emit, Operator, Want};

/// The funnel of one input after another.
#[derive(Debug, Drop)]
pub struct Sequence {
    inputs: Ordered,
}

impl Sequence {
    pub(crate) fn new(ports: u32) -> Sequence
        requires { 0 < ports }
        ensures stream { ⟦<Sequence as Operator>⟧.stream result ≡ ordered_stream ports }
        ensures stands { ⟦<Sequence as Operator>⟧.Stands result [] }
    {
        Sequence {
            inputs: Ordered::new(ports),
        }
    }
}

impl Operator for Sequence {
    ghost use Rattle.op_collect.specs.AreStreams.{ordered_is};

    ghost stream = { λ s. ⟦<Ordered as Operator>⟧.stream s.inputs };

    ghost suits = { λ s. ⟦<Ordered as Operator>⟧.suits s.inputs };

    ghost Stands = { λ s. ⟦<Ordered as Operator>⟧.Stands s.inputs };

    ghost is_stream = { λ s. ordered_is s.inputs.ports s.inputs.some };

    fn wants(&self) -> Want {
        self.inputs.wants()
    }

    fn feed(&mut self, port: u32, row: Row, emit: &mut Emit) -> Result<(), NoMemory> {
        self.inputs.feed(port, row, emit)
    }

    fn end(&mut self, port: u32, emit: &mut Emit) -> Result<(), NoMemory> {
        self.inputs.end(port, emit)
    }

    fn finish(&mut self, emit: &mut Emit) -> Result<(), NoMemory> {
        self.inputs.finish(emit)
    }
}
