use crate::along::{feed_along, is_over};
use crate::apart::{set_aside, take_handed};
use ds_schema::Row;
use ds_value::NoMemory;
use op_base::{Emit, Operator, Want};

/// Two operators in turn: what the first sends on output 0 is fed to the second at once, its end
/// too. What the first sends elsewhere, and its faults, come before what the second emits.
#[derive(Debug, Drop)]
pub struct Then<A, B> {
    pub first: A,
    pub second: B,
}

impl<A: Operator, B: Operator> Operator for Then<A, B> {
    ghost use Rattle.streams.specs.Chains.{then_stream};
    ghost use Rattle.op_chain.specs.InTurn.{suits_both, StandBoth, then_is_stream};

    ghost stream = { λ s. then_stream (A.stream s.first) (B.stream s.second) };

    ghost suits = { λ s. suits_both (A.stream s.first) (A.suits s.first) (B.suits s.second) };

    ghost Stands = { λ s. StandBoth (A.stream s.first) (B.stream s.second) (A.Stands s.first) (B.Stands s.second) };

    ghost is_stream = { λ s. then_is_stream (A.stream s.first) (B.stream s.second) (A.is_stream s.first) };

    fn wants(&self) -> Want {
        self.first.wants()
    }

    fn feed(&mut self, port: u32, row: Row, emit: &mut Emit) -> Result<(), NoMemory> {
        let before = set_aside(emit);
        self.first.feed(port, row, emit)?;
        let rows = take_handed(before, emit)?;
        let over = is_over(&self.first);
        feed_along(&mut self.second, rows, over, emit)?;
        Ok(())
    }

    fn end(&mut self, port: u32, emit: &mut Emit) -> Result<(), NoMemory> {
        let before = set_aside(emit);
        self.first.end(port, emit)?;
        let rows = take_handed(before, emit)?;
        let over = is_over(&self.first);
        feed_along(&mut self.second, rows, over, emit)?;
        Ok(())
    }

    fn finish(&mut self, emit: &mut Emit) -> Result<(), NoMemory> {
        self.first.finish(emit)?;
        self.second.finish(emit)?;
        Ok(())
    }
}
