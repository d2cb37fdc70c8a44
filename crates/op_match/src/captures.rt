ghost use Rattle.std.specs.Prelude.{◌≡◌, [], OnOk};
ghost use Rattle.op_base.specs.Emits.{Adds};
ghost use Rattle.op_match.specs.Captures.{capture_outs, capture_suits};
ghost use Rattle.op_match.specs.Waiting.{keys_in, rows_waiting, ends_in, sides_stream, IsSound, SidesStand};
ghost use Rattle.op_match.specs.Rounds.{due, remaining};
ghost use Rattle.op_match.specs.Capturing.{capture_rule, first_keys};

use crate::change::Changes;
use crate::sides::{Sides, input};
use ds_schema::Row;
use ds_value::NoMemory;
use op_base::{Emit, Operator, Want};

/// Captures the changes from one input to another, run by run.
#[derive(Debug, Drop)]
pub struct Capture {
    changes: Changes,
    sides: Sides,
}

impl Capture {
    pub(crate) fn new(changes: Changes, sides: Sides) -> Capture
        requires { SidesStand sides.list.items [] }
        ensures stream { ⟦<Capture as Operator>⟧.stream result ≡ sides_stream sides.list.items (capture_outs (first_keys sides.list.items) changes.values.items changes.keep) }
        ensures suits { ⟦<Capture as Operator>⟧.suits result ≡ capture_suits (first_keys sides.list.items) changes.values.items }
        ensures stands { ⟦<Capture as Operator>⟧.Stands result [] }
    {
        Capture { changes, sides }
    }

    /// Takes off what can be taken off, and sends what it gives.
    fn settle(&mut self, emit: &mut Emit) -> Result<(), NoMemory>
        requires { IsSound self.old.sides.list.items }
        ensures sound { OnOk result (IsSound self.new.sides.list.items) }
        ensures changes { OnOk result (self.new.changes ≡ self.old.changes) }
        ensures keys { OnOk result (keys_in self.new.sides.list.items ≡ keys_in self.old.sides.list.items) }
        ensures ends { OnOk result (ends_in self.new.sides.list.items ≡ ends_in self.old.sides.list.items) }
        ensures rows { OnOk result (rows_waiting self.new.sides.list.items ≡ remaining self.old.sides.list.items) }
        ensures emits { OnOk result (Adds emit.old emit.new (due (capture_rule self.old) self.old.sides.list.items)) }
    {
        let alloc = self.changes.alloc;
        while let Some(runs) = self.sides.take_off(alloc)? {
            let runs = runs.as_slice();
            self.changes
                .send_changes(input(runs, 0), input(runs, 1), emit)?;
        }
        Ok(())
    }
}

impl Operator for Capture {
    ghost use Rattle.op_match.specs.Captures.{capture_suits};
    ghost use Rattle.op_match.specs.Waiting.{sides_stream, SidesStand};
    ghost use Rattle.op_match.specs.Capturing.{capture_rule, first_keys};
    ghost use Rattle.op_match.specs.AreStreams.{sides_is};

    ghost stream = { λ s. sides_stream s.sides.list.items (capture_rule s) };

    ghost suits = { λ s. capture_suits (first_keys s.sides.list.items) s.changes.values.items };

    ghost Stands = { λ s feeds. SidesStand s.sides.list.items feeds };

    ghost is_stream = { λ s. sides_is s.sides.list.items (capture_rule s) s.sides.some };

    fn wants(&self) -> Want {
        self.sides.wants()
    }

    fn feed(&mut self, port: u32, row: Row, emit: &mut Emit) -> Result<(), NoMemory> {
        self.sides.add(port, row)?;
        self.settle(emit)?;
        Ok(())
    }

    fn end(&mut self, port: u32, emit: &mut Emit) -> Result<(), NoMemory> {
        self.sides.close(port);
        self.settle(emit)?;
        Ok(())
    }

    fn finish(&mut self, _emit: &mut Emit) -> Result<(), NoMemory> {
        Ok(())
    }
}
