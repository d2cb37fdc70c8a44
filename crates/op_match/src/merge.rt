ghost use Rattle.std.specs.Prelude.{◌≡◌, [], OnOk};
ghost use Rattle.op_base.specs.Emits.{Adds};
ghost use Rattle.op_match.specs.Merges.{merge_suits, merge_stream};
ghost use Rattle.op_match.specs.Merged.{meant, merge_rule_of};
ghost use Rattle.op_match.specs.Waiting.{keys_in, rows_waiting, ends_in, IsSound, SidesStand};
ghost use Rattle.op_match.specs.Rounds.{due, remaining};

use crate::layout::Layout;
use crate::sides::Sides;
use ds_schema::Row;
use ds_value::{Items, NoMemory};
use op_base::{Emit, Operator, Want};

/// Merges updates into a master, run by run. Once the first runs of all inputs are complete,
/// those of the least key value are taken off and merged.
#[derive(Debug, Drop)]
pub struct Merger {
    layout: Layout,
    widths: Items<u32>,
    sides: Sides,
}

impl Merger {
    pub(crate) fn new(layout: Layout, widths: Items<u32>, sides: Sides) -> Merger
        requires { SidesStand sides.list.items [] }
        ensures stream { ⟦<Merger as Operator>⟧.stream result ≡ merge_stream (meant (keys_in sides.list.items) layout) }
        ensures suits { ⟦<Merger as Operator>⟧.suits result ≡ merge_suits widths }
        ensures stands { ⟦<Merger as Operator>⟧.Stands result [] }
    {
        Merger {
            layout,
            widths,
            sides,
        }
    }

    /// Takes off what can be taken off, and sends what it gives.
    fn settle(&mut self, emit: &mut Emit) -> Result<(), NoMemory>
        requires { IsSound self.old.sides.list.items }
        ensures sound { OnOk result (IsSound self.new.sides.list.items) }
        ensures layout { OnOk result (self.new.layout ≡ self.old.layout) }
        ensures widths { OnOk result (self.new.widths ≡ self.old.widths) }
        ensures keys { OnOk result (keys_in self.new.sides.list.items ≡ keys_in self.old.sides.list.items) }
        ensures ends { OnOk result (ends_in self.new.sides.list.items ≡ ends_in self.old.sides.list.items) }
        ensures rows { OnOk result (rows_waiting self.new.sides.list.items ≡ remaining self.old.sides.list.items) }
        ensures emits { OnOk result (Adds emit.old emit.new (due (merge_rule_of self.old) self.old.sides.list.items)) }
    {
        let alloc = self.layout.alloc;
        while let Some(runs) = self.sides.take_off(alloc)? {
            self.layout.send_merged(runs.as_slice(), emit)?;
        }
        Ok(())
    }
}

impl Operator for Merger {
    ghost use Rattle.op_match.specs.Merges.{merge_stream, merge_suits};
    ghost use Rattle.op_match.specs.Merged.{meant, merge_rule_of};
    ghost use Rattle.op_match.specs.Waiting.{keys_in, SidesStand};
    ghost use Rattle.op_match.specs.AreStreams.{sides_is};

    ghost stream = { λ s. merge_stream (meant (keys_in s.sides.list.items) s.layout) };

    ghost suits = { λ s. merge_suits s.widths };

    ghost Stands = { λ s feeds. SidesStand s.sides.list.items feeds };

    ghost is_stream = { λ s. sides_is s.sides.list.items (merge_rule_of s) s.sides.some };

    fn wants(&self) -> Want {
        self.sides.wants()
    }

    fn feed(&mut self, port: u32, row: Row, emit: &mut Emit) -> Result<(), NoMemory> {
        self.sides.add(port, row)?;
        self.settle(emit)?;
        Ok(())
    }

    fn end(&mut self, port: u32, emit: &mut Emit) -> Result<(), NoMemory> {
        self.sides.close(port);
        self.settle(emit)?;
        Ok(())
    }

    fn finish(&mut self, _emit: &mut Emit) -> Result<(), NoMemory> {
        Ok(())
    }
}
