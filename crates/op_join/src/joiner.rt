ghost use Rattle.std.specs.Prelude.{◌≡◌, ◌<◌, OnOk, []};
ghost use Rattle.ds_schema.specs.Rows.{ways};
ghost use Rattle.op_base.specs.Emits.{Adds};
ghost use Rattle.op_base.specs.Feeds.{fed, end_at};
ghost use Rattle.op_join.specs.Joining.{join_stream, join_suits};
ghost use Rattle.op_join.specs.Waiting.{meant};
ghost use Rattle.op_join.specs.Rounds.{runs_cmp, turn, ends_known, rows_waiting, row_count, IsSound, MayAdd, TakesOff, due, remaining};

use crate::columns::compare_keys;
use crate::layout::Layout;
use crate::side::Side;
use ds_schema::Row;
use ds_value::NoMemory;
use op_base::{Emit, Operator, Want};
use std::alloc::Global;
use std::cmp::Ordering;

/// Joins two inputs, run by run. Once the first runs of both are complete, those of the least
/// key value are taken off and joined.
#[derive(Debug, Drop)]
pub struct Join {
    layout: Layout,
    left: Side,
    right: Side,
}

impl Join {
    pub(crate) fn new(alloc: Global, layout: Layout) -> Join
        requires { ways layout.left.keys ≡ ways layout.right.keys }
        ensures stream { ⟦<Join as Operator>⟧.stream result ≡ join_stream (meant layout) }
        ensures suits { ⟦<Join as Operator>⟧.suits result ≡ join_suits layout.left.width layout.right.width }
        ensures stands { ⟦<Join as Operator>⟧.Stands result [] }
    {
        Join {
            layout,
            left: Side::new(alloc),
            right: Side::new(alloc),
        }
    }

    /// How the key values of the first runs compare. A run without rows comes last.
    fn runs_cmp(&self) -> Option<Ordering>
        requires { ways self.now.layout.left.keys ≡ ways self.now.layout.right.keys }
        ensures { result ≡ runs_cmp (meant self.now.layout) self.now.left.run.items self.now.right.run.items }
    {
        let keys = (&self.layout.left.keys, &self.layout.right.keys);
        match (
            self.left.run.as_slice().first(),
            self.right.run.as_slice().first(),
        ) {
            (None, None) => None,
            (Some(_), None) => Some(Ordering::Less),
            (None, Some(_)) => Some(Ordering::Greater),
            (Some(a), Some(b)) => Some(compare_keys(keys.0, a, keys.1, b)),
        }
    }

    /// How they compare once both are complete; None where nothing can be taken off.
    fn turn(&self) -> Option<Ordering>
        requires { IsSound self.now }
        ensures { result ≡ turn self.now }
    {
        if self.left.is_complete() && self.right.is_complete() {
            self.runs_cmp()
        } else {
            None
        }
    }

    /// Takes off the left run, which no right run matches.
    fn take_left(&mut self, emit: &mut Emit) -> Result<(), NoMemory>
        requires sound { IsSound self.old }
        requires turn { turn self.old ≡ Some Ordering.Less }
        ensures taken { OnOk result (TakesOff self.old self.new emit.old emit.new) }
        ensures fewer { OnOk result (row_count self.new < row_count self.old) }
    {
        let lefts = self.left.take_run()?;
        self.layout.send_lefts(lefts.as_slice(), emit)?;
        Ok(())
    }

    /// Takes off the right run, which no left run matches.
    fn take_right(&mut self, emit: &mut Emit) -> Result<(), NoMemory>
        requires sound { IsSound self.old }
        requires turn { turn self.old ≡ Some Ordering.Greater }
        ensures taken { OnOk result (TakesOff self.old self.new emit.old emit.new) }
        ensures fewer { OnOk result (row_count self.new < row_count self.old) }
    {
        let rights = self.right.take_run()?;
        self.layout.send_rights(rights.as_slice(), emit)?;
        Ok(())
    }

    /// Takes off both runs, which match.
    fn take_both(&mut self, emit: &mut Emit) -> Result<(), NoMemory>
        requires sound { IsSound self.old }
        requires turn { turn self.old ≡ Some Ordering.Equal }
        ensures taken { OnOk result (TakesOff self.old self.new emit.old emit.new) }
        ensures fewer { OnOk result (row_count self.new < row_count self.old) }
    {
        let lefts = self.left.take_run()?;
        let rights = self.right.take_run()?;
        self.layout
            .send_matched(lefts.as_slice(), rights.as_slice(), emit)?;
        Ok(())
    }

    /// Takes the runs of the least key value off, and sends what they give.
    fn take_off(&mut self, order: Ordering, emit: &mut Emit) -> Result<(), NoMemory>
        requires sound { IsSound self.old }
        requires turn { turn self.old ≡ Some order }
        ensures taken { OnOk result (TakesOff self.old self.new emit.old emit.new) }
        ensures fewer { OnOk result (row_count self.new < row_count self.old) }
    {
        match order {
            Ordering::Less => self.take_left(emit),
            Ordering::Equal => self.take_both(emit),
            Ordering::Greater => self.take_right(emit),
        }
    }

    /// Takes off what can be taken off.
    fn settle(&mut self, emit: &mut Emit) -> Result<(), NoMemory>
        requires { IsSound self.old }
        ensures sound { OnOk result (IsSound self.new) }
        ensures layout { OnOk result (self.new.layout ≡ self.old.layout) }
        ensures ends { OnOk result (ends_known self.new ≡ ends_known self.old) }
        ensures rows { OnOk result (rows_waiting self.new ≡ remaining self.old) }
        ensures emits { OnOk result (Adds emit.old emit.new (due self.old)) }
    {
        while let Some(order) = self.turn() {
            self.take_off(order, emit)?;
        }
        Ok(())
    }

    /// Takes a row in.
    fn add(&mut self, port: u32, row: Row) -> Result<(), NoMemory>
        requires sound { IsSound self.old }
        requires wanted { MayAdd self.old port }
        ensures sound { OnOk result (IsSound self.new) }
        ensures layout { OnOk result (self.new.layout ≡ self.old.layout) }
        ensures ends { OnOk result (ends_known self.new ≡ ends_known self.old) }
        ensures rows { OnOk result (rows_waiting self.new ≡ fed port row (rows_waiting self.old)) }
    {
        if port == 0 {
            self.left.add(&self.layout.left.keys, row)?;
        } else {
            self.right.add(&self.layout.right.keys, row)?;
        }
        Ok(())
    }

    /// No row comes at the port any more.
    fn close(&mut self, port: u32)
        requires sound { IsSound self.old }
        requires wanted { MayAdd self.old port }
        ensures sound { IsSound self.new }
        ensures layout { self.new.layout ≡ self.old.layout }
        ensures ends { ends_known self.new ≡ end_at port (ends_known self.old) }
        ensures rows { rows_waiting self.new ≡ rows_waiting self.old }
    {
        if port == 0 {
            self.left.over = true;
        } else {
            self.right.over = true;
        }
    }
}

impl Operator for Join {
    ghost use Rattle.op_join.specs.Joining.{join_stream, join_suits};
    ghost use Rattle.op_join.specs.Waiting.{meant, JoinStands};
    ghost use Rattle.op_join.specs.AreStreams.{join_is};

    ghost stream = { λ s. join_stream (meant s.layout) };

    ghost suits = { λ s. join_suits s.layout.left.width s.layout.right.width };

    ghost Stands = { λ s feeds. JoinStands s.layout s.left s.right feeds };

    ghost is_stream = { λ s. join_is (meant s.layout) };

    fn wants(&self) -> Want {
        if !self.left.is_complete() {
            Want::Port(0)
        } else if !self.right.is_complete() {
            Want::Port(1)
        } else {
            Want::Nothing
        }
    }

    fn feed(&mut self, port: u32, row: Row, emit: &mut Emit) -> Result<(), NoMemory> {
        self.add(port, row)?;
        self.settle(emit)?;
        Ok(())
    }

    fn end(&mut self, port: u32, emit: &mut Emit) -> Result<(), NoMemory> {
        self.close(port);
        self.settle(emit)?;
        Ok(())
    }

    fn finish(&mut self, _emit: &mut Emit) -> Result<(), NoMemory> {
        Ok(())
    }
}
