ghost use Rattle.std.specs.Prelude.{◌≡◌, ◌∷◌, [], List, IfOk, OnOk, true};
ghost use Rattle.std.specs.List.{list_all};
ghost use Rattle.ds_schema.specs.Rows.{cols, val};
ghost use Rattle.op_base.specs.Columns.{Row as Cells};
ghost use Rattle.op_base.specs.Emits.{Adds};
ghost use Rattle.op_group.specs.declared.agg.Agg.{Agg as Result};
ghost use Rattle.op_group.specs.Results.{results};
ghost use Rattle.op_group.specs.Groups.{sorted_stream, same_key, run_group, agg_suits, row_suits, group_suits};
ghost use Rattle.op_group.specs.Kept.{TallyStands, given};
ghost use Rattle.op_group.specs.Runs.{RunStands, Turns};

use crate::Agg;
use crate::giving::{give, key_values};
use crate::tally::Tally;
use ds_schema::{KeyList, Row, compare_rows};
use ds_value::NoMemory;
use op_base::{Emit, Operator, Want};
use std::alloc::Global;

/// The run of rows of one key value that came last.
#[derive(Debug, Drop)]
pub struct Run {
    pub first: Row,
    pub tally: Tally,
}

/// One row for each run of rows of one key value, once the run is complete.
#[derive(Debug, Drop)]
pub struct GroupSorted {
    keys: KeyList,
    aggs: Vec<Agg>,
    alloc: Global,
    run: Option<Run>,
    over: bool,
}

/// Whether two rows have one key value.
fn same_key(keys: &KeyList, left: &Row, right: &Row) -> bool
    ensures { result ≡ same_key keys.now left.now right.now }
{
    compare_rows(keys, left, right).is_eq()
}

impl Run {
    fn new(alloc: Global, aggs: &[Agg], first: Row) -> Result<Run, NoMemory>
        requires { list_all (agg_suits first) aggs.now ≡ true }
        ensures first { IfOk result (λ run. run.first ≡ first) }
        ensures tally { IfOk result (λ run. TallyStands aggs.now (first ∷ []) run.tally) }
    {
        let mut tally = Tally::new(alloc, aggs)?;
        tally.add(&first)?;
        Ok(Run { first, tally })
    }

    /// Emits what the run gives, which is complete.
    fn give(self, alloc: Global, keys: &KeyList, emit: &mut Emit) -> Result<(), NoMemory>
        requires { (aggs : List Result) × (row_suits keys.now aggs self.first ≡ true) }
        ensures { OnOk result ((aggs : List Result) (rows : List Cells) → TallyStands aggs rows self.tally → Adds emit.old emit.new (given (val (cols keys.now) self.first) (results aggs rows))) }
    {
        let Run { first, tally } = self;
        let values = key_values(alloc, keys, &first)?;
        give(alloc, values, tally, emit)?;
        Ok(())
    }
}

/// The run that a row is in, where it comes after another run or none.
fn turn(
    alloc: Global,
    keys: &KeyList,
    aggs: &[Agg],
    before: Option<Run>,
    row: Row,
    emit: &mut Emit,
) -> Result<Run, NoMemory>
    requires suits { row_suits keys.now aggs.now row ≡ true }
    requires before { (rows : List Cells) × RunStands keys.now aggs.now before rows }
    ensures { IfOk result (λ run. (rows : List Cells) → RunStands keys.now aggs.now before rows → Turns keys.now aggs.now rows row run emit.old emit.new) }
{
    match before {
        None => {
            let run = Run::new(alloc, aggs, row)?;
            Ok(run)
        }
        Some(mut run) => {
            if same_key(keys, &run.first, &row) {
                run.tally.add(&row)?;
                return Ok(run);
            }
            run.give(alloc, keys, emit)?;
            let next = Run::new(alloc, aggs, row)?;
            Ok(next)
        }
    }
}

/// Emits what the last run gives.
fn give_last(
    alloc: Global,
    keys: &KeyList,
    before: Option<Run>,
    emit: &mut Emit,
) -> Result<(), NoMemory>
    requires { (aggs : List Result) × (rows : List Cells) × RunStands keys.now aggs before rows }
    ensures { OnOk result ((aggs : List Result) (rows : List Cells) → RunStands keys.now aggs before rows → Adds emit.old emit.new (run_group keys.now aggs rows)) }
{
    match before {
        None => Ok(()),
        Some(run) => {
            run.give(alloc, keys, emit)?;
            Ok(())
        }
    }
}

impl GroupSorted {
    pub(crate) fn new(alloc: Global, keys: KeyList, aggs: Vec<Agg>) -> GroupSorted
        ensures stream { ⟦<GroupSorted as Operator>⟧.stream result ≡ sorted_stream keys aggs.items }
        ensures suits { ⟦<GroupSorted as Operator>⟧.suits result ≡ group_suits keys aggs.items }
        ensures stands { ⟦<GroupSorted as Operator>⟧.Stands result [] }
    {
        GroupSorted {
            keys,
            aggs,
            alloc,
            run: None,
            over: false,
        }
    }
}

impl Operator for GroupSorted {
    ghost use Rattle.op_group.specs.Groups.{sorted_stream, group_suits};
    ghost use Rattle.op_group.specs.Runs.{SortedStands};
    ghost use Rattle.op_group.specs.AreStreams.{sorted_is};

    ghost stream = { λ s. sorted_stream s.keys s.aggs.items };

    ghost suits = { λ s. group_suits s.keys s.aggs.items };

    ghost Stands = { λ s feeds. SortedStands s.keys s.aggs.items s.over s.run feeds };

    ghost is_stream = { λ s. sorted_is s.keys s.aggs.items };

    fn wants(&self) -> Want {
        if self.over {
            Want::Nothing
        } else {
            Want::Port(0)
        }
    }

    fn feed(&mut self, _port: u32, row: Row, emit: &mut Emit) -> Result<(), NoMemory> {
        let before = self.run.take();
        let run = turn(self.alloc, &self.keys, &self.aggs, before, row, emit)?;
        self.run = Some(run);
        Ok(())
    }

    fn end(&mut self, _port: u32, emit: &mut Emit) -> Result<(), NoMemory> {
        self.over = true;
        let before = self.run.take();
        give_last(self.alloc, &self.keys, before, emit)?;
        Ok(())
    }

    fn finish(&mut self, _emit: &mut Emit) -> Result<(), NoMemory> {
        Ok(())
    }
}
