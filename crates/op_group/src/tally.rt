ghost use Rattle.std.specs.Prelude.{◌≡◌, ◌<◌, ◌^◌, ◌++◌, ◌∷◌, [], List, map, length, OnOk, IfOk, true};
ghost use Rattle.std.specs.List.{list_all, AllByRecursion};
ghost use Rattle.op_base.specs.Columns.{Row as Cells};
ghost use Rattle.op_group.specs.declared.agg.Agg.{Agg as Result};
ghost use Rattle.op_group.specs.Results.{results};
ghost use Rattle.op_group.specs.Groups.{agg_suits};
ghost use Rattle.op_group.specs.Kept.{agg_of, RunningStands, FollowTo, TallyStands, kept_results};

use crate::Agg;
use crate::running::Running;
use ds_schema::Row;
use ds_value::NoMemory;
use std::alloc::Global;

/// The most rows that a group may have.
const MOST_ROWS: u64 = 1 << 62;

/// What is kept of the rows of a group so far: how many there are, up to one more than it may
/// have, and what each result needs.
#[derive(Debug, Drop)]
pub struct Tally {
    pub count: u64,
    pub running: Vec<Running>,
}

fn start_each(alloc: Global, aggs: &[Agg]) -> Result<Vec<Running>, NoMemory>
    ensures aggs { IfOk result (λ running. map agg_of running.items ≡ aggs.now) }
    ensures stands { IfOk result (λ running. AllByRecursion (RunningStands []) running.items) }
{
    let mut running = Vec::with_capacity(alloc, aggs.len())?;
    for agg in aggs {
        running.push(Running::new(*agg))?;
    }
    Ok(running)
}

/// Adds a row that comes after `before` others to each.
fn add_to_each(running: &mut [Running], row: &Row, before: u64) -> Result<(), NoMemory>
    requires few { before < 2 ^ 62 }
    requires suits { list_all (agg_suits row.now) (map agg_of running.old) ≡ true }
    requires stands { (rows : List Cells) × (length rows ≡ before) × AllByRecursion (RunningStands rows) running.old }
    ensures { OnOk result (FollowTo before row.now (length running.old) running.old running.new) }
{
    for kept in running.iter_mut() {
        kept.add(row, before)?;
    }
    Ok(())
}

/// The result of each, or nothing where one overflows.
fn into_values(alloc: Global, running: Vec<Running>, count: u64) -> Result<Option<Row>, NoMemory>
    ensures { IfOk result (λ values. values ≡ kept_results count running.items) }
{
    let mut values = Vec::with_capacity(alloc, running.len())?;
    let mut fits = true;
    for kept in running {
        match kept.into_value(count) {
            Some(value) => values.push(value)?,
            None => fits = false,
        }
    }
    if fits {
        Ok(Some(Row::from_vec(values)))
    } else {
        Ok(None)
    }
}

impl Tally {
    pub fn new(alloc: Global, aggs: &[Agg]) -> Result<Tally, NoMemory>
        ensures { IfOk result (λ tally. TallyStands aggs.now [] tally) }
    {
        Ok(Tally {
            count: 0,
            running: start_each(alloc, aggs)?,
        })
    }

    pub fn add(&mut self, row: &Row) -> Result<(), NoMemory>
        requires { (aggs : List Result) × (rows : List Cells) × TallyStands aggs rows self.old × (list_all (agg_suits row.now) aggs ≡ true) }
        ensures { OnOk result ((aggs : List Result) (rows : List Cells) → TallyStands aggs rows self.old → TallyStands aggs (rows ++ row.now ∷ []) self.new) }
    {
        if self.count > MOST_ROWS {
            return Ok(());
        }
        if self.count < MOST_ROWS {
            add_to_each(&mut self.running, row, self.count)?;
        }
        self.count += 1;
        Ok(())
    }

    /// The results of the rows, or nothing where the group overflows.
    pub fn into_results(self, alloc: Global) -> Result<Option<Row>, NoMemory>
        ensures { IfOk result (λ values. (aggs : List Result) (rows : List Cells) → TallyStands aggs rows self → values ≡ results aggs rows) }
    {
        let Tally { count, running } = self;
        if count > MOST_ROWS {
            return Ok(None);
        }
        let values = into_values(alloc, running, count)?;
        Ok(values)
    }
}
