ghost use Rattle.std.specs.Prelude.{◌≡◌, ◌<◌, ◌^◌, List, [], length, OnOk, true};
ghost use Rattle.op_base.specs.Columns.{Row as Cells};
ghost use Rattle.op_group.specs.Results.{is_null, greater};
ghost use Rattle.op_group.specs.Groups.{agg_suits};
ghost use Rattle.op_group.specs.Kept.{least_with, agg_of, RunningStands, Follows, kept_value};

use crate::Agg;
use crate::sum::Sum;
use ds_schema::Row;
use ds_value::{Copied, NoMemory, Value, cmp};
use std::cmp::Ordering;

/// A value of a column that is kept for a result.
#[derive(Debug, Drop)]
pub struct Kept {
    pub col: u32,
    pub value: Value,
}

/// What is kept of the rows of a group so far for one of its results.
#[derive(Debug, Drop)]
pub enum Running {
    Sum(Sum),
    Count,
    Min(Kept),
    Max(Kept),
    First(Kept),
    Last(Kept),
}

fn is_null(value: &Value) -> bool
    ensures { result ≡ is_null value.now }
{
    matches!(value, Value::Null)
}

impl Kept {
    fn new(col: u32) -> Kept
        ensures col { result.col ≡ col }
        ensures value { result.value ≡ Value.Null }
    {
        Kept {
            col,
            value: Value::Null,
        }
    }

    /// Keeps this value in place of another.
    fn keep(&mut self, value: &Value) -> Result<(), NoMemory>
        ensures col { OnOk result (self.new.col ≡ self.old.col) }
        ensures value { OnOk result (self.new.value ≡ value.now) }
    {
        self.value = value.copied()?;
        Ok(())
    }

    /// Keeps a value that is less than the one that is kept, and the first that isn't null.
    fn keep_least(&mut self, value: &Value) -> Result<(), NoMemory>
        ensures col { OnOk result (self.new.col ≡ self.old.col) }
        ensures value { OnOk result (self.new.value ≡ least_with self.old.value value.now) }
    {
        if is_null(value) {
            return Ok(());
        }
        if is_null(&self.value) || cmp(value, &self.value) == Ordering::Less {
            self.keep(value)?;
        }
        Ok(())
    }

    /// Keeps a value that is greater than the one that is kept. A null is less than others.
    fn keep_greatest(&mut self, value: &Value) -> Result<(), NoMemory>
        ensures col { OnOk result (self.new.col ≡ self.old.col) }
        ensures value { OnOk result (self.new.value ≡ greater self.old.value value.now) }
    {
        if cmp(&self.value, value) == Ordering::Less {
            self.keep(value)?;
        }
        Ok(())
    }
}

impl Running {
    pub fn new(agg: Agg) -> Running
        ensures agg { agg_of result ≡ agg }
        ensures stands { RunningStands [] result }
    {
        match agg {
            Agg::Sum(col) => Running::Sum(Sum::new(col)),
            Agg::Count => Running::Count,
            Agg::Min(col) => Running::Min(Kept::new(col)),
            Agg::Max(col) => Running::Max(Kept::new(col)),
            Agg::First(col) => Running::First(Kept::new(col)),
            Agg::Last(col) => Running::Last(Kept::new(col)),
        }
    }

    /// Adds a row that comes after `before` others.
    pub fn add(&mut self, row: &Row, before: u64) -> Result<(), NoMemory>
        requires few { before < 2 ^ 62 }
        requires suits { agg_suits row.now (agg_of self.old) ≡ true }
        requires stands { (rows : List Cells) × (length rows ≡ before) × RunningStands rows self.old }
        ensures { OnOk result (Follows before row.now self.old self.new) }
    {
        let values = row.as_slice();
        match self {
            Running::Sum(sum) => sum.add(&values[sum.col as usize], before),
            Running::Count => {}
            Running::Min(kept) => kept.keep_least(&values[kept.col as usize])?,
            Running::Max(kept) => kept.keep_greatest(&values[kept.col as usize])?,
            Running::First(kept) => {
                if before == 0 {
                    kept.keep(&values[kept.col as usize])?;
                }
            }
            Running::Last(kept) => kept.keep(&values[kept.col as usize])?,
        }
        Ok(())
    }

    /// The result of so many rows, or nothing where it overflows.
    pub fn into_value(self, count: u64) -> Option<Value>
        ensures { result ≡ kept_value count self }
    {
        match self {
            Running::Sum(sum) => sum.value(),
            Running::Count => Some(Value::UInt(count)),
            Running::Min(kept) | Running::Max(kept) | Running::First(kept) | Running::Last(kept) =>
                Some(kept.value),
        }
    }
}
