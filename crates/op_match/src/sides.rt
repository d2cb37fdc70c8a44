ghost use Rattle.std.specs.Prelude.{◌≡◌, ◌<◌, ◌^◌, None, List, [], length, option_map, IfOk, OnOk};
ghost use Rattle.std.specs.List.{list_all, AllByRecursion};
ghost use Rattle.op_base.specs.Columns.{Row as Cells};
ghost use Rattle.op_base.specs.Meanings.{input};
ghost use Rattle.op_base.specs.Feeds.{end_at, fed, fronts, heads_in};
ghost use Rattle.op_match.specs.Waiting.{columns_in, ends_in, keys_in, rows_waiting, runs_in, ways_in, is_complete, CutTo, HaveSameWays, IsFresh, IsSound, SidesStand};
ghost use Rattle.op_match.specs.Rounds.{least_head, wanted_from, MayAdd, Took};

use crate::side::Side;
use ds_schema::{KeyList, Row};
use ds_value::{Items, NoMemory};
use op_base::Want;
use std::alloc::Global;

/// The inputs by port.
#[derive(Debug, Drop)]
pub struct Sides {
    list: Vec<Side>,
    ghost some: { 0 < length list.items },
    ghost numbered: { length list.items < 2 ^ 32 },
}

impl Sides {
    pub fn new(list: Vec<Side>) -> Sides
        requires some { 0 < length list.items }
        requires numbered { length list.items < 2 ^ 32 }
        ensures { result.list.items ≡ list.items }
    {
        Sides { list }
    }

    /// The least port whose first run isn't complete.
    pub fn wants(&self) -> Want
        ensures { result ≡ wanted_from 0 self.now.list.items }
    {
        let ports = self.list.len() as u32;
        for port in 0..ports {
            if !self.list[port as usize].is_complete() {
                return Want::Port(port);
            }
        }
        Want::Nothing
    }

    /// Takes a row in.
    pub fn add(&mut self, port: u32, row: Row) -> Result<(), NoMemory>
        requires sound { IsSound self.old.list.items }
        requires wanted { MayAdd self.old.list.items port }
        ensures sound { OnOk result (IsSound self.new.list.items) }
        ensures keys { OnOk result (keys_in self.new.list.items ≡ keys_in self.old.list.items) }
        ensures ends { OnOk result (ends_in self.new.list.items ≡ ends_in self.old.list.items) }
        ensures rows { OnOk result (rows_waiting self.new.list.items ≡ fed port row (rows_waiting self.old.list.items)) }
    {
        self.list[port as usize].add(row)?;
        Ok(())
    }

    /// No row comes at the port any more.
    pub fn close(&mut self, port: u32)
        requires sound { IsSound self.old.list.items }
        requires wanted { MayAdd self.old.list.items port }
        ensures sound { IsSound self.new.list.items }
        ensures keys { keys_in self.new.list.items ≡ keys_in self.old.list.items }
        ensures ends { ends_in self.new.list.items ≡ end_at port (ends_in self.old.list.items) }
        ensures rows { rows_waiting self.new.list.items ≡ rows_waiting self.old.list.items }
    {
        self.list[port as usize].over = true;
    }

    fn are_complete(&self) -> bool
        ensures { result ≡ list_all is_complete self.now.list.items }
    {
        self.list.iter().all(|side| side.is_complete())
    }

    /// The least key values of the first runs.
    fn least_key(&self, alloc: Global) -> Result<Option<Row>, NoMemory>
        requires { IsSound self.now.list.items }
        ensures { IfOk result (λ key. key ≡ least_head (ways_in self.now.list.items) None (heads_in (columns_in self.now.list.items) (runs_in self.now.list.items))) }
    {
        let mut least = None;
        for side in &self.list {
            least = side.lesser_key(alloc, least)?;
        }
        Ok(least)
    }

    /// Takes the first runs that have these key values off.
    fn take_runs(&mut self, alloc: Global, key: &Row) -> Result<Vec<Items<Row>>, NoMemory>
        requires sound { IsSound self.old.list.items }
        requires key { length (ways_in self.old.list.items) ≡ length key.now }
        ensures runs { IfOk result (λ runs. runs.items ≡ fronts (columns_in self.old.list.items) key.now (rows_waiting self.old.list.items)) }
        ensures rest { OnOk result (CutTo key.now (length self.old.list.items) self.old.list.items self.new.list.items) }
    {
        let mut runs = Vec::with_capacity(alloc, self.list.len())?;
        for side in self.list.iter_mut() {
            runs.push(side.take_run(key)?)?;
        }
        Ok(runs)
    }

    /// Takes the runs of the least key value off, once all first runs are complete.
    pub fn take_off(&mut self, alloc: Global) -> Result<Option<Vec<Items<Row>>>, NoMemory>
        requires { IsSound self.old.list.items }
        ensures { IfOk result (λ found. Took self.old.list.items self.new.list.items (option_map (λ runs. runs.items) found)) }
    {
        if !self.are_complete() {
            return Ok(None);
        }
        match self.least_key(alloc)? {
            None => Ok(None),
            Some(key) => Ok(Some(self.take_runs(alloc, &key)?)),
        }
    }
}

/// The rows that came from a port.
pub fn input(runs: &[Items<Row>], port: usize) -> &[Row]
    ensures { result.now ≡ input port runs.now }
{
    match runs.get(port) {
        Some(rows) => rows.as_slice(),
        None => &[],
    }
}

/// Nothing was fed yet. There are as many inputs as a port's number can tell apart, or else
/// there is no room for them.
pub fn start(alloc: Global, keys: Vec<KeyList>) -> Result<Sides, NoMemory>
    requires some { 0 < length keys.items }
    requires same_ways { HaveSameWays keys.items }
    ensures keys { IfOk result (λ sides. keys_in sides.list.items ≡ keys.items) }
    ensures stands { IfOk result (λ sides. SidesStand sides.list.items []) }
{
    if keys.len() > u32::MAX as usize {
        return Err(NoMemory);
    }
    Ok(Sides {
        list: start_each(alloc, keys)?,
    })
}

fn start_each(alloc: Global, keys: Vec<KeyList>) -> Result<Vec<Side>, NoMemory>
    ensures keys { IfOk result (λ list. keys_in list.items ≡ keys.items) }
    ensures fresh { IfOk result (λ list. AllByRecursion IsFresh list.items) }
{
    let mut list = Vec::with_capacity(alloc, keys.len())?;
    for own in keys {
        list.push(Side::new(alloc, own))?;
    }
    Ok(list)
}
