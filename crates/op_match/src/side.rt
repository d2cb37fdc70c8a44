ghost use Rattle.std.specs.Prelude.{◌≡◌, ◌++◌, ◌∷◌, [], None, false, length, option_to_list, IfOk, OnOk};
ghost use Rattle.ds_schema.specs.Rows.{cols, val, ways};
ghost use Rattle.op_base.specs.Feeds.{front, head_in};
ghost use Rattle.op_match.specs.Waiting.{side_rows, is_complete, is_same, fits_key, starts, IsCut, IsFresh, IsReady};
ghost use Rattle.op_match.specs.Rounds.{is_below, least_head};

use crate::columns::{compare_key, has_key, key_of};
use ds_schema::{KeyList, Row, compare_rows};
use ds_value::{Items, NoMemory};
use std::alloc::Global;
use std::mem;

/// The rows of an input that wait: those of its first key value, and the first row of
/// another one, with which the first run is complete. `over` says that no row comes any more.
#[derive(Debug, Drop)]
pub struct Side {
    pub keys: KeyList,
    pub run: Items<Row>,
    pub next: Option<Row>,
    pub over: bool,
}

impl Side {
    pub fn new(alloc: Global, keys: KeyList) -> Side
        ensures keys { result.keys ≡ keys }
        ensures fresh { IsFresh result }
    {
        Side {
            keys,
            run: Items::new(alloc),
            next: None,
            over: false,
        }
    }

    /// Whether the first run is complete.
    pub fn is_complete(&self) -> bool
        ensures { result ≡ is_complete self.now }
    {
        self.over || self.next.is_some()
    }

    /// Whether a row has the first run's key value, if there is one.
    fn is_same(&self, row: &Row) -> bool
        ensures { result ≡ is_same self.now.keys self.now.run row.now }
    {
        match self.run.as_slice().first() {
            None => true,
            Some(first) => compare_rows(&self.keys, row, first).is_eq(),
        }
    }

    /// Takes the next row in.
    pub fn add(&mut self, row: Row) -> Result<(), NoMemory>
        requires open { self.old.next ≡ None }
        requires ready { IsReady self.old }
        ensures keys { OnOk result (self.new.keys ≡ self.old.keys) }
        ensures rows { OnOk result (side_rows self.new ≡ side_rows self.old ++ row ∷ []) }
        ensures over { OnOk result (self.new.over ≡ self.old.over) }
        ensures ready { OnOk result (IsReady self.new) }
    {
        if self.is_same(&row) {
            self.run.push(row)?;
        } else {
            self.next = Some(row);
        }
        Ok(())
    }

    /// Whether a row's key values are below these, or there are none to be below.
    fn is_below(&self, row: &Row, least: &Option<Row>) -> bool
        requires { fits_key (length self.now.keys) least.now }
        ensures { result ≡ is_below (ways self.now.keys) (val (cols self.now.keys) row.now) least.now }
    {
        match least {
            None => true,
            Some(key) => compare_key(&self.keys, row, key).is_lt(),
        }
    }

    /// The lesser of some key values and those of the first run.
    pub fn lesser_key(&self, alloc: Global, least: Option<Row>) -> Result<Option<Row>, NoMemory>
        requires { fits_key (length self.now.keys) least }
        ensures { IfOk result (λ key. key ≡ least_head (ways self.now.keys) least (head_in (cols self.now.keys) self.now.run)) }
    {
        match self.run.as_slice().first() {
            Some(first) if self.is_below(first, &least) => {
                Ok(Some(key_of(alloc, first, &self.keys)?))
            }
            _ => Ok(least),
        }
    }

    /// Whether the first run has these key values.
    fn starts(&self, key: &Row) -> bool
        requires { length self.now.keys ≡ length key.now }
        ensures { result ≡ starts (cols self.now.keys) key.now self.now.run }
    {
        match self.run.as_slice().first() {
            Some(first) => has_key(&self.keys, first, key),
            None => false,
        }
    }

    /// Takes the first run off.
    fn take_first(&mut self) -> Result<Items<Row>, NoMemory>
        ensures run { IfOk result (λ run. run ≡ self.old.run) }
        ensures rest { OnOk result (self.new.run ≡ option_to_list self.old.next) }
        ensures next { OnOk result (self.new.next ≡ None) }
        ensures over { OnOk result (self.new.over ≡ self.old.over) }
        ensures keys { OnOk result (self.new.keys ≡ self.old.keys) }
    {
        let mut rest = Items::new(self.run.allocator());
        if let Some(row) = self.next.take() {
            rest.push(row)?;
        }
        Ok(mem::replace(&mut self.run, rest))
    }

    /// Takes the first run off if it has these key values.
    pub fn take_run(&mut self, key: &Row) -> Result<Items<Row>, NoMemory>
        requires key { length self.old.keys ≡ length key.now }
        requires ready { IsReady self.old }
        ensures run { IfOk result (λ run. run ≡ front (cols self.old.keys) key.now (side_rows self.old)) }
        ensures cut { OnOk result (IsCut key.now self.old self.new) }
    {
        if !self.starts(key) {
            return Ok(Items::new(self.run.allocator()));
        }
        let run = self.take_first()?;
        Ok(run)
    }
}
