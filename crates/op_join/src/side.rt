ghost use Rattle.std.specs.Prelude.{◌≡◌, ◌++◌, ◌∷◌, [], false, option_to_list, IfOk, OnOk};
ghost use Rattle.ds_schema.specs.Rows.{cols};
ghost use Rattle.op_join.specs.Waiting.{side_rows, is_complete, IsRun, is_same};

use ds_schema::{KeyList, Row, compare_rows};
use ds_value::NoMemory;
use std::alloc::Global;
use std::mem;

/// The rows of an input that wait: those of its first key value, and the first row of
/// another one, with which the first run is complete. `over` says that no row comes any more.
#[derive(Debug, Drop)]
pub struct Side {
    pub run: Vec<Row>,
    pub next: Option<Row>,
    pub over: bool,
}

impl Side {
    pub fn new(alloc: Global) -> Side
        ensures run { result.run.items ≡ [] }
        ensures next { result.next ≡ None }
        ensures over { result.over ≡ false }
    {
        Side {
            run: Vec::new(alloc),
            next: None,
            over: false,
        }
    }

    /// Whether the first run is complete.
    pub fn is_complete(&self) -> bool
        ensures { result ≡ is_complete self.now }
    {
        self.over || self.next.is_some()
    }

    /// Whether a row has the first run's key value, if there is one.
    fn is_same(&self, keys: &KeyList, row: &Row) -> bool
        ensures { result ≡ is_same keys.now self.now.run.items row.now }
    {
        match self.run.as_slice().first() {
            None => true,
            Some(first) => compare_rows(keys, row, first).is_eq(),
        }
    }

    /// Takes the next row in.
    pub fn add(&mut self, keys: &KeyList, row: Row) -> Result<(), NoMemory>
        requires open { self.old.next ≡ None }
        requires run { IsRun (cols keys.now) self.old.run.items self.old.next }
        ensures rows { OnOk result (side_rows self.new ≡ side_rows self.old ++ row ∷ []) }
        ensures run { OnOk result (IsRun (cols keys.now) self.new.run.items self.new.next) }
        ensures over { OnOk result (self.new.over ≡ self.old.over) }
    {
        if self.is_same(keys, &row) {
            self.run.push(row)?;
        } else {
            self.next = Some(row);
        }
        Ok(())
    }

    /// Takes the first run off.
    pub fn take_run(&mut self) -> Result<Vec<Row>, NoMemory>
        ensures run { IfOk result (λ run. run.items ≡ self.old.run.items) }
        ensures rest { OnOk result (self.new.run.items ≡ option_to_list self.old.next) }
        ensures next { OnOk result (self.new.next ≡ None) }
        ensures over { OnOk result (self.new.over ≡ self.old.over) }
    {
        let mut rest = Vec::new(*self.run.allocator());
        if let Some(row) = self.next.take() {
            rest.push(row)?;
        }
        Ok(mem::replace(&mut self.run, rest))
    }
}
