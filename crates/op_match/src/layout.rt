ghost use Rattle.std.specs.Prelude.{◌≡◌, ◌<◌, ◌^◌, ◌++◌, suc, List, drop, length, map, IfOk, OnOk};
ghost use Rattle.std.specs.List.{flat_map, range_with_len};
ghost use Rattle.streams.specs.Streams.{sends};
ghost use Rattle.ds_value.specs.declared.value.Value.{Value as Cell};
ghost use Rattle.ds_schema.specs.declared.key.Key.{Key as Column};
ghost use Rattle.ds_schema.specs.Rows.{val};
ghost use Rattle.op_base.specs.Emits.{Adds};
ghost use Rattle.op_base.specs.Meanings.{are_none, first_row, input, update_values};
ghost use Rattle.op_match.specs.Merges.{merge_outs};
ghost use Rattle.op_match.specs.Merged.{joined, left_over, masters, meant};

use crate::columns::{push_columns, push_first_columns};
use crate::sides::input;
use ds_schema::{Row, copy_row};
use ds_value::{Items, NoMemory, Value};
use op_base::Emit;
use std::alloc::Global;

/// How rows are merged: the number of the master's columns, the other columns of each update,
/// whether masters without any update are kept, and whether updates that aren't joined are sent.
#[derive(Debug, Drop)]
pub struct Layout {
    pub alloc: Global,
    pub master: u32,
    pub others: Vec<Items<u32>>,
    pub keep: bool,
    pub reject: bool,
}

fn are_none(updates: &[Items<Row>]) -> bool
    ensures { result ≡ are_none updates.now }
{
    for update in updates {
        if !update.as_slice().is_empty() {
            return false;
        }
    }
    true
}

/// Appends the values of the first row in some columns, or nulls where there is no row.
fn push_first(values: &mut Vec<Value>, rows: &[Row], cols: &[u32]) -> Result<(), NoMemory>
    ensures { OnOk result (values.new.items ≡ values.old.items ++ val cols.now (first_row rows.now)) }
{
    match rows.first() {
        Some(row) => push_columns(values, row, cols),
        None => {
            let missing = Row::from_vec(Vec::new(*values.allocator()));
            push_columns(values, &missing, cols)
        }
    }
}

/// The inputs after the master.
fn updates_of(runs: &[Items<Row>]) -> &[Items<Row>]
    ensures { result.now ≡ drop 1 runs.now }
{
    if runs.is_empty() { runs } else { &runs[1..] }
}

/// The rows of an update that aren't joined.
fn left_over(rows: &[Row], has_master: bool) -> &[Row]
    ensures { result.now ≡ left_over has_master rows.now }
{
    if has_master && !rows.is_empty() {
        &rows[1..]
    } else {
        rows
    }
}

impl Layout {
    fn push_updates(&self, values: &mut Vec<Value>, updates: &[Items<Row>]) -> Result<(), NoMemory>
        ensures { OnOk result (values.new.items ≡ values.old.items ++ update_values self.now.others.items updates.now) }
    {
        for i in 0..self.others.len() {
            push_first(values, input(updates, i), self.others[i].as_slice())?;
        }
        Ok(())
    }

    /// A master row with the first row of each update.
    fn joined(&self, row: &Row, updates: &[Items<Row>]) -> Result<Row, NoMemory>
        ensures { IfOk result (λ made. made ≡ joined self.now updates.now row.now) }
    {
        let mut values = Vec::new(self.alloc);
        push_first_columns(&mut values, row, self.master)?;
        self.push_updates(&mut values, updates)?;
        Ok(Row::from_vec(values))
    }

    fn send_masters(
        &self,
        rows: &[Row],
        updates: &[Items<Row>],
        emit: &mut Emit,
    ) -> Result<(), NoMemory>
        ensures { OnOk result (Adds emit.old emit.new (map (sends 0) (masters self.now rows.now updates.now))) }
    {
        if !self.keep && are_none(updates) {
            return Ok(());
        }
        for row in rows {
            emit.send(0, self.joined(row, updates)?)?;
        }
        Ok(())
    }

    fn send_rows(&self, port: u32, rows: &[Row], emit: &mut Emit) -> Result<(), NoMemory>
        ensures { OnOk result (Adds emit.old emit.new (map (sends port) rows.now)) }
    {
        for row in rows {
            emit.send(port, copy_row(self.alloc, row)?)?;
        }
        Ok(())
    }

    /// Sends each update's rows that aren't joined to its output.
    fn send_rejects(
        &self,
        has_master: bool,
        updates: &[Items<Row>],
        emit: &mut Emit,
    ) -> Result<(), NoMemory>
        requires { length updates.now < 2 ^ 32 }
        ensures { OnOk result (Adds emit.old emit.new (flat_map (λ i. map (sends (suc i)) (left_over has_master (input i updates.now))) (range_with_len 0 (length updates.now)))) }
    {
        for i in 0..updates.len() {
            let rows = left_over(input(updates, i), has_master);
            self.send_rows(i as u32 + 1, rows, emit)?;
        }
        Ok(())
    }

    /// Sends what the rows of one key value give, the master's first.
    pub fn send_merged(&self, runs: &[Items<Row>], emit: &mut Emit) -> Result<(), NoMemory>
        requires { length runs.now < 2 ^ 32 }
        ensures { OnOk result ((keys : List (List Column)) (v : List Cell) → Adds emit.old emit.new (merge_outs (meant keys self.now) v runs.now)) }
    {
        let rows = input(runs, 0);
        let updates = updates_of(runs);
        self.send_masters(rows, updates, emit)?;
        if self.reject {
            self.send_rejects(!rows.is_empty(), updates, emit)?;
        }
        Ok(())
    }
}
