ghost use Rattle.std.specs.Prelude.{◌≡◌, List, length, map, IfOk, OnOk, pos};
ghost use Rattle.streams.specs.Streams.{sends};
ghost use Rattle.ds_schema.specs.declared.key.Key.{Key as Column};
ghost use Rattle.ds_schema.specs.Rows.{val};
ghost use Rattle.op_base.specs.Emits.{Adds};
ghost use Rattle.op_base.specs.Keyed.{same_vals};
ghost use Rattle.op_match.specs.Captures.{captured, capturing};
ghost use Rattle.op_match.specs.Changed.{change_code, with_code, pair, pairs};

use crate::columns::same_values;
use ds_schema::Row;
use ds_value::{Copied, NoMemory, Value};
use op_base::Emit;
use std::alloc::Global;

/// What became of a row.
#[derive(Clone, Copy, Debug, PartialEq, Eq)]
pub enum Change {
    Copy,
    Insert,
    Delete,
    Edit,
}

impl Change {
    fn code(self) -> i64
        ensures { result ≡ pos (change_code self) }
    {
        match self {
            Change::Copy => 0,
            Change::Insert => 1,
            Change::Delete => 2,
            Change::Edit => 3,
        }
    }
}

/// The columns in which rows are compared, and whether copies are kept.
#[derive(Debug, Drop)]
pub struct Changes {
    pub alloc: Global,
    pub values: Vec<u32>,
    pub keep: bool,
}

impl Changes {
    /// A row with its change code.
    fn with_code(&self, row: &Row, change: Change) -> Result<Row, NoMemory>
        ensures { IfOk result (λ made. made ≡ with_code change row.now) }
    {
        let own = row.as_slice();
        let mut values = Vec::with_capacity(self.alloc, own.len() + 1)?;
        for value in own {
            values.push(value.copied()?)?;
        }
        values.push(Value::Int(change.code()))?;
        Ok(Row::from_vec(values))
    }

    /// Sends what a row before and the row after it give.
    fn send_pair(&self, before: &Row, after: &Row, emit: &mut Emit) -> Result<(), NoMemory>
        ensures { OnOk result (Adds emit.old emit.new (map (sends 0) (pair self.now.values.items self.now.keep before.now after.now))) }
    {
        if !same_values(before, after, self.values.as_slice()) {
            emit.send(0, self.with_code(after, Change::Edit)?)?;
            return Ok(());
        }
        if self.keep {
            emit.send(0, self.with_code(after, Change::Copy)?)?;
        }
        Ok(())
    }

    fn send_pairs(&self, befores: &[Row], afters: &[Row], emit: &mut Emit) -> Result<(), NoMemory>
        requires { length befores.now ≡ length afters.now }
        ensures { OnOk result (Adds emit.old emit.new (map (sends 0) (pairs self.now.values.items self.now.keep befores.now afters.now))) }
    {
        for i in 0..befores.len() {
            self.send_pair(&befores[i], &afters[i], emit)?;
        }
        Ok(())
    }

    /// Sends rows that have no partner.
    fn send_left_over(&self, rows: &[Row], change: Change, emit: &mut Emit) -> Result<(), NoMemory>
        ensures { OnOk result (Adds emit.old emit.new (map (sends 0) (map (with_code change) rows.now))) }
    {
        for row in rows {
            emit.send(0, self.with_code(row, change)?)?;
        }
        Ok(())
    }

    /// Sends what the rows of one key value give: those before and those after in pairs,
    /// and then what is left over.
    pub fn send_changes(
        &self,
        befores: &[Row],
        afters: &[Row],
        emit: &mut Emit,
    ) -> Result<(), NoMemory>
        ensures { OnOk result ((keys : List Column) → Adds emit.old emit.new (map (sends 0) (captured (capturing keys self.now.values.items self.now.keep) befores.now afters.now))) }
    {
        let paired = befores.len().min(afters.len());
        self.send_pairs(&befores[..paired], &afters[..paired], emit)?;
        self.send_left_over(&afters[paired..], Change::Insert, emit)?;
        self.send_left_over(&befores[paired..], Change::Delete, emit)?;
        Ok(())
    }
}
