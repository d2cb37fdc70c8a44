ghost use Rattle.std.specs.Prelude.{◌≡◌, IfOk, OnOk, if◌then◌else◌, map, []};
ghost use Rattle.std.specs.List.{flat_map};
ghost use Rattle.streams.specs.Streams.{sends};
ghost use Rattle.op_base.specs.Columns.{no_row};
ghost use Rattle.op_base.specs.Emits.{Adds};
ghost use Rattle.op_join.specs.Joining.{keeps_left, keeps_right};
ghost use Rattle.op_join.specs.Waiting.{meant, left_row, right_row};

use crate::JoinKind;
use crate::columns::{Columns, push_columns, push_keys};
use ds_schema::Row;
use ds_value::NoMemory;
use op_base::Emit;
use std::alloc::Global;

/// Which rows are made of the rows of one key value, and of which columns.
#[derive(Debug, Drop)]
pub struct Layout {
    pub alloc: Global,
    pub kind: JoinKind,
    pub left: Columns,
    pub right: Columns,
}

impl Layout {
    /// A left row with a right row, or with nulls for a right row without values.
    fn left_row(&self, a: &Row, b: &Row) -> Result<Row, NoMemory>
        ensures { IfOk result (λ row. row ≡ left_row (meant self.now) b.now a.now) }
    {
        let mut values = Vec::new(self.alloc);
        push_keys(&mut values, a, &self.left.keys)?;
        push_columns(&mut values, a, self.left.others.as_slice())?;
        push_columns(&mut values, b, self.right.others.as_slice())?;
        Ok(Row::from_vec(values))
    }

    /// A right row with nulls for the left one.
    fn right_row(&self, b: &Row) -> Result<Row, NoMemory>
        ensures { IfOk result (λ row. row ≡ right_row (meant self.now) b.now) }
    {
        let missing = Row::from_vec(Vec::new(self.alloc));
        let mut values = Vec::new(self.alloc);
        push_keys(&mut values, b, &self.right.keys)?;
        push_columns(&mut values, &missing, self.left.others.as_slice())?;
        push_columns(&mut values, b, self.right.others.as_slice())?;
        Ok(Row::from_vec(values))
    }

    /// Sends left rows that no right row matches, where these are kept.
    pub fn send_lefts(&self, lefts: &[Row], emit: &mut Emit) -> Result<(), NoMemory>
        ensures { OnOk result (Adds emit.old emit.new (map (sends 0) (if keeps_left self.now.kind then map (left_row (meant self.now) no_row) lefts.now else []))) }
    {
        if !self.kind.keeps_left() {
            return Ok(());
        }
        let missing = Row::from_vec(Vec::new(self.alloc));
        for a in lefts {
            emit.send(0, self.left_row(a, &missing)?)?;
        }
        Ok(())
    }

    /// Sends right rows that no left row matches, where these are kept.
    pub fn send_rights(&self, rights: &[Row], emit: &mut Emit) -> Result<(), NoMemory>
        ensures { OnOk result (Adds emit.old emit.new (map (sends 0) (if keeps_right self.now.kind then map (right_row (meant self.now)) rights.now else []))) }
    {
        if !self.kind.keeps_right() {
            return Ok(());
        }
        for b in rights {
            emit.send(0, self.right_row(b)?)?;
        }
        Ok(())
    }

    /// Sends a left row with each right row.
    fn send_pairs(&self, a: &Row, rights: &[Row], emit: &mut Emit) -> Result<(), NoMemory>
        ensures { OnOk result (Adds emit.old emit.new (map (sends 0) (map (λ b. left_row (meant self.now) b a.now) rights.now))) }
    {
        for b in rights {
            emit.send(0, self.left_row(a, b)?)?;
        }
        Ok(())
    }

    /// Sends each left row with each right row.
    pub fn send_matched(
        &self,
        lefts: &[Row],
        rights: &[Row],
        emit: &mut Emit,
    ) -> Result<(), NoMemory>
        ensures { OnOk result (Adds emit.old emit.new (map (sends 0) (flat_map (λ a. map (λ b. left_row (meant self.now) b a) rights.now) lefts.now))) }
    {
        for a in lefts {
            self.send_pairs(a, rights, emit)?;
        }
        Ok(())
    }
}
