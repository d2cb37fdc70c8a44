ghost use Rattle.std.specs.Prelude.{◌≡◌, ℕ, List, All, OnOk, length, []};
ghost use Rattle.std.specs.List.{AllByRecursion};
ghost use Rattle.std.specs.Map.{lookup};
ghost use Rattle.std.specs.Str.{bytes_eq};
ghost use Rattle.ds_value.specs.Canonical.{IsShort, IsHeld};
ghost use Rattle.ds_schema.specs.Rows.{InWidth, val};
ghost use Rattle.op_base.specs.Emits.{Adds};
ghost use Rattle.op_lookup.specs.Looked.{looked_stream, suits_lookup};
ghost use Rattle.op_lookup.specs.Table.{key_of, or_kept, given};

use crate::columns::Columns;
use crate::key_bytes::key_bytes;
use crate::rows::{send_missing, with_values};
use crate::table::{Table, keep_first};
use ds_schema::Row;
use ds_value::NoMemory;
use op_base::{Emit, Missing, Operator, Want};
use std::alloc::Global;

/// Each main row with the first row of its key in the reference, which comes before it.
#[derive(Debug, Drop)]
pub struct Lookup {
    columns: Columns,
    missing: Missing,
    alloc: Global,
    table: Table,
    main_over: bool,
    reference_over: bool,
}

/// Keeps a row of the reference, if it is the first of its key.
fn keep_reference(
    alloc: Global,
    columns: &Columns,
    table: &mut Table,
    row: &Row,
) -> Result<(), NoMemory>
    requires width { length row.now ≡ columns.now.width }
    requires short { All IsShort row.now }
    ensures kept { OnOk result ((k : List ℕ) → lookup (bytes_eq k) table.new.entries ≡ or_kept (lookup (bytes_eq k) table.old.entries) (bytes_eq k (key_of columns.now.reference.items row.now)) (val columns.now.others.items row.now)) }
    ensures held { OnOk result (AllByRecursion IsHeld (val columns.now.reference.items row.now)) }
{
    let key = key_bytes(alloc, row, columns.reference.as_slice())?;
    keep_first(alloc, table, key, columns.others.as_slice(), row)?;
    Ok(())
}

/// Sends a main row with what is kept of its key, or does what is to be done without.
fn send_main(
    alloc: Global,
    columns: &Columns,
    missing: Missing,
    table: &Table,
    row: Row,
    emit: &mut Emit,
) -> Result<(), NoMemory>
    requires there { All (InWidth row) columns.now.main.items }
    requires short { All IsShort row }
    ensures sent { OnOk result (Adds emit.old emit.new (given missing columns.now.others.items row (lookup (bytes_eq (key_of columns.now.main.items row)) table.now.entries))) }
    ensures held { OnOk result (AllByRecursion IsHeld (val columns.now.main.items row)) }
{
    let key = key_bytes(alloc, &row, columns.main.as_slice())?;
    match table.get(&key) {
        Some(others) => {
            emit.send(0, with_values(row, others)?)?;
            Ok(())
        }
        None => {
            send_missing(alloc, missing, columns.others.as_slice(), row, emit)?;
            Ok(())
        }
    }
}

impl Lookup {
    pub(crate) fn new(alloc: Global, columns: Columns, missing: Missing) -> Lookup
        ensures stream { ⟦<Lookup as Operator>⟧.stream result ≡ looked_stream columns.main.items columns.reference.items columns.width missing }
        ensures suits { ⟦<Lookup as Operator>⟧.suits result ≡ suits_lookup columns.main.items columns.width }
        ensures stands { ⟦<Lookup as Operator>⟧.Stands result [] }
    {
        Lookup {
            columns,
            missing,
            alloc,
            table: Table::new(alloc),
            main_over: false,
            reference_over: false,
        }
    }
}

impl Operator for Lookup {
    ghost use Rattle.op_lookup.specs.Looked.{looked_stream, suits_lookup};
    ghost use Rattle.op_lookup.specs.Standing.{LookupStands};
    ghost use Rattle.op_lookup.specs.AreStreams.{looked_is};

    ghost stream = { λ s. looked_stream s.columns.main.items s.columns.reference.items s.columns.width s.missing };

    ghost suits = { λ s. suits_lookup s.columns.main.items s.columns.width };

    ghost Stands = { λ s feeds. LookupStands s.columns.reference.items s.columns.others.items s.table.entries s.main_over s.reference_over feeds };

    ghost is_stream = { λ s. looked_is s.columns.main.items s.columns.reference.items s.columns.width s.missing };

    fn wants(&self) -> Want {
        if !self.reference_over {
            Want::Port(1)
        } else if !self.main_over {
            Want::Port(0)
        } else {
            Want::Nothing
        }
    }

    fn feed(&mut self, port: u32, row: Row, emit: &mut Emit) -> Result<(), NoMemory> {
        if port == 1 {
            keep_reference(self.alloc, &self.columns, &mut self.table, &row)?;
            Ok(())
        } else {
            send_main(
                self.alloc,
                &self.columns,
                self.missing,
                &self.table,
                row,
                emit,
            )?;
            Ok(())
        }
    }

    fn end(&mut self, port: u32, _emit: &mut Emit) -> Result<(), NoMemory> {
        if port == 1 {
            self.reference_over = true;
        } else {
            self.main_over = true;
        }
        Ok(())
    }

    fn finish(&mut self, _emit: &mut Emit) -> Result<(), NoMemory> {
        Ok(())
    }
}
