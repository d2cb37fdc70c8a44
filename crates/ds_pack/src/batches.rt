ghost use Rattle.std.specs.Prelude.{◌≡◌, ◌≤◌, IfOk, length};
ghost use Rattle.ds_pack.specs.Batches.{packed_rows, FitEach};

use crate::unpack_row;
use ds_schema::{Row, Schema};
use ds_value::{Bytes, NoMemory};
use std::alloc::Global;
use std::marker::Model;

/// Rows, one at least, all with as many values. They are kept as their packed bytes.
#[derive(Debug, Drop)]
pub struct Batch {
    pub(crate) bytes: Bytes,
    pub(crate) width: usize,
}

impl Model for Batch {
    ghost use Rattle.std.specs.Prelude.{List};
    ghost use Rattle.ds_value.specs.declared.value.Value.{Value as Cell};
    ghost use Rattle.ds_pack.specs.Batches.{AreRows, rows_in};

    ghost Value = { List (List Cell) };

    ghost view = { λ b. rows_in b.width b.bytes };

    ghost invariant = { λ b. AreRows b.width b.bytes };
}

#[tactic(auto, using(crate::proofs::Batched::read_none, crate::proofs::Batched::read_within, crate::proofs::Batched::row_within, crate::proofs::Batched::row_takes, crate::proofs::Batched::read_more, crate::proofs::Batched::read_all))]
fn unpack_rows(alloc: Global, schema: &Schema, bytes: &[u8]) -> Result<Vec<Row>, NoMemory>
    requires { (rows : _) × FitEach schema.now rows × (bytes.now ≡ packed_rows rows) }
    ensures { (rows : _) → FitEach schema.now rows → bytes.now ≡ packed_rows rows → IfOk result (λ read. read.items ≡ rows) }
{
    // Looked at for the contract's sake, which knows then that the fields are a schema.
    let _fields = schema.as_slice();
    let mut rows = Vec::new(alloc);
    let mut taken = 0;
    while taken < bytes.len() {
        let Some((row, count)) = unpack_row(alloc, schema, &bytes[taken..])? else {
            unreachable!()
        };
        rows.push(row)?;
        taken += count;
    }
    Ok(rows)
}

impl Batch {
    /// The rows, which fit the schema.
    pub fn rows(self, alloc: Global, schema: &Schema) -> Result<Vec<Row>, NoMemory>
        requires { FitEach schema.now self }
        ensures rows { IfOk result (λ rows. rows.items ≡ self) }
        ensures some { 1 ≤ length self }
    {
        unpack_rows(alloc, schema, self.bytes.as_slice())
    }
}
