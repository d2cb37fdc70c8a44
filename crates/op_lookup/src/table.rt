ghost use Rattle.std.specs.Prelude.{◌≡◌, ℕ, List, All, OnOk};
ghost use Rattle.std.specs.Map.{lookup};
ghost use Rattle.std.specs.Str.{bytes_eq};
ghost use Rattle.ds_schema.specs.Rows.{InWidth, val};
ghost use Rattle.op_lookup.specs.Table.{or_kept};

use crate::key_bytes::KeyBytes;
use ds_schema::{Row, project};
use ds_value::NoMemory;
use indexmap::IndexMap;
use std::alloc::Global;

/// Of the reference's rows of each key the first, without the key's columns.
pub type Table = IndexMap<KeyBytes, Row>;

/// Keeps some columns of a row, where its key isn't there yet.
pub fn keep_first(
    alloc: Global,
    table: &mut Table,
    key: KeyBytes,
    cols: &[u32],
    row: &Row,
) -> Result<(), NoMemory>
    requires { All (InWidth row.now) cols.now }
    ensures { OnOk result ((k : List ℕ) → lookup (bytes_eq k) table.new.entries ≡ or_kept (lookup (bytes_eq k) table.old.entries) (bytes_eq k key) (val cols.now row.now)) }
{
    if table.contains_key(&key) {
        return Ok(());
    }
    let others = project(alloc, row, cols)?;
    table.insert(key, others)?;
    Ok(())
}
