ghost use Rattle.std.specs.Prelude.{◌≡◌, ◌++◌, List, All, IfOk, OnOk};
ghost use Rattle.std.specs.List.{flat_map};
ghost use Rattle.ds_value.specs.Canonical.{canonical_bytes, IsShort};
ghost use Rattle.ds_schema.specs.Rows.{at, cols, val, KeyInWidth};
ghost use Rattle.op_base.specs.Columns.{Row as Cells};
ghost use Rattle.op_base.specs.Emits.{Adds};
ghost use Rattle.op_group.specs.declared.agg.Agg.{Agg as Result};
ghost use Rattle.op_group.specs.Results.{results, group_fault};
ghost use Rattle.op_group.specs.Kept.{TallyStands, given};

use crate::tally::Tally;
use ds_schema::{Key, KeyList, Row};
use ds_value::{Bytes, NoMemory, Value, canonical, copy_value};
use op_base::{Emit, Fault, FaultKind};
use std::alloc::Global;

/// The bytes that a fault keeps.
const KEPT: usize = 64;

/// The value of a row in a key's column.
fn key_value(alloc: Global, row: &Row, key: &Key) -> Result<Value, NoMemory>
    requires { KeyInWidth row.now key.now }
    ensures { IfOk result (λ value. value ≡ at row.now key.now.col) }
{
    let value = copy_value(alloc, &row.as_slice()[key.col as usize])?;
    Ok(value)
}

/// The values of a row in the keys' columns.
pub fn key_values(alloc: Global, keys: &KeyList, row: &Row) -> Result<Row, NoMemory>
    requires { All (KeyInWidth row.now) keys.now }
    ensures { IfOk result (λ values. values ≡ val (cols keys.now) row.now) }
{
    let keys = keys.as_slice();
    let mut values = Vec::with_capacity(alloc, keys.len())?;
    for key in keys {
        values.push(key_value(alloc, row, key)?)?;
    }
    Ok(Row::from_vec(values))
}

/// The canonical bytes of some values, one after the other.
pub fn key_bytes(alloc: Global, values: &Row) -> Result<Bytes, NoMemory>
    requires { All IsShort values.now }
    ensures { IfOk result (λ bytes. bytes ≡ flat_map canonical_bytes values.now) }
{
    let mut bytes = Bytes::new(alloc);
    for value in values.as_slice() {
        canonical(alloc, value, &mut bytes)?;
    }
    Ok(bytes)
}

/// The fault of a group that overflows, by its key values.
fn group_fault(alloc: Global, values: &Row) -> Result<Fault, NoMemory>
    requires { All IsShort values.now }
    ensures { IfOk result (λ fault. fault ≡ group_fault values.now) }
{
    let mut bytes = key_bytes(alloc, values)?;
    bytes.truncate(KEPT);
    Ok(Fault {
        op: 0,
        kind: FaultKind::Overflow,
        place: 0,
        bytes,
    })
}

fn joined(values: Row, results: Row) -> Result<Row, NoMemory>
    ensures { IfOk result (λ row. row ≡ values ++ results) }
{
    let mut joined = values.into_vec();
    for value in results.into_vec() {
        joined.push(value)?;
    }
    Ok(Row::from_vec(joined))
}

/// Emits what the group of some key values gives: its row, or its fault.
pub fn give(alloc: Global, values: Row, tally: Tally, emit: &mut Emit) -> Result<(), NoMemory>
    requires { All IsShort values }
    ensures { OnOk result ((aggs : List Result) (rows : List Cells) → TallyStands aggs rows tally → Adds emit.old emit.new (given values (results aggs rows))) }
{
    match tally.into_results(alloc)? {
        Some(results) => {
            emit.send(0, joined(values, results)?)?;
        }
        None => emit.fault(group_fault(alloc, &values)?),
    }
    Ok(())
}
