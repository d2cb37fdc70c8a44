ghost use Rattle.std.specs.Prelude.{◌≡◌, ◌∷◌, ◌++◌, [], List, All, OnOk, IfOk, true};
ghost use Rattle.std.specs.List.{AllByRecursion, flat_map};
ghost use Rattle.ds_value.specs.Canonical.{canonical_bytes, IsShort, IsHeld};
ghost use Rattle.ds_schema.specs.declared.key.Key.{Key as KeyOf};
ghost use Rattle.ds_schema.specs.Rows.{cols, val, KeyInWidth};
ghost use Rattle.op_base.specs.Columns.{Row as Cells};
ghost use Rattle.op_base.specs.Emits.{Adds};
ghost use Rattle.op_group.specs.declared.agg.Agg.{Agg as Result};
ghost use Rattle.op_group.specs.Groups.{row_suits, value_groups};
ghost use Rattle.op_group.specs.Kept.{TallyStands};
ghost use Rattle.op_group.specs.Tables.{AreGroups};

use crate::Agg;
use crate::giving::{give, key_values};
use crate::tally::Tally;
use ds_schema::{KeyList, Row};
use ds_value::{Bytes, NoMemory, Value, canonical};
use indexmap::IndexMap;
use op_base::Emit;
use std::alloc::Global;

/// The rows of one key value: the value, and what is kept of the rows.
#[derive(Debug, Drop)]
pub struct Group {
    pub values: Row,
    pub tally: Tally,
}

/// The groups in the order of their first rows, by the canonical bytes of their key values.
pub type Table = IndexMap<Vec<u8>, Group>;

/// The number that a value holds lies in the range of its variant. It is read for the
/// contract's sake, which knows the ranges of numbers that are read.
fn check_held(value: &Value)
    ensures { IsHeld value.now }
{
    match value {
        Value::Null | Value::Text(_) => {}
        Value::Int(n) => {
            let _n = *n;
        }
        Value::UInt(n) => {
            let _n = *n;
        }
        Value::Dec(n) => {
            let _n = *n;
        }
        Value::Date(n) => {
            let _n = *n;
        }
    }
}

/// The canonical bytes of a row's values in the keys' columns.
fn key_of(alloc: Global, keys: &KeyList, row: &Row) -> Result<Vec<u8>, NoMemory>
    requires columns { All (KeyInWidth row.now) keys.now }
    requires short { All IsShort row.now }
    ensures bytes { IfOk result (λ key. key.items ≡ flat_map canonical_bytes (val (cols keys.now) row.now)) }
    ensures held { OnOk result (AllByRecursion IsHeld (val (cols keys.now) row.now)) }
{
    let mut bytes = Bytes::new(alloc);
    for key in keys.as_slice() {
        let value = &row.as_slice()[key.col as usize];
        check_held(value);
        canonical(alloc, value, &mut bytes)?;
    }
    Ok(bytes.into_vec())
}

impl Group {
    fn new(alloc: Global, keys: &KeyList, aggs: &[Agg], row: &Row) -> Result<Group, NoMemory>
        requires { row_suits keys.now aggs.now row.now ≡ true }
        ensures values { IfOk result (λ group. group.values ≡ val (cols keys.now) row.now) }
        ensures tally { IfOk result (λ group. TallyStands aggs.now (row.now ∷ []) group.tally) }
    {
        let values = key_values(alloc, keys, row)?;
        let mut tally = Tally::new(alloc, aggs)?;
        tally.add(row)?;
        Ok(Group { values, tally })
    }
}

/// Adds a row to the group of its key value, or begins that group.
pub fn add_row(
    alloc: Global,
    keys: &KeyList,
    aggs: &[Agg],
    table: &mut Table,
    row: &Row,
) -> Result<(), NoMemory>
    requires suits { row_suits keys.now aggs.now row.now ≡ true }
    requires groups { (rows : List Cells) × AreGroups keys.now aggs.now table.old.entries rows }
    ensures { OnOk result ((rows : List Cells) → AreGroups keys.now aggs.now table.old.entries rows → AreGroups keys.now aggs.now table.new.entries (rows ++ row.now ∷ [])) }
{
    let key = key_of(alloc, keys, row)?;
    if let Some(group) = table.get_mut(&key) {
        group.tally.add(row)?;
        return Ok(());
    }
    let group = Group::new(alloc, keys, aggs, row)?;
    table.insert(key, group)?;
    Ok(())
}

/// Emits what each group gives.
pub fn give_each(alloc: Global, table: Table, emit: &mut Emit) -> Result<(), NoMemory>
    requires { (keys : List KeyOf) × (aggs : List Result) × (rows : List Cells) × AreGroups keys aggs table.entries rows }
    ensures { OnOk result ((keys : List KeyOf) (aggs : List Result) (rows : List Cells) → AreGroups keys aggs table.entries rows → Adds emit.old emit.new (value_groups keys aggs rows)) }
{
    for group in table.into_values() {
        give(alloc, group.values, group.tally, emit)?;
    }
    Ok(())
}
