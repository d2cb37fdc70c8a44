ghost use Rattle.std.specs.Prelude.{◌≡◌, ◌++◌, length, IfOk, OnOk};
ghost use Rattle.ds_value.specs.Values.{value_cmp};
ghost use Rattle.ds_schema.specs.Rows.{at, cols, has, turned_cmp, val, vals_cmp, ways};
ghost use Rattle.op_base.specs.Columns.{all_columns, is_in};
ghost use Rattle.op_base.specs.Keyed.{same_vals};
ghost use Rattle.op_match.specs.Merges.{others};

use ds_schema::{Key, KeyList, Row};
use ds_value::{Copied, Items, NoMemory, Value, cmp};
use std::alloc::Global;
use std::cmp::Ordering;

/// The value in a column, or null past the end.
fn value_at(row: &Row, col: usize) -> Result<Value, NoMemory>
    ensures { IfOk result (λ value. value ≡ at row.now col) }
{
    match row.as_slice().get(col) {
        Some(value) => Ok(value.copied()?),
        None => Ok(Value::Null),
    }
}

/// A row's key values.
pub fn key_of(alloc: Global, row: &Row, keys: &KeyList) -> Result<Row, NoMemory>
    ensures { IfOk result (λ key. key ≡ val (cols keys.now) row.now) }
{
    let mut values = Vec::with_capacity(alloc, keys.as_slice().len())?;
    for key in keys.as_slice() {
        values.push(value_at(row, key.col as usize)?)?;
    }
    Ok(Row::from_vec(values))
}

/// How a row's value in a column compares with another value.
fn compare_value(row: &Row, col: usize, value: &Value) -> Ordering
    ensures { result ≡ value_cmp (at row.now col) value.now }
{
    match row.as_slice().get(col) {
        Some(own) => cmp(own, value),
        None => cmp(&Value::Null, value),
    }
}

fn turned(desc: bool, own: &Value, value: &Value) -> Ordering
    ensures { result ≡ turned_cmp desc own.now value.now }
{
    if desc {
        cmp(value, own)
    } else {
        cmp(own, value)
    }
}

fn turned_cmp(key: Key, row: &Row, value: &Value) -> Ordering
    ensures { result ≡ turned_cmp key.desc (at row.now key.col) value.now }
{
    match row.as_slice().get(key.col as usize) {
        Some(own) => turned(key.desc, own, value),
        None => turned(key.desc, &Value::Null, value),
    }
}

/// How a row's key values compare with others.
pub fn compare_key(keys: &KeyList, row: &Row, key: &Row) -> Ordering
    requires { length keys.now ≡ length key.now }
    ensures { result ≡ vals_cmp (ways keys.now) (val (cols keys.now) row.now) key.now }
{
    let list = keys.as_slice();
    let values = key.as_slice();
    for i in 0..list.len() {
        let order = turned_cmp(list[i], row, &values[i]);
        if order != Ordering::Equal {
            return order;
        }
    }
    Ordering::Equal
}

/// Whether a row has these key values.
pub fn has_key(keys: &KeyList, row: &Row, key: &Row) -> bool
    requires { length keys.now ≡ length key.now }
    ensures { result ≡ has (cols keys.now) key.now row.now }
{
    compare_key(keys, row, key).is_eq()
}

/// How two rows' values in a column compare.
fn compare_at(a: &Row, b: &Row, col: usize) -> Ordering
    ensures { result ≡ value_cmp (at a.now col) (at b.now col) }
{
    match b.as_slice().get(col) {
        Some(value) => compare_value(a, col, value),
        None => compare_value(a, col, &Value::Null),
    }
}

/// Whether two rows have the same values in some columns.
pub fn same_values(a: &Row, b: &Row, cols: &[u32]) -> bool
    ensures { result ≡ same_vals (val cols.now a.now) (val cols.now b.now) }
{
    for col in cols {
        if compare_at(b, a, *col as usize) != Ordering::Equal {
            return false;
        }
    }
    true
}

fn is_key(keys: &KeyList, col: u32) -> bool
    ensures { result ≡ is_in col (cols keys.now) }
{
    for key in keys.as_slice() {
        if col == key.col {
            return true;
        }
    }
    false
}

/// The columns below a width that no key names.
pub fn others(alloc: Global, keys: &KeyList, width: u32) -> Result<Items<u32>, NoMemory>
    ensures { IfOk result (λ cols. cols ≡ others keys.now width) }
{
    let mut found = Vec::new(alloc);
    for col in 0..width {
        if !is_key(keys, col) {
            found.push(col)?;
        }
    }
    Ok(Items::from_vec(found))
}

/// Appends a row's values in some columns.
pub fn push_columns(values: &mut Vec<Value>, row: &Row, cols: &[u32]) -> Result<(), NoMemory>
    ensures { OnOk result (values.new.items ≡ values.old.items ++ val cols.now row.now) }
{
    for col in cols {
        values.push(value_at(row, *col as usize)?)?;
    }
    Ok(())
}

/// Appends a row's values in the first columns.
pub fn push_first_columns(values: &mut Vec<Value>, row: &Row, width: u32) -> Result<(), NoMemory>
    ensures { OnOk result (values.new.items ≡ values.old.items ++ val (all_columns width) row.now) }
{
    for col in 0..width {
        values.push(value_at(row, col as usize)?)?;
    }
    Ok(())
}
