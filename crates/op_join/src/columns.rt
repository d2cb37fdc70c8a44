ghost use Rattle.std.specs.Prelude.{◌≡◌, ◌++◌, length, IfOk, OnOk};
ghost use Rattle.ds_value.specs.Values.{value_cmp};
ghost use Rattle.ds_schema.specs.Rows.{at, cols, turned_cmp, val, vals_cmp, ways};
ghost use Rattle.op_base.specs.Columns.{is_in};
ghost use Rattle.op_join.specs.Joining.{others};

use ds_schema::{Key, KeyList, Row};
use ds_value::{Copied, NoMemory, Value, cmp};
use std::alloc::Global;
use std::cmp::Ordering;

/// The columns of an input: how many there are, its keys, and the others in their order.
#[derive(Debug, Drop)]
pub struct Columns {
    pub width: u32,
    pub keys: KeyList,
    pub others: Vec<u32>,
}

fn is_key(keys: &KeyList, col: u32) -> bool
    ensures { result ≡ is_in col (cols keys.now) }
{
    for key in keys.as_slice() {
        if col == key.col {
            return true;
        }
    }
    false
}

fn others(alloc: Global, keys: &KeyList, width: u32) -> Result<Vec<u32>, NoMemory>
    ensures { IfOk result (λ cols. cols.items ≡ others keys.now width) }
{
    let mut found = Vec::new(alloc);
    for col in 0..width {
        if !is_key(keys, col) {
            found.push(col)?;
        }
    }
    Ok(found)
}

impl Columns {
    pub fn new(alloc: Global, keys: KeyList, width: u32) -> Result<Columns, NoMemory>
        ensures keys { IfOk result (λ columns. columns.keys ≡ keys) }
        ensures others { IfOk result (λ columns. columns.others.items ≡ others keys width) }
        ensures width { IfOk result (λ columns. columns.width ≡ width) }
    {
        let others = others(alloc, &keys, width)?;
        Ok(Columns {
            width,
            keys,
            others,
        })
    }
}

/// The value in a column, or null past the end.
fn value_at(row: &Row, col: usize) -> Result<Value, NoMemory>
    ensures { IfOk result (λ value. value ≡ at row.now col) }
{
    match row.as_slice().get(col) {
        Some(value) => Ok(value.copied()?),
        None => Ok(Value::Null),
    }
}

/// Appends a row's key values.
pub fn push_keys(values: &mut Vec<Value>, row: &Row, keys: &KeyList) -> Result<(), NoMemory>
    ensures { OnOk result (values.new.items ≡ values.old.items ++ val (cols keys.now) row.now) }
{
    for key in keys.as_slice() {
        values.push(value_at(row, key.col as usize)?)?;
    }
    Ok(())
}

/// Appends a row's values in some columns.
pub fn push_columns(values: &mut Vec<Value>, row: &Row, cols: &[u32]) -> Result<(), NoMemory>
    ensures { OnOk result (values.new.items ≡ values.old.items ++ val cols.now row.now) }
{
    for col in cols {
        values.push(value_at(row, *col as usize)?)?;
    }
    Ok(())
}

/// The order of two rows' values, each in a column of its own.
fn compare_values(a: &Row, left: usize, b: &Row, right: usize) -> Ordering
    ensures { result ≡ value_cmp (at a.now left) (at b.now right) }
{
    match (a.as_slice().get(left), b.as_slice().get(right)) {
        (Some(x), Some(y)) => cmp(x, y),
        (Some(x), None) => cmp(x, &Value::Null),
        (None, Some(y)) => cmp(&Value::Null, y),
        (None, None) => Ordering::Equal,
    }
}

fn turned_cmp(left: Key, a: &Row, right: Key, b: &Row) -> Ordering
    ensures { result ≡ turned_cmp left.desc (at a.now left.col) (at b.now right.col) }
{
    if left.desc {
        compare_values(b, right.col as usize, a, left.col as usize)
    } else {
        compare_values(a, left.col as usize, b, right.col as usize)
    }
}

/// The order of a left and a right row's key values.
pub fn compare_keys(left: &KeyList, a: &Row, right: &KeyList, b: &Row) -> Ordering
    requires { length left.now ≡ length right.now }
    ensures { result ≡ vals_cmp (ways left.now) (val (cols left.now) a.now) (val (cols right.now) b.now) }
{
    let lefts = left.as_slice();
    let rights = right.as_slice();
    for i in 0..lefts.len() {
        let order = turned_cmp(lefts[i], a, rights[i], b);
        if order != Ordering::Equal {
            return order;
        }
    }
    Ordering::Equal
}
