//! Operators whose rows all have one width, run over tables of numbers.

ghost use Rattle.std.specs.Prelude.{◌≡◌, ◌∷◌, [], IfOk};
ghost use Rattle.std.specs.List.{list_all};
ghost use Rattle.op_base.specs.Columns.{is_short};
ghost use Rattle.op_match.specs.Suiting.{row_suits, WideSuit};

use ds_schema::{Key, KeyList, Row};
use ds_value::{Items, Value};
use op_base::{Emit, Operator, Sent};
use run_ports::run_ports;
use std::alloc::Global;
use std::test::Fail;

/// Stands for null in a table of numbers.
pub const NULL: i64 = -9;

/// Rows of numbers.
pub type Table = &'static [&'static [i64]];

/// Rows that are given: the output of each, and its numbers.
pub type Given = &'static [(u32, &'static [i64])];

fn rows(alloc: Global, table: Table) -> Result<Items<Row>, Fail> {
    let mut rows = Items::new(alloc);
    for numbers in table {
        let mut values = Vec::new(alloc);
        for number in *numbers {
            if *number == NULL {
                values.push(Value::Null)?;
            } else {
                values.push(Value::Int(*number))?;
            }
        }
        rows.push(Row::from_vec(values))?;
    }
    Ok(rows)
}

fn lists(alloc: Global, tables: &[Table]) -> Result<Vec<Items<Row>>, Fail> {
    let mut lists = Vec::new(alloc);
    for table in tables {
        lists.push(rows(alloc, *table)?)?;
    }
    Ok(lists)
}

fn is_short(value: &Value) -> bool
    ensures { result ≡ is_short value.now }
{
    match value {
        Value::Text(bytes) => bytes.as_slice().len() < 1 << 32,
        _ => true,
    }
}

fn are_short(values: &[Value]) -> bool
    ensures { result ≡ list_all is_short values.now }
{
    values.iter().all(|value| is_short(value))
}

fn suits(row: &Row, width: u32) -> bool
    ensures { result ≡ row_suits width row.now }
{
    let values = row.as_slice();
    values.len() == width as usize && are_short(values)
}

fn all_suit(rows: &[Row], width: u32) -> bool
    ensures { result ≡ list_all (row_suits width) rows.now }
{
    rows.iter().all(|row| suits(row, width))
}

fn have_width(lists: &[Items<Row>], width: u32) -> bool
    ensures { result ≡ list_all (list_all (row_suits width)) lists.now }
{
    lists.iter().all(|list| all_suit(list.as_slice(), width))
}

/// What an operator of so many inputs emits of tables of that width.
pub fn emitted<O: Operator + Drop>(
    alloc: Global,
    op: O,
    ports: u32,
    width: u32,
    tables: &[Table],
) -> Result<Emit, Fail>
    requires stands { O.Stands op [] }
    requires ports { (O.stream op).ports ≡ ports }
    requires wide { WideSuit width (O.suits op) }
{
    let mut op = op;
    let lists = lists(alloc, tables)?;
    if lists.len() != ports as usize {
        return Err(Fail::from("another number of inputs"));
    }
    if !have_width(lists.as_slice(), width) {
        return Err(Fail::from("a row has another width"));
    }
    Ok(run_ports(alloc, &mut op, lists)?)
}

fn is_value(value: &Value, number: i64) -> bool {
    match value {
        Value::Null => number == NULL,
        Value::Int(int) => *int == number,
        _ => false,
    }
}

fn is_sent(sent: &Sent, port: u32, numbers: &[i64]) -> bool {
    let values = sent.row.as_slice();
    sent.port == port
        && values.len() == numbers.len()
        && values
            .iter()
            .zip(numbers)
            .all(|(value, number)| is_value(value, *number))
}

/// Whether these rows were emitted in this order, and nothing else.
pub fn are_given(emit: &Emit, given: Given) -> bool {
    let sent = emit.sent.as_slice();
    emit.faults == 0
        && sent.len() == given.len()
        && sent
            .iter()
            .zip(given)
            .all(|(sent, (port, numbers))| is_sent(sent, *port, *numbers))
}

/// By the first column.
pub fn by_first(alloc: Global, desc: bool) -> Result<KeyList, Fail>
    ensures { IfOk result (λ keys. keys ≡ record { col = 0; desc = desc } ∷ []) }
{
    let mut keys = Vec::new(alloc);
    keys.push(Key { col: 0, desc })?;
    Ok(KeyList::from_vec(keys))
}
