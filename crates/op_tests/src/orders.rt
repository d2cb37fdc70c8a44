use ds_schema::{Key, KeyList, Row};
use ds_value::{Bytes, Value};
use op_base::{Emit, run_list};
use op_order::{remdup, tsort};
use std::alloc::Global;
use std::test::Fail;

/// What a row has in its first column.
#[derive(Clone, Copy)]
enum Cell {
    Null,
    Int(i64),
    Text(&'static [u8]),
}

fn value(alloc: Global, cell: Cell) -> Result<Value, Fail> {
    Ok(match cell {
        Cell::Null => Value::Null,
        Cell::Int(int) => Value::Int(int),
        Cell::Text(text) => Value::Text(Bytes::from_vec(text.to_vec(alloc)?)),
    })
}

/// Rows of a cell and the row's number.
fn numbered(alloc: Global, cells: &[Cell]) -> Result<Vec<Row>, Fail> {
    let mut rows = Vec::new(alloc);
    for (number, cell) in cells.iter().enumerate() {
        let number = u64::try_from(number)?;
        rows.push(Row::from_vec(vec![in alloc; value(alloc, *cell)?, Value::UInt(number)]?))?;
    }
    Ok(rows)
}

/// The numbers of the rows that were sent.
fn numbers(alloc: Global, emit: &Emit) -> Result<Vec<u64>, Fail> {
    let mut numbers = Vec::new(alloc);
    for sent in emit.sent.as_slice() {
        if let [_, Value::UInt(number)] = sent.row.as_slice() {
            numbers.push(*number)?;
        }
    }
    Ok(numbers)
}

/// By the first column, or by none.
fn key(alloc: Global, desc: Option<bool>) -> Result<KeyList, Fail> {
    match desc {
        None => Ok(KeyList::from_vec(Vec::new(alloc))),
        Some(desc) => {
            let mut keys = Vec::new(alloc);
            keys.push(Key { col: 0, desc })?;
            Ok(KeyList::from_vec(keys))
        }
    }
}

fn sorted(alloc: Global, desc: Option<bool>, rows: Vec<Row>) -> Result<Emit, Fail> {
    let mut op = tsort(alloc, key(alloc, desc)?)?;
    Ok(run_list(alloc, &mut op, rows)?)
}

fn deduplicated(
    alloc: Global,
    desc: Option<bool>,
    last: bool,
    rows: Vec<Row>,
) -> Result<Emit, Fail> {
    let mut op = remdup(alloc, key(alloc, desc)?, last)?;
    Ok(run_list(alloc, &mut op, rows)?)
}

#[test]
fn rows_are_sorted(rt: HostRuntime) -> Result<(), Fail> {
    let alloc = rt.alloc();
    let ints = [Cell::Int(2), Cell::Null, Cell::Int(2), Cell::Int(-1)];
    let far = [
        Cell::Int(i64::MAX),
        Cell::Int(i64::MAX - 1),
        Cell::Int(i64::MIN),
        Cell::Int(i64::MIN + 1),
    ];
    let texts = [
        Cell::Text(b"abcdefgz"),
        Cell::Text(b"abcdefg"),
        Cell::Text(b"\xff\xffz"),
        Cell::Text(b"\xff\xff"),
    ];
    let cases: [(Option<bool>, [Cell; 4], [u64; 4]); 7] = [
        (Some(false), ints, [1, 3, 0, 2]),
        (Some(true), ints, [0, 2, 3, 1]),
        (None, ints, [0, 1, 2, 3]),
        (Some(false), far, [2, 3, 1, 0]),
        (Some(true), far, [0, 1, 3, 2]),
        (Some(false), texts, [1, 0, 3, 2]),
        (Some(true), texts, [2, 3, 0, 1]),
    ];
    for (desc, cells, expected) in cases {
        let emit = sorted(alloc, desc, numbered(alloc, &cells)?)?;
        let found = numbers(alloc, &emit)?;
        assert!(rt; found.as_slice() == expected.as_slice());
    }
    Ok(())
}

#[test]
fn one_row_is_kept(rt: HostRuntime) -> Result<(), Fail> {
    let alloc = rt.alloc();
    let cells = [
        Cell::Null,
        Cell::Null,
        Cell::Int(1),
        Cell::Text(b"a"),
        Cell::Text(b"a"),
    ];
    let cases: [(Option<bool>, bool, &[Cell], &[u64]); 5] = [
        (Some(false), false, &cells, &[0, 2, 3]),
        (Some(false), true, &cells, &[1, 2, 4]),
        (None, false, &cells, &[0]),
        (None, true, &cells, &[4]),
        (Some(true), true, &[], &[]),
    ];
    for (desc, last, cells, expected) in cases {
        let emit = deduplicated(alloc, desc, last, numbered(alloc, cells)?)?;
        let found = numbers(alloc, &emit)?;
        assert!(rt; found.as_slice() == expected);
    }
    Ok(())
}
