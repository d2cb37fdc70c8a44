//! Rows as tables hold them, and what is made of them.
ghost use Rattle.std.specs.Prelude.{◌≡◌, IfOk};
ghost use Rattle.std.specs.List.{list_all};
ghost use Rattle.ds_schema.specs.Schemas.{row_fits};

use ds_expr::{Typed, check, parse};
use ds_schema::{Row, Schema, row_fits};
use ds_value::{Bytes, Value};
use op_base::{Emit, FaultKind, Sent};
use std::alloc::Global;
use std::test::Fail;

/// A value, as a table holds it.
#[derive(Clone, Copy)]
pub enum Cell {
    Null,
    Int(i64),
    Dec(i128),
    Text(&'static [u8]),
}

/// The number of faults, and the kind and the bytes of the least one.
#[derive(Clone, Copy)]
pub struct Faulty {
    pub number: u64,
    pub kind: FaultKind,
    pub bytes: &'static [u8],
}

pub const SCHEMA: &[u8] =
    b"record ( a: int32; n: nullable int32; d: decimal[6,2]; t: string[max=40]; )";

pub const FIRST: [Cell; 4] = [Cell::Int(1), Cell::Null, Cell::Dec(150), Cell::Text(b"ab")];

pub const SECOND: [Cell; 4] = [Cell::Int(2), Cell::Int(20), Cell::Dec(-5), Cell::Text(b"")];

pub const THIRD: [Cell; 4] = [
    Cell::Int(-3),
    Cell::Int(0),
    Cell::Dec(0),
    Cell::Text(b"abcdefghijklmnopqrstuvwxyz0123456789ABCD"),
];

/// The canonical bytes of the first row.
pub const FIRST_BYTES: &[u8] =
    b"\x01\0\0\0\0\0\0\0\x01\0\x03\0\0\0\0\0\0\0\0\0\0\0\0\0\0\0\x96\x04\0\0\0\x02ab";

/// The canonical bytes of the second row.
pub const SECOND_BYTES: &[u8] =
    b"\x01\0\0\0\0\0\0\0\x02\x01\0\0\0\0\0\0\0\x14\x03\xff\xff\xff\xff\xff\xff\xff\xff\xff\xff\xff\xff\xff\xff\xff\xfb\x04\0\0\0\0";

/// The first 64 of the 80 canonical bytes of the third row.
pub const THIRD_BYTES: &[u8] =
    b"\x01\xff\xff\xff\xff\xff\xff\xff\xfd\x01\0\0\0\0\0\0\0\0\x03\0\0\0\0\0\0\0\0\0\0\0\0\0\0\0\0\x04\0\0\0\x28abcdefghijklmnopqrstuvwx";

fn value(alloc: Global, cell: Cell) -> Result<Value, Fail> {
    Ok(match cell {
        Cell::Null => Value::Null,
        Cell::Int(int) => Value::Int(int),
        Cell::Dec(units) => Value::Dec(units),
        Cell::Text(text) => Value::Text(Bytes::from_vec(text.to_vec(alloc)?)),
    })
}

fn row(alloc: Global, cells: &[Cell]) -> Result<Row, Fail> {
    let mut values = Vec::new(alloc);
    for cell in cells {
        values.push(value(alloc, *cell)?)?;
    }
    Ok(Row::from_vec(values))
}

/// The three rows of the schema.
pub fn rows(alloc: Global) -> Result<Vec<Row>, Fail> {
    let mut rows = Vec::new(alloc);
    for cells in [FIRST, SECOND, THIRD] {
        rows.push(row(alloc, &cells)?)?;
    }
    Ok(rows)
}

/// Whether each row fits the schema.
pub fn all_fit(schema: &Schema, rows: &[Row]) -> bool
    ensures { result ≡ list_all (row_fits schema.now) rows.now }
{
    rows.iter().all(|row| row_fits(schema, row))
}

/// An expression over the schema.
pub fn typed(alloc: Global, schema: &Schema, text: &str) -> Result<Typed, Fail>
    ensures { IfOk result (λ typed. typed.fields ≡ schema.now) }
{
    let Ok(expr) = parse(alloc, text.as_bytes()) else {
        return Err(Fail::from("no expression"));
    };
    let Ok(typed) = check(alloc, expr, schema) else {
        return Err(Fail::from("not typed"));
    };
    Ok(typed)
}

fn is_cell(value: &Value, cell: Cell) -> bool {
    match (value, cell) {
        (Value::Null, Cell::Null) => true,
        (Value::Int(int), Cell::Int(other)) => *int == other,
        (Value::Dec(units), Cell::Dec(other)) => *units == other,
        (Value::Text(text), Cell::Text(other)) => text.as_slice() == other,
        _ => false,
    }
}

fn is_sent(sent: &Sent, port: u32, cells: &[Cell]) -> bool {
    let values = sent.row.as_slice();
    sent.port == port
        && values.len() == cells.len()
        && values
            .iter()
            .zip(cells)
            .all(|(value, cell)| is_cell(value, *cell))
}

/// Whether these rows were sent on these outputs in this order, and nothing else.
pub fn are_sent(emit: &Emit, expected: &[(u32, &[Cell])]) -> bool {
    let sent = emit.sent.as_slice();
    sent.len() == expected.len()
        && sent
            .iter()
            .zip(expected)
            .all(|(sent, (port, cells))| is_sent(sent, *port, cells))
}

/// Whether there were these faults, or none. Each has the place 0.
pub fn has_faults(emit: &Emit, expected: Option<Faulty>) -> bool {
    match (&emit.least, expected) {
        (None, None) => emit.faults == 0,
        (Some(least), Some(faulty)) => {
            emit.faults == faulty.number
                && least.kind == faulty.kind
                && least.place == 0
                && least.bytes.as_slice() == faulty.bytes
        }
        _ => false,
    }
}
