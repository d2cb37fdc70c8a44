ghost use Rattle.std.specs.Prelude.{◌≡◌, ◌==◌, nat_lt, true, List, [], length, IfOk, OnOk, if◌then◌else◌};
ghost use Rattle.std.specs.List.{list_all};
ghost use Rattle.streams.specs.Streams.{Feed};
ghost use Rattle.op_base.specs.Columns.{Row as Values};
ghost use Rattle.op_base.specs.Columns.{is_short};
ghost use Rattle.op_lookup.specs.Looked.{suits_main, suits_reference, suits_lookup};

use ds_schema::Row;
use ds_value::{Bytes, Value};
use op_base::{Emit, FaultKind, Missing, Operator, Sent, Want};
use op_lookup::{Lookup, lookup};
use std::alloc::Global;
use std::test::Fail;

/// A value, as a table holds it.
#[derive(Clone, Copy)]
enum Cell {
    Null,
    Int(i64),
    UInt(u64),
    Dec(i128),
    Text(&'static [u8]),
    Date(i32),
}

type Cells = &'static [Cell];

/// The key's columns on both sides, and the number of the reference's columns.
#[derive(Clone, Copy)]
struct Sides {
    main: &'static [u32],
    reference: &'static [u32],
    width: u32,
}

fn value(alloc: Global, cell: Cell) -> Result<Value, Fail> {
    Ok(match cell {
        Cell::Null => Value::Null,
        Cell::Int(int) => Value::Int(int),
        Cell::UInt(uint) => Value::UInt(uint),
        Cell::Dec(units) => Value::Dec(units),
        Cell::Text(text) => Value::Text(Bytes::from_vec(text.to_vec(alloc)?)),
        Cell::Date(day) => Value::Date(day),
    })
}

fn rows(alloc: Global, table: &[Cells]) -> Result<Vec<Row>, Fail> {
    let mut rows = Vec::new(alloc);
    for cells in table {
        let mut values = Vec::new(alloc);
        for cell in *cells {
            values.push(value(alloc, *cell)?)?;
        }
        rows.push(Row::from_vec(values))?;
    }
    Ok(rows)
}

fn is_short(value: &Value) -> bool
    ensures { result ≡ is_short value.now }
{
    match value {
        Value::Text(text) => text.as_slice().len() < 1 << 32,
        _ => true,
    }
}

fn are_short(row: &Row) -> bool
    ensures { result ≡ list_all is_short row.now }
{
    row.as_slice().iter().all(|value| is_short(value))
}

fn has_columns(cols: &[u32], row: &Row) -> bool
    ensures { result ≡ list_all (λ c. nat_lt c (length row.now)) cols.now }
{
    let width = row.as_slice().len();
    cols.iter().all(|col| (*col as usize) < width)
}

/// Whether a row suits a port.
fn suits(main: &[u32], width: u32, port: u32, row: &Row) -> bool
    ensures { result ≡ (if port == 0 then suits_main main.now row.now else suits_reference width row.now) }
{
    let short = are_short(row);
    if port == 0 {
        let there = has_columns(main, row);
        return there && short;
    }
    row.as_slice().len() == width as usize && short
}

/// Feeds a row where it is wanted and suits.
fn feed_row(
    op: &mut Lookup,
    main: &[u32],
    width: u32,
    port: u32,
    row: Row,
    emit: &mut Emit,
) -> Result<(), Fail>
    requires suits { ⟦<Lookup as Operator>⟧.suits op.old ≡ suits_lookup main.now width }
    requires stands { (feeds : List (Feed Values)) × ⟦<Lookup as Operator>⟧.Stands op.old feeds × (suits_lookup main.now width feeds ≡ true) }
    ensures suits { OnOk result (⟦<Lookup as Operator>⟧.suits op.new ≡ suits_lookup main.now width) }
    ensures stands { OnOk result ((feeds : List (Feed Values)) × ⟦<Lookup as Operator>⟧.Stands op.new feeds × (suits_lookup main.now width feeds ≡ true)) }
{
    let Want::Port(wanted) = op.wants() else {
        return Err(Fail::from("no port is wanted"));
    };
    if wanted != port {
        return Err(Fail::from("another port is wanted"));
    }
    if !suits(main, width, port, &row) {
        return Err(Fail::from("a row doesn't suit"));
    }
    op.feed(port, row, emit)?;
    Ok(())
}

/// Ends a port where it is wanted.
fn end_port(
    op: &mut Lookup,
    main: &[u32],
    width: u32,
    port: u32,
    emit: &mut Emit,
) -> Result<(), Fail>
    requires suits { ⟦<Lookup as Operator>⟧.suits op.old ≡ suits_lookup main.now width }
    requires stands { (feeds : List (Feed Values)) × ⟦<Lookup as Operator>⟧.Stands op.old feeds × (suits_lookup main.now width feeds ≡ true) }
    ensures suits { OnOk result (⟦<Lookup as Operator>⟧.suits op.new ≡ suits_lookup main.now width) }
    ensures stands { OnOk result ((feeds : List (Feed Values)) × ⟦<Lookup as Operator>⟧.Stands op.new feeds × (suits_lookup main.now width feeds ≡ true)) }
{
    let Want::Port(wanted) = op.wants() else {
        return Err(Fail::from("no port is wanted"));
    };
    if wanted != port {
        return Err(Fail::from("another port is wanted"));
    }
    op.end(port, emit)?;
    Ok(())
}

/// Feeds a port with a list and its end.
fn feed_list(
    op: &mut Lookup,
    main: &[u32],
    width: u32,
    port: u32,
    rows: Vec<Row>,
    emit: &mut Emit,
) -> Result<(), Fail>
    requires suits { ⟦<Lookup as Operator>⟧.suits op.old ≡ suits_lookup main.now width }
    requires stands { (feeds : List (Feed Values)) × ⟦<Lookup as Operator>⟧.Stands op.old feeds × (suits_lookup main.now width feeds ≡ true) }
    ensures suits { OnOk result (⟦<Lookup as Operator>⟧.suits op.new ≡ suits_lookup main.now width) }
    ensures stands { OnOk result ((feeds : List (Feed Values)) × ⟦<Lookup as Operator>⟧.Stands op.new feeds × (suits_lookup main.now width feeds ≡ true)) }
{
    for row in rows {
        feed_row(op, main, width, port, row, emit)?;
    }
    end_port(op, main, width, port, emit)?;
    Ok(())
}

/// An operator to which nothing was fed.
fn made(alloc: Global, sides: Sides, missing: Missing) -> Result<Lookup, Fail>
    ensures suits { IfOk result (λ op. ⟦<Lookup as Operator>⟧.suits op ≡ suits_lookup sides.main.now sides.width) }
    ensures stands { IfOk result (λ op. ⟦<Lookup as Operator>⟧.Stands op []) }
{
    let main = sides.main.to_vec(alloc)?;
    let reference = sides.reference.to_vec(alloc)?;
    if main.len() != reference.len() {
        return Err(Fail::from("keys of several lengths"));
    }
    let width = sides.width;
    if !reference.iter().all(|col| *col < width) {
        return Err(Fail::from("no column of the reference"));
    }
    Ok(lookup(alloc, main, reference, width, missing)?)
}

/// What a lookup emits for a main table and a reference.
fn looked(
    alloc: Global,
    sides: Sides,
    missing: Missing,
    main: &[Cells],
    reference: &[Cells],
) -> Result<Emit, Fail> {
    let mut op = made(alloc, sides, missing)?;
    let mut emit = Emit::new(alloc);
    let reference = rows(alloc, reference)?;
    feed_list(&mut op, sides.main, sides.width, 1, reference, &mut emit)?;
    let main = rows(alloc, main)?;
    feed_list(&mut op, sides.main, sides.width, 0, main, &mut emit)?;
    let Want::Nothing = op.wants() else {
        return Err(Fail::from("a port is wanted after both have ended"));
    };
    op.finish(&mut emit)?;
    Ok(emit)
}

fn is_cell(value: &Value, cell: Cell) -> bool {
    match (value, cell) {
        (Value::Null, Cell::Null) => true,
        (Value::Int(int), Cell::Int(other)) => *int == other,
        (Value::UInt(uint), Cell::UInt(other)) => *uint == other,
        (Value::Dec(units), Cell::Dec(other)) => *units == other,
        (Value::Text(text), Cell::Text(other)) => text.as_slice() == other,
        (Value::Date(day), Cell::Date(other)) => *day == other,
        _ => false,
    }
}

fn is_sent(sent: &Sent, port: u32, cells: Cells) -> bool {
    let values = sent.row.as_slice();
    sent.port == port
        && values.len() == cells.len()
        && values
            .iter()
            .zip(cells)
            .all(|(value, cell)| is_cell(value, *cell))
}

/// Whether these rows were sent on these outputs in this order, and nothing else.
fn are_sent(emit: &Emit, expected: &[(u32, Cells)]) -> bool {
    let sent = emit.sent.as_slice();
    sent.len() == expected.len()
        && sent
            .iter()
            .zip(expected)
            .all(|(sent, (port, cells))| is_sent(sent, *port, *cells))
}

/// Whether there were so many faults, each that a key is missing, and these bytes in the least.
fn has_faults(emit: &Emit, number: u64, bytes: &[u8]) -> bool {
    match &emit.least {
        None => emit.faults == 0 && number == 0,
        Some(least) => {
            emit.faults == number
                && least.op == 0
                && least.kind == FaultKind::Missing
                && least.place == 0
                && least.bytes.as_slice() == bytes
        }
    }
}

const BY_NUMBER: Sides = Sides {
    main: &[0],
    reference: &[0],
    width: 2,
};

/// A key that comes twice, and null.
const CITIES: &[Cells] = &[
    &[Cell::Int(1), Cell::Text(b"x")],
    &[Cell::Int(1), Cell::Text(b"y")],
    &[Cell::Null, Cell::Text(b"none")],
];

const NUMBERS: &[Cells] = &[&[Cell::Int(1)], &[Cell::Int(2)], &[Cell::Null]];

const FIRST: (u32, Cells) = (0, &[Cell::Int(1), Cell::Text(b"x")]);

const LAST: (u32, Cells) = (0, &[Cell::Null, Cell::Text(b"none")]);

#[test]
fn missing_rows_continue(rt: HostRuntime) -> Result<(), Fail> {
    let emit = looked(rt.alloc(), BY_NUMBER, Missing::Continue, NUMBERS, CITIES)?;
    assert!(rt; are_sent(&emit, &[FIRST, (0, &[Cell::Int(2), Cell::Null]), LAST]));
    assert!(rt; has_faults(&emit, 0, b""));
    Ok(())
}

#[test]
fn missing_rows_are_dropped(rt: HostRuntime) -> Result<(), Fail> {
    let emit = looked(rt.alloc(), BY_NUMBER, Missing::Drop, NUMBERS, CITIES)?;
    assert!(rt; are_sent(&emit, &[FIRST, LAST]));
    assert!(rt; has_faults(&emit, 0, b""));
    Ok(())
}

#[test]
fn missing_rows_fail(rt: HostRuntime) -> Result<(), Fail> {
    let emit = looked(rt.alloc(), BY_NUMBER, Missing::Fail, NUMBERS, CITIES)?;
    assert!(rt; are_sent(&emit, &[FIRST, LAST]));
    assert!(rt; has_faults(&emit, 1, b"\x01\0\0\0\0\0\0\0\x02"));
    Ok(())
}

#[test]
fn missing_rows_are_rejected(rt: HostRuntime) -> Result<(), Fail> {
    let emit = looked(rt.alloc(), BY_NUMBER, Missing::Reject, NUMBERS, CITIES)?;
    assert!(rt; are_sent(&emit, &[FIRST, (1, &[Cell::Int(2)]), LAST]));
    assert!(rt; has_faults(&emit, 0, b""));
    Ok(())
}

/// Two columns on each side, in other orders, between others.
const BY_TWO: Sides = Sides {
    main: &[2, 0],
    reference: &[1, 3],
    width: 5,
};

/// Its values are those of the keys of three main rows: alike, with a null, and of no main row.
const PLACES: &[Cells] = &[
    &[
        Cell::Date(1),
        Cell::Text(b"ab"),
        Cell::Dec(-5),
        Cell::Text(b"c"),
        Cell::UInt(7),
    ],
    &[
        Cell::Date(2),
        Cell::Null,
        Cell::Null,
        Cell::Text(b"c"),
        Cell::UInt(8),
    ],
    &[
        Cell::Date(3),
        Cell::Text(b"c"),
        Cell::Dec(9),
        Cell::Text(b"ab"),
        Cell::UInt(9),
    ],
];

const NAMES: &[Cells] = &[
    &[Cell::Text(b"c"), Cell::Int(1), Cell::Text(b"ab")],
    &[Cell::Text(b"bc"), Cell::Int(2), Cell::Text(b"a")],
    &[Cell::Text(b"c"), Cell::Int(3), Cell::Null],
    &[Cell::Null, Cell::Int(4), Cell::Text(b"c")],
];

#[test]
fn keys_have_several_columns(rt: HostRuntime) -> Result<(), Fail> {
    let emit = looked(rt.alloc(), BY_TWO, Missing::Drop, NAMES, PLACES)?;
    let first: Cells = &[
        Cell::Text(b"c"),
        Cell::Int(1),
        Cell::Text(b"ab"),
        Cell::Date(1),
        Cell::Dec(-5),
        Cell::UInt(7),
    ];
    let third: Cells = &[
        Cell::Text(b"c"),
        Cell::Int(3),
        Cell::Null,
        Cell::Date(2),
        Cell::Null,
        Cell::UInt(8),
    ];
    assert!(rt; are_sent(&emit, &[(0, first), (0, third)]));
    Ok(())
}

#[test]
fn kinds_are_told_apart(rt: HostRuntime) -> Result<(), Fail> {
    let reference: &[Cells] = &[
        &[Cell::UInt(1), Cell::Int(1)],
        &[Cell::Dec(2), Cell::Int(2)],
    ];
    let main: &[Cells] = &[&[Cell::Int(1)], &[Cell::Dec(2)]];
    let emit = looked(rt.alloc(), BY_NUMBER, Missing::Drop, main, reference)?;
    assert!(rt; are_sent(&emit, &[(0, &[Cell::Dec(2), Cell::Int(2)])]));
    Ok(())
}

#[test]
fn no_columns_are_one_key(rt: HostRuntime) -> Result<(), Fail> {
    let sides = Sides {
        main: &[],
        reference: &[],
        width: 2,
    };
    let emit = looked(
        rt.alloc(),
        sides,
        Missing::Fail,
        &[&[], &[Cell::Int(5)]],
        CITIES,
    )?;
    let second: Cells = &[Cell::Int(5), Cell::Int(1), Cell::Text(b"x")];
    assert!(rt;
        are_sent(
            &emit,
            &[(0, &[Cell::Int(1), Cell::Text(b"x")]), (0, second)]
        )
    );
    assert!(rt; has_faults(&emit, 0, b""));
    Ok(())
}

#[test]
fn nothing_is_in_no_reference(rt: HostRuntime) -> Result<(), Fail> {
    let emit = looked(rt.alloc(), BY_NUMBER, Missing::Fail, NUMBERS, &[])?;
    assert!(rt; are_sent(&emit, &[]));
    assert!(rt; has_faults(&emit, 3, b"\0"));
    Ok(())
}

#[test]
fn no_row_gives_nothing(rt: HostRuntime) -> Result<(), Fail> {
    let emit = looked(rt.alloc(), BY_NUMBER, Missing::Continue, &[], CITIES)?;
    assert!(rt; are_sent(&emit, &[]));
    assert!(rt; has_faults(&emit, 0, b""));
    Ok(())
}

/// The canonical bytes of this row are 9, and 5 before the 60 of its text.
const LONG: &[Cells] = &[&[
    Cell::Int(9),
    Cell::Text(b"abcdefghijklmnopqrstuvwxyz0123456789ABCDEFGHIJKLMNOPQRSTUVWX"),
]];

#[test]
fn a_fault_keeps_64_bytes(rt: HostRuntime) -> Result<(), Fail> {
    let emit = looked(rt.alloc(), BY_NUMBER, Missing::Fail, LONG, CITIES)?;
    assert!(rt; are_sent(&emit, &[]));
    let kept =
        b"\x01\0\0\0\0\0\0\0\x09\x04\0\0\0\x3cabcdefghijklmnopqrstuvwxyz0123456789ABCDEFGHIJKLMN";
    assert!(rt; has_faults(&emit, 1, kept));
    Ok(())
}
