ghost use Rattle.std.specs.Prelude.{◌≡◌, ◌∷◌, [], ℤ, nat_lt, true, List, IfOk};
ghost use Rattle.std.specs.List.{AllByRecursion, list_all};
ghost use Rattle.ds_value.specs.declared.value.Value.{Value as Content};
ghost use Rattle.ds_schema.specs.Rows.{cols};
ghost use Rattle.op_base.specs.Columns.{is_short};

use Cell::{Int, Null, UInt};
use ds_schema::{Key, KeyList, Row};
use ds_value::Value;
use op_base::{Emit, Fault, FaultKind, run_list};
use op_group::{Agg, group_hashed, group_sorted};
use std::alloc::Global;
use std::test::Fail;

/// A value that a group gives.
#[derive(Clone, Copy)]
enum Cell {
    Null,
    UInt(u64),
    Int(i64),
}

/// The rows that are sent, the number of faults, and the bytes of the least of them.
#[derive(Clone, Copy)]
struct Given {
    rows: &'static [&'static [Cell]],
    faults: u64,
    bytes: &'static [u8],
}

/// Rows of a key and a number, and what each operator gives of them, by the first column or by
/// none.
#[derive(Clone, Copy)]
struct Case {
    keyed: bool,
    rows: &'static [(Option<u64>, i64)],
    sorted: Given,
    hashed: Given,
}

fn row(alloc: Global, key: Option<u64>, number: i64) -> Result<Row, Fail>
    ensures { IfOk result (λ row. (key : Content) × (is_short key ≡ true) × (row ≡ key ∷ (Value.Int number ∷ []))) }
{
    let mut values = Vec::new(alloc);
    values.push(match key {
        None => Value::Null,
        Some(key) => Value::UInt(key),
    })?;
    values.push(Value::Int(number))?;
    Ok(Row::from_vec(values))
}

fn rows(alloc: Global, cells: &[(Option<u64>, i64)]) -> Result<Vec<Row>, Fail>
    ensures { IfOk result (λ rows. AllByRecursion (λ (row : List Content). (key : Content) × (number : ℤ) × (is_short key ≡ true) × (row ≡ key ∷ (Value.Int number ∷ []))) rows.items) }
{
    let mut rows = Vec::new(alloc);
    for (key, number) in cells {
        rows.push(row(alloc, *key, *number)?)?;
    }
    Ok(rows)
}

fn keys(alloc: Global, keyed: bool) -> Result<KeyList, Fail>
    ensures { IfOk result (λ keys. list_all (λ c. nat_lt c 2) (cols keys) ≡ true) }
{
    let mut keys = Vec::new(alloc);
    if keyed {
        keys.push(Key {
            col: 0,
            desc: false,
        })?;
    }
    Ok(KeyList::from_vec(keys))
}

/// Each result of the second column.
fn each_agg(alloc: Global) -> Result<Vec<Agg>, Fail>
    ensures { IfOk result (λ aggs. aggs.items ≡ Agg.Sum 1 ∷ (Agg.Count ∷ (Agg.Min 1 ∷ (Agg.Max 1 ∷ (Agg.First 1 ∷ (Agg.Last 1 ∷ [])))))) }
{
    let mut aggs = Vec::new(alloc);
    aggs.push(Agg::Sum(1))?;
    aggs.push(Agg::Count)?;
    aggs.push(Agg::Min(1))?;
    aggs.push(Agg::Max(1))?;
    aggs.push(Agg::First(1))?;
    aggs.push(Agg::Last(1))?;
    Ok(aggs)
}

fn sorted(alloc: Global, case: &Case) -> Result<Emit, Fail> {
    let rows = rows(alloc, case.rows)?;
    let mut op = group_sorted(alloc, keys(alloc, case.keyed)?, each_agg(alloc)?)?;
    Ok(run_list(alloc, &mut op, rows)?)
}

fn hashed(alloc: Global, case: &Case) -> Result<Emit, Fail> {
    let rows = rows(alloc, case.rows)?;
    let mut op = group_hashed(alloc, keys(alloc, case.keyed)?, each_agg(alloc)?)?;
    Ok(run_list(alloc, &mut op, rows)?)
}

fn is_cell(value: &Value, cell: Cell) -> bool {
    match (value, cell) {
        (Value::Null, Cell::Null) => true,
        (Value::UInt(uint), Cell::UInt(other)) => *uint == other,
        (Value::Int(int), Cell::Int(other)) => *int == other,
        _ => false,
    }
}

fn is_row(row: &Row, cells: &[Cell]) -> bool {
    let values = row.as_slice();
    values.len() == cells.len()
        && values
            .iter()
            .zip(cells)
            .all(|(value, cell)| is_cell(value, *cell))
}

fn is_least(least: &Option<Fault>, given: &Given) -> bool {
    match least {
        None => given.faults == 0,
        Some(fault) => {
            fault.op == 0
                && fault.kind == FaultKind::Overflow
                && fault.place == 0
                && fault.bytes.as_slice() == given.bytes
        }
    }
}

fn is_given(emit: &Emit, given: &Given) -> bool {
    let sent = emit.sent.as_slice();
    sent.len() == given.rows.len()
        && sent
            .iter()
            .zip(given.rows)
            .all(|(sent, cells)| sent.port == 0 && is_row(&sent.row, cells))
        && emit.faults == given.faults
        && is_least(&emit.least, given)
}

const NOTHING: Given = Given {
    rows: &[],
    faults: 0,
    bytes: b"",
};

/// The greatest whole number.
const MOST: i64 = i64::MAX;

const CASES: &[Case] = &[
    // Keys that come again after others, and null.
    Case {
        keyed: true,
        rows: &[
            (Some(2), 7),
            (Some(1), 8),
            (None, 9),
            (Some(2), 5),
            (None, -1),
            (None, 4),
        ],
        sorted: Given {
            rows: &[
                &[UInt(2), Int(7), UInt(1), Int(7), Int(7), Int(7), Int(7)],
                &[UInt(1), Int(8), UInt(1), Int(8), Int(8), Int(8), Int(8)],
                &[Null, Int(9), UInt(1), Int(9), Int(9), Int(9), Int(9)],
                &[UInt(2), Int(5), UInt(1), Int(5), Int(5), Int(5), Int(5)],
                &[Null, Int(3), UInt(2), Int(-1), Int(4), Int(-1), Int(4)],
            ],
            ..NOTHING
        },
        hashed: Given {
            rows: &[
                &[UInt(2), Int(12), UInt(2), Int(5), Int(7), Int(7), Int(5)],
                &[UInt(1), Int(8), UInt(1), Int(8), Int(8), Int(8), Int(8)],
                &[Null, Int(12), UInt(3), Int(-1), Int(9), Int(9), Int(4)],
            ],
            ..NOTHING
        },
    },
    // Two groups overflow, the lesser key after the greater. A third has a greater number only
    // on its way.
    Case {
        keyed: true,
        rows: &[
            (Some(5), MOST),
            (Some(5), 1),
            (Some(2), MOST),
            (Some(2), 1),
            (Some(3), MOST),
            (Some(3), 1),
            (Some(3), -1),
        ],
        sorted: ONE_OF_THREE,
        hashed: ONE_OF_THREE,
    },
    // Without a key all rows are one group, and no row is in none.
    Case {
        keyed: false,
        rows: &[(Some(2), 7), (Some(1), -3)],
        sorted: ALL_ROWS,
        hashed: ALL_ROWS,
    },
    Case {
        keyed: false,
        rows: &[],
        sorted: NOTHING,
        hashed: NOTHING,
    },
];

const ONE_OF_THREE: Given = Given {
    rows: &[&[
        UInt(3),
        Int(MOST),
        UInt(3),
        Int(-1),
        Int(MOST),
        Int(MOST),
        Int(-1),
    ]],
    faults: 2,
    bytes: b"\x02\0\0\0\0\0\0\0\x02",
};

const ALL_ROWS: Given = Given {
    rows: &[&[Int(4), UInt(2), Int(-3), Int(7), Int(7), Int(-3)]],
    ..NOTHING
};

#[test]
fn rows_are_grouped(rt: HostRuntime) -> Result<(), Fail> {
    let alloc = rt.alloc();
    for case in CASES {
        let emit = sorted(alloc, case)?;
        assert!(rt; is_given(&emit, &case.sorted));
        let emit = hashed(alloc, case)?;
        assert!(rt; is_given(&emit, &case.hashed));
    }
    Ok(())
}
