ghost use Rattle.std.specs.Prelude.{◌≡◌};
ghost use Rattle.std.specs.List.{list_all};
ghost use Rattle.op_row.specs.ByRow.{has_columns};

mod filtering;
mod fixture;
mod switching;
mod transforming;

use ds_schema::Row;
use ds_value::Value;
use op_base::{Emit, run_list};
use op_row::{copier, modify};
use std::alloc::Global;
use std::test::Fail;

/// Two rows of three numbers.
fn rows(alloc: Global) -> Result<Vec<Row>, Fail> {
    let mut rows = Vec::new(alloc);
    for numbers in [[0, 1, 2], [10, 11, 12]] {
        let mut values = Vec::new(alloc);
        for number in numbers {
            values.push(Value::UInt(number))?;
        }
        rows.push(Row::from_vec(values))?;
    }
    Ok(rows)
}

/// The numbers in the rows that were sent to an output, row by row.
fn sent(alloc: Global, emit: &Emit, port: u32) -> Result<Vec<u64>, Fail> {
    let mut numbers = Vec::new(alloc);
    for sent in emit.sent.as_slice() {
        if sent.port == port {
            for value in sent.row.as_slice() {
                if let Value::UInt(number) = value {
                    numbers.push(*number)?;
                }
            }
        }
    }
    Ok(numbers)
}

fn copied(alloc: Global, outs: u32) -> Result<Emit, Fail> {
    let mut op = copier(alloc, outs)?;
    Ok(run_list(alloc, &mut op, rows(alloc)?)?)
}

#[test]
fn rows_are_copied(rt: HostRuntime) -> Result<(), Fail> {
    let alloc = rt.alloc();
    for outs in 0..4_u32 {
        let emit = copied(alloc, outs)?;
        let beyond = sent(alloc, &emit, outs)?;
        assert!(rt; beyond.is_empty());
        for out in 0..outs {
            let found = sent(alloc, &emit, out)?;
            assert!(rt; found.as_slice() == [0, 1, 2, 10, 11, 12].as_slice());
        }
    }
    Ok(())
}

/// Whether each row has these columns.
fn all_have(cols: &[u32], rows: &[Row]) -> bool
    ensures { result ≡ list_all (has_columns cols.now) rows.now }
{
    rows.iter().all(|row| has_columns(cols, row))
}

fn has_columns(cols: &[u32], row: &Row) -> bool
    ensures { result ≡ has_columns cols.now row.now }
{
    let width = row.as_slice().len();
    cols.iter().all(|col| (*col as usize) < width)
}

/// What a modify of these columns sends of two rows; nothing where they lack a column.
fn kept(alloc: Global, cols: Vec<u32>) -> Result<Vec<u64>, Fail> {
    let rows = rows(alloc)?;
    if !all_have(cols.as_slice(), rows.as_slice()) {
        return Ok(Vec::new(alloc));
    }
    let mut op = modify(alloc, cols)?;
    let emit = run_list(alloc, &mut op, rows)?;
    sent(alloc, &emit, 0)
}

/// Columns, and the numbers in them.
static KEPT: [(&[u32], &[u64]); 4] = [
    (&[0, 1, 2], &[0, 1, 2, 10, 11, 12]),
    (&[2, 0], &[2, 0, 12, 10]),
    (&[1, 1], &[1, 1, 11, 11]),
    (&[], &[]),
];

#[test]
fn columns_are_kept(rt: HostRuntime) -> Result<(), Fail> {
    let alloc = rt.alloc();
    for (cols, expected) in &KEPT {
        let found = kept(alloc, cols.to_vec(alloc)?)?;
        assert!(rt; found.as_slice() == *expected);
    }
    Ok(())
}
