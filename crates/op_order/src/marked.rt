ghost use Rattle.std.specs.Prelude.{◌≡◌, ◌≤◌, ◌<◌, ◌^◌, ◌∷◌, ◌++◌, [], OnOk, get_or};
ghost use Rattle.ds_value.specs.Values.{variant};
ghost use Rattle.ds_schema.specs.Rows.{at};
ghost use Rattle.op_base.specs.Keyed.{arranged};
ghost use Rattle.op_order.specs.Marks.{number_mark, next_digit, text_digits, content_mark, value_mark, key_mark, marked_cmp, AreMarked, rows_in};

use ds_schema::{KeyList, Row, compare_rows};
use ds_value::{NoMemory, Value};
use std::cmp::Ordering;

/// A row and a number for its first key, by which most comparisons are settled without a
/// look into the row. A sort of many rows waits mostly for memory, so this is kept small.
#[derive(Debug, Drop)]
pub struct Marked {
    pub mark: u64,
    pub row: Row,
}

/// The greatest number that is marked as it is, and one more.
const EXACT: i128 = 1 << 60;

fn number_mark(n: i128) -> u64
    ensures mark { result ≡ number_mark n }
    ensures small { result < 2 ^ 61 }
{
    if n < -EXACT {
        0
    } else if n < EXACT {
        (n + EXACT).unsigned_abs() as u64
    } else {
        (1 << 61) - 1
    }
}

/// The next digit of a text's mark.
fn next_digit(before: u64, bytes: &[u8], at: usize) -> u64
    ensures digit { result ≡ next_digit before (get_or bytes.now at 0) }
    ensures small { result ≤ 255 }
{
    if before == 255 {
        return 255;
    }
    match bytes.get(at) {
        Some(byte) => u64::from(*byte),
        None => 0,
    }
}

fn text_mark(bytes: &[u8]) -> u64
    ensures mark { result ≡ text_digits 7 0 0 bytes.now }
    ensures small { result < 2 ^ 61 }
{
    let first = next_digit(0, bytes, 0);
    let second = next_digit(first, bytes, 1);
    let third = next_digit(second, bytes, 2);
    let fourth = next_digit(third, bytes, 3);
    let fifth = next_digit(fourth, bytes, 4);
    let sixth = next_digit(fifth, bytes, 5);
    let seventh = next_digit(sixth, bytes, 6);
    let front = ((first * 256 + second) * 256 + third) * 256 + fourth;
    ((front * 256 + fifth) * 256 + sixth) * 256 + seventh
}

fn value_mark(value: &Value) -> u64
    ensures mark { result ≡ value_mark value.now }
    ensures small { result < 2 ^ 64 }
{
    match value {
        Value::Null => 0,
        Value::Int(n) => (1 << 61) + number_mark(i128::from(*n)),
        Value::UInt(n) => (2 << 61) + number_mark(i128::from(*n)),
        Value::Dec(n) => (3 << 61) + number_mark(*n),
        Value::Text(text) => (4 << 61) + text_mark(text.as_slice()),
        Value::Date(n) => (5 << 61) + number_mark(i128::from(*n)),
    }
}

/// The value in a column, or null past the end.
fn value_at<'a>(row: &'a Row, col: usize, null: &'a Value) -> &'a Value
    requires { null.now ≡ Value.Null }
    ensures { result.now ≡ at row.now col }
{
    match row.as_slice().get(col) {
        Some(value) => value,
        None => null,
    }
}

fn key_mark(keys: &KeyList, row: &Row) -> u64
    ensures { result ≡ key_mark keys.now row.now }
{
    let null = Value::Null;
    match keys.as_slice().first() {
        None => 0,
        Some(key) => {
            let mark = value_mark(value_at(row, key.col as usize, &null));
            if key.desc { u64::MAX - mark } else { mark }
        }
    }
}

/// The row with its mark.
pub fn mark_row(keys: &KeyList, row: Row) -> Marked
    ensures row { result.row ≡ row }
    ensures mark { result.mark ≡ key_mark keys.now row }
{
    let mark = key_mark(keys, &row);
    Marked { mark, row }
}

/// The order of two rows by the keys. Most often the marks tell.
fn compare_marked(keys: &KeyList, a: &Marked, b: &Marked) -> Ordering
    ensures { result ≡ marked_cmp keys.now a.now b.now }
{
    let order = a.mark.cmp(&b.mark);
    if order != Ordering::Equal {
        return order;
    }
    compare_rows(keys, &a.row, &b.row)
}

/// Sorts by the keys; rows that tie keep their order.
pub fn arrange(keys: &KeyList, rows: &mut Vec<Marked>) -> Result<(), NoMemory>
    requires { AreMarked keys.now rows.old.items }
    ensures ok { OnOk result (rows_in rows.new.items ≡ arranged keys.now (rows_in rows.old.items)) }
{
    rows.sort_by(|a, b| compare_marked(keys, a, b))?;
    Ok(())
}
