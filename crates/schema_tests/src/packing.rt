//! Rows as bytes and back.

ghost use Rattle.std.specs.Prelude.{◌≤◌, All, IfOk, length};
ghost use Rattle.ds_value.specs.Canonical.{IsShort};
ghost use Rattle.ds_pack.specs.Batches.{FitEach};

use ds_pack::laws::fitting_rows_are_packable;
use ds_pack::{batch, pack_row, unpack_row};
use ds_schema::{Row, Schema, read_schema, row_fits};
use ds_value::{Bytes, Value};
use std::alloc::Global;
use std::test::Fail;

static FIELDS: &[u8] =
    b"record ( a: int32; b: nullable string[max=4]; c: uint64; d: decimal[20,2]; e: date; )";

/// -2, the text `ab`, 258, -1.00 and the day after 1970-01-01; then the same with null for the text.
static PACKED: [&[u8]; 2] = [
    b"\x01\xff\xff\xff\xff\xff\xff\xff\xfe\x04\0\0\0\x02ab\x02\0\0\0\0\0\0\x01\x02\x03\xff\xff\xff\xff\xff\xff\xff\xff\xff\xff\xff\xff\xff\xff\xff\x9c\x05\0\0\0\x01",
    b"\x01\xff\xff\xff\xff\xff\xff\xff\xfe\0\x02\0\0\0\0\0\0\x01\x02\x03\xff\xff\xff\xff\xff\xff\xff\xff\xff\xff\xff\xff\xff\xff\xff\x9c\x05\0\0\0\x01",
];

/// Bytes in front of which no row stands: none, a part of a row, another variant, a text that is cut, a value that doesn't fit.
static NO_ROW: [&[u8]; 6] = [
    b"",
    b"\x01\xff\xff\xff\xff\xff\xff\xff\xfe",
    b"\x02\xff\xff\xff\xff\xff\xff\xff\xfe\0\x02\0\0\0\0\0\0\x01\x02\x03\xff\xff\xff\xff\xff\xff\xff\xff\xff\xff\xff\xff\xff\xff\xff\x9c\x05\0\0\0\x01",
    b"\x01\0\0\0\0\0\0\0\x01\x04\0\0\0\x7fab\x02\0\0\0\0\0\0\x01\x02\x03\xff\xff\xff\xff\xff\xff\xff\xff\xff\xff\xff\xff\xff\xff\xff\x9c\x05\0\0\0\x01",
    b"\x01\0\0\0\x01\0\0\0\x01\0\x02\0\0\0\0\0\0\x01\x02\x03\xff\xff\xff\xff\xff\xff\xff\xff\xff\xff\xff\xff\xff\xff\xff\x9c\x05\0\0\0\x01",
    b"\x06\0\0\0\0\0\0\0\x01\0\x02\0\0\0\0\0\0\x01\x02\x03\xff\xff\xff\xff\xff\xff\xff\xff\xff\xff\xff\xff\xff\xff\xff\x9c\x05\0\0\0\x01",
];

fn schema(alloc: Global) -> Result<Schema, Fail> {
    match read_schema(alloc, FIELDS) {
        Ok(schema) => Ok(schema),
        Err(_) => Err("no schema".into()),
    }
}

fn row(alloc: Global, text: Value) -> Result<Row, Fail>
    requires { IsShort text }
    ensures { IfOk result (All IsShort) }
{
    let values = vec![in alloc;
        Value::Int(-2),
        text,
        Value::UInt(258),
        Value::Dec(-100),
        Value::Date(1),
    ]?;
    Ok(Row::from_vec(values))
}

#[test]
fn rows_are_packed(rt: HostRuntime) -> Result<(), Fail> {
    let alloc = rt.alloc();
    let mut bytes = Bytes::new(alloc);
    let text = Value::Text(Bytes::from_vec(b"ab".to_vec(alloc)?));
    pack_row(alloc, &row(alloc, text)?, &mut bytes)?;
    assert!(&rt; bytes.as_slice() == PACKED[0]);
    pack_row(alloc, &row(alloc, Value::Null)?, &mut bytes)?;
    assert!(&rt; bytes.as_slice().len() == PACKED[0].len() + PACKED[1].len());
    assert!(&rt; &bytes.as_slice()[PACKED[0].len()..] == PACKED[1]);
    Ok(())
}

#[test]
fn packed_rows_are_read(rt: HostRuntime) -> Result<(), Fail> {
    let alloc = rt.alloc();
    let schema = schema(alloc)?;
    for packed in &PACKED {
        let mut bytes = Bytes::new(alloc);
        bytes.append(packed)?;
        bytes.append(b"\x01\x02")?;
        let Some((row, count)) = unpack_row(alloc, &schema, bytes.as_slice())? else {
            return Err("no row".into());
        };
        assert!(&rt; count == packed.len());
        assert!(&rt; row.as_slice().len() == 5);
        assert!(&rt; matches!(row.as_slice()[0], Value::Int(-2)));
        assert!(&rt; matches!(row.as_slice()[2], Value::UInt(258)));
        assert!(&rt; matches!(row.as_slice()[3], Value::Dec(-100)));
        assert!(&rt; matches!(row.as_slice()[4], Value::Date(1)));
    }
    for bytes in &NO_ROW {
        assert!(&rt; unpack_row(alloc, &schema, bytes)?.is_none());
    }
    Ok(())
}

/// The two rows, the one with the text first. They fit the schema.
fn two_rows(alloc: Global, schema: &Schema) -> Result<Vec<Row>, Fail>
    ensures fit { IfOk result (λ rows. FitEach schema.now rows.items) }
    ensures some { IfOk result (λ rows. 1 ≤ length rows.items) }
{
    let text = Value::Text(Bytes::from_vec(b"ab".to_vec(alloc)?));
    let first = row(alloc, text)?;
    let second = row(alloc, Value::Null)?;
    if !row_fits(schema, &first) {
        return Err("the first row doesn't fit".into());
    }
    if !row_fits(schema, &second) {
        return Err("the second row doesn't fit".into());
    }
    Ok(vec![in alloc; first, second]?)
}

#[test]
fn batches_keep_their_rows(rt: HostRuntime) -> Result<(), Fail> {
    let alloc = rt.alloc();
    let schema = schema(alloc)?;
    let _fields = schema.as_slice();
    fitting_rows_are_packable();
    let rows = two_rows(alloc, &schema)?;
    let kept = batch(alloc, rows.as_slice())?;
    let rows = kept.rows(alloc, &schema)?;
    let [first, second] = rows.as_slice() else {
        return Err("not two rows".into());
    };
    let [Value::Int(-2), Value::Text(text), Value::UInt(258), ..] = first.as_slice() else {
        return Err("another first row".into());
    };
    assert!(&rt; text.as_slice() == b"ab".as_slice());
    let [_, Value::Null, _, Value::Dec(-100), Value::Date(1)] = second.as_slice() else {
        return Err("another second row".into());
    };
    Ok(())
}
