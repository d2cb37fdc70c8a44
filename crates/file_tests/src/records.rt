use ds_schema::{Field, Row, Schema};
use ds_text::{Form, RecordFault, form_fits, read_record, write_line, write_record};
use ds_value::{Bytes, Items, Kind, Name, Value};
use std::alloc::Global;
use std::test::Fail;

/// a: int32; b: nullable string[max=4]; c: string[max=9]
fn schema(alloc: Global) -> Result<Schema, Fail> {
    let a = Name::from_bytes(alloc, b"a")?.ok_or("no name")?;
    let b = Name::from_bytes(alloc, b"b")?.ok_or("no name")?;
    let c = Name::from_bytes(alloc, b"c")?.ok_or("no name")?;
    let (nullable, max, fixed) = (true, 4, false);
    let fields = vec![in alloc;
        Field {
            name: a,
            nullable: false,
            kind: Kind::Int(32)
        },
        Field {
            name: b,
            nullable,
            kind: Kind::Text { max, fixed }
        },
        Field {
            name: c,
            nullable: false,
            kind: Kind::Text { max: 9, fixed }
        },
    ]?;
    Ok(Schema::from_vec(fields))
}

/// The values of a row, each text in brackets.
fn described(alloc: Global, row: &Row) -> Result<Bytes, Fail> {
    let mut all = Bytes::new(alloc);
    for value in row.as_slice() {
        match value {
            Value::Int(int) => all.append(int.to_string(alloc)?.as_bytes())?,
            Value::Text(text) => {
                all.push(b'[')?;
                all.append(text.as_slice())?;
                all.push(b']')?;
            }
            _ => all.append(b"null")?,
        }
        all.push(b' ')?;
    }
    Ok(all)
}

/// A line, the row that it spells, and how that row is written with another delimiter.
static SPELLED: [(&[u8], &[u8], &[u8]); 14] = [
    (b"1,ab,x", b"1 [ab] [x] ", b"1;ab;x"),
    (b"+01,,", b"1 null [] ", b"1;;"),
    (b"-7,\"\",x", b"-7 [] [x] ", b"-7;\"\";x"),
    (b"1,,\"\"", b"1 null [] ", b"1;;"),
    (b"\"1\",\"ab\",\"x\"", b"1 [ab] [x] ", b"1;ab;x"),
    (b"1,\"a,b\",x", b"1 [a,b] [x] ", b"1;a,b;x"),
    (b"1,a;b,x", b"1 [a;b] [x] ", b"1;\"a;b\";x"),
    (b"1,\"a\"\"b\",x", b"1 [a\"b] [x] ", b"1;\"a\"\"b\";x"),
    (b"1,a\"b,x", b"1 [a\"b] [x] ", b"1;\"a\"\"b\";x"),
    (
        b"1,a\"\"b,x\"",
        b"1 [a\"\"b] [x\"] ",
        b"1;\"a\"\"\"\"b\";\"x\"\"\"",
    ),
    (b"1,\"\"\"\",x", b"1 [\"] [x] ", b"1;\"\"\"\";x"),
    (b"1,a\rb,x", b"1 [a\rb] [x] ", b"1;\"a\rb\";x"),
    (b"1, a ,x ", b"1 [ a ] [x ] ", b"1; a ;x "),
    (b"0,null,x", b"0 [null] [x] ", b"0;null;x"),
];

static BAD: [&[u8]; 13] = [
    b"",
    b"1,ab",
    b"1,ab,x,",
    b"1,ab,x,y",
    b"1,\"ab,x",
    b"1,\"ab\" ,x",
    b"1,\"a\"b\",x",
    b"1,ab,\"x",
    b"1,abcde,x",
    b",ab,x",
    b"\"\",ab,x",
    b" 1,ab,x",
    b"2147483648,ab,x",
];

/// Whether a line spells the row that is described so, which is written as `again` with `;`.
fn is_read(
    alloc: Global,
    schema: &Schema,
    line: &[u8],
    wanted: &[u8],
    again: &[u8],
) -> Result<bool, Fail> {
    let row = read_record(alloc, schema, &Form::Delimited(b','), line)?;
    let mut text = Bytes::from_vec(b"|".to_vec(alloc)?);
    write_record(alloc, schema, &Form::Delimited(b';'), &row, &mut text)?;
    Ok(described(alloc, &row)?.as_slice() == wanted && &text.as_slice()[1..] == again)
}

fn is_bad(alloc: Global, schema: &Schema, line: &[u8]) -> bool {
    matches!(
        read_record(alloc, schema, &Form::Delimited(b','), line),
        Err(RecordFault::Bad)
    )
}

#[test]
fn delimited_lines_are_records(rt: HostRuntime) -> Result<(), Fail> {
    let alloc = rt.alloc();
    let schema = schema(alloc)?;
    for (line, wanted, again) in &SPELLED {
        assert!(rt; is_read(alloc, &schema, line, wanted, again)?, "{line:?}");
    }
    for line in &BAD {
        assert!(rt; is_bad(alloc, &schema, line), "{line:?}");
    }
    Ok(())
}

#[test]
fn the_longest_line_is_a_record(rt: HostRuntime) -> Result<(), Fail> {
    let alloc = rt.alloc();
    let schema = schema(alloc)?;
    let mut line = vec![in alloc; b'0'; 2_097_148]?;
    line.extend_from_slice(b"7,,x")?;
    assert!(rt; is_read(alloc, &schema, &line, b"7 null [x] ", b"7;;x")?);
    line.insert(0, b'0')?;
    assert!(rt; is_bad(alloc, &schema, &line));
    Ok(())
}

/// A line of columns of 3, 4 and 2 bytes, the row that it spells, and how that is written;
/// or nothing where it is bad.
static COLUMNS: [(&[u8], &[u8], &[u8]); 12] = [
    (b" 12ab  x ", b"12 [ab] [x] ", b" 12ab  x "),
    (b"1", b"1 null [] ", b"  1      "),
    (b"+7 ", b"7 null [] ", b"  7      "),
    (b"-7      xy", b"", b""),
    (b"-7     xy", b"-7 null [xy] ", b" -7    xy"),
    (b"  0 a", b"0 [ a] [] ", b"  0 a    "),
    (b"123abcdxy", b"123 [abcd] [xy] ", b"123abcdxy"),
    (b"1\"\"\"", b"", b""),
    (b"1  \"a\" ,", b"1 [\"a\"] [,] ", b"  1\"a\" , "),
    (b"   ab  x ", b"", b""),
    (b"", b"", b""),
    (b"1 2ab  x ", b"", b""),
];

fn in_columns(alloc: Global, schema: &Schema, line: &[u8]) -> Result<(Bytes, Bytes), Fail> {
    let form = Form::Fixed(Items::from_vec(vec![in alloc; 3, 4, 2]?));
    let mut text = Bytes::new(alloc);
    if !form_fits(schema, &form) {
        return Err(Fail::from("no form"));
    }
    let row = match read_record(alloc, schema, &form, line) {
        Ok(row) => row,
        Err(RecordFault::Bad) => return Ok((Bytes::new(alloc), text)),
        Err(RecordFault::Memory) => return Err(Fail::from("no memory")),
    };
    write_line(alloc, schema, &form, &row, &mut text)?;
    Ok((described(alloc, &row)?, text))
}

/// Whether this is the text with its end of line, or nothing at all.
fn is_line(written: &[u8], text: &[u8]) -> bool {
    match written.strip_suffix(b"\n") {
        Some(line) => line == text && !text.is_empty(),
        None => written.is_empty() && text.is_empty(),
    }
}

#[test]
fn lines_of_columns_are_records(rt: HostRuntime) -> Result<(), Fail> {
    let alloc = rt.alloc();
    let schema = schema(alloc)?;
    for (line, wanted, again) in &COLUMNS {
        let (row, text) = in_columns(alloc, &schema, line)?;
        assert!(rt; row.as_slice() == *wanted, "{line:?}");
        assert!(rt; is_line(text.as_slice(), again), "{line:?}");
    }
    Ok(())
}

/// Whether the row of a line can't be written, and nothing is.
fn is_refused(alloc: Global, schema: &Schema, line: &[u8]) -> Result<bool, Fail> {
    let row = read_record(alloc, schema, &Form::Delimited(b','), line)?;
    let form = Form::Fixed(Items::from_vec(vec![in alloc; 3, 4, 2]?));
    let mut text = Bytes::from_vec(b"|".to_vec(alloc)?);
    let delimited = write_record(alloc, schema, &Form::Delimited(b','), &row, &mut text);
    let fixed = if form_fits(schema, &form) {
        write_record(alloc, schema, &form, &row, &mut text)
    } else {
        Ok(())
    };
    let ends = line.contains(&b'\n');
    Ok(
        delimited == Err(RecordFault::Bad) && ends
            || delimited == Ok(()) && fixed == Err(RecordFault::Bad),
    )
}

static UNWRITABLE: [&[u8]; 5] = [
    b"1,a\nb,x",
    b"1000,ab,x",
    b"-100,ab,x",
    b"1,ab,xyz",
    b"1,ab,\"x\n\"",
];

#[test]
fn rows_may_be_unwritable(rt: HostRuntime) -> Result<(), Fail> {
    let alloc = rt.alloc();
    let schema = schema(alloc)?;
    for line in &UNWRITABLE {
        assert!(rt; is_refused(alloc, &schema, line)?, "{line:?}");
    }
    Ok(())
}
