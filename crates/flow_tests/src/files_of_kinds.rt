//! Files with columns of each kind, in both forms: what is read and written, and what is rejected.

ghost use Rattle.std.specs.Prelude.{IfOk};
ghost use Rattle.ds_text.specs.Forms.{FormFits};

use ds_port::{MemSink, MemSource, NeverFails};
use ds_schema::{Row, Schema, read_schema};
use ds_text::{Form, form_fits};
use ds_value::{Bytes, Items, NoMemory, Value};
use flow_files::{Tally, export_rows, import_rows};
use std::alloc::Global;
use std::test::Fail;

/// Fields with this byte between them, or of these widths, where there are some.
type Style = (u8, &'static [u32]);

const COMMAS: Style = (b',', &[]);

/// The schema of a file, its style and its text, the style in which its rows are written and their
/// text, and the bad lines.
type Case = (
    &'static [u8],
    Style,
    &'static [u8],
    Style,
    &'static [u8],
    &'static [u8],
);

/// The least and the greatest value of each kind of numbers and of dates, one past each, and other
/// spellings; the days that months have; texts and nulls; other delimiters and fixed widths on both
/// sides. The greatest lengths of texts have a test of their own.
static CASES: [Case; 24] = [
    (
        b"record ( a: int8; )",
        COMMAS,
        b"127\n-128\n128\n-129\n+5\n007\n-0\n\n 1\n1 \n1.0\n--1\n+\n\"9\"\n1,2\n",
        COMMAS,
        b"127\n-128\n5\n7\n0\n9\n",
        b"128\n-129\n\n 1\n1 \n1.0\n--1\n+\n1,2\n",
    ),
    (
        b"record ( a: int16; )",
        COMMAS,
        b"32767\n-32768\n32768\n-32769\n",
        COMMAS,
        b"32767\n-32768\n",
        b"32768\n-32769\n",
    ),
    (
        b"record ( a: int32; )",
        COMMAS,
        b"2147483647\n-2147483648\n2147483648\n-2147483649\n",
        COMMAS,
        b"2147483647\n-2147483648\n",
        b"2147483648\n-2147483649\n",
    ),
    (
        b"record ( a: int64; )",
        COMMAS,
        b"9223372036854775807\n-9223372036854775808\n9223372036854775808\n-9223372036854775809\n",
        COMMAS,
        b"9223372036854775807\n-9223372036854775808\n",
        b"9223372036854775808\n-9223372036854775809\n",
    ),
    (
        b"record ( a: uint8; )",
        COMMAS,
        b"255\n256\n+0\n-0\n-1\n0000000000000000000000255\n",
        COMMAS,
        b"255\n0\n255\n",
        b"256\n-0\n-1\n",
    ),
    (
        b"record ( a: uint16; )",
        COMMAS,
        b"65535\n0\n65536\n-1\n",
        COMMAS,
        b"65535\n0\n",
        b"65536\n-1\n",
    ),
    (
        b"record ( a: uint32; )",
        COMMAS,
        b"4294967295\n0\n4294967296\n-1\n",
        COMMAS,
        b"4294967295\n0\n",
        b"4294967296\n-1\n",
    ),
    (
        b"record ( a: uint64; )",
        COMMAS,
        b"18446744073709551615\n0\n18446744073709551616\n-1\n",
        COMMAS,
        b"18446744073709551615\n0\n",
        b"18446744073709551616\n-1\n",
    ),
    (
        b"record ( d: decimal[5,2]; )",
        COMMAS,
        b"1.5\n1.500\n1.505\n.5\n5.\n+7\n-0.00\n999.99\n1000\n-3\n0.05\n-0.05\n007.1\n-999.99\n1e2\n-1000\n",
        COMMAS,
        b"1.50\n1.50\n7.00\n0.00\n999.99\n-3.00\n0.05\n-0.05\n7.10\n-999.99\n",
        b"1.505\n.5\n5.\n1000\n1e2\n-1000\n",
    ),
    (
        b"record ( d: decimal[38]; )",
        COMMAS,
        b"99999999999999999999999999999999999999\n-99999999999999999999999999999999999999\n100000000000000000000000000000000000000\n-100000000000000000000000000000000000000\n7.0\n7.1\n",
        COMMAS,
        b"99999999999999999999999999999999999999\n-99999999999999999999999999999999999999\n7\n",
        b"100000000000000000000000000000000000000\n-100000000000000000000000000000000000000\n7.1\n",
    ),
    (
        b"record ( d: decimal[38,38]; )",
        COMMAS,
        b"0.99999999999999999999999999999999999999\n-0.99999999999999999999999999999999999999\n1\n-1\n-0.00000000000000000000000000000000000001\n0.000000000000000000000000000000000000001\n",
        COMMAS,
        b"0.99999999999999999999999999999999999999\n-0.99999999999999999999999999999999999999\n-0.00000000000000000000000000000000000001\n",
        b"1\n-1\n0.000000000000000000000000000000000000001\n",
    ),
    (
        b"record ( d: decimal[1,0]; )",
        COMMAS,
        b"9\n-9\n10\n-10\n9.0\n",
        COMMAS,
        b"9\n-9\n9\n",
        b"10\n-10\n",
    ),
    (
        b"record ( s: string[3]; t: string[max=3]; )",
        COMMAS,
        b"ab,ab\nabc,abc\nabcd,x\nx,abcd\n,\na b, b \n",
        COMMAS,
        b"ab ,ab\nabc,abc\n   ,\na b, b \n",
        b"abcd,x\nx,abcd\n",
    ),
    (
        b"record ( d: date; )",
        COMMAS,
        b"2024-02-29\n2023-02-29\n0001-01-01\n9999-12-31\n0000-12-31\n10000-01-01\n2024-1-1\n2024-00-01\n2024-13-01\n2024-04-30\n2024-04-31\n1900-02-29\n2000-02-29\n20240101\n2024-01-01 \n+2024-01-01\n2024/01/01\n202x-01-01\n",
        COMMAS,
        b"2024-02-29\n0001-01-01\n9999-12-31\n2024-04-30\n2000-02-29\n",
        b"2023-02-29\n0000-12-31\n10000-01-01\n2024-1-1\n2024-00-01\n2024-13-01\n2024-04-31\n1900-02-29\n20240101\n2024-01-01 \n+2024-01-01\n2024/01/01\n202x-01-01\n",
    ),
    (
        b"record ( d: date; )",
        COMMAS,
        b"2023-01-31\n2023-01-32\n2023-03-31\n2023-05-31\n2023-06-30\n2023-06-31\n2023-07-31\n2023-08-31\n2023-09-31\n2023-10-31\n2023-11-31\n2023-12-31\n2023-12-00\n2023-02-28\n2023-09-30\n2023-11-30\n",
        COMMAS,
        b"2023-01-31\n2023-03-31\n2023-05-31\n2023-06-30\n2023-07-31\n2023-08-31\n2023-10-31\n2023-12-31\n2023-02-28\n2023-09-30\n2023-11-30\n",
        b"2023-01-32\n2023-06-31\n2023-09-31\n2023-11-31\n2023-12-00\n",
    ),
    (
        b"record ( a: nullable int32; d: nullable decimal[4,1]; e: nullable date; s: nullable string[2]; )",
        COMMAS,
        b",,,\n1,2.5,2024-01-01,x\n\"\",1,2024-01-01,x\n,,,\"\"\n",
        COMMAS,
        b",,,\n1,2.5,2024-01-01,x \n,,,  \n",
        b"\"\",1,2024-01-01,x\n",
    ),
    (
        b"record ( a: nullable uint64; t: nullable string; )",
        COMMAS,
        b",\"\"\n7,\n,x\n-1,x\n",
        COMMAS,
        b",\"\"\n7,\n,x\n",
        b"-1,x\n",
    ),
    (
        b"record ( a: string[max=10]; b: nullable string[max=10]; )",
        COMMAS,
        b"\"x,y\",z\n\"say \"\"hi\"\"\",\nplain,\"\"\n,q\na\"b,c\n\"p\",\"q\"\n\"x\"y,z\n\"open,z\na\na,b,c\na,\"b\"\" \n \"s\",t\n",
        COMMAS,
        b"\"x,y\",z\n\"say \"\"hi\"\"\",\nplain,\"\"\n,q\n\"a\"\"b\",c\np,q\n\" \"\"s\"\"\",t\n",
        b"\"x\"y,z\n\"open,z\na\na,b,c\na,\"b\"\" \n",
    ),
    (
        b"record ( s: string[max=2]; t: string; )",
        COMMAS,
        b"ab,\"\"\nabc,\n\r,a\r\r\n",
        (b'a', &[]),
        b"\"ab\"a\n\"\r\"a\"a\r\"\n",
        b"abc,\n",
    ),
    (
        b"record ( a: int32; s: string[max=10]; )",
        (b';', &[]),
        b"1;a,b\n2;\"x;y\"\n3,z\n",
        COMMAS,
        b"1,\"a,b\"\n2,x;y\n",
        b"3,z\n",
    ),
    (
        b"record ( id: int32; name: string[max=10]; )",
        (b'\t', &[]),
        b"1\ta|b\n2\tc,d\n3\t\"e\tf\"\n",
        (b'|', &[]),
        b"1|\"a|b\"\n2|c,d\n3|e\tf\n",
        b"",
    ),
    (
        b"record ( id: int32; name: string[max=4]; n: nullable int32; )",
        (b',', &[3, 4, 3]),
        b"  7ann   5\n 12bobb\n-3   x  9 \n  7ann   5 \n   ann   5\n8\n",
        COMMAS,
        b"7,ann,5\n12,bobb,\n-3,  x,9\n8,,\n",
        b"  7ann   5 \n   ann   5\n",
    ),
    (
        b"record ( id: int32; name: string[max=4]; n: nullable int32; d: date; s: string[3]; m: decimal[5,2]; )",
        COMMAS,
        b"7,ann,,2024-01-31,ab,1.5\n-12,,100,0001-01-01,abc,-999.99\n",
        (b',', &[4, 6, 3, 12, 4, 7]),
        b"   7ann        2024-01-31ab     1.50\n -12      100  0001-01-01abc -999.99\n",
        b"",
    ),
    (
        b"record ( a: nullable date; b: nullable string[1]; c: nullable decimal[2,1]; u: nullable uint8; )",
        (b',', &[10, 1, 4, 3]),
        b"\n2024-02-29x-9.9255\n          y 1.0\n          yy\n2024-02-30\n",
        (b',', &[11, 2, 4, 3]),
        b"                    \n 2024-02-29x -9.9255\n           y  1.0   \n",
        b"          yy\n2024-02-30\n",
    ),
];

fn form(alloc: Global, style: Style) -> Result<Form, NoMemory> {
    if style.1.is_empty() {
        return Ok(Form::Delimited(style.0));
    }
    Ok(Form::Fixed(Items::from_vec(style.1.to_vec(alloc)?)))
}

/// The schema of a case, and the forms in which it is read and written.
#[derive(Drop)]
struct Ways {
    schema: Schema,
    read: Form,
    written: Form,
}

fn ways_of(alloc: Global, schema: &[u8], read: Style, written: Style) -> Result<Ways, Fail>
    ensures read { IfOk result (λ w. FormFits w.schema w.read) }
    ensures written { IfOk result (λ w. FormFits w.schema w.written) }
{
    let schema = read_schema(alloc, schema)?;
    let read = form(alloc, read)?;
    let written = form(alloc, written)?;
    if !form_fits(&schema, &read) || !form_fits(&schema, &written) {
        return Err(Fail::from("no form"));
    }
    Ok(Ways {
        schema,
        read,
        written,
    })
}

/// The bytes of rejected lines, each on a line.
fn lines(alloc: Global, rows: &[Row]) -> Result<Bytes, NoMemory> {
    let mut text = Bytes::new(alloc);
    for row in rows {
        if let Some(Value::Text(line)) = row.as_slice().first() {
            text.append(line.as_slice())?;
        }
        text.push(b'\n')?;
    }
    Ok(text)
}

/// What a file comes to: what is written of its rows, its bad lines, and the number of faults.
fn carry(alloc: Global, ways: &Ways, text: &[u8]) -> Result<(Bytes, Bytes, u64), Fail>
    requires read { FormFits ways.now.schema ways.now.read }
    requires written { FormFits ways.now.schema ways.now.written }
{
    let mut tally = Tally::new();
    let source = MemSource::new(text.to_vec(alloc)?, NeverFails);
    let (_source, made) = import_rows(alloc, 1, true, &ways.schema, &ways.read, source, &mut tally);
    let made = made?;
    let rejected = lines(alloc, made.rejected.as_slice())?;
    let mut sink = MemSink::new(alloc, None, NeverFails);
    let rows = made.rows.as_slice();
    export_rows(
        alloc,
        2,
        &ways.schema,
        &ways.written,
        rows,
        &mut sink,
        &mut tally,
    )?;
    let mut written = Bytes::new(alloc);
    written.append(sink.bytes())?;
    Ok((written, rejected, tally.faults))
}

fn holds(alloc: Global, case: &Case) -> Result<bool, Fail> {
    let (schema, read, text, written, wanted, bad) = *case;
    let ways = ways_of(alloc, schema, read, written)?;
    let (text, rejected, faults) = carry(alloc, &ways, text)?;
    Ok(text.as_slice() == wanted && rejected.as_slice() == bad && faults == 0)
}

#[test]
fn all_kinds_and_forms_are_carried(rt: HostRuntime) -> Result<(), Fail> {
    let alloc = rt.alloc();
    for (i, case) in CASES.iter().enumerate() {
        assert!(rt; holds(alloc, case)?, "case {i}");
    }
    Ok(())
}

/// The number of bytes that are written of a line of so many, its newline included; 0 where it is bad.
fn written_of(alloc: Global, schema: &[u8], length: usize) -> Result<usize, Fail> {
    let ways = ways_of(alloc, schema, COMMAS, COMMAS)?;
    let mut line = vec![in alloc; b'x'; length]?;
    line.push(b'\n')?;
    let carried = carry(alloc, &ways, &line)?;
    Ok(carried.0.as_slice().len())
}

#[test]
fn texts_have_their_greatest_length(rt: HostRuntime) -> Result<(), Fail> {
    let alloc = rt.alloc();
    let usual = b"record ( s: string; )";
    assert_eq!(rt; written_of(alloc, usual, 4_096)?, 4_097);
    assert_eq!(rt; written_of(alloc, usual, 4_097)?, 0);
    let filled = b"record ( s: string[65536]; )";
    assert_eq!(rt; written_of(alloc, filled, 0)?, 65_537);
    assert_eq!(rt; written_of(alloc, filled, 65_536)?, 65_537);
    assert_eq!(rt; written_of(alloc, filled, 65_537)?, 0);
    Ok(())
}

/// The numbers of bytes that are written and rejected of a line of so many, with their newlines.
fn lengths(alloc: Global, ways: &Ways, length: usize) -> Result<(usize, usize), Fail>
    requires read { FormFits ways.now.schema ways.now.read }
    requires written { FormFits ways.now.schema ways.now.written }
{
    let carried = carry(alloc, ways, &vec![in alloc; b'x'; length]?)?;
    Ok((carried.0.as_slice().len(), carried.1.as_slice().len()))
}

#[test]
fn a_rejected_line_keeps_its_first_bytes(rt: HostRuntime) -> Result<(), Fail> {
    let alloc = rt.alloc();
    let ways = ways_of(alloc, b"record ( s: string[max=65536]; )", COMMAS, COMMAS)?;
    assert_eq!(rt; lengths(alloc, &ways, 65_536)?, (65_537, 0));
    assert_eq!(rt; lengths(alloc, &ways, 65_537)?, (0, 65_537));
    assert_eq!(rt; lengths(alloc, &ways, 2_097_153)?, (0, 65_537));
    Ok(())
}
