ghost use Rattle.std.specs.Prelude.{All, IsTrue};
ghost use Rattle.ds_schema.specs.Rows.{KeyInWidth};

use ds_lex::{Cursor, LexedText, Mode, lex};
use ds_schema::{
    Key, KeyList, Row, Schema, SchemaFault, SchemaWhy, compare_rows, copy_row, key_cmp, key_equal,
    parse_field, parse_keys, parse_name, parse_names, parse_schema, print_keys, print_names,
    print_schema, project, read_keys, read_names, read_schema, size_of,
};
use ds_value::{Bytes, Kind, Value};
use std::alloc::Global;
use std::cmp::Ordering;
use std::test::Fail;

fn pair(alloc: Global, first: i64, second: Value) -> Result<Row, Fail> {
    let mut values = Vec::new(alloc);
    values.push(Value::Int(first))?;
    values.push(second)?;
    Ok(Row::from_vec(values))
}

/// By the first column downwards, then by the second.
fn keys(alloc: Global) -> Result<KeyList, Fail> {
    let mut keys = Vec::new(alloc);
    keys.push(Key { col: 0, desc: true })?;
    keys.push(Key {
        col: 1,
        desc: false,
    })?;
    Ok(KeyList::from_vec(keys))
}

#[test]
fn rows_in_order(rt: HostRuntime) -> Result<(), Fail> {
    let alloc = rt.alloc();
    let keys = keys(alloc)?.copied()?;
    let row = pair(alloc, 1, Value::Null)?;
    let greater = pair(alloc, 2, Value::UInt(5))?;
    assert!(rt; compare_rows(&keys, &row, &copy_row(alloc, &row)?) == Ordering::Equal);
    assert!(rt; compare_rows(&keys, &row, &greater) == Ordering::Greater);
    let same_first = pair(alloc, 1, Value::Date(0))?;
    assert!(rt; compare_rows(&keys, &row, &same_first) == Ordering::Less);
    Ok(())
}

/// Whether a row has the keys' columns.
fn has_columns(keys: &KeyList, row: &Row) -> bool
    ensures { IsTrue result → All (KeyInWidth row.now) keys.now }
{
    let width = row.as_slice().len();
    keys.as_slice().iter().all(|key| (key.col as usize) < width)
}

/// Two rows of a whole number and a date or a null, and their order by the keys.
static ORDERS: [((i64, Option<i32>), (i64, Option<i32>), Ordering); 7] = [
    ((1, None), (1, None), Ordering::Equal),
    ((1, Some(8)), (1, Some(8)), Ordering::Equal),
    ((1, None), (2, Some(8)), Ordering::Greater),
    ((2, Some(8)), (1, None), Ordering::Less),
    ((1, None), (1, Some(8)), Ordering::Less),
    ((1, Some(9)), (1, Some(8)), Ordering::Greater),
    ((-1, Some(9)), (0, Some(8)), Ordering::Greater),
];

fn dated(alloc: Global, plain: &(i64, Option<i32>)) -> Result<Row, Fail> {
    match plain {
        (first, Some(day)) => pair(alloc, *first, Value::Date(*day)),
        (first, None) => pair(alloc, *first, Value::Null),
    }
}

fn has_order(keys: &KeyList, a: &Row, b: &Row, order: Ordering) -> bool {
    has_columns(keys, a)
        && has_columns(keys, b)
        && key_cmp(keys, a, b) == order
        && key_equal(keys, a, b) == order.is_eq()
}

#[test]
fn orders_by_keys(rt: HostRuntime) -> Result<(), Fail> {
    let alloc = rt.alloc();
    let keys = keys(alloc)?;
    for (first, second, order) in &ORDERS {
        let a = dated(alloc, first)?;
        let b = dated(alloc, second)?;
        assert!(rt; has_order(&keys, &a, &b, *order), "{first:?} {second:?}");
    }
    Ok(())
}

#[test]
fn projected_columns(rt: HostRuntime) -> Result<(), Fail> {
    let alloc = rt.alloc();
    let row = pair(alloc, 3, Value::UInt(4))?;
    assert_eq!(rt; row.as_slice().len(), 2);
    let turned = project(alloc, &row, &[1, 0])?;
    assert!(rt; matches!(turned.as_slice(), [Value::UInt(4), Value::Int(3)]));
    Ok(())
}

static FAULTS: [(&str, usize, SchemaWhy); 39] = [
    ("", 0, SchemaWhy::Syntax),
    ("record", 6, SchemaWhy::Syntax),
    ("record (", 8, SchemaWhy::Syntax),
    ("record ( )", 9, SchemaWhy::Syntax),
    ("recrd ( a: int32 )", 0, SchemaWhy::Syntax),
    ("record a: int32 )", 7, SchemaWhy::Syntax),
    ("record ( 1: int32 )", 9, SchemaWhy::Syntax),
    ("record ( a int32 )", 11, SchemaWhy::Syntax),
    ("record ( a: )", 12, SchemaWhy::Syntax),
    ("record ( a: 'int32' )", 12, SchemaWhy::Syntax),
    ("record ( a: int32", 17, SchemaWhy::Syntax),
    ("record ( a: int32 b )", 18, SchemaWhy::Syntax),
    ("record ( a: int32 ) ;", 20, SchemaWhy::Syntax),
    ("record ( a: decimal )", 20, SchemaWhy::Syntax),
    ("record ( a: decimal[ ] )", 21, SchemaWhy::Syntax),
    ("record ( a: decimal[8,] )", 22, SchemaWhy::Syntax),
    ("record ( a: string[x] )", 19, SchemaWhy::Syntax),
    ("record ( a: string[max 5] )", 23, SchemaWhy::Syntax),
    ("record ( a: string[5 )", 21, SchemaWhy::Syntax),
    ("record ( a: int33 )", 12, SchemaWhy::NoType),
    ("record ( a: nullable nullable )", 21, SchemaWhy::NoType),
    ("record ( a: Int32 )", 12, SchemaWhy::NoType),
    ("record ( a: int33 $", 12, SchemaWhy::NoType),
    ("record ( a: decimal[0] )", 20, SchemaWhy::Size),
    ("record ( a: decimal[39] )", 20, SchemaWhy::Size),
    ("record ( a: decimal[8,9] )", 22, SchemaWhy::Size),
    ("record ( a: decimal[1.0] )", 20, SchemaWhy::Size),
    ("record ( a: string[0] )", 19, SchemaWhy::Size),
    ("record ( a: string[65537] )", 19, SchemaWhy::Size),
    ("record ( a: string[max=0] )", 23, SchemaWhy::Size),
    (
        "record ( a: string[18446744073709551617] )",
        19,
        SchemaWhy::Size,
    ),
    ("record ( a: int32; a: date )", 19, SchemaWhy::Name),
    ("record ( a.b: int32 )", 9, SchemaWhy::Name),
    (
        "record ( n23456789_123456789_123456789_123456789_123456789_123456789_12345: date )",
        9,
        SchemaWhy::Name,
    ),
    ("$", 0, SchemaWhy::Token),
    ("record ( a: int32 ) $", 20, SchemaWhy::Token),
    ("record ( a: int32 /*", 18, SchemaWhy::Token),
    ("record ( a: 'x", 12, SchemaWhy::Token),
    ("record ( a: int32 ; /*/", 20, SchemaWhy::Token),
];

static SPELLED: [(&str, &str); 6] = [
    ("record ( a: int32 )", "record ( a: int32; )"),
    (
        "record(a:int8;b:int16;c:int64;d:uint8;e:uint16;f:uint32;g:uint64;)",
        "record ( a: int8; b: int16; c: int64; d: uint8; e: uint16; f: uint32; g: uint64; )",
    ),
    (
        "record ( a: int32; b: nullable decimal[8,2]; )",
        "record ( a: int32; b: nullable decimal[8,2]; )",
    ),
    (
        "record ( nullable: nullable date; record: decimal[08]; desc: decimal[38,38] ) # end",
        "record ( nullable: nullable date; record: decimal[8,0]; desc: decimal[38,38]; )",
    ),
    (
        "record ( s: string; t: string[007]; u: nullable string[ max = 65536 ] ) /* end */",
        "record ( s: string[max=4096]; t: string[7]; u: nullable string[max=65536]; )",
    ),
    (
        "record ( n23456789_123456789_123456789_123456789_123456789_123456789_1234: date )",
        "record ( n23456789_123456789_123456789_123456789_123456789_123456789_1234: date; )",
    ),
];

/// So many fields, whose names are numbers behind a letter, and a text behind them.
fn many(alloc: Global, fields: usize, end: &str) -> Result<Vec<u8>, Fail> {
    let mut text = Vec::new(alloc);
    text.extend_from_slice(b"record (")?;
    for i in 0..fields {
        text.extend_from_slice(b" f")?;
        text.extend_from_slice(i.to_string(alloc)?.as_bytes())?;
        text.extend_from_slice(b": int8;")?;
    }
    text.extend_from_slice(end.as_bytes())?;
    Ok(text)
}

fn is_refused(alloc: Global, text: &[u8], at: usize, why: SchemaWhy) -> bool {
    match read_schema(alloc, text) {
        Ok(_) => false,
        Err(fault) => fault == SchemaFault::BadSchema { at, why },
    }
}

#[test]
fn schemas(rt: HostRuntime) -> Result<(), Fail> {
    let alloc = rt.alloc();
    for (text, at, why) in &FAULTS {
        assert!(rt; is_refused(alloc, text.as_bytes(), *at, *why), "{text}");
    }
    for (text, printed) in &SPELLED {
        assert!(rt; is_printed(alloc, text, printed)?, "{text}");
    }
    Ok(())
}

fn is_printed(alloc: Global, text: &str, printed: &str) -> Result<bool, Fail> {
    let schema = read_schema(alloc, text.as_bytes())?.copied()?;
    let again = print_schema(alloc, &schema)?;
    Ok(again.as_slice() == printed.as_bytes())
}

#[test]
fn schemas_have_at_most_256_fields(rt: HostRuntime) -> Result<(), Fail> {
    let alloc = rt.alloc();
    let most = many(alloc, 256, " )")?;
    assert_eq!(rt; read_schema(alloc, &most)?.as_slice().len(), 256);
    let at = many(alloc, 256, "")?.len() + 1;
    let more = many(alloc, 256, " g: int8 )")?;
    assert!(rt; is_refused(alloc, &more, at, SchemaWhy::Count));
    let twice = many(alloc, 256, " f0: int8 )")?;
    assert!(rt; is_refused(alloc, &twice, at, SchemaWhy::Name));
    Ok(())
}

/// Values, and how they are printed where they are key lists, and where they are column lists.
static LISTS: [(&str, Option<&str>, Option<&str>); 18] = [
    ("a", Some("a"), Some("a")),
    (" a , b.c # end", Some("a,b.c"), Some("a,b.c")),
    ("a desc,b", Some("a desc,b"), None),
    ("a,b desc", Some("a,b desc"), None),
    ("desc desc,asc", Some("desc desc,asc"), None),
    ("desc,a", Some("desc,a"), Some("desc,a")),
    ("", None, None),
    ("a,", None, None),
    (",a", None, None),
    ("a b", None, None),
    ("a desc desc", None, None),
    ("a,b,a", None, None),
    ("a desc,a", None, None),
    ("'a'", None, None),
    ("a,1", None, None),
    ("a;b", None, None),
    ("a $", None, None),
    ("a /*", None, None),
];

fn printed_names(alloc: Global, value: &[u8]) -> Result<Option<Bytes>, Fail> {
    match read_names(alloc, value)? {
        None => Ok(None),
        Some(names) => Ok(Some(print_names(alloc, names.as_slice())?)),
    }
}

fn printed_keys(alloc: Global, value: &[u8]) -> Result<Option<Bytes>, Fail> {
    match read_keys(alloc, value)? {
        None => Ok(None),
        Some(keys) => Ok(Some(print_keys(alloc, keys.as_slice())?)),
    }
}

fn is_text(printed: &Option<Bytes>, wanted: Option<&str>) -> bool {
    match (printed, wanted) {
        (Some(text), Some(wanted)) => text.as_slice() == wanted.as_bytes(),
        (None, None) => true,
        _ => false,
    }
}

fn are_lists(
    alloc: Global,
    value: &[u8],
    keys: Option<&str>,
    names: Option<&str>,
) -> Result<bool, Fail> {
    let printed = printed_keys(alloc, value)?;
    let named = printed_names(alloc, value)?;
    Ok(is_text(&printed, keys) && is_text(&named, names))
}

#[test]
fn lists(rt: HostRuntime) -> Result<(), Fail> {
    let alloc = rt.alloc();
    for (value, keys, names) in &LISTS {
        assert!(rt;
            are_lists(alloc, value.as_bytes(), *keys, *names)?,
            "{value}"
        );
    }
    let mut long = Vec::new(alloc);
    for _ in 0..255_u32 {
        long.push(b'n')?;
    }
    assert!(rt; read_keys(alloc, &long)?.is_some());
    long.push(b'n')?;
    assert!(rt; read_keys(alloc, &long)?.is_none() && read_names(alloc, &long)?.is_none());
    Ok(())
}

#[test]
fn parts(rt: HostRuntime) -> Result<(), Fail> {
    let alloc = rt.alloc();
    let LexedText { lexemes, .. } = lex(alloc, Mode::Inner, b"a: nullable date = b")?;
    let mut cursor = Cursor::new(&lexemes);
    let Ok(field) = parse_field(alloc, &mut cursor) else {
        return Err(Fail::from("a field"));
    };
    assert!(rt;
        field.name.as_slice() == b"a".as_slice() && field.nullable && field.kind == Kind::Date
    );
    assert!(rt; cursor.accept(b"="));
    let Ok(name) = parse_name(alloc, &mut cursor, ()) else {
        return Err(Fail::from("a name"));
    };
    assert!(rt; name.as_slice() == b"b".as_slice() && cursor.rest().is_empty());
    assert!(rt;
        size_of(1, 9, b"007") == Some(7)
            && size_of(1, 9, b"10").is_none()
            && size_of(1, 9, b"").is_none()
    );
    assert!(rt;
        size_of(0, u32::MAX, b"4294967295") == Some(u32::MAX)
            && size_of(0, u32::MAX, b"4294967296").is_none()
    );
    Ok(())
}

/// How a list or a schema is printed, and how many tokens stand behind it.
type Front = Option<(&'static str, usize)>;

/// Tokens, and the column list and the key list at their front.
static FRONTS: [(&str, Front, Front); 10] = [
    ("a", Some(("a", 0)), Some(("a", 0))),
    ("a,b.c = d", Some(("a,b.c", 2)), Some(("a,b.c", 2))),
    ("a desc,b;", Some(("a", 4)), Some(("a desc,b", 1))),
    ("a,b desc desc", Some(("a,b", 2)), Some(("a,b desc", 1))),
    ("a b", Some(("a", 1)), Some(("a", 1))),
    ("a,b,a", None, None),
    ("a desc,a", Some(("a", 3)), None),
    ("a,;", None, None),
    ("1", None, None),
    ("", None, None),
];

/// Tokens, and the schema at their front.
static SCHEMAS: [(&str, Front); 7] = [
    ("record(a:date)", Some(("record ( a: date; )", 0))),
    ("record ( a: date; ) b ;", Some(("record ( a: date; )", 2))),
    ("record ( a: date ) )", Some(("record ( a: date; )", 1))),
    ("record ( a: date ;", None),
    ("record ( )", None),
    ("( a: date )", None),
    ("", None),
];

fn is_front(printed: Option<(Bytes, usize)>, front: &Front) -> bool {
    match (printed, front) {
        (Some((text, left)), Some((wanted, behind))) => {
            text.as_slice() == wanted.as_bytes() && left == *behind
        }
        (None, None) => true,
        _ => false,
    }
}

fn names_in_front(alloc: Global, text: &str) -> Result<Option<(Bytes, usize)>, Fail> {
    let LexedText { lexemes, .. } = lex(alloc, Mode::Inner, text.as_bytes())?;
    let mut cursor = Cursor::new(&lexemes);
    match parse_names(alloc, &mut cursor, ()) {
        Ok(names) => Ok(Some((print_names(alloc, names.as_slice())?, cursor.rest().len()))),
        Err(_) => Ok(None),
    }
}

fn keys_in_front(alloc: Global, text: &str) -> Result<Option<(Bytes, usize)>, Fail> {
    let LexedText { lexemes, .. } = lex(alloc, Mode::Inner, text.as_bytes())?;
    let mut cursor = Cursor::new(&lexemes);
    match parse_keys(alloc, &mut cursor, ()) {
        Ok(keys) => Ok(Some((print_keys(alloc, keys.as_slice())?, cursor.rest().len()))),
        Err(_) => Ok(None),
    }
}

fn schema_in_front(alloc: Global, text: &str) -> Result<Option<(Bytes, usize)>, Fail> {
    let LexedText { lexemes, .. } = lex(alloc, Mode::Inner, text.as_bytes())?;
    let mut cursor = Cursor::new(&lexemes);
    match parse_schema(alloc, &mut cursor) {
        Ok(schema) => Ok(Some((print_schema(alloc, &schema)?, cursor.rest().len()))),
        Err(_) => Ok(None),
    }
}

#[test]
fn fronts(rt: HostRuntime) -> Result<(), Fail> {
    let alloc = rt.alloc();
    for (text, names, keys) in &FRONTS {
        assert!(rt; is_front(names_in_front(alloc, text)?, names), "{text}");
        assert!(rt; is_front(keys_in_front(alloc, text)?, keys), "{text}");
    }
    for (text, schema) in &SCHEMAS {
        assert!(rt; is_front(schema_in_front(alloc, text)?, schema), "{text}");
    }
    Ok(())
}
