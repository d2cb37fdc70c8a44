ghost use Rattle.std.specs.Prelude.{◌≡◌, IfOk};

use Answer::{Is, Syntax, Wrong};
use Plain::{B, D, Fails, N, Null, T};
use ds_expr::EvalFault::{NullUsed, Overflow, TooLong, ZeroDivisor};
use ds_expr::{
    Arg, EvalFault, ExprFault, Shape, TypeFault, assign, check, copy_typed, eval, parse, shape_of,
};
use ds_schema::{Field, Row, Schema, read_schema, row_fits};
use ds_value::{Bytes, Kind, Name, Value};
use std::alloc::Global;
use std::test::Fail;

/// What an expression is typed as, or where it isn't.
#[derive(Clone, Copy, Debug, PartialEq, Eq)]
enum Answer {
    Is(Shape, u8),
    Wrong(usize),
    Syntax(usize),
}

/// A value or a fault, as a table holds it.
#[derive(Clone, Copy)]
enum Plain {
    Null,
    N(i128),
    T(&'static [u8]),
    D(i32),
    B(bool),
    Fails(EvalFault),
}

const SCHEMA: &[u8] =
    b"record ( a: int32; n: nullable int64; u: uint64; d: decimal[8,2]; t: string[max=10]; f: string[4]; e: nullable date; )";

static TYPED: [(&str, Answer); 71] = [
    ("a", Is(Shape::Num, 0)),
    ("d", Is(Shape::Num, 2)),
    ("t", Is(Shape::Text, 0)),
    ("e", Is(Shape::Date, 0)),
    ("1.50", Is(Shape::Num, 2)),
    ("a + d", Is(Shape::Num, 2)),
    ("a -d", Is(Shape::Num, 2)),
    ("d * d", Is(Shape::Num, 4)),
    ("a / 2", Is(Shape::Num, 0)),
    ("d / 2", Wrong(2)),
    ("a == d", Is(Shape::Truth, 0)),
    ("t == 'x'", Is(Shape::Truth, 0)),
    ("t == a", Wrong(2)),
    ("a < 2 < 3", Syntax(6)),
    ("a < 2 == (1 < 2)", Syntax(6)),
    ("(a < 2) == (1 < 2)", Wrong(8)),
    ("-d", Is(Shape::Num, 2)),
    ("!(a == 1)", Is(Shape::Truth, 0)),
    ("!a", Wrong(0)),
    ("-t", Wrong(0)),
    ("a && a", Wrong(2)),
    ("a == 1 && a == 2 || a", Wrong(17)),
    ("isnull(n)", Is(Shape::Truth, 0)),
    ("if(a == 1, d, 2)", Is(Shape::Num, 2)),
    ("if(a == 1, t, 2)", Wrong(0)),
    ("if(a, 1, 2)", Wrong(0)),
    ("if(a == 1, a == 2, a == 3)", Is(Shape::Truth, 0)),
    ("ifnull(n, 1.5)", Is(Shape::Num, 1)),
    ("round(d, 1)", Is(Shape::Num, 1)),
    ("round(d, (1))", Is(Shape::Num, 1)),
    ("round(d, 3)", Wrong(0)),
    ("round(d, 1.0)", Wrong(0)),
    ("round(d, a)", Wrong(0)),
    ("round(d, -1)", Wrong(0)),
    ("date('2024-01-31')", Is(Shape::Date, 0)),
    ("date((\"2024-02-29\"))", Is(Shape::Date, 0)),
    ("date('2023-02-29')", Wrong(0)),
    ("1 + date('no date')", Wrong(4)),
    ("date(t)", Wrong(0)),
    ("date()", Wrong(0)),
    ("date(zz)", Wrong(5)),
    ("zz", Wrong(0)),
    ("a + zz", Wrong(4)),
    ("zz + yy", Wrong(0)),
    ("a + 'x' + zz", Wrong(2)),
    ("a + (zz + 'x')", Wrong(5)),
    ("f(a)", Wrong(0)),
    ("a.b", Wrong(0)),
    ("substr(t, 1, d)", Wrong(0)),
    ("e - e", Is(Shape::Num, 0)),
    ("e + 1", Wrong(2)),
    ("text(d)", Is(Shape::Text, 0)),
    ("99999999999999999999999999999999999999", Is(Shape::Num, 0)),
    (
        "0099999999999999999999999999999999999999",
        Is(Shape::Num, 0),
    ),
    ("100000000000000000000000000000000000000", Wrong(0)),
    (
        "0.00000000000000000000000000000000000000",
        Is(Shape::Num, 38),
    ),
    ("0.000000000000000000000000000000000000000", Wrong(0)),
    ("d * 0.0000000000000000000000000000000000000", Wrong(2)),
    ("", Syntax(0)),
    ("a + ", Syntax(4)),
    ("a b", Syntax(2)),
    ("(a", Syntax(2)),
    ("a)", Syntax(1)),
    ("f(", Syntax(2)),
    ("f(a,)", Syntax(4)),
    ("f(a b)", Syntax(4)),
    ("a $", Syntax(2)),
    ("a + $", Syntax(4)),
    ("a = 1", Syntax(2)),
    ("'x", Syntax(0)),
    ("a /* x", Syntax(2)),
];

static VALUED: [(&str, Plain); 60] = [
    ("a + 1", N(8)),
    ("a - 1 - 2", N(4)),
    ("2 - 3 * 4", N(-10)),
    ("(2 - 3) * 4", N(-4)),
    ("100 / 10 / 5", N(2)),
    ("- - a", N(7)),
    ("7 - -1", N(8)),
    ("-7 / 2", N(-3)),
    ("-7 % 2", N(-1)),
    ("d + 1", N(1334)),
    ("d * d", N(1522756)),
    ("u + 1", N(18446744073709551616)),
    ("n", Null),
    ("n + 1", Fails(NullUsed)),
    ("n + 1 / 0", Fails(ZeroDivisor)),
    ("(n + 1) + 1 / 0", Fails(NullUsed)),
    ("1 / 0 + (n + 1)", Fails(ZeroDivisor)),
    ("n / 0", Fails(NullUsed)),
    ("1 / 0 == n + 1", Fails(ZeroDivisor)),
    ("concat(text(n), text(1 / 0))", Fails(NullUsed)),
    ("a == 7 || 1 / 0 == 1", B(true)),
    ("a == 8 && 1 / 0 == 1", B(false)),
    ("a == 7 && 1 / 0 == 1", Fails(ZeroDivisor)),
    ("a == 8 || 1 / 0 == 1", Fails(ZeroDivisor)),
    ("a == 8 && 1 / 0 == 1 || a == 7", B(true)),
    ("a == 8 && 1 / 0 == 1 && 1 / 0 == 1", B(false)),
    ("1 / 0 == 1 && a == 8", Fails(ZeroDivisor)),
    ("if(a == 7, 1, 1 / 0)", N(1)),
    ("if(a == 8, 1 / 0, 2.5)", N(25)),
    ("if(a == 7, 1, 2.5)", N(10)),
    ("if(1 / 0 == 1, 1, 2)", Fails(ZeroDivisor)),
    ("if(a == 7, n, 1 / 0)", Null),
    ("ifnull(a, 1 / 0)", Fails(ZeroDivisor)),
    ("ifnull(n, 2.5)", N(25)),
    ("ifnull(t, 'z')", T(b"ab")),
    ("isnull(n)", B(true)),
    ("n == n", B(true)),
    ("n < a", B(true)),
    ("n > a", B(false)),
    ("1 == 1.00", B(true)),
    ("'b' > 'a'", B(true)),
    ("'' < 'a'", B(true)),
    (
        "99999999999999999999999999999999999999 + 1 - 1",
        Fails(Overflow),
    ),
    (
        "99999999999999999999999999999999999999 * 2 / 4",
        Fails(Overflow),
    ),
    (
        "1.0 == 99999999999999999999999999999999999999",
        Fails(Overflow),
    ),
    ("round(d, 1)", N(123)),
    ("round(-0.5, 0)", N(-1)),
    ("concat(t, \"'c'\")", T(b"ab'c'")),
    ("substr(t, 0, 1)", T(b"a")),
    ("substr(t, 2, 5)", T(b"b")),
    ("trim(f)", T(b"x")),
    ("length(f)", N(4)),
    ("text(d)", T(b"12.34")),
    ("year(e)", N(2024)),
    ("adddays(e, 1)", D(19754)),
    ("e - date('2024-01-01')", N(30)),
    ("adddays(e, 99999999)", Fails(Overflow)),
    ("least(a, d)", N(700)),
    ("sign(-3)", N(-1)),
    ("!(a == 7)", B(false)),
];

fn bytes(alloc: Global, text: &[u8]) -> Result<Bytes, Fail> {
    Ok(Bytes::from_vec(Vec::from_slice(alloc, text)?))
}

fn typed_as(alloc: Global, schema: &Schema, text: &[u8]) -> Result<Answer, Fail> {
    let expr = match parse(alloc, text) {
        Ok(expr) => expr,
        Err(ExprFault::Syntax { at }) => return Ok(Syntax(at)),
        Err(ExprFault::Memory) => return Err(Fail::from("memory")),
    };
    match check(alloc, expr, schema) {
        Ok(typed) => {
            let (shape, scale) = shape_of(&typed);
            Ok(Is(shape, scale))
        }
        Err(TypeFault::Wrong { at }) => Ok(Wrong(at)),
        Err(TypeFault::Memory) => Err(Fail::from("memory")),
    }
}

fn row(alloc: Global) -> Result<Row, Fail> {
    let mut values = Vec::new(alloc);
    values.push(Value::Int(7))?;
    values.push(Value::Null)?;
    values.push(Value::UInt(u64::MAX))?;
    values.push(Value::Dec(1234))?;
    values.push(Value::Text(bytes(alloc, b"ab")?))?;
    values.push(Value::Text(bytes(alloc, b"x   ")?))?;
    values.push(Value::Date(19753))?;
    Ok(Row::from_vec(values))
}

fn is_plain(value: &Result<Arg, EvalFault>, plain: Plain) -> bool {
    match (value, plain) {
        (Ok(Arg::Null), Null) => true,
        (Ok(Arg::Num(n)), N(m)) => *n == m,
        (Ok(Arg::Text(text)), T(bytes)) => text.as_slice() == bytes,
        (Ok(Arg::Date(day)), D(other)) => *day == other,
        (Ok(Arg::Truth(truth)), B(other)) => *truth == other,
        (Err(fault), Fails(other)) => *fault == other,
        _ => false,
    }
}

#[test]
fn typing(rt: HostRuntime) -> Result<(), Fail> {
    let alloc = rt.alloc();
    let schema = read_schema(alloc, SCHEMA)?;
    for (text, wanted) in &TYPED {
        assert!(rt;
            typed_as(alloc, &schema, text.as_bytes())? == *wanted,
            "{text}"
        );
    }
    Ok(())
}

fn value_of(
    alloc: Global,
    schema: &Schema,
    row: &Row,
    text: &[u8],
) -> Result<Result<Arg, EvalFault>, Fail> {
    let Ok(expr) = parse(alloc, text) else {
        return Err(Fail::from("syntax"));
    };
    let Ok(typed) = check(alloc, expr, schema) else {
        return Err(Fail::from("type"));
    };
    let Ok(copy) = copy_typed(alloc, &typed) else {
        return Err(Fail::from("memory"));
    };
    if !row_fits(copy.schema(), row) {
        return Err(Fail::from("row"));
    }
    Ok(eval(alloc, &copy, row))
}

fn has_value(
    alloc: Global,
    schema: &Schema,
    row: &Row,
    text: &str,
    wanted: Plain,
) -> Result<bool, Fail> {
    let found = value_of(alloc, schema, row, text.as_bytes())?;
    Ok(is_plain(&found, wanted))
}

#[test]
fn values(rt: HostRuntime) -> Result<(), Fail> {
    let alloc = rt.alloc();
    let schema = read_schema(alloc, SCHEMA)?;
    let row = row(alloc)?;
    for (text, wanted) in &VALUED {
        assert!(rt; has_value(alloc, &schema, &row, text, *wanted)?, "{text}");
    }
    Ok(())
}

fn repeated(
    alloc: Global,
    before: &[u8],
    count: usize,
    between: &[u8],
    behind: &[u8],
) -> Result<Vec<u8>, Fail> {
    let mut text = Vec::new(alloc);
    for _round in 0..count {
        text.extend_from_slice(before)?;
    }
    text.extend_from_slice(between)?;
    for _round in 0..count {
        text.extend_from_slice(behind)?;
    }
    Ok(text)
}

/// So many times a text, one between, and as many times a text behind it; and what that is typed as.
type Deep = (&'static str, usize, &'static str, &'static str, Answer);

static DEEP: [Deep; 8] = [
    ("(", 64, "a", ")", Is(Shape::Num, 0)),
    ("(", 65, "a", ")", Syntax(64)),
    ("-", 64, "a", "", Is(Shape::Num, 0)),
    ("-", 65, "a", "", Syntax(64)),
    ("(", 64, "f()", ")", Wrong(64)),
    ("(", 64, "f(a)", ")", Syntax(66)),
    ("(", 64, "-a", ")", Syntax(64)),
    ("a+", 3000, "zz", "+a", Wrong(6000)),
];

fn is_deep(alloc: Global, schema: &Schema, deep: &Deep) -> Result<bool, Fail> {
    let (before, count, between, behind, wanted) = deep;
    let text = repeated(
        alloc,
        before.as_bytes(),
        *count,
        between.as_bytes(),
        behind.as_bytes(),
    )?;
    Ok(typed_as(alloc, schema, &text)? == *wanted)
}

#[test]
fn depths(rt: HostRuntime) -> Result<(), Fail> {
    let alloc = rt.alloc();
    let schema = read_schema(alloc, SCHEMA)?;
    for (i, deep) in DEEP.iter().enumerate() {
        assert!(rt; is_deep(alloc, &schema, deep)?, "case {i}");
    }
    Ok(())
}

fn field(alloc: Global, kind: Kind, nullable: bool) -> Result<Field, Fail>
    ensures { IfOk result (λ f. f.kind ≡ kind) }
{
    let Some(name) = Name::from_bytes(alloc, b"x")? else {
        return Err(Fail::from("name"));
    };
    Ok(Field {
        name,
        nullable,
        kind,
    })
}

fn is_value(found: &Result<Value, EvalFault>, wanted: &Result<Value, EvalFault>) -> bool {
    match (found, wanted) {
        (Ok(Value::Null), Ok(Value::Null)) => true,
        (Ok(Value::Int(n)), Ok(Value::Int(m))) => *n == *m,
        (Ok(Value::UInt(n)), Ok(Value::UInt(m))) => *n == *m,
        (Ok(Value::Dec(n)), Ok(Value::Dec(m))) => *n == *m,
        (Ok(Value::Text(text)), Ok(Value::Text(other))) => text.as_slice() == other.as_slice(),
        (Err(fault), Err(other)) => *fault == *other,
        _ => false,
    }
}

#[test]
fn assignments(rt: HostRuntime) -> Result<(), Fail> {
    let alloc = rt.alloc();
    let small = field(alloc, Kind::Int(8), false)?;
    let found = assign(Arg::Num(-128), &small, 0);
    assert!(rt; is_value(&found, &Ok(Value::Int(-128))));
    let found = assign(Arg::Num(128), &small, 0);
    assert!(rt; is_value(&found, &Err(Overflow)));
    let found = assign(Arg::Null, &small, 0);
    assert!(rt; is_value(&found, &Err(NullUsed)));
    let large = field(alloc, Kind::UInt(64), true)?;
    let found = assign(Arg::Num(-1), &large, 0);
    assert!(rt; is_value(&found, &Err(Overflow)));
    let found = assign(Arg::Null, &large, 0);
    assert!(rt; is_value(&found, &Ok(Value::Null)));
    let money = field(alloc, Kind::Dec { p: 4, s: 2 }, false)?;
    let found = assign(Arg::Num(-999), &money, 1);
    assert!(rt; is_value(&found, &Ok(Value::Dec(-9990))));
    let found = assign(Arg::Num(1000), &money, 1);
    assert!(rt; is_value(&found, &Err(Overflow)));
    Ok(())
}

#[test]
fn texts(rt: HostRuntime) -> Result<(), Fail> {
    let alloc = rt.alloc();
    let fixed = field(
        alloc,
        Kind::Text {
            max: 4,
            fixed: true,
        },
        false,
    )?;
    let found = assign(Arg::Text(bytes(alloc, b"ab")?), &fixed, 0);
    assert!(rt; is_value(&found, &Ok(Value::Text(bytes(alloc, b"ab  ")?))));
    let found = assign(Arg::Text(bytes(alloc, b"abcde")?), &fixed, 0);
    assert!(rt; is_value(&found, &Err(TooLong)));
    Ok(())
}
