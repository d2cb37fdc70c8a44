ghost use Rattle.std.specs.Prelude.{◌≡◌, ◌<◌, ◌≤◌, ◌*◌, true, sum, length};
ghost use Rattle.expr_table.specs.Calls.{AreSmall, IsInRange, AreInRange};

use super::edges::Plain::{B, D, Fails, N, Null, T};
use super::edges::{Case, FIRST, LAST, MAX, Plain, ROWS};
use ds_value::{Bytes, NoMemory};
use expr_table::EvalFault::TooLong;
use expr_table::{Arg, EvalFault, FnName, Shape, apply, find_row, result_scale, table};
use std::alloc::Global;
use std::test::Fail;

/// Scales, the literal that stands second, and the scale of the result.
static SCALES: [(FnName, &'static [u8], Option<u128>, Option<u8>); 18] = [
    (FnName::Equal, &[38, 0], None, Some(0)),
    (FnName::Plus, &[1, 38], None, Some(38)),
    (FnName::Minus, &[2, 1], None, Some(2)),
    (FnName::Minus, &[7], None, Some(7)),
    (FnName::Times, &[19, 19], None, Some(38)),
    (FnName::Times, &[19, 20], None, None),
    (FnName::Divide, &[0, 0], None, Some(0)),
    (FnName::Divide, &[0, 1], None, None),
    (FnName::Remainder, &[1, 0], None, None),
    (FnName::IfNull, &[3, 4], None, Some(4)),
    (FnName::If, &[0, 5, 4], None, Some(5)),
    (FnName::Round, &[2, 0], Some(2), Some(2)),
    (FnName::Round, &[2, 0], Some(3), None),
    (FnName::Round, &[2, 1], Some(1), None),
    (FnName::Round, &[2, 0], None, None),
    (FnName::Substr, &[0, 0, 1], None, None),
    (FnName::AddDays, &[0, 0], None, Some(0)),
    (FnName::Length, &[0], None, Some(0)),
];

fn arg_of(alloc: Global, plain: &Plain) -> Result<Arg, NoMemory> {
    Ok(match plain {
        N(n) => Arg::Num(*n),
        T(text) => {
            let mut bytes = Bytes::new(alloc);
            bytes.append(text)?;
            Arg::Text(bytes)
        }
        D(day) => Arg::Date(*day),
        B(truth) => Arg::Truth(*truth),
        _ => Arg::Null,
    })
}

fn args_of(alloc: Global, plains: &[Plain]) -> Result<Vec<Arg>, NoMemory> {
    let mut args = Vec::new(alloc);
    for plain in plains {
        args.push(arg_of(alloc, plain)?)?;
    }
    Ok(args)
}

fn are_small(scales: &[u8]) -> bool
    ensures each { result ≡ true → AreSmall scales.now }
    ensures sum { result ≡ true → sum scales.now ≤ 38 * length scales.now }
{
    match scales {
        [] => true,
        [s, more @ ..] => *s <= 38 && are_small(more),
    }
}

fn is_in_range(arg: &Arg) -> bool
    ensures { result ≡ true → IsInRange arg.now }
{
    match arg {
        Arg::Num(n) => -MAX <= *n && *n <= MAX,
        Arg::Date(day) => FIRST <= *day && *day <= LAST,
        _ => true,
    }
}

fn are_in_range(args: &[Arg]) -> bool
    ensures { result ≡ true → AreInRange args.now }
{
    match args {
        [] => true,
        [arg, more @ ..] => is_in_range(arg) && are_in_range(more),
    }
}

fn is_answer(answer: &Result<Arg, EvalFault>, expected: &Plain) -> bool {
    match (answer, expected) {
        (Ok(Arg::Null), Null) => true,
        (Ok(Arg::Num(n)), N(m)) => *n == *m,
        (Ok(Arg::Text(text)), T(bytes)) => text.as_slice() == *bytes,
        (Ok(Arg::Date(day)), D(other)) => *day == *other,
        (Ok(Arg::Truth(truth)), B(other)) => *truth == *other,
        (Err(fault), Fails(other)) => *fault == *other,
        _ => false,
    }
}

/// Whether a row gives the answers of its cases.
fn gives(alloc: Global, row: u32, cases: &[Case]) -> Result<bool, NoMemory>
    requires { row < 53 }
{
    for (scales, plains, expected) in cases {
        let args = args_of(alloc, plains)?;
        if !are_small(scales) || !are_in_range(args.as_slice()) {
            return Ok(false);
        }
        let answer = apply(alloc, row, scales, args.as_slice());
        if !is_answer(&answer, expected) {
            return Ok(false);
        }
    }
    Ok(true)
}

#[test]
fn rows_at_their_edges(rt: HostRuntime) -> Result<(), Fail> {
    let alloc = rt.alloc();
    let table = table();
    for (i, (name, shapes, cases)) in ROWS.iter().enumerate() {
        let row = find_row(&table, *name, shapes);
        assert!(rt; row == Some(i as u32), "row {i}");
        assert!(rt; gives(alloc, i as u32, cases)?, "row {i}");
    }
    Ok(())
}

/// Two texts in one.
fn joined(alloc: Global, first: Vec<u8>, second: &[u8]) -> Result<Arg, EvalFault> {
    let mut more = Bytes::new(alloc);
    more.append(second)?;
    let args = [Arg::Text(Bytes::from_vec(first)), Arg::Text(more)];
    let concat = find_row(&table(), FnName::Concat, &[Shape::Text, Shape::Text]).unwrap();
    apply(alloc, concat, &[0, 0], &args)
}

#[test]
fn scales_and_long_texts(rt: HostRuntime) -> Result<(), Fail> {
    let alloc = rt.alloc();
    for (name, scales, literal, expected) in &SCALES {
        assert!(rt; are_small(scales) && scales.len() <= 3);
        assert!(rt; result_scale(*name, scales, *literal) == *expected);
    }
    let longest = joined(alloc, vec![in alloc; b'a'; 65535]?, b"b");
    assert!(rt; longest.is_ok());
    let longer = joined(alloc, vec![in alloc; b'a'; 65535]?, b"bc");
    assert!(rt; is_answer(&longer, &Fails(TooLong)));
    Ok(())
}
