ghost use Rattle.std.specs.Prelude.{◌≡◌, ◌≤◌, true, IfOk, length};
ghost use Rattle.std.specs.List.{AllByRecursion};
ghost use Rattle.ds_value.specs.Kinds.{IsKind};
ghost use Rattle.op_row.specs.Expressed.{AreSets, IsSet, input_fields};

use super::fixture::Cell::{Dec, Int, Null, Text};
use super::fixture::{
    Cell, FIRST, FIRST_BYTES, Faulty, SCHEMA, SECOND, SECOND_BYTES, THIRD, THIRD_BYTES, all_fit,
    are_sent, has_faults, rows, typed,
};
use ds_expr::{can_assign, shape_of};
use ds_schema::{Field, Schema, read_schema};
use ds_value::Copied;
use op_base::{Emit, FaultKind, run_list};
use op_row::{Set, transform};
use std::alloc::Global;
use std::test::Fail;

/// A column, a schema of its field alone, and an expression.
type Plan = (u32, &'static [u8], &'static str);

/// The first field of a schema.
fn field(alloc: Global, text: &[u8]) -> Result<Field, Fail>
    ensures { IfOk result (λ field. IsKind field.kind) }
{
    let schema = read_schema(alloc, text)?;
    match schema.as_slice() {
        [field, ..] => Ok(field.copied()?),
        [] => Err(Fail::from("no field")),
    }
}

fn set(alloc: Global, schema: &Schema, plan: Plan) -> Result<Set, Fail>
    ensures { IfOk result (IsSet schema.now) }
{
    let (col, text, expr) = plan;
    let field = field(alloc, text)?;
    let expr = typed(alloc, schema, expr)?;
    let (shape, scale) = shape_of(&expr);
    if !can_assign(shape, scale, &field.kind) {
        return Err(Fail::from("not assignable"));
    }
    Ok(Set { col, field, expr })
}

#[tactic(auto, using(crate::proofs::Pushed::all_push))]
fn sets(alloc: Global, schema: &Schema, plans: &[Plan]) -> Result<Vec<Set>, Fail>
    ensures { IfOk result (λ sets. AllByRecursion (IsSet schema.now) sets.items) }
{
    let mut sets = Vec::new(alloc);
    for plan in plans {
        sets.push(set(alloc, schema, *plan)?)?;
    }
    Ok(sets)
}

/// Whether these are one or two sets, of columns that are there or are appended, and of none twice.
fn are_sets(schema: &Schema, sets: &[Set]) -> bool
    requires { AllByRecursion (IsSet schema.now) sets.now }
    ensures sets { result ≡ true → AreSets sets.now }
    ensures fields { result ≡ true → input_fields sets.now ≡ schema.now }
{
    let width = schema.as_slice().len();
    match sets {
        [one] => one.col as usize <= width,
        [one, two] => {
            let (one, two) = (one.col as usize, two.col as usize);
            let widened = if one == width { width + 1 } else { width };
            one <= width && two <= widened && one != two
        }
        _ => false,
    }
}

/// What a transform emits for the three rows.
fn transformed(alloc: Global, schema: &Schema, plans: &[Plan], reject: bool) -> Result<Emit, Fail> {
    let sets = sets(alloc, schema, plans)?;
    if !are_sets(schema, sets.as_slice()) {
        return Err(Fail::from("other columns"));
    }
    let rows = rows(alloc)?;
    if !all_fit(schema, rows.as_slice()) {
        return Err(Fail::from("other rows"));
    }
    let mut op = transform(alloc, sets, reject)?;
    Ok(run_list(alloc, &mut op, rows)?)
}

/// What is set, whether rows are rejected, what is sent, and the faults.
type Case = (
    &'static [Plan],
    bool,
    &'static [(u32, &'static [Cell])],
    Option<Faulty>,
);

const LONG: &[u8] = b"abcdefghijklmnopqrstuvwxyz0123456789ABCD";

const DIVIDED: &[Plan] = &[(0, b"record ( a: int32; )", "10 / n")];

const SHORTENED: &[Plan] = &[(3, b"record ( t: string[max=2]; )", "t")];

const FILLED: &[Plan] = &[(4, b"record ( m: int32; )", "n")];

static CASES: [Case; 11] = [
    // the second sees the column as it came
    (
        &[
            (0, b"record ( a: int32; )", "a + 10"),
            (4, b"record ( b: int64; )", "a * 2"),
        ],
        false,
        &[
            (0, &[Int(11), Null, Dec(150), Text(b"ab"), Int(2)]),
            (0, &[Int(12), Int(20), Dec(-5), Text(b""), Int(4)]),
            (0, &[Int(7), Int(0), Dec(0), Text(LONG), Int(-6)]),
        ],
        None,
    ),
    (
        &[
            (0, b"record ( a: nullable int32; )", "n"),
            (1, b"record ( n: int32; )", "a"),
        ],
        true,
        &[
            (0, &[Null, Int(1), Dec(150), Text(b"ab")]),
            (0, &[Int(20), Int(2), Dec(-5), Text(b"")]),
            (0, &[Int(0), Int(-3), Dec(0), Text(LONG)]),
        ],
        None,
    ),
    // two that are appended, in their order
    (
        &[
            (4, b"record ( f: string[4]; )", "substr(t, 1, 3)"),
            (5, b"record ( l: int8; )", "length(t)"),
        ],
        false,
        &[
            (
                0,
                &[Int(1), Null, Dec(150), Text(b"ab"), Text(b"ab  "), Int(2)],
            ),
            (
                0,
                &[Int(2), Int(20), Dec(-5), Text(b""), Text(b"    "), Int(0)],
            ),
            (
                0,
                &[Int(-3), Int(0), Dec(0), Text(LONG), Text(b"abc "), Int(40)],
            ),
        ],
        None,
    ),
    // greater scales
    (
        &[
            (2, b"record ( d: decimal[9,4]; )", "d"),
            (0, b"record ( a: decimal[4,1]; )", "a"),
        ],
        false,
        &[
            (0, &[Dec(10), Null, Dec(15000), Text(b"ab")]),
            (0, &[Dec(20), Int(20), Dec(-500), Text(b"")]),
            (0, &[Dec(-30), Int(0), Dec(0), Text(LONG)]),
        ],
        None,
    ),
    (
        DIVIDED,
        false,
        &[(0, &[Int(0), Int(20), Dec(-5), Text(b"")])],
        Some(Faulty {
            number: 2,
            kind: FaultKind::ZeroDivisor,
            bytes: THIRD_BYTES,
        }),
    ),
    (
        DIVIDED,
        true,
        &[
            (1, &FIRST),
            (0, &[Int(0), Int(20), Dec(-5), Text(b"")]),
            (1, &THIRD),
        ],
        None,
    ),
    // a text that is too long
    (
        SHORTENED,
        false,
        &[(0, &FIRST), (0, &SECOND)],
        Some(Faulty {
            number: 1,
            kind: FaultKind::TooLong,
            bytes: THIRD_BYTES,
        }),
    ),
    (
        SHORTENED,
        true,
        &[(0, &FIRST), (0, &SECOND), (1, &THIRD)],
        None,
    ),
    // null where the field has none
    (
        FILLED,
        false,
        &[
            (0, &[Int(2), Int(20), Dec(-5), Text(b""), Int(20)]),
            (0, &[Int(-3), Int(0), Dec(0), Text(LONG), Int(0)]),
        ],
        Some(Faulty {
            number: 1,
            kind: FaultKind::NullUsed,
            bytes: FIRST_BYTES,
        }),
    ),
    // out of the field's range
    (
        &[(4, b"record ( s: int8; )", "a * 100")],
        false,
        &[(0, &[Int(1), Null, Dec(150), Text(b"ab"), Int(100)])],
        Some(Faulty {
            number: 2,
            kind: FaultKind::Overflow,
            bytes: SECOND_BYTES,
        }),
    ),
    // the first fault in the order of the sets: NullUsed of the first row, not Overflow
    (
        &[
            (4, b"record ( x: int32; )", "10 / n"),
            (5, b"record ( y: int8; )", "a * 1000"),
        ],
        false,
        &[],
        Some(Faulty {
            number: 3,
            kind: FaultKind::Overflow,
            bytes: SECOND_BYTES,
        }),
    ),
];

fn holds(alloc: Global, schema: &Schema, case: &Case) -> Result<bool, Fail> {
    let (plans, reject, sent, faults) = *case;
    let emit = transformed(alloc, schema, plans, reject)?;
    Ok(are_sent(&emit, sent) && has_faults(&emit, faults))
}

#[test]
fn columns_are_set(rt: HostRuntime) -> Result<(), Fail> {
    let alloc = rt.alloc();
    let schema = read_schema(alloc, SCHEMA)?;
    for (i, case) in CASES.iter().enumerate() {
        assert!(rt; holds(alloc, &schema, case)?, "case {i}");
    }
    Ok(())
}
