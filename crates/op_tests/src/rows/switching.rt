ghost use Rattle.std.specs.Prelude.{◌≡◌, IfOk, length};
ghost use Rattle.op_row.specs.Expressed.{AreDistinct};

use super::fixture::{
    Cell, FIRST, FIRST_BYTES, Faulty, SCHEMA, SECOND, THIRD, THIRD_BYTES, all_fit, are_sent,
    has_faults, rows, typed,
};
use ds_expr::{Shape, shape_of};
use ds_schema::{Schema, read_schema};
use op_base::{Emit, FaultKind, run_list};
use op_row::switcher;
use std::alloc::Global;
use std::test::Fail;

/// Three cases.
fn cases(alloc: Global) -> Result<Vec<i64>, Fail>
    ensures distinct { IfOk result (λ cases. AreDistinct cases.items) }
    ensures three { IfOk result (λ cases. length cases.items ≡ 3) }
{
    Ok(vec![in alloc; 20, -3, 0]?)
}

/// What a switch of the three cases emits for the three rows.
fn switched(alloc: Global, schema: &Schema, text: &str, reject: bool) -> Result<Emit, Fail> {
    let cases = cases(alloc)?;
    let on = typed(alloc, schema, text)?;
    let (Shape::Num, 0) = shape_of(&on) else {
        return Err(Fail::from("no whole number"));
    };
    let rows = rows(alloc)?;
    if !all_fit(schema, rows.as_slice()) {
        return Err(Fail::from("other rows"));
    }
    let mut op = switcher(alloc, on, cases, reject)?;
    Ok(run_list(alloc, &mut op, rows)?)
}

/// An expression, whether rows are rejected, what is sent, and the faults.
type Case = (
    &'static str,
    bool,
    &'static [(u32, &'static [Cell])],
    Option<Faulty>,
);

const MULTIPLIED: Faulty = Faulty {
    number: 1,
    kind: FaultKind::NullUsed,
    bytes: FIRST_BYTES,
};

const DIVIDED: Faulty = Faulty {
    number: 2,
    kind: FaultKind::ZeroDivisor,
    bytes: THIRD_BYTES,
};

static CASES: [Case; 10] = [
    ("n", false, &[(0, &SECOND), (2, &THIRD)], None),
    ("n", true, &[(3, &FIRST), (0, &SECOND), (2, &THIRD)], None),
    ("a", false, &[(1, &THIRD)], None),
    ("a", true, &[(3, &FIRST), (3, &SECOND), (1, &THIRD)], None),
    (
        "a - a",
        false,
        &[(2, &FIRST), (2, &SECOND), (2, &THIRD)],
        None,
    ),
    ("18446744073709551616 + a - a", false, &[], None),
    ("n * 10 - 200", false, &[(2, &SECOND)], Some(MULTIPLIED)),
    (
        "n * 10 - 200",
        true,
        &[(2, &SECOND), (3, &THIRD)],
        Some(MULTIPLIED),
    ),
    ("10 / n", false, &[(2, &SECOND)], Some(DIVIDED)),
    ("10 / n - 3", true, &[(1, &SECOND)], Some(DIVIDED)),
];

fn holds(alloc: Global, schema: &Schema, case: &Case) -> Result<bool, Fail> {
    let (text, reject, sent, faults) = *case;
    let emit = switched(alloc, schema, text, reject)?;
    Ok(are_sent(&emit, sent) && has_faults(&emit, faults))
}

#[test]
fn rows_are_switched(rt: HostRuntime) -> Result<(), Fail> {
    let alloc = rt.alloc();
    let schema = read_schema(alloc, SCHEMA)?;
    for case in &CASES {
        assert!(rt; holds(alloc, &schema, case)?, "{}", case.0);
    }
    Ok(())
}
