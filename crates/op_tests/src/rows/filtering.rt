use super::fixture::{
    Cell, FIRST, FIRST_BYTES, Faulty, SCHEMA, SECOND, THIRD, THIRD_BYTES, all_fit, are_sent,
    has_faults, rows, typed,
};
use ds_expr::{Shape, shape_of};
use ds_schema::{Schema, read_schema};
use op_base::{Emit, FaultKind, run_list};
use op_row::filter;
use std::alloc::Global;
use std::test::Fail;

/// What a filter emits for the three rows.
fn filtered(alloc: Global, schema: &Schema, text: &str, reject: bool) -> Result<Emit, Fail> {
    let test = typed(alloc, schema, text)?;
    let (Shape::Truth, _) = shape_of(&test) else {
        return Err(Fail::from("no test"));
    };
    let rows = rows(alloc)?;
    if !all_fit(schema, rows.as_slice()) {
        return Err(Fail::from("other rows"));
    }
    let mut op = filter(alloc, test, reject)?;
    Ok(run_list(alloc, &mut op, rows)?)
}

/// A test, whether rows are rejected, what is sent, and the faults.
type Case = (
    &'static str,
    bool,
    &'static [(u32, &'static [Cell])],
    Option<Faulty>,
);

const DIVIDED: Faulty = Faulty {
    number: 2,
    kind: FaultKind::ZeroDivisor,
    bytes: THIRD_BYTES,
};

const ADDED: Faulty = Faulty {
    number: 1,
    kind: FaultKind::NullUsed,
    bytes: FIRST_BYTES,
};

static CASES: [Case; 10] = [
    ("n > 10", false, &[(0, &SECOND)], None),
    (
        "n > 10",
        true,
        &[(1, &FIRST), (0, &SECOND), (1, &THIRD)],
        None,
    ),
    ("isnull(n)", false, &[(0, &FIRST)], None),
    (
        "a == a",
        true,
        &[(0, &FIRST), (0, &SECOND), (0, &THIRD)],
        None,
    ),
    ("a == 0", false, &[], None),
    ("10 / n < 0", false, &[], Some(DIVIDED)),
    ("10 / n < 0", true, &[(1, &SECOND)], Some(DIVIDED)),
    ("n + 1 > 1", false, &[(0, &SECOND)], Some(ADDED)),
    ("n + 1 > 1", true, &[(0, &SECOND), (1, &THIRD)], Some(ADDED)),
    (
        "isnull(n) || 10 / n == 0",
        true,
        &[(0, &FIRST), (0, &SECOND)],
        Some(Faulty {
            number: 1,
            kind: FaultKind::ZeroDivisor,
            bytes: THIRD_BYTES,
        }),
    ),
];

fn holds(alloc: Global, schema: &Schema, case: &Case) -> Result<bool, Fail> {
    let (text, reject, sent, faults) = *case;
    let emit = filtered(alloc, schema, text, reject)?;
    Ok(are_sent(&emit, sent) && has_faults(&emit, faults))
}

#[test]
fn rows_are_filtered(rt: HostRuntime) -> Result<(), Fail> {
    let alloc = rt.alloc();
    let schema = read_schema(alloc, SCHEMA)?;
    for case in &CASES {
        assert!(rt; holds(alloc, &schema, case)?, "{}", case.0);
    }
    Ok(())
}
