//! Groups, joins and lookups: what their outputs have, or what is wrong with them.

ghost use Rattle.std.specs.Prelude.{IfOk};
ghost use Rattle.op_shape.specs.Naming.{NamesDiffer};
ghost use Rattle.op_shape.specs.Options.{IsKnown, IsFed, KeysDistinct, OptionsStand};

use super::op_shapes::Found::{Cause, Fields, Parts};
use super::op_shapes::{Found, field, has, name};
use ds_schema::{Schema, read_schema};
use ds_value::{Items, Name};
use flow_graph::{AggSpec, OpKind};
use op_base::Missing;
use op_shape::ShapeWhy;
use std::alloc::Global;
use std::test::Fail;

const LEFT: &str = "record ( a: int32; x: decimal[8,2]; b: nullable string[4]; )";

const RIGHT: &str = "record ( b: string[4]; y: uint8; a: int32; )";

/// An operator by the keys `b desc, a`.
#[derive(Clone, Copy)]
enum Op {
    /// With the sum of a column, and a count.
    Group(&'static str),
    Inner,
    Left,
    Right,
    Full,
    Lookup(Missing),
}

fn key(alloc: Global) -> Result<Items<(Name, bool)>, Fail>
    ensures { IfOk result (λ key. NamesDiffer key) }
{
    let first = name(alloc, "b")?;
    let second = name(alloc, "a")?;
    if first.as_slice() == second.as_slice() {
        return Err("one name".into());
    }
    let mut key = Items::new(alloc);
    key.push((first, true))?;
    key.push((second, false))?;
    Ok(key)
}

fn group(alloc: Global, summed: &str) -> Result<OpKind, Fail>
    ensures { IfOk result (λ k. IsKnown k × (IsFed k 1 × (KeysDistinct k × OptionsStand k))) }
{
    let total = field(alloc, "record ( total: int8; )")?;
    let number = field(alloc, "record ( n: int8; )")?;
    let mut results = Items::new(alloc);
    results.push(AggSpec::Sum(total.name, name(alloc, summed)?))?;
    results.push(AggSpec::Count(number.name))?;
    Ok(OpKind::Group {
        key: key(alloc)?,
        hash: true,
        results,
    })
}

fn pair(alloc: Global, op: Op) -> Result<OpKind, Fail>
    ensures { IfOk result (λ k. IsKnown k × (IsFed k 2 × (KeysDistinct k × OptionsStand k))) }
{
    let key = key(alloc)?;
    match op {
        Op::Group(_) => Err("one input".into()),
        Op::Inner => Ok(OpKind::InnerJoin { key }),
        Op::Left => Ok(OpKind::LeftOuterJoin { key }),
        Op::Right => Ok(OpKind::RightOuterJoin { key }),
        Op::Full => Ok(OpKind::FullOuterJoin { key }),
        Op::Lookup(missing) => Ok(OpKind::Lookup { key, missing }),
    }
}

/// An operator, its inputs (a group has the first alone), and what is found.
type Case = (Op, &'static str, &'static str, Found);

static CASES: [Case; 15] = [
    (
        Op::Inner,
        LEFT,
        RIGHT,
        Fields(
            0,
            "record ( b: nullable string[4]; a: int32; x: decimal[8,2]; y: uint8; )",
        ),
    ),
    (
        Op::Left,
        LEFT,
        RIGHT,
        Fields(
            0,
            "record ( b: nullable string[4]; a: int32; x: decimal[8,2]; y: nullable uint8; )",
        ),
    ),
    (
        Op::Right,
        LEFT,
        RIGHT,
        Fields(
            0,
            "record ( b: nullable string[4]; a: int32; x: nullable decimal[8,2]; y: uint8; )",
        ),
    ),
    (
        Op::Full,
        LEFT,
        RIGHT,
        Fields(
            0,
            "record ( b: nullable string[4]; a: int32; x: nullable decimal[8,2]; y: nullable uint8; )",
        ),
    ),
    (
        Op::Group("x"),
        LEFT,
        RIGHT,
        Fields(
            0,
            "record ( b: nullable string[4]; a: int32; total: nullable decimal[38,2]; n: uint64; )",
        ),
    ),
    (
        Op::Lookup(Missing::Continue),
        LEFT,
        RIGHT,
        Fields(
            0,
            "record ( a: int32; x: decimal[8,2]; b: nullable string[4]; y: nullable uint8; )",
        ),
    ),
    (
        Op::Lookup(Missing::Drop),
        RIGHT,
        LEFT,
        Fields(
            0,
            "record ( b: nullable string[4]; y: uint8; a: int32; x: decimal[8,2]; )",
        ),
    ),
    (Op::Lookup(Missing::Reject), RIGHT, LEFT, Fields(1, RIGHT)),
    (Op::Group("b"), LEFT, RIGHT, Cause(ShapeWhy::Kind)),
    (Op::Group("zip"), LEFT, RIGHT, Cause(ShapeWhy::Field)),
    (
        Op::Inner,
        LEFT,
        "record ( a: int64; )",
        Cause(ShapeWhy::Field),
    ),
    (
        Op::Lookup(Missing::Fail),
        LEFT,
        "record ( a: int64; b: string[4]; )",
        Cause(ShapeWhy::Kind),
    ),
    (
        Op::Left,
        LEFT,
        "record ( a: int32; b: string[4]; x: date; )",
        Cause(ShapeWhy::Double),
    ),
    (
        Op::Full,
        LEFT,
        RIGHT,
        Parts(
            &[],
            0,
            &[&[(2, true), (0, false)], &[(0, true), (2, false)]],
        ),
    ),
    (
        Op::Group("x"),
        LEFT,
        RIGHT,
        Parts(&[1], 0, &[&[(2, true), (0, false)]]),
    ),
];

fn holds(alloc: Global, case: &Case) -> Result<bool, Fail> {
    let left = read_schema(alloc, case.1.as_bytes())?;
    if let Op::Group(summed) = case.0 {
        let kind = group(alloc, summed)?;
        return Ok(has(alloc, &kind, [&left].as_slice(), case.3)?);
    }
    let right = read_schema(alloc, case.2.as_bytes())?;
    let kind = pair(alloc, case.0)?;
    Ok(has(alloc, &kind, [&left, &right].as_slice(), case.3)?)
}

#[test]
fn operators_by_keys(rt: HostRuntime) -> Result<(), Fail> {
    let alloc = rt.alloc();
    for (i, case) in CASES.iter().enumerate() {
        assert!(rt; holds(alloc, case)?, "case {i}");
    }
    Ok(())
}
