//! Merges, changes and funnels: what they make of their inputs, or what is wrong with them.

ghost use Rattle.std.specs.Prelude.{◌≡◌, ◌<◌, length, IfOk};
ghost use Rattle.shape_base.specs.Naming.{NamesDiffer};

use super::op_shapes::name;
use Found::{Cause, Fields};
use ds_schema::{Schema, print_schema, read_schema};
use ds_value::{Items, Name, NoMemory};
use keyed_shape::{
    capture_cause, capture_schema, funnel_cause, inputs_keys, merge_cause, merge_schema,
    value_columns,
};
use op_shape::ShapeWhy;
use std::alloc::Global;
use std::test::Fail;

/// A cause, or the schema of an output.
#[derive(Clone, Copy)]
enum Found {
    Cause(ShapeWhy),
    Fields(&'static str),
}

fn one_key(alloc: Global, column: &str) -> Result<Items<(Name, bool)>, Fail>
    ensures { IfOk result (λ key. NamesDiffer key) }
{
    let mut key = Items::new(alloc);
    key.push((name(alloc, column)?, false))?;
    Ok(key)
}

fn at_most_one(alloc: Global, column: Option<&str>) -> Result<Items<Name>, Fail> {
    let mut names = Items::new(alloc);
    if let Some(column) = column {
        names.push(name(alloc, column)?)?;
    }
    Ok(names)
}

fn has_fields(alloc: Global, schema: &Schema, found: Found) -> Result<bool, NoMemory> {
    let printed = print_schema(alloc, schema)?;
    match found {
        Fields(text) => Ok(printed.as_slice() == text.as_bytes()),
        Cause(_) => Ok(false),
    }
}

fn is_cause(why: ShapeWhy, found: Found) -> bool {
    match found {
        Cause(wanted) => why == wanted,
        Fields(_) => false,
    }
}

const MASTER: &str = "record ( k: int32; a: string[max=4]; )";

const UPDATE: &str = "record ( k: nullable int32; b: string[max=4]; )";

const DATED: &str = "record ( c: date; k: int32; )";

/// A merge by `k` of a master and an update, and of a second one where there is one: whether bad
/// masters are kept, and what is found at an output.
type Merged = (bool, &'static str, Option<&'static str>, u32, Found);

static MERGED: [Merged; 7] = [
    (
        false,
        UPDATE,
        None,
        0,
        Fields("record ( k: nullable int32; a: string[max=4]; b: string[max=4]; )"),
    ),
    (
        true,
        UPDATE,
        None,
        0,
        Fields("record ( k: nullable int32; a: string[max=4]; b: nullable string[max=4]; )"),
    ),
    (
        false,
        UPDATE,
        Some(DATED),
        0,
        Fields(
            "record ( k: nullable int32; a: string[max=4]; b: nullable string[max=4]; c: nullable date; )",
        ),
    ),
    (false, UPDATE, Some(DATED), 2, Fields(DATED)),
    (
        true,
        UPDATE,
        Some("record ( b: date; )"),
        0,
        Cause(ShapeWhy::Field),
    ),
    (
        true,
        UPDATE,
        Some("record ( k: int64; )"),
        0,
        Cause(ShapeWhy::Kind),
    ),
    (
        true,
        "record ( k: int32; a: date; )",
        None,
        0,
        Cause(ShapeWhy::Double),
    ),
];

fn is_merged(alloc: Global, case: &Merged, ins: &[&Schema]) -> Result<bool, Fail>
    requires { 0 < length ins.now }
{
    let key = one_key(alloc, "k")?;
    let (keepbad, _, _, out, found) = *case;
    if let Some(why) = merge_cause(alloc, key.as_slice(), keepbad, ins)? {
        return Ok(is_cause(why, found));
    }
    let schema = merge_schema(alloc, key.as_slice(), keepbad, ins, out)?;
    Ok(has_fields(alloc, &schema, found)?)
}

fn merges(alloc: Global, case: &Merged) -> Result<bool, Fail> {
    let master = read_schema(alloc, MASTER.as_bytes())?;
    let update = read_schema(alloc, case.1.as_bytes())?;
    let Some(text) = case.2 else {
        return is_merged(alloc, case, [&master, &update].as_slice());
    };
    let other = read_schema(alloc, text.as_bytes())?;
    is_merged(alloc, case, [&master, &update, &other].as_slice())
}

#[test]
fn merges_have_their_columns(rt: HostRuntime) -> Result<(), Fail> {
    let alloc = rt.alloc();
    for (i, case) in MERGED.iter().enumerate() {
        assert!(rt; merges(alloc, case)?, "case {i}");
    }
    Ok(())
}

/// The columns of a key on two inputs.
fn key_columns(alloc: Global, ins: &[&Schema]) -> Result<Items<u32>, Fail>
    requires { 0 < length ins.now }
{
    let key = one_key(alloc, "k")?;
    let keys = key.as_slice();
    let None = funnel_cause(keys, ins) else {
        return Err("a cause".into());
    };
    let mut cols = Items::new(alloc);
    for list in inputs_keys(alloc, keys, ins)?.as_slice() {
        for key in list.as_slice() {
            cols.push(key.col)?;
        }
    }
    Ok(cols)
}

const VALUED: &str = "record ( v: string[max=4]; k: int32; w: date; )";

#[test]
fn names_are_columns_of_each_input(rt: HostRuntime) -> Result<(), Fail> {
    let alloc = rt.alloc();
    let schema = read_schema(alloc, VALUED.as_bytes())?;
    let cols = key_columns(alloc, [&schema, &schema].as_slice())?;
    assert!(rt; cols.as_slice() == [1, 1].as_slice());
    let key = one_key(alloc, "k")?;
    let others = value_columns(alloc, key.as_slice(), &[], schema.as_slice())?;
    assert!(rt; others.as_slice() == [0, 2].as_slice());
    let named = at_most_one(alloc, Some("w"))?;
    let compared = value_columns(alloc, key.as_slice(), named.as_slice(), schema.as_slice())?;
    assert!(rt; compared.as_slice() == [2].as_slice());
    Ok(())
}

/// Changes by a key to a table of values: the column that is compared, if one is named, what the
/// table becomes, and what is found; and what is wrong with a funnel sorted by the key.
type Captured = (
    &'static str,
    Option<&'static str>,
    &'static str,
    Found,
    Option<ShapeWhy>,
);

static CAPTURED: [Captured; 5] = [
    (
        "k",
        None,
        VALUED,
        Fields("record ( v: string[max=4]; k: int32; w: date; change_code: int8; )"),
        None,
    ),
    ("k", Some("zip"), VALUED, Cause(ShapeWhy::Field), None),
    (
        "zip",
        None,
        VALUED,
        Cause(ShapeWhy::Field),
        Some(ShapeWhy::Field),
    ),
    (
        "v",
        Some("k"),
        "record ( v: string[max=5]; k: int32; w: date; )",
        Cause(ShapeWhy::Kind),
        Some(ShapeWhy::Kind),
    ),
    (
        "k",
        Some("v"),
        "record ( v: string[max=4]; k: int32; w: nullable date; )",
        Cause(ShapeWhy::Schemas),
        Some(ShapeWhy::Schemas),
    ),
];

fn is_captured(alloc: Global, case: &Captured, ins: &[&Schema]) -> Result<bool, Fail>
    requires { 0 < length ins.now }
{
    let key = one_key(alloc, case.0)?;
    let values = at_most_one(alloc, case.1)?;
    if let Some(why) = capture_cause(alloc, key.as_slice(), values.as_slice(), ins)? {
        return Ok(is_cause(why, case.3));
    }
    let schema = capture_schema(alloc, key.as_slice(), values.as_slice(), ins)?;
    Ok(has_fields(alloc, &schema, case.3)?)
}

fn captures(alloc: Global, case: &Captured) -> Result<bool, Fail> {
    let before = read_schema(alloc, VALUED.as_bytes())?;
    let after = read_schema(alloc, case.2.as_bytes())?;
    let ins = [&before, &after];
    let key = one_key(alloc, case.0)?;
    let funnelled = funnel_cause(key.as_slice(), ins.as_slice()) == case.4;
    Ok(is_captured(alloc, case, ins.as_slice())? && funnelled)
}

#[test]
fn changes_have_their_columns(rt: HostRuntime) -> Result<(), Fail> {
    let alloc = rt.alloc();
    for (i, case) in CAPTURED.iter().enumerate() {
        assert!(rt; captures(alloc, case)?, "case {i}");
    }
    Ok(())
}
