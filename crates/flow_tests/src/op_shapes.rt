ghost use Rattle.std.specs.Prelude.{length, IfOk};
ghost use Rattle.ds_schema.specs.Schemas.{IsField};
ghost use Rattle.op_shape.specs.Naming.{NamesDiffer};
ghost use Rattle.op_shape.specs.Options.{IsKnown, IsFed, KeysDistinct, OptionsStand};

use Found::{Cause, Fields, Nothing, Parts};
use Op::{Filter, Keep, Leave, Narrow, Switch, Transform, Tsort};
use ShapeWhy::{Double, Expression, Schemas, Wide};
use ds_schema::{Field, KeyList, Schema, print_schema, read_names, read_schema};
use ds_value::{Bytes, Copied, Items, Name, NoMemory};
use flow_graph::{OpKind, OpParts, SetSpec};
use op_shape::naming::{columns, has_keys, key_list};
use op_shape::{ShapeWhy, line_schema, operator_parts, output_schema, own_cause};
use std::alloc::Global;
use std::test::Fail;

const PEOPLE: &str = "record ( id: int32; name: string[max=10]; paid: decimal[8,2]; )";

const ID: &str = "record ( id: int64; )";

const SUM: &str = "record ( sum: int64; )";

const TWICE: &str = "record ( twice: int64; )";

const NAME: &str = "record ( name: nullable string[4]; )";

const SET: &str = "record ( id: int32; name: nullable string[4]; paid: decimal[8,2]; sum: int64; )";

/// An operator of one input; an export is of one width.
#[derive(Clone, Copy)]
enum Op {
    Narrow,
    Filter,
    Transform,
    Keep,
    Leave,
    Switch,
    Tsort,
}

/// What an operator is tested, switched on, kept, left out or sorted by; one or two sets, each a
/// schema of one field and an expression; or, behind what is kept, the new name and the old name
/// of a column, the new name as a schema of one field.
type Options = &'static [&'static str];

/// What is found at an operator.
#[derive(Clone, Copy)]
pub enum Found {
    Cause(ShapeWhy),
    Nothing,
    /// The columns, the number of expressions, and the columns of each key list, with whether
    /// they go down, that its options stand for.
    Parts(&'static [u32], usize, &'static [&'static [(u32, bool)]]),
    /// The schema of an output.
    Fields(u32, &'static str),
}

fn bytes(alloc: Global, text: &str) -> Result<Bytes, NoMemory> {
    let mut bytes = Bytes::new(alloc);
    bytes.append(text.as_bytes())?;
    Ok(bytes)
}

pub fn name(alloc: Global, text: &str) -> Result<Name, Fail> {
    match Name::from_bytes(alloc, text.as_bytes())? {
        Some(name) => Ok(name),
        None => Err("no name".into()),
    }
}

fn names(alloc: Global, text: &str) -> Result<Items<Name>, Fail> {
    match read_names(alloc, text.as_bytes())? {
        Some(names) => Ok(names),
        None => Err("no names".into()),
    }
}

/// An option; an empty text where there is none.
fn option(options: Options, i: usize) -> &'static str {
    match options.get(i) {
        Some(option) => *option,
        None => "",
    }
}

fn first_field(schema: &Schema) -> Result<Field, NoMemory>
    ensures { IfOk result IsField }
{
    schema.as_slice()[0].copied()
}

pub fn field(alloc: Global, text: &str) -> Result<Field, Fail>
    ensures { IfOk result IsField }
{
    let schema = read_schema(alloc, text.as_bytes())?;
    Ok(first_field(&schema)?)
}

fn set(alloc: Global, text: &str, expr: &str) -> Result<SetSpec, Fail>
    ensures { IfOk result (λ s. IsField s.field) }
{
    Ok(SetSpec {
        field: field(alloc, text)?,
        expr: bytes(alloc, expr)?,
    })
}

fn transform(alloc: Global, options: Options) -> Result<OpKind, Fail>
    ensures { IfOk result (λ k. IsKnown k × (IsFed k 1 × (KeysDistinct k × OptionsStand k))) }
{
    let mut sets = Items::new(alloc);
    sets.push(set(alloc, option(options, 0), option(options, 1))?)?;
    if options.len() > 2 {
        sets.push(set(alloc, option(options, 2), option(options, 3))?)?;
    }
    Ok(OpKind::Transform {
        set: sets,
        reject: true,
    })
}

fn keep(alloc: Global, options: Options) -> Result<OpKind, Fail>
    ensures { IfOk result (λ k. IsKnown k × (IsFed k 1 × (KeysDistinct k × OptionsStand k))) }
{
    let mut pairs = Items::new(alloc);
    if options.len() > 1 {
        let field = field(alloc, option(options, 1))?;
        pairs.push((field.name, name(alloc, option(options, 2))?))?;
    }
    Ok(OpKind::Modify {
        keep: names(alloc, option(options, 0))?,
        drop: Items::new(alloc),
        rename: pairs,
    })
}

fn dropped(alloc: Global, drop: &str) -> Result<OpKind, Fail>
    ensures { IfOk result (λ k. IsKnown k × (IsFed k 1 × (KeysDistinct k × OptionsStand k))) }
{
    Ok(OpKind::Modify {
        keep: Items::new(alloc),
        drop: names(alloc, drop)?,
        rename: Items::new(alloc),
    })
}

fn one_width(alloc: Global) -> Result<Items<u32>, NoMemory> {
    let mut widths = Items::new(alloc);
    widths.push(5)?;
    Ok(widths)
}

fn one_key(alloc: Global, column: &str) -> Result<Items<(Name, bool)>, Fail>
    ensures { IfOk result (λ key. NamesDiffer key) }
{
    let mut key = Items::new(alloc);
    key.push((name(alloc, column)?, true))?;
    Ok(key)
}

fn one_case(alloc: Global, on: &str) -> Result<OpKind, Fail>
    ensures { IfOk result (λ k. IsKnown k × (IsFed k 1 × (KeysDistinct k × OptionsStand k))) }
{
    let mut cases = Items::new(alloc);
    cases.push(1)?;
    Ok(OpKind::Switch {
        on: bytes(alloc, on)?,
        cases,
        reject: false,
    })
}

fn import(alloc: Global) -> Result<OpKind, Fail>
    ensures { IfOk result (λ k. IsKnown k × IsFed k 0) }
{
    Ok(OpKind::Import {
        file: name(alloc, "in.txt")?,
        schema: read_schema(alloc, PEOPLE.as_bytes())?,
        delim: b',',
        fixed: None,
        reject: true,
    })
}

fn export(alloc: Global) -> Result<OpKind, Fail>
    ensures { IfOk result (λ k. IsKnown k × (IsFed k 1 × (KeysDistinct k × OptionsStand k))) }
{
    Ok(OpKind::Export {
        file: name(alloc, "out.txt")?,
        delim: b',',
        fixed: Some(one_width(alloc)?),
    })
}

fn filter(alloc: Global, test: &str) -> Result<OpKind, Fail>
    ensures { IfOk result (λ k. IsKnown k × (IsFed k 1 × (KeysDistinct k × OptionsStand k))) }
{
    Ok(OpKind::Filter {
        test: bytes(alloc, test)?,
        reject: false,
    })
}

fn tsort(alloc: Global, column: &str) -> Result<OpKind, Fail>
    ensures { IfOk result (λ k. IsKnown k × (IsFed k 1 × (KeysDistinct k × OptionsStand k))) }
{
    Ok(OpKind::Tsort {
        key: one_key(alloc, column)?,
    })
}

fn kind(alloc: Global, op: Op, options: Options) -> Result<OpKind, Fail>
    ensures { IfOk result (λ k. IsKnown k × (IsFed k 1 × (KeysDistinct k × OptionsStand k))) }
{
    match op {
        Narrow => export(alloc),
        Filter => filter(alloc, option(options, 0)),
        Transform => transform(alloc, options),
        Keep => keep(alloc, options),
        Leave => dropped(alloc, option(options, 0)),
        Switch => one_case(alloc, option(options, 0)),
        Tsort => tsort(alloc, option(options, 0)),
    }
}

fn is_key(found: &KeyList, wanted: &[(u32, bool)]) -> bool {
    let keys = found.as_slice();
    keys.len() == wanted.len()
        && keys
            .iter()
            .zip(wanted)
            .all(|(key, (col, desc))| key.col == *col && key.desc == *desc)
}

fn are_keys(found: &[KeyList], wanted: &[&[(u32, bool)]]) -> bool {
    found.len() == wanted.len()
        && found
            .iter()
            .zip(wanted)
            .all(|(found, wanted)| is_key(found, wanted))
}

fn are_parts(parts: &OpParts, cols: &[u32], exprs: usize, keys: &[&[(u32, bool)]]) -> bool {
    parts.cols.as_slice() == cols
        && parts.exprs.as_slice().len() == exprs
        && are_keys(parts.keys.as_slice(), keys)
}

/// Whether a schema is printed so.
fn is_printed(alloc: Global, schema: &Schema, text: &str) -> Result<bool, NoMemory> {
    let printed = print_schema(alloc, schema)?;
    Ok(printed.as_slice() == text.as_bytes())
}

/// Whether this is found at an operator over these inputs.
pub fn has(alloc: Global, kind: &OpKind, ins: &[&Schema], found: Found) -> Result<bool, NoMemory>
    requires known { IsKnown kind.now }
    requires fed { IsFed kind.now (length ins.now) }
    requires differ { KeysDistinct kind.now }
    requires stand { OptionsStand kind.now }
{
    match (own_cause(alloc, kind, ins)?, found) {
        (Some(why), Cause(cause)) => Ok(why == cause),
        (None, Nothing) => Ok(true),
        (None, Parts(cols, exprs, keys)) => {
            let parts = operator_parts(alloc, kind, ins)?;
            Ok(are_parts(&parts, cols, exprs, keys))
        }
        (None, Fields(out, fields)) => {
            let schema = output_schema(alloc, kind, ins, out)?;
            is_printed(alloc, &schema, fields)
        }
        _ => Ok(false),
    }
}

/// An operator over people, its options, and what is found.
type Case = (Op, Options, Found);

static CASES: [Case; 23] = [
    (Filter, &["id > 2 && name == 'x'"], Nothing),
    (Filter, &["id + 2"], Cause(Expression)),
    (Filter, &["id >"], Cause(Expression)),
    (Switch, &["paid"], Cause(Expression)),
    (Switch, &["id * 2"], Nothing),
    (Transform, &[ID, "id + 1"], Nothing),
    (Transform, &[ID, "paid"], Cause(Expression)),
    // each set sees the input alone
    (Transform, &[SUM, "id", TWICE, "sum * 2"], Cause(Expression)),
    (Transform, &[SUM, "id", SUM, "id"], Cause(Double)),
    (Keep, &["paid,zip"], Cause(ShapeWhy::Field)),
    (Keep, &["paid,id", SUM, "name"], Cause(ShapeWhy::Field)),
    (Keep, &["paid,id", ID, "paid"], Cause(Double)),
    (Leave, &["name,id,paid"], Cause(Wide)),
    (Tsort, &["zip"], Cause(ShapeWhy::Field)),
    (Narrow, &[], Cause(Schemas)),
    (
        Transform,
        &[NAME, "name", SUM, "id + 1"],
        Parts(&[1, 3], 2, &[]),
    ),
    (Keep, &["paid,id"], Parts(&[2, 0], 0, &[])),
    (Leave, &["name"], Parts(&[0, 2], 0, &[])),
    (Tsort, &["paid"], Parts(&[], 0, &[&[(2, true)]])),
    (Filter, &["id > 2"], Parts(&[], 1, &[])),
    (Transform, &[NAME, "name", SUM, "id + 1"], Fields(0, SET)),
    (Transform, &[NAME, "name", SUM, "id + 1"], Fields(1, PEOPLE)),
    (
        Keep,
        &["paid,id", SUM, "paid"],
        Fields(0, "record ( sum: decimal[8,2]; id: int32; )"),
    ),
];

fn holds(alloc: Global, people: &Schema, case: &Case) -> Result<bool, Fail> {
    let kind = kind(alloc, case.0, case.1)?;
    Ok(has(alloc, &kind, [people].as_slice(), case.2)?)
}

#[test]
fn operators_over_people(rt: HostRuntime) -> Result<(), Fail> {
    let alloc = rt.alloc();
    let people = read_schema(alloc, PEOPLE.as_bytes())?;
    for (i, case) in CASES.iter().enumerate() {
        assert!(rt; holds(alloc, &people, case)?, "case {i}");
    }
    Ok(())
}

#[test]
fn cause_without_input(rt: HostRuntime) -> Result<(), Fail> {
    let alloc = rt.alloc();
    let import = import(alloc)?;
    let found = own_cause(alloc, &import, &[])?;
    assert!(rt; found.is_none());
    let lines = line_schema(alloc)?;
    assert!(rt; is_printed(alloc, &lines, "record ( line: string[max=65536]; )")?);
    Ok(())
}

/// The key list of a column, where it is there.
fn keyed(alloc: Global, people: &Schema, column: &str) -> Result<Option<KeyList>, Fail> {
    let key = one_key(alloc, column)?;
    if !has_keys(people.as_slice(), key.as_slice()) {
        return Ok(None);
    }
    Ok(Some(key_list(alloc, people.as_slice(), key.as_slice())?))
}

#[test]
fn columns_of_names(rt: HostRuntime) -> Result<(), Fail> {
    let alloc = rt.alloc();
    let people = read_schema(alloc, PEOPLE.as_bytes())?;
    let names = names(alloc, "paid,zip,id")?;
    let found = columns(alloc, people.as_slice(), names.as_slice())?;
    assert!(rt; found.as_slice() == [2, 3, 0].as_slice());
    let Some(keys) = keyed(alloc, &people, "name")? else {
        return Err("no key".into());
    };
    assert!(rt; is_key(&keys, &[(1, true)]));
    assert!(rt; keyed(alloc, &people, "zip")?.is_none());
    Ok(())
}
