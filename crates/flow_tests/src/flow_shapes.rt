ghost use Rattle.std.specs.Prelude.{◌≡◌, ◌∷◌, [], ◌≢◌, ℕ, List, IfOk};
ghost use Rattle.std.specs.List.{AllByRecursion};
ghost use Rattle.ds_schema.specs.Schemas.{IsField, IsFieldName};
ghost use Rattle.flow_graph.specs.declared.flow.Flag.TheVariants as flag;
ghost use Rattle.flow_graph.specs.declared.op_kind.OpKind.TheVariants as kind;
ghost use Rattle.flow_shape.specs.Methods.{MethodDiffers};
ghost use Rattle.op_shape.specs.Options.{IsKnown, KeysDistinct, OptionsStand};
ghost use Rattle.flow_shape.specs.Refusals.{HasOnlyKnown};
ghost use Rattle.flow_shape.specs.Spelled.{IsJoined};

use Middle::{Filter, Modify, Switch, Transform};
use Written::{ByColumn, Clashing, Emptied, Narrow, OneWidth, Plain, Rejecting, Wide, With};
use ds_schema::{Field, read_schema};
use ds_value::{Bytes, Copied, Items, Name, NoMemory};
use flow_graph::{Flag, Flow, LinkSpec, Mark, Method, OpKind, OpSpec, SetSpec};
use flow_shape::{ShapeFault, ShapeWhy, shape};
use std::alloc::Global;
use std::test::Fail;

const PEOPLE: &[u8] = b"record ( id: int32; name: string[max=10]; )";

/// Thirty-two texts of 65,541 canonical bytes are too many for a row.
const WIDE: &[u8] =
    b"record ( a: string[max=65536]; b: string[max=65536]; c: string[max=65536]; d: string[max=65536]; e: string[max=65536]; f: string[max=65536]; g: string[max=65536]; h: string[max=65536]; i: string[max=65536]; j: string[max=65536]; k: string[max=65536]; l: string[max=65536]; m: string[max=65536]; n: string[max=65536]; o: string[max=65536]; p: string[max=65536]; q: string[max=65536]; r: string[max=65536]; s: string[max=65536]; t: string[max=65536]; u: string[max=65536]; v: string[max=65536]; w: string[max=65536]; x: string[max=65536]; y: string[max=65536]; z: string[max=65536]; aa: string[max=65536]; ab: string[max=65536]; ac: string[max=65536]; ad: string[max=65536]; ae: string[max=65536]; af: string[max=65536]; )";

fn link(from: u32, to: u32, method: Method) -> LinkSpec
    ensures { result ≡ record { from = from; out = 0; to = to; port = 0; method = method; flag = flag.Prop } }
{
    LinkSpec {
        from,
        out: 0,
        to,
        port: 0,
        method,
        flag: Flag::Prop,
    }
}

fn flow_of(
    alloc: Global,
    first: OpSpec,
    middle: OpSpec,
    last: OpSpec,
    method: Method,
) -> Result<Flow, NoMemory>
    requires first { IsKnown first.kind × KeysDistinct first.kind × OptionsStand first.kind }
    requires middle { IsKnown middle.kind × KeysDistinct middle.kind × OptionsStand middle.kind }
    requires last { IsKnown last.kind × KeysDistinct last.kind × OptionsStand last.kind }
    requires method { MethodDiffers method }
    ensures known { IfOk result HasOnlyKnown }
    ensures joined { IfOk result IsJoined }
{
    let mut ops = Items::new(alloc);
    ops.push(first)?;
    ops.push(middle)?;
    ops.push(last)?;
    let mut links = Items::new(alloc);
    links.push(link(0, 1, method))?;
    links.push(link(1, 2, Method::Auto))?;
    Ok(Flow {
        nopart: false,
        nosort: false,
        ops,
        links,
    })
}

fn copying(mark: Mark) -> OpSpec
    ensures { result.kind ≡ kind.Copy }
{
    OpSpec {
        kind: OpKind::Copy,
        mark,
    }
}

/// Two copies, each of which feeds the other.
fn round(alloc: Global) -> Result<Flow, NoMemory>
    ensures known { IfOk result HasOnlyKnown }
    ensures joined { IfOk result IsJoined }
{
    let mut ops = Items::new(alloc);
    ops.push(copying(Mark::Seq))?;
    ops.push(copying(Mark::Seq))?;
    let mut links = Items::new(alloc);
    links.push(link(0, 1, Method::Auto))?;
    links.push(link(1, 0, Method::Auto))?;
    Ok(Flow {
        nopart: false,
        nosort: false,
        ops,
        links,
    })
}

pub fn name(alloc: Global, text: &[u8]) -> Result<Name, Fail> {
    match Name::from_bytes(alloc, text)? {
        Some(name) => Ok(name),
        None => Err("no name".into()),
    }
}

fn one_width(alloc: Global, wanted: bool) -> Result<Option<Items<u32>>, NoMemory> {
    if !wanted {
        return Ok(None);
    }
    let mut widths = Items::new(alloc);
    widths.push(5)?;
    Ok(Some(widths))
}

fn method(alloc: Global, column: Option<&[u8]>) -> Result<Method, Fail>
    ensures { IfOk result MethodDiffers }
{
    match column {
        Some(column) => Ok(Method::Modulus(name(alloc, column)?)),
        None => Ok(Method::Auto),
    }
}

/// The first fault of a flow; none where it has a shape.
fn first_fault(alloc: Global, flow: Flow) -> Result<Option<(ShapeWhy, u32)>, NoMemory>
    requires known { HasOnlyKnown flow }
    requires joined { IsJoined flow }
{
    match shape(alloc, flow, &[]) {
        Ok(_) => Ok(None),
        Err(ShapeFault::Bad { why, op }) => Ok(Some((why, op))),
        Err(ShapeFault::Memory) => Err(NoMemory),
    }
}

/// A schema of one field, and what it is made from: an expression, or an old name.
type Made = (&'static [u8], &'static [u8]);

/// The operator in the middle of a flow.
#[derive(Clone, Copy)]
enum Middle {
    Copy,
    Filter(&'static [u8]),
    Transform(Made, Option<Made>),
    Modify(Option<&'static [u8]>, Option<&'static [u8]>, Option<Made>),
    Switch(&'static [u8]),
}

/// How a flow differs from an import of people, a sequential copy and an export.
#[derive(Clone, Copy)]
enum Written {
    Plain,
    /// The import has a reject output.
    Rejecting,
    /// The import has one width.
    OneWidth,
    /// The rows may be too long.
    Wide,
    /// The export's file clashes with the import's.
    Clashing,
    /// The link into the copy is by modulus of a column.
    ByColumn(Mark, &'static [u8]),
    /// Another operator, which is parallel, in the place of the copy.
    With(Middle),
    /// The same, and the export has one width.
    Narrow(Middle),
    /// The only column is dropped.
    Emptied,
}

fn field(alloc: Global, written: &[u8]) -> Result<Field, Fail>
    ensures { IfOk result IsField }
{
    let schema = read_schema(alloc, written)?;
    Ok(schema.as_slice()[0].copied()?)
}

fn expression(alloc: Global, text: &[u8]) -> Result<Bytes, NoMemory> {
    let mut bytes = Vec::new(alloc);
    bytes.extend_from_slice(text)?;
    Ok(Bytes::from_vec(bytes))
}

fn set(alloc: Global, written: Made) -> Result<SetSpec, Fail>
    ensures { IfOk result (λ s. IsField s.field) }
{
    Ok(SetSpec {
        field: field(alloc, written.0)?,
        expr: expression(alloc, written.1)?,
    })
}

fn transform(alloc: Global, first: Made, second: Option<Made>) -> Result<OpKind, Fail>
    ensures { IfOk result (λ k. IsKnown k × KeysDistinct k × OptionsStand k) }
{
    let mut sets = Items::new(alloc);
    sets.push(set(alloc, first)?)?;
    match second {
        None => Ok(OpKind::Transform {
            set: sets,
            reject: false,
        }),
        Some(second) => {
            sets.push(set(alloc, second)?)?;
            Ok(OpKind::Transform {
                set: sets,
                reject: false,
            })
        }
    }
}

fn at_most_one(alloc: Global, column: Option<&[u8]>) -> Result<Items<Name>, Fail> {
    let mut names = Items::new(alloc);
    if let Some(column) = column {
        names.push(name(alloc, column)?)?;
    }
    Ok(names)
}

fn renames(alloc: Global, pair: Option<Made>) -> Result<Items<(Name, Name)>, Fail>
    ensures { IfOk result (λ pairs. AllByRecursion (λ (p : List ℕ × List ℕ). IsFieldName (p.0)) pairs) }
{
    let mut pairs = Items::new(alloc);
    match pair {
        None => Ok(pairs),
        Some((written, old)) => {
            let new = field(alloc, written)?;
            pairs.push((new.name, name(alloc, old)?))?;
            Ok(pairs)
        }
    }
}

fn switch(alloc: Global, on: &[u8]) -> Result<OpKind, Fail>
    ensures { IfOk result (λ k. IsKnown k × KeysDistinct k × OptionsStand k) }
{
    let mut cases = Items::new(alloc);
    cases.push(7)?;
    Ok(OpKind::Switch {
        on: expression(alloc, on)?,
        cases,
        reject: false,
    })
}

fn kind_of(alloc: Global, middle: Middle) -> Result<OpKind, Fail>
    ensures { IfOk result (λ k. IsKnown k × KeysDistinct k × OptionsStand k) }
{
    match middle {
        Middle::Copy => Ok(OpKind::Copy),
        Middle::Filter(test) => Ok(OpKind::Filter {
            test: expression(alloc, test)?,
            reject: false,
        }),
        Middle::Transform(first, second) => transform(alloc, first, second),
        Middle::Modify(keep, drop, rename) => Ok(OpKind::Modify {
            keep: at_most_one(alloc, keep)?,
            drop: at_most_one(alloc, drop)?,
            rename: renames(alloc, rename)?,
        }),
        Middle::Switch(on) => switch(alloc, on),
    }
}

fn schema_of(written: Written) -> &'static [u8] {
    match written {
        Wide => WIDE,
        Emptied => b"record ( id: int32; )",
        _ => PEOPLE,
    }
}

fn import(alloc: Global, written: Written) -> Result<OpSpec, Fail>
    ensures { IfOk result (λ s. IsKnown s.kind × KeysDistinct s.kind × OptionsStand s.kind) }
{
    Ok(OpSpec {
        kind: OpKind::Import {
            file: name(alloc, b"in.txt")?,
            schema: read_schema(alloc, schema_of(written))?,
            delim: b',',
            fixed: one_width(alloc, matches!(written, OneWidth))?,
            reject: matches!(written, Rejecting),
        },
        mark: Mark::Seq,
    })
}

fn middle_of(written: Written) -> (Middle, Mark) {
    match written {
        ByColumn(mark, _) => (Middle::Copy, mark),
        With(middle) | Narrow(middle) => (middle, Mark::Par),
        Emptied => (Modify(None, Some(b"id"), None), Mark::Seq),
        _ => (Middle::Copy, Mark::Seq),
    }
}

fn column_of(written: Written) -> Option<&'static [u8]> {
    match written {
        ByColumn(_, column) => Some(column),
        _ => None,
    }
}

fn file_of(written: Written) -> &'static [u8] {
    match written {
        Clashing => b"in.txt.part",
        _ => b"out.txt",
    }
}

fn export(alloc: Global, written: Written) -> Result<OpSpec, Fail>
    ensures { IfOk result (λ s. IsKnown s.kind × KeysDistinct s.kind × OptionsStand s.kind) }
{
    Ok(OpSpec {
        kind: OpKind::Export {
            file: name(alloc, file_of(written))?,
            delim: b',',
            fixed: one_width(alloc, matches!(written, Narrow(_)))?,
        },
        mark: Mark::Seq,
    })
}

fn answer(alloc: Global, written: Written) -> Result<Option<(ShapeWhy, u32)>, Fail> {
    let first = import(alloc, written)?;
    let (middle, mark) = middle_of(written);
    let middle = OpSpec {
        kind: kind_of(alloc, middle)?,
        mark,
    };
    let last = export(alloc, written)?;
    let method = method(alloc, column_of(written))?;
    let flow = flow_of(alloc, first, middle, last, method)?;
    Ok(first_fault(alloc, flow)?)
}

const NEXT: Made = (b"record ( next: int32; )", b"id + 1");

const DATED: Made = (b"record ( id: date; )", b"date(\"2024-01-31\")");

const NAMED: Made = (b"record ( name: date; )", b"id");

const WRONG: Option<(ShapeWhy, u32)> = Some((ShapeWhy::Expression, 1));

const UNKNOWN: Option<(ShapeWhy, u32)> = Some((ShapeWhy::Field, 1));

const DOUBLE: Option<(ShapeWhy, u32)> = Some((ShapeWhy::Double, 1));

/// Flows with their first faults.
static CASES: [(Written, Option<(ShapeWhy, u32)>); 24] = [
    (Plain, None),
    (Rejecting, Some((ShapeWhy::Ports, 0))),
    (ByColumn(Mark::Seq, b"id"), Some((ShapeWhy::Method, 1))),
    (Clashing, Some((ShapeWhy::Files, 2))),
    (ByColumn(Mark::Par, b"zip"), UNKNOWN),
    (ByColumn(Mark::Par, b"name"), Some((ShapeWhy::Kind, 1))),
    (OneWidth, Some((ShapeWhy::Schemas, 0))),
    (Wide, Some((ShapeWhy::Wide, 0))),
    (With(Filter(b"id > 3")), None),
    (With(Filter(b"zip > 3")), WRONG),
    (With(Filter(b"id + 3")), WRONG),
    (With(Switch(b"id % 5")), None),
    (With(Switch(b"id * 0.5")), WRONG),
    (With(Transform(NEXT, Some(DATED))), None),
    (
        With(Transform((b"record ( next: int8; )", b"name"), None)),
        WRONG,
    ),
    // each set sees the fields of the input, and a wrong one comes before a doubled name
    (
        With(Transform(NEXT, Some((b"record ( more: int32; )", b"next")))),
        WRONG,
    ),
    (
        With(Transform(NEXT, Some((b"record ( next: int8; )", b"id")))),
        DOUBLE,
    ),
    (
        With(Transform(NEXT, Some((b"record ( next: int8; )", b"zip")))),
        WRONG,
    ),
    (Narrow(Modify(Some(b"id"), None, Some(NAMED))), None),
    (
        Narrow(Modify(None, None, None)),
        Some((ShapeWhy::Schemas, 2)),
    ),
    (Narrow(Modify(None, Some(b"zip"), None)), UNKNOWN),
    (Narrow(Modify(None, Some(b"id"), Some(NAMED))), UNKNOWN),
    (Narrow(Modify(None, None, Some(NAMED))), DOUBLE),
    (Emptied, Some((ShapeWhy::Wide, 1))),
];

#[test]
fn first_faults(rt: HostRuntime) -> Result<(), Fail> {
    let alloc = rt.alloc();
    for (i, (written, fault)) in CASES.iter().enumerate() {
        assert!(rt; answer(alloc, *written)? == *fault, "case {i}");
    }
    assert!(rt; first_fault(alloc, round(alloc)?)? == Some((ShapeWhy::Cycle, 0)));
    Ok(())
}
