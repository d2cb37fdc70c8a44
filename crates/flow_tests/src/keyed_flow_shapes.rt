//! Flows with an operator of two inputs: their first faults.

ghost use Rattle.std.specs.Prelude.{◌≡◌, ◌++◌, ◌∷◌, [], length, IfOk};
ghost use Rattle.std.specs.List.{AllByRecursion};
ghost use Rattle.flow_graph.specs.declared.flow.Flag.TheVariants as flag;
ghost use Rattle.flow_graph.specs.declared.flow.Method.TheVariants as method;
ghost use Rattle.flow_graph.specs.declared.flow.OpSpec.{OpSpec as Op};
ghost use Rattle.op_shape.specs.Options.{IsKnown, KeysDistinct, OptionsStand};
ghost use Rattle.flow_shape.specs.Refusals.{HasOnlyKnown};
ghost use Rattle.flow_shape.specs.Spelled.{IsJoined};

use super::flow_shapes::name;
use ds_schema::read_schema;
use ds_value::{Items, NoMemory};
use flow_graph::{Flag, Flow, LinkSpec, Mark, Method, OpKind, OpSpec};
use flow_shape::{ShapeFault, ShapeWhy, shape};
use op_base::Missing;
use std::alloc::Global;
use std::test::Fail;

const LEFT: &str = "record ( id: int32; name: string[max=10]; )";

fn link(from: u32, to: u32, port: u32) -> LinkSpec
    ensures { result ≡ record { from = from; out = 0; to = to; port = port; method = method.Auto; flag = flag.Prop } }
{
    LinkSpec {
        from,
        out: 0,
        to,
        port,
        method: Method::Auto,
        flag: Flag::Prop,
    }
}

/// Two links into operator 2, and one on to the last.
fn links(alloc: Global) -> Result<Items<LinkSpec>, NoMemory>
    ensures { IfOk result (λ links. links ≡ record { from = 0; out = 0; to = 2; port = 0; method = method.Auto; flag = flag.Prop } ∷ (record { from = 1; out = 0; to = 2; port = 1; method = method.Auto; flag = flag.Prop } ∷ (record { from = 2; out = 0; to = 3; port = 0; method = method.Auto; flag = flag.Prop } ∷ []))) }
{
    let mut links = Items::new(alloc);
    links.push(link(0, 2, 0))?;
    links.push(link(1, 2, 1))?;
    links.push(link(2, 3, 0))?;
    Ok(links)
}

/// An operator behind two others, and one behind it.
fn behind(mut ops: Items<OpSpec>, both: OpSpec, last: OpSpec) -> Result<Items<OpSpec>, NoMemory>
    ensures { IfOk result (λ all. all ≡ ops ++ (both ∷ (last ∷ []))) }
{
    ops.push(both)?;
    ops.push(last)?;
    Ok(ops)
}

fn pair(alloc: Global, left: OpSpec, right: OpSpec) -> Result<Items<OpSpec>, NoMemory>
    ensures { IfOk result (λ ops. ops ≡ left ∷ (right ∷ [])) }
{
    let mut ops = Items::new(alloc);
    ops.push(left)?;
    ops.push(right)?;
    Ok(ops)
}

fn flow_of(alloc: Global, ops: Items<OpSpec>) -> Result<Flow, NoMemory>
    requires four { length ops ≡ 4 }
    requires stand { AllByRecursion (λ (s : Op). IsKnown s.kind × (KeysDistinct s.kind × OptionsStand s.kind)) ops }
    ensures known { IfOk result HasOnlyKnown }
    ensures joined { IfOk result IsJoined }
{
    Ok(Flow {
        nopart: false,
        nosort: false,
        ops,
        links: links(alloc)?,
    })
}

fn import(alloc: Global, file: &[u8], schema: &str) -> Result<OpSpec, Fail>
    ensures { IfOk result (λ s. IsKnown s.kind × (KeysDistinct s.kind × OptionsStand s.kind)) }
{
    Ok(OpSpec {
        kind: OpKind::Import {
            file: name(alloc, file)?,
            schema: read_schema(alloc, schema.as_bytes())?,
            delim: b',',
            fixed: None,
            reject: false,
        },
        mark: Mark::Seq,
    })
}

/// An export of three columns.
fn export(alloc: Global) -> Result<OpSpec, Fail>
    ensures { IfOk result (λ s. IsKnown s.kind × (KeysDistinct s.kind × OptionsStand s.kind)) }
{
    let mut widths = Items::new(alloc);
    widths.push(5)?;
    widths.push(5)?;
    widths.push(5)?;
    Ok(OpSpec {
        kind: OpKind::Export {
            file: name(alloc, b"out.txt")?,
            delim: b',',
            fixed: Some(widths),
        },
        mark: Mark::Seq,
    })
}

fn by_id(alloc: Global, looks_up: bool) -> Result<OpSpec, Fail>
    ensures { IfOk result (λ s. IsKnown s.kind × (KeysDistinct s.kind × OptionsStand s.kind)) }
{
    let mut key = Items::new(alloc);
    key.push((name(alloc, b"id")?, false))?;
    let kind = if looks_up {
        OpKind::Lookup {
            key,
            missing: Missing::Drop,
        }
    } else {
        OpKind::FullOuterJoin { key }
    };
    Ok(OpSpec {
        kind,
        mark: Mark::Par,
    })
}

/// The first fault of a flow with a join or a lookup by `id`, of people with what is read from
/// the second file; none where it has a shape.
fn fault(alloc: Global, looks_up: bool, right: &str) -> Result<Option<(ShapeWhy, u32)>, Fail> {
    let first = import(alloc, b"l.txt", LEFT)?;
    let second = import(alloc, b"r.txt", right)?;
    let ops = pair(alloc, first, second)?;
    let ops = behind(ops, by_id(alloc, looks_up)?, export(alloc)?)?;
    let flow = flow_of(alloc, ops)?;
    match shape(alloc, flow, &[]) {
        Ok(_) => Ok(None),
        Err(ShapeFault::Bad { why, op }) => Ok(Some((why, op))),
        Err(ShapeFault::Memory) => Err("no memory".into()),
    }
}

/// What is read from the second file, and the first fault, with a join and with a lookup.
static CASES: [(&str, Option<(ShapeWhy, u32)>); 5] = [
    ("record ( city: string[8]; id: int32; )", None),
    ("record ( city: string[8]; )", Some((ShapeWhy::Field, 2))),
    ("record ( id: int64; )", Some((ShapeWhy::Kind, 2))),
    (
        "record ( id: int32; name: date; )",
        Some((ShapeWhy::Double, 2)),
    ),
    ("record ( id: int32; )", Some((ShapeWhy::Schemas, 3))),
];

#[test]
fn flows_of_two_inputs(rt: HostRuntime) -> Result<(), Fail> {
    let alloc = rt.alloc();
    for (right, wanted) in &CASES {
        for looks_up in [false, true] {
            assert!(rt; fault(alloc, looks_up, right)? == *wanted, "{right}");
        }
    }
    Ok(())
}
