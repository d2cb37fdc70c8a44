ghost use Rattle.std.specs.Prelude.{◌<◌, ◌^◌, length, IfOk, IfErr};
ghost use Rattle.flow_shape.specs.Lowest.{HasNone};
ghost use Rattle.flow_shape.specs.Files.{Clashes};
ghost use Rattle.flow_shape.specs.Links.{AreWithin, IsOrder, OnCycle};
ghost use Rattle.flow_shape.specs.Ports.{WrongPorts};
ghost use Rattle.flow_shape.specs.Refusals.{HasOnlyKnown, chart_of, AllFit, IsShapeOf, IsFirst};
ghost use Rattle.flow_shape.specs.Spelled.{HasSoundOptions, IsJoined};

use crate::ShapeFault;
use crate::cycle::lowest_on_cycle;
use crate::files::lowest_clash;
use crate::finding::{all_parts, all_routes, all_stored};
use crate::ports::lowest_wrong_ports;
use crate::sequence::order;
use crate::typing::typed;
use ds_schema::Schema;
use ds_value::{Items, NoMemory};
use flow_graph::{Flow, Shaped, Stored};
use op_shape::ShapeWhy;
use std::alloc::Global;

/// The order of a flow without cycles and wrong numbers of ports.
fn ordered(alloc: Global, flow: &Flow) -> Result<Vec<u32>, ShapeFault>
    requires few { length flow.now.ops < 2 ^ 32 }
    requires within { AreWithin (length flow.now.ops) flow.now.links }
    ensures ports { IfOk result (λ _. HasNone (length flow.now.ops) (WrongPorts flow.now)) }
    ensures acyclic { IfOk result (λ _. HasNone (length flow.now.ops) (OnCycle flow.now.links)) }
    ensures order { IfOk result (λ order. IsOrder (length flow.now.ops) flow.now.links order.items) }
    ensures bad { IfErr result (IsFirst flow.now) }
{
    if let Some(op) = lowest_wrong_ports(flow) {
        return Err(ShapeFault::Bad {
            why: ShapeWhy::Ports,
            op,
        });
    }
    if let Some(op) = lowest_on_cycle(alloc, flow)? {
        return Err(ShapeFault::Bad {
            why: ShapeWhy::Cycle,
            op,
        });
    }
    let count = flow.ops.as_slice().len() as u32;
    Ok(order(alloc, count, flow.links.as_slice())?)
}

/// The schemas of a flow whose written names don't clash, in the order of its operators.
fn unclashing(alloc: Global, flow: &Flow, order: &[u32]) -> Result<Vec<Schema>, ShapeFault>
    requires few { length flow.now.ops < 2 ^ 32 }
    requires known { HasOnlyKnown flow.now }
    requires ports { HasNone (length flow.now.ops) (WrongPorts flow.now) }
    requires acyclic { HasNone (length flow.now.ops) (OnCycle flow.now.links) }
    requires within { AreWithin (length flow.now.ops) flow.now.links }
    requires options { HasSoundOptions flow.now }
    requires order { IsOrder (length flow.now.ops) flow.now.links order.now }
    ensures fit { IfOk result (λ schemas. AllFit (chart_of flow.now schemas.items)) }
    ensures files { IfOk result (λ _. HasNone (length flow.now.ops) (Clashes flow.now.ops)) }
    ensures bad { IfErr result (IsFirst flow.now) }
{
    let schemas = typed(alloc, flow, order)?;
    match lowest_clash(flow) {
        Some(op) => Err(ShapeFault::Bad {
            why: ShapeWhy::Files,
            op,
        }),
        None => Ok(schemas),
    }
}

/// The flow with what its names stand for.
fn found(
    alloc: Global,
    flow: Flow,
    dict: &[Stored],
    order: Vec<u32>,
    schemas: Vec<Schema>,
) -> Result<Shaped, NoMemory>
    requires known { HasOnlyKnown flow }
    requires joined { IsJoined flow }
    requires ports { HasNone (length flow.ops) (WrongPorts flow) }
    requires acyclic { HasNone (length flow.ops) (OnCycle flow.links) }
    requires order { IsOrder (length flow.ops) flow.links order.items }
    requires fit { AllFit (chart_of flow schemas.items) }
    requires files { HasNone (length flow.ops) (Clashes flow.ops) }
    ensures { IfOk result (IsShapeOf flow dict.now) }
{
    let parts = all_parts(alloc, &flow, schemas.as_slice())?;
    let written = all_routes(alloc, &flow, schemas.as_slice())?;
    let stored = all_stored(alloc, &flow, dict)?;
    Ok(Shaped::new(
        flow,
        Items::from_vec(schemas),
        Items::from_vec(parts),
        Items::from_vec(written),
        Items::from_vec(order),
        Items::from_vec(stored),
    ))
}

/// The shape of a flow, or its first fault.
pub fn shape(alloc: Global, flow: Flow, dict: &[Stored]) -> Result<Shaped, ShapeFault>
    requires known { HasOnlyKnown flow }
    requires joined { IsJoined flow }
    ensures shape { IfOk result (IsShapeOf flow dict.now) }
    ensures bad { IfErr result (IsFirst flow) }
{
    let order = ordered(alloc, &flow)?;
    let schemas = unclashing(alloc, &flow, order.as_slice())?;
    Ok(found(alloc, flow, dict, order, schemas)?)
}
