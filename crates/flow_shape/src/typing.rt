ghost use Rattle.std.specs.Prelude.{◌≡◌, ◌<◌, length, IfOk, IfErr};
ghost use Rattle.std.specs.List.{AllByRecursion};
ghost use Rattle.flow_shape.specs.Lowest.{HasNone};
ghost use Rattle.flow_shape.specs.Links.{AreWithin, IsOrder};
ghost use Rattle.flow_shape.specs.Ports.{WrongPorts};
ghost use Rattle.flow_shape.specs.Refusals.{HasOnlyKnown, chart_of, Fits, IsFirstFault};
ghost use Rattle.flow_shape.specs.Spelled.{HasSoundOptions};

use crate::ShapeFault;
use crate::giving::give;
use crate::operator::operator_cause;
use ds_schema::Schema;
use ds_value::NoMemory;
use flow_graph::Flow;
use op_shape::line_schema;
use std::alloc::Global;

/// A schema for each of some links, until it gets its own.
fn placeholders(alloc: Global, count: usize) -> Result<Vec<Schema>, NoMemory>
    ensures { IfOk result (λ schemas. length schemas.items ≡ count) }
{
    let mut schemas = Vec::new(alloc);
    for _link in 0..count {
        schemas.push(line_schema(alloc)?)?;
    }
    Ok(schemas)
}

/// The schema of each link, or the first fault in the order of the operators.
pub fn typed(alloc: Global, flow: &Flow, order: &[u32]) -> Result<Vec<Schema>, ShapeFault>
    requires known { HasOnlyKnown flow.now }
    requires ports { HasNone (length flow.now.ops) (WrongPorts flow.now) }
    requires within { AreWithin (length flow.now.ops) flow.now.links }
    requires options { HasSoundOptions flow.now }
    requires order { IsOrder (length flow.now.ops) flow.now.links order.now }
    ensures each_link { IfOk result (λ schemas. length schemas.items ≡ length flow.now.links) }
    ensures fit { IfOk result (λ schemas. AllByRecursion (Fits (chart_of flow.now schemas.items)) order.now) }
    ensures bad { IfErr result (IsFirstFault flow.now) }
{
    let mut schemas = placeholders(alloc, flow.links.as_slice().len())?;
    for op in order {
        if let Some(why) = operator_cause(alloc, flow, schemas.as_slice(), *op)? {
            return Err(ShapeFault::Bad { why, op: *op });
        }
        give(alloc, flow, &mut schemas, *op)?;
    }
    Ok(schemas)
}
