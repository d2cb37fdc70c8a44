ghost use Rattle.std.specs.Prelude.{◌≡◌, ◌<◌, None, length, get_or, IfOk};
ghost use Rattle.flow_graph.specs.Charts.{no_link};
ghost use Rattle.flow_shape.specs.Lowest.{HasNone};
ghost use Rattle.flow_shape.specs.Links.{AreWithin};
ghost use Rattle.flow_shape.specs.Ports.{WrongPorts};
ghost use Rattle.flow_shape.specs.Refusals.{HasOnlyKnown, chart_of, given_on, operator_cause};
ghost use Rattle.flow_shape.specs.Spelled.{HasSoundOptions};

use crate::inputs::input_schemas;
use crate::reading::{link_at, op_at};
use ds_schema::Schema;
use ds_value::NoMemory;
use flow_graph::Flow;
use op_shape::output_schema;
use std::alloc::Global;

/// The schema of a link, by what its producer gives.
pub fn given_schema(
    alloc: Global,
    flow: &Flow,
    schemas: &[Schema],
    link: usize,
) -> Result<Schema, NoMemory>
    requires known { HasOnlyKnown flow.now }
    requires ports { HasNone (length flow.now.ops) (WrongPorts flow.now) }
    requires within { AreWithin (length flow.now.ops) flow.now.links }
    requires options { HasSoundOptions flow.now }
    requires each_link { length schemas.now ≡ length flow.now.links }
    requires link { link < length flow.now.links }
    requires sound { operator_cause (chart_of flow.now schemas.now) (get_or flow.now.links link no_link).from ≡ None }
    ensures { IfOk result (λ schema. schema ≡ given_on (chart_of flow.now schemas.now) link) }
{
    let spec = link_at(flow, link);
    let ins = input_schemas(alloc, flow, schemas, spec.from)?;
    output_schema(
        alloc,
        &op_at(flow, spec.from).kind,
        ins.as_slice(),
        spec.out,
    )
}
