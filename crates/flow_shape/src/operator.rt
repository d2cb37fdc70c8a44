ghost use Rattle.std.specs.Prelude.{◌≡◌, ◌<◌, length, IfOk};
ghost use Rattle.flow_shape.specs.Lowest.{HasNone};
ghost use Rattle.flow_shape.specs.Ports.{WrongPorts};
ghost use Rattle.flow_shape.specs.Refusals.{HasOnlyKnown, chart_of, operator_cause};

use crate::inputs::{input_schemas, inputs_cause};
use crate::reading::op_at;
use ds_schema::Schema;
use ds_value::NoMemory;
use flow_graph::Flow;
use op_shape::{ShapeWhy, own_cause};
use std::alloc::Global;

/// The first cause at an operator.
pub fn operator_cause(
    alloc: Global,
    flow: &Flow,
    schemas: &[Schema],
    op: u32,
) -> Result<Option<ShapeWhy>, NoMemory>
    requires op { op < length flow.now.ops }
    requires known { HasOnlyKnown flow.now }
    requires ports { HasNone (length flow.now.ops) (WrongPorts flow.now) }
    requires each_link { length schemas.now ≡ length flow.now.links }
    ensures { IfOk result (λ cause. cause ≡ operator_cause (chart_of flow.now schemas.now) op) }
{
    match inputs_cause(flow, schemas, op) {
        Some(why) => Ok(Some(why)),
        None => {
            let ins = input_schemas(alloc, flow, schemas, op)?;
            own_cause(alloc, &op_at(flow, op).kind, ins.as_slice())
        }
    }
}
