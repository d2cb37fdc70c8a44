ghost use Rattle.std.specs.Prelude.{◌≡◌, ◌<◌, ◌==◌, cond, map, length, get_or, None, IfOk};
ghost use Rattle.flow_graph.specs.Charts.{no_op, no_link, is_seq, links_into};
ghost use Rattle.shape_base.specs.Causes.{first_cause};
ghost use Rattle.flow_shape.specs.Refusals.{chart_of, inputs_at, input_cause};

use crate::methods::method_cause;
use crate::reading::{fields_at, link_at, op_at};
use ds_schema::Schema;
use ds_value::NoMemory;
use flow_graph::{Flow, Mark};
use op_shape::ShapeWhy;
use std::alloc::Global;

/// The schemas of an operator's inputs, by port.
pub fn input_schemas<'a>(
    alloc: Global,
    flow: &Flow,
    schemas: &'a [Schema],
    op: u32,
) -> Result<Vec<&'a Schema>, NoMemory>
    requires { length schemas.now ≡ length flow.now.links }
    ensures { IfOk result (λ ins. map (λ s. s.now) ins.items ≡ inputs_at (chart_of flow.now schemas.now) op) }
{
    let mut ins = Vec::new(alloc);
    for (link, spec) in flow.links.as_slice().iter().enumerate() {
        if spec.to == op {
            ins.push(&schemas[link])?;
        }
    }
    Ok(ins)
}

fn is_seq(mark: Mark) -> bool
    ensures { result ≡ is_seq mark }
{
    match mark {
        Mark::Seq => true,
        Mark::Par | Mark::Stored => false,
    }
}

/// What is wrong with the method of a link, where it leads into the operator.
fn link_cause(flow: &Flow, schemas: &[Schema], op: u32, link: usize) -> Option<ShapeWhy>
    requires op { op < length flow.now.ops }
    requires link { link < length flow.now.links }
    ensures { result ≡ cond ((get_or flow.now.links link no_link).to == op) (input_cause (chart_of flow.now schemas.now) op link) None }
{
    let spec = link_at(flow, link);
    if spec.to != op {
        return None;
    }
    method_cause(
        is_seq(op_at(flow, op).mark),
        fields_at(schemas, link),
        &spec.method,
    )
}

/// The first cause at the methods of an operator's inputs.
pub fn inputs_cause(flow: &Flow, schemas: &[Schema], op: u32) -> Option<ShapeWhy>
    requires { op < length flow.now.ops }
    ensures { result ≡ first_cause (map (input_cause (chart_of flow.now schemas.now) op) (links_into (chart_of flow.now schemas.now) op)) }
{
    for link in 0..flow.links.as_slice().len() {
        if let Some(why) = link_cause(flow, schemas, op, link) {
            return Some(why);
        }
    }
    None
}
