ghost use Rattle.std.specs.Prelude.{◌≡◌, ◌<◌, ◌≤◌, [], length, get_or};
ghost use Rattle.ds_schema.specs.Schemas.{IsSchema};
ghost use Rattle.flow_graph.specs.Charts.{no_link, no_op};

use ds_schema::{Field, Schema};
use flow_graph::{Flow, LinkSpec, OpSpec};

pub fn op_at(flow: &Flow, op: u32) -> &OpSpec
    requires { op < length flow.now.ops }
    ensures { result.now ≡ get_or flow.now.ops op no_op }
{
    &flow.ops.as_slice()[op as usize]
}

pub fn link_at(flow: &Flow, link: usize) -> &LinkSpec
    requires { link < length flow.now.links }
    ensures { result.now ≡ get_or flow.now.links link no_link }
{
    &flow.links.as_slice()[link]
}

/// The fields of a link; none where its schema isn't known.
pub fn fields_at(schemas: &[Schema], link: usize) -> &[Field]
    ensures fields { result.now ≡ get_or schemas.now link [] }
    ensures few { length result.now ≤ 256 }
    ensures schema { link < length schemas.now → IsSchema result.now }
{
    match schemas.get(link) {
        Some(schema) => schema.as_slice(),
        None => &[],
    }
}
