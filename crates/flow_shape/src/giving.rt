ghost use Rattle.std.specs.Prelude.{◌≡◌, ◌<◌, ◌==◌, ℕ, cond, set, length, vec_len, get_or, false, None, OnOk};
ghost use Rattle.flow_graph.specs.Charts.{no_link};
ghost use Rattle.flow_shape.specs.Lowest.{HasNone};
ghost use Rattle.flow_shape.specs.Giving.{HasGiven};
ghost use Rattle.flow_shape.specs.Links.{AreWithin, feeds};
ghost use Rattle.flow_shape.specs.Ports.{WrongPorts};
ghost use Rattle.flow_shape.specs.Refusals.{HasOnlyKnown, chart_of, given_on, operator_cause};
ghost use Rattle.flow_shape.specs.Spelled.{HasSoundOptions};

use crate::outputs::given_schema;
use crate::reading::link_at;
use ds_schema::Schema;
use ds_value::NoMemory;
use flow_graph::Flow;
use std::alloc::Global;

/// Gives one link its schema, where it leaves the operator.
fn give_one(
    alloc: Global,
    flow: &Flow,
    schemas: &mut Vec<Schema>,
    op: u32,
    link: usize,
) -> Result<(), NoMemory>
    requires known { HasOnlyKnown flow.now }
    requires ports { HasNone (length flow.now.ops) (WrongPorts flow.now) }
    requires within { AreWithin (length flow.now.ops) flow.now.links }
    requires options { HasSoundOptions flow.now }
    requires each_link { vec_len schemas.old ≡ length flow.now.links }
    requires link { link < length flow.now.links }
    requires sound { operator_cause (chart_of flow.now schemas.old.items) op ≡ None }
    ensures { OnOk result (schemas.new.items ≡ cond ((get_or flow.now.links link no_link).from == op) (set schemas.old.items link (given_on (chart_of flow.now schemas.old.items) link)) schemas.old.items) }
{
    if link_at(flow, link).from == op {
        let schema = given_schema(alloc, flow, schemas.as_slice(), link)?;
        schemas[link] = schema;
    }
    Ok(())
}

/// Gives the links that leave an operator their schemas.
pub fn give(alloc: Global, flow: &Flow, schemas: &mut Vec<Schema>, op: u32) -> Result<(), NoMemory>
    requires known { HasOnlyKnown flow.now }
    requires ports { HasNone (length flow.now.ops) (WrongPorts flow.now) }
    requires within { AreWithin (length flow.now.ops) flow.now.links }
    requires options { HasSoundOptions flow.now }
    requires each_link { vec_len schemas.old ≡ length flow.now.links }
    requires sound { operator_cause (chart_of flow.now schemas.old.items) op ≡ None }
    requires alone { feeds flow.now.links op op ≡ false }
    ensures { OnOk result (HasGiven flow.now schemas.old.items schemas.new.items op (length flow.now.links)) }
{
    for link in 0..flow.links.as_slice().len() {
        give_one(alloc, flow, schemas, op, link)?;
    }
    Ok(())
}
