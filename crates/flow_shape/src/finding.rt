ghost use Rattle.std.specs.Prelude.{◌≡◌, ◌<◌, ◌^◌, ℕ, [], map, length, get_or, find, option_copied, IfOk};
ghost use Rattle.std.specs.Str.{bytes_eq};
ghost use Rattle.ds_schema.specs.Schemas.{IsSchema};
ghost use Rattle.flow_graph.specs.Charts.{all_links, no_link};
ghost use Rattle.flow_shape.specs.Links.{AreWithin};
ghost use Rattle.flow_shape.specs.Lowest.{HasNone};
ghost use Rattle.flow_shape.specs.Ports.{WrongPorts};
ghost use Rattle.flow_shape.specs.Refusals.{HasOnlyKnown, chart_of, Fits, all_ops, parts_at, written_at, stored_for, stored_at};
ghost use Rattle.flow_shape.specs.Spelled.{HasDistinctKeys, HasDistinctMethods};

use crate::inputs::input_schemas;
use crate::methods::written_route;
use crate::reading::{fields_at, link_at, op_at};
use ds_schema::Schema;
use ds_value::{Copied, Name, NoMemory};
use flow_graph::{Flow, OpKind, OpParts, Route, Stored};
use op_shape::operator_parts;
use std::alloc::Global;

fn parts_at(alloc: Global, flow: &Flow, schemas: &[Schema], op: u32) -> Result<OpParts, NoMemory>
    requires op { op < length flow.now.ops }
    requires known { HasOnlyKnown flow.now }
    requires ports { HasNone (length flow.now.ops) (WrongPorts flow.now) }
    requires each_link { length schemas.now ≡ length flow.now.links }
    requires differ { HasDistinctKeys flow.now }
    requires fit { Fits (chart_of flow.now schemas.now) op }
    ensures { IfOk result (λ parts. parts ≡ parts_at (chart_of flow.now schemas.now) op) }
{
    let ins = input_schemas(alloc, flow, schemas, op)?;
    operator_parts(alloc, &op_at(flow, op).kind, ins.as_slice())
}

/// What the names of each operator's options stand for.
pub fn all_parts(alloc: Global, flow: &Flow, schemas: &[Schema]) -> Result<Vec<OpParts>, NoMemory>
    requires few { length flow.now.ops < 2 ^ 32 }
    requires known { HasOnlyKnown flow.now }
    requires ports { HasNone (length flow.now.ops) (WrongPorts flow.now) }
    requires each_link { length schemas.now ≡ length flow.now.links }
    requires differ { HasDistinctKeys flow.now }
    requires fit { (o : ℕ) → o < length flow.now.ops → Fits (chart_of flow.now schemas.now) o }
    ensures { IfOk result (λ parts. parts.items ≡ map (parts_at (chart_of flow.now schemas.now)) (all_ops (chart_of flow.now schemas.now))) }
{
    let mut parts = Vec::new(alloc);
    for op in 0..flow.ops.as_slice().len() as u32 {
        parts.push(parts_at(alloc, flow, schemas, op)?)?;
    }
    Ok(parts)
}

fn route_at(
    alloc: Global,
    flow: &Flow,
    schemas: &[Schema],
    link: usize,
) -> Result<Option<Route>, NoMemory>
    requires link { link < length flow.now.links }
    requires each_link { length schemas.now ≡ length flow.now.links }
    requires differ { HasDistinctMethods flow.now }
    requires fit { Fits (chart_of flow.now schemas.now) (get_or flow.now.links link no_link).to }
    ensures route { IfOk result (λ route. route ≡ written_at (chart_of flow.now schemas.now) link) }
    ensures schema { IsSchema (get_or schemas.now link []) }
{
    let method = &link_at(flow, link).method;
    written_route(alloc, fields_at(schemas, link), method)
}

/// The route that is written for each link.
pub fn all_routes(
    alloc: Global,
    flow: &Flow,
    schemas: &[Schema],
) -> Result<Vec<Option<Route>>, NoMemory>
    requires within { AreWithin (length flow.now.ops) flow.now.links }
    requires each_link { length schemas.now ≡ length flow.now.links }
    requires differ { HasDistinctMethods flow.now }
    requires fit { (o : ℕ) → o < length flow.now.ops → Fits (chart_of flow.now schemas.now) o }
    ensures routes { IfOk result (λ routes. routes.items ≡ map (written_at (chart_of flow.now schemas.now)) (all_links (chart_of flow.now schemas.now))) }
    ensures schemas { IfOk result (λ _. (l : ℕ) → l < length flow.now.links → IsSchema (get_or schemas.now l [])) }
{
    let mut routes = Vec::new(alloc);
    for link in 0..flow.links.as_slice().len() {
        routes.push(route_at(alloc, flow, schemas, link)?)?;
    }
    Ok(routes)
}

fn is_of(name: &Name, stored: &Stored) -> bool
    ensures { result ≡ bytes_eq stored.now.name name.now }
{
    stored.name.as_slice() == name.as_slice()
}

fn find_stored<'a>(dict: &'a [Stored], name: &Name) -> Option<&'a Stored>
    ensures { option_copied result ≡ find (λ s. bytes_eq s.name name.now) dict.now }
{
    dict.iter().find(|stored| is_of(name, stored))
}

/// The data set that an operator reads.
fn stored_for(kind: &OpKind, dict: &[Stored]) -> Result<Option<Stored>, NoMemory>
    ensures { IfOk result (λ stored. stored ≡ stored_for dict.now kind.now) }
{
    match kind {
        OpKind::Dsread { ds } => match find_stored(dict, ds) {
            Some(stored) => Ok(Some(stored.copied()?)),
            None => Ok(None),
        },
        _ => Ok(None),
    }
}

fn stored_at(flow: &Flow, dict: &[Stored], op: u32) -> Result<Option<Stored>, NoMemory>
    requires { op < length flow.now.ops }
    ensures { IfOk result (λ stored. stored ≡ stored_at dict.now (chart_of flow.now []) op) }
{
    stored_for(&op_at(flow, op).kind, dict)
}

/// The data set that each operator reads.
pub fn all_stored(
    alloc: Global,
    flow: &Flow,
    dict: &[Stored],
) -> Result<Vec<Option<Stored>>, NoMemory>
    requires { length flow.now.ops < 2 ^ 32 }
    ensures { IfOk result (λ list. list.items ≡ map (stored_at dict.now (chart_of flow.now [])) (all_ops (chart_of flow.now []))) }
{
    let mut list = Vec::new(alloc);
    for op in 0..flow.ops.as_slice().len() as u32 {
        list.push(stored_at(flow, dict, op)?)?;
    }
    Ok(list)
}
