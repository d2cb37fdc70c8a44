//! Which flows are built.

ghost use Rattle.std.specs.Prelude.{◌≡◌, ◌&&◌, not};
ghost use Rattle.std.specs.List.{list_all};
ghost use Rattle.flow_graph.specs.Charts.{is_seq as is_sequential};
ghost use Rattle.osh_ends.specs.Built.{is_built_op, needs_sort, is_prop, is_built_method, op_in, is_built_link, is_built};

use flow_graph::{Flag, Flow, LinkSpec, Mark, Method, OpKind, OpSpec};

fn is_built_op(kind: &OpKind) -> bool
    ensures { result ≡ is_built_op kind.now }
{
    match kind {
        OpKind::Import { .. }
        | OpKind::Export { .. }
        | OpKind::Copy
        | OpKind::Filter { .. }
        | OpKind::Transform { .. }
        | OpKind::Modify { .. }
        | OpKind::Switch { .. }
        | OpKind::Tsort { .. }
        | OpKind::Remdup { .. }
        | OpKind::Group { .. }
        | OpKind::InnerJoin { .. }
        | OpKind::LeftOuterJoin { .. }
        | OpKind::RightOuterJoin { .. }
        | OpKind::FullOuterJoin { .. }
        | OpKind::Lookup { .. } => true,
        _ => false,
    }
}

fn needs_sort(kind: &OpKind) -> bool
    ensures { result ≡ needs_sort kind.now }
{
    match kind {
        OpKind::Group { key, hash, .. } => !hash && !key.as_slice().is_empty(),
        OpKind::Remdup { key, .. }
        | OpKind::InnerJoin { key }
        | OpKind::LeftOuterJoin { key }
        | OpKind::RightOuterJoin { key }
        | OpKind::FullOuterJoin { key } => !key.as_slice().is_empty(),
        _ => false,
    }
}

fn is_sequential(mark: Mark) -> bool
    ensures { result ≡ is_sequential mark }
{
    match mark {
        Mark::Seq => true,
        Mark::Par | Mark::Stored => false,
    }
}

fn is_prop(flag: Flag) -> bool
    ensures { result ≡ is_prop flag }
{
    match flag {
        Flag::Prop => true,
        Flag::Set | Flag::Clear => false,
    }
}

fn is_built_method(from: bool, to: bool, consumer_sorts: bool, method: &Method) -> bool
    ensures { result ≡ is_built_method from to consumer_sorts method.now }
{
    match method {
        Method::Auto => from && to && !consumer_sorts,
        Method::RoundRobin => !to,
        Method::Same | Method::Entire | Method::Hash(_) | Method::Any => true,
        _ => false,
    }
}

fn is_sequential_at(ops: &[OpSpec], op: u32) -> bool
    ensures { result ≡ is_sequential (op_in ops.now op).mark }
{
    match ops.get(op as usize) {
        Some(op) => is_sequential(op.mark),
        None => true,
    }
}

fn sorts_at(ops: &[OpSpec], op: u32) -> bool
    ensures { result ≡ needs_sort (op_in ops.now op).kind }
{
    match ops.get(op as usize) {
        Some(op) => needs_sort(&op.kind),
        None => false,
    }
}

fn is_built_link(ops: &[OpSpec], link: &LinkSpec) -> bool
    ensures { result ≡ is_built_link ops.now link.now }
{
    let from = is_sequential_at(ops, link.from);
    let to = is_sequential_at(ops, link.to);
    let sorts = sorts_at(ops, link.to);
    is_prop(link.flag) && is_built_method(from, to, sorts, &link.method)
}

fn are_built_ops(ops: &[OpSpec]) -> bool
    ensures { result ≡ list_all (λ o. is_built_op o.kind) ops.now }
{
    ops.iter().all(|op| is_built_op(&op.kind))
}

fn are_built_links(ops: &[OpSpec], links: &[LinkSpec]) -> bool
    ensures { result ≡ list_all (is_built_link ops.now) links.now }
{
    links.iter().all(|link| is_built_link(ops, link))
}

/// Whether all of a flow is built.
pub fn is_built(flow: &Flow) -> bool
    ensures { result ≡ is_built flow.now }
{
    let ops = flow.ops.as_slice();
    !flow.nopart
        && !flow.nosort
        && are_built_ops(ops)
        && are_built_links(ops, flow.links.as_slice())
}
