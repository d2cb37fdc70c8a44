ghost use Rattle.std.specs.Prelude.{◌≡◌, ◌<◌, ◌==◌, ◌^◌, ◌+◌, not, IfSome, IfNone, length, get_or};
ghost use Rattle.flow_graph.specs.Charts.{no_op};
ghost use Rattle.flow_shape.specs.Lowest.{IsLowest, HasNone};
ghost use Rattle.flow_shape.specs.Ports.{count_in, count_out, up_to_16, may_have_in, may_have_out, rejects, with_reject, ports_fit, WrongPorts};

use crate::reading::op_at;
use flow_graph::{Flow, LinkSpec, OpKind};
use op_base::Missing;

fn count_in(links: &[LinkSpec], op: u32) -> usize
    ensures { result ≡ count_in links.now op }
{
    links.iter().filter(|link| link.to == op).count()
}

fn count_out(links: &[LinkSpec], op: u32) -> usize
    ensures { result ≡ count_out links.now op }
{
    links.iter().filter(|link| link.from == op).count()
}

fn up_to_16(low: usize, count: usize) -> bool
    ensures { result ≡ up_to_16 low count }
{
    low <= count && count <= 16
}

fn may_have_in(kind: &OpKind, count: usize) -> bool
    ensures { result ≡ may_have_in kind.now count }
{
    match kind {
        OpKind::Import { .. } | OpKind::Dsread { .. } => count == 0,
        OpKind::InnerJoin { .. }
        | OpKind::LeftOuterJoin { .. }
        | OpKind::RightOuterJoin { .. }
        | OpKind::FullOuterJoin { .. }
        | OpKind::Lookup { .. }
        | OpKind::Changecapture { .. } => count == 2,
        OpKind::Merge { .. } | OpKind::Funnel { .. } => up_to_16(2, count),
        OpKind::Export { .. }
        | OpKind::Dswrite { .. }
        | OpKind::Copy
        | OpKind::Filter { .. }
        | OpKind::Transform { .. }
        | OpKind::Modify { .. }
        | OpKind::Switch { .. }
        | OpKind::Tsort { .. }
        | OpKind::Remdup { .. }
        | OpKind::Group { .. } => count == 1,
    }
}

fn rejects(missing: Missing) -> bool
    ensures { result ≡ rejects missing }
{
    match missing {
        Missing::Reject => true,
        Missing::Continue | Missing::Drop | Missing::Fail => false,
    }
}

/// One more where there is a reject output.
fn with_reject(reject: bool, count: usize) -> usize
    requires { count < 2 ^ 63 }
    ensures { result ≡ with_reject reject count }
{
    if reject { count + 1 } else { count }
}

fn may_have_out(kind: &OpKind, inputs: usize, count: usize) -> bool
    ensures { result ≡ may_have_out kind.now inputs count }
{
    match kind {
        OpKind::Import { reject, .. }
        | OpKind::Filter { reject, .. }
        | OpKind::Transform { reject, .. } => count == with_reject(*reject, 1),
        OpKind::Lookup { missing, .. } => count == with_reject(rejects(*missing), 1),
        OpKind::Switch { cases, reject, .. } => {
            count == with_reject(*reject, cases.as_slice().len()) && count <= 16
        }
        OpKind::Merge { reject, .. } => count == if *reject { inputs } else { 1 },
        OpKind::Copy => up_to_16(1, count),
        OpKind::Export { .. } | OpKind::Dswrite { .. } => count == 0,
        OpKind::Dsread { .. }
        | OpKind::Modify { .. }
        | OpKind::Tsort { .. }
        | OpKind::Remdup { .. }
        | OpKind::Group { .. }
        | OpKind::InnerJoin { .. }
        | OpKind::LeftOuterJoin { .. }
        | OpKind::RightOuterJoin { .. }
        | OpKind::FullOuterJoin { .. }
        | OpKind::Changecapture { .. }
        | OpKind::Funnel { .. } => count == 1,
    }
}

fn ports_fit(kind: &OpKind, inputs: usize, outputs: usize) -> bool
    ensures { result ≡ ports_fit kind.now inputs outputs }
{
    may_have_in(kind, inputs) && may_have_out(kind, inputs, outputs)
}

fn has_wrong_ports(flow: &Flow, op: u32) -> bool
    requires { op < length flow.now.ops }
    ensures { result ≡ not (ports_fit (get_or flow.now.ops op no_op).kind (count_in flow.now.links op) (count_out flow.now.links op)) }
{
    let links = flow.links.as_slice();
    !ports_fit(
        &op_at(flow, op).kind,
        count_in(links, op),
        count_out(links, op),
    )
}

/// The lowest operator with a wrong number of inputs or outputs.
pub fn lowest_wrong_ports(flow: &Flow) -> Option<u32>
    requires { length flow.now.ops < 2 ^ 32 }
    ensures found { IfSome result (λ i. IsLowest (length flow.now.ops) (WrongPorts flow.now) i) }
    ensures none { IfNone result (HasNone (length flow.now.ops) (WrongPorts flow.now)) }
{
    for op in 0..flow.ops.as_slice().len() as u32 {
        if has_wrong_ports(flow, op) {
            return Some(op);
        }
    }
    None
}
