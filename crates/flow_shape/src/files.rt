ghost use Rattle.std.specs.Prelude.{◌≡◌, ◌<◌, ◌^◌, ℕ, true, false, length, get_or, option_copied, IfSome, IfNone};
ghost use Rattle.flow_graph.specs.Charts.{no_op};
ghost use Rattle.flow_shape.specs.Lowest.{IsLowest, HasNone};
ghost use Rattle.flow_shape.specs.Files.{is_digit, digits_len, is_part, is_number, is_ending, extends, names_clash, written_name, outer_name, both_clash, Clashes};

use crate::reading::op_at;
use ds_value::Name;
use flow_graph::{Flow, OpKind};

fn is_digit(byte: u8) -> bool
    ensures { result ≡ is_digit byte }
{
    48 <= byte && byte <= 57
}

fn is_part(bytes: &[u8]) -> bool
    ensures { result ≡ is_part bytes.now }
{
    bytes == b".part".as_slice()
}

fn digits_len(bytes: &[u8]) -> usize
    ensures { result ≡ digits_len bytes.now }
{
    bytes.iter().take_while(|byte| is_digit(**byte)).count()
}

/// Whether the bytes are digits, with nothing or `.part` behind them.
fn is_number(bytes: &[u8]) -> bool
    ensures { result ≡ is_number bytes.now }
{
    let len = digits_len(bytes);
    let rest = &bytes[len..];
    0 < len && (rest.is_empty() || is_part(rest))
}

/// Whether the bytes may be added to a name: `.part`, `.` with digits, or both.
fn is_ending(bytes: &[u8]) -> bool
    ensures { result ≡ is_ending bytes.now }
{
    match bytes {
        [46, rest @ ..] => is_part(bytes) || is_number(rest),
        _ => is_part(bytes),
    }
}

/// Whether the second name is the first with an ending.
fn extends(name: &[u8], other: &[u8]) -> bool
    ensures { result ≡ extends name.now other.now }
{
    match other.strip_prefix(name) {
        Some(ending) => is_ending(ending),
        None => false,
    }
}

fn names_clash(a: &Name, b: &Name) -> bool
    ensures { result ≡ names_clash a.now b.now }
{
    let (a, b) = (a.as_slice(), b.as_slice());
    a == b || extends(a, b) || extends(b, a)
}

/// The name that an operator writes.
fn written_name(kind: &OpKind) -> Option<&Name>
    ensures { option_copied result ≡ written_name kind.now }
{
    match kind {
        OpKind::Export { file, .. } => Some(file),
        OpKind::Dswrite { ds } => Some(ds),
        OpKind::Import { .. }
        | OpKind::Dsread { .. }
        | OpKind::Copy
        | OpKind::Filter { .. }
        | OpKind::Transform { .. }
        | OpKind::Modify { .. }
        | OpKind::Switch { .. }
        | OpKind::Tsort { .. }
        | OpKind::Remdup { .. }
        | OpKind::Group { .. }
        | OpKind::InnerJoin { .. }
        | OpKind::LeftOuterJoin { .. }
        | OpKind::RightOuterJoin { .. }
        | OpKind::FullOuterJoin { .. }
        | OpKind::Merge { .. }
        | OpKind::Lookup { .. }
        | OpKind::Changecapture { .. }
        | OpKind::Funnel { .. } => None,
    }
}

/// The name that an operator reads or writes.
fn outer_name(kind: &OpKind) -> Option<&Name>
    ensures { option_copied result ≡ outer_name kind.now }
{
    match kind {
        OpKind::Import { file, .. } | OpKind::Export { file, .. } => Some(file),
        OpKind::Dsread { ds } | OpKind::Dswrite { ds } => Some(ds),
        OpKind::Copy
        | OpKind::Filter { .. }
        | OpKind::Transform { .. }
        | OpKind::Modify { .. }
        | OpKind::Switch { .. }
        | OpKind::Tsort { .. }
        | OpKind::Remdup { .. }
        | OpKind::Group { .. }
        | OpKind::InnerJoin { .. }
        | OpKind::LeftOuterJoin { .. }
        | OpKind::RightOuterJoin { .. }
        | OpKind::FullOuterJoin { .. }
        | OpKind::Merge { .. }
        | OpKind::Lookup { .. }
        | OpKind::Changecapture { .. }
        | OpKind::Funnel { .. } => None,
    }
}

fn both_clash(a: Option<&Name>, b: Option<&Name>) -> bool
    ensures { result ≡ both_clash (option_copied a.entry) (option_copied b.entry) }
{
    match (a, b) {
        (Some(a), Some(b)) => names_clash(a, b),
        _ => false,
    }
}

fn clash_with(flow: &Flow, op: u32, other: u32) -> bool
    requires op { op < length flow.now.ops }
    requires other { other < length flow.now.ops }
    ensures { result ≡ both_clash (written_name (get_or flow.now.ops op no_op).kind) (outer_name (get_or flow.now.ops other no_op).kind) }
{
    both_clash(
        written_name(&op_at(flow, op).kind),
        outer_name(&op_at(flow, other).kind),
    )
}

fn clashes(flow: &Flow, op: u32) -> bool
    requires few { length flow.now.ops < 2 ^ 32 }
    requires op { op < length flow.now.ops }
    ensures yes { result ≡ true → Clashes flow.now.ops op }
    ensures no { result ≡ false → Clashes flow.now.ops op → ⊥ }
{
    for other in 0..flow.ops.as_slice().len() as u32 {
        if other != op && clash_with(flow, op, other) {
            return true;
        }
    }
    false
}

/// The lowest operator that writes a name that clashes with another operator's.
pub fn lowest_clash(flow: &Flow) -> Option<u32>
    requires { length flow.now.ops < 2 ^ 32 }
    ensures found { IfSome result (λ i. IsLowest (length flow.now.ops) (Clashes flow.now.ops) i) }
    ensures none { IfNone result (HasNone (length flow.now.ops) (Clashes flow.now.ops)) }
{
    for op in 0..flow.ops.as_slice().len() as u32 {
        if clashes(flow, op) {
            return Some(op);
        }
    }
    None
}
