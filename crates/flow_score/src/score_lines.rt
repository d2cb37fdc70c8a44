//! The lines of a score.

ghost use Rattle.std.specs.Prelude.{◌≡◌, ◌++◌, OnOk, IfOk, string_bytes, codes};
ghost use Rattle.std.specs.Fmt.{decimal};
ghost use Rattle.flow_score.specs.Scores.{kind_name, mark_name, op_line, end_text, ends_text, sort_text, link_line};

use crate::columns::{put, put_named_keys};
use crate::states::put_route;
use ds_schema::{Field, KeyList};
use ds_value::{Bytes, NoMemory};
use flow_graph::{Choice, LinkSpec, Mark, OpKind, OpSpec};
use std::alloc::{AllocError, Global};

pub fn kind_name(kind: &OpKind) -> &'static str
    ensures { result.now ≡ kind_name kind.now }
{
    match kind {
        OpKind::Import { .. } => "import",
        OpKind::Export { .. } => "export",
        OpKind::Dsread { .. } => "dsread",
        OpKind::Dswrite { .. } => "dswrite",
        OpKind::Copy => "copy",
        OpKind::Filter { .. } => "filter",
        OpKind::Transform { .. } => "transform",
        OpKind::Modify { .. } => "modify",
        OpKind::Switch { .. } => "switch",
        OpKind::Tsort { .. } => "tsort",
        OpKind::Remdup { .. } => "remdup",
        OpKind::Group { .. } => "group",
        OpKind::InnerJoin { .. } => "innerjoin",
        OpKind::LeftOuterJoin { .. } => "leftouterjoin",
        OpKind::RightOuterJoin { .. } => "rightouterjoin",
        OpKind::FullOuterJoin { .. } => "fullouterjoin",
        OpKind::Merge { .. } => "merge",
        OpKind::Lookup { .. } => "lookup",
        OpKind::Changecapture { .. } => "changecapture",
        OpKind::Funnel { .. } => "funnel",
    }
}

fn mark_name(mark: Mark) -> &'static str
    ensures { result.now ≡ mark_name mark }
{
    match mark {
        Mark::Seq => "seq",
        Mark::Par => "par",
        Mark::Stored => "set",
    }
}

fn op_text(alloc: Global, number: u32, op: &OpSpec, degree: u32) -> Result<String, AllocError>
    ensures { IfOk result (λ text. string_bytes text ≡ op_line number op.now degree) }
{
    let (name, mark) = (kind_name(&op.kind), mark_name(op.mark));
    format!(in alloc; "op {number} {name} {mark} {degree}\n")
}

pub fn put_op(
    alloc: Global,
    text: &mut Bytes,
    number: u32,
    op: &OpSpec,
    degree: u32,
) -> Result<(), NoMemory>
    ensures { OnOk result (text.new ≡ text.old ++ op_line number op.now degree) }
{
    put(text, op_text(alloc, number, op, degree)?.as_str())
}

fn link_head(alloc: Global, number: u32) -> Result<String, AllocError>
    ensures { IfOk result (λ text. string_bytes text ≡ codes "link " ++ (decimal number ++ codes " ")) }
{
    format!(in alloc; "link {number} ")
}

fn end_text(alloc: Global, op: u32, port: u32) -> Result<String, AllocError>
    ensures { IfOk result (λ text. string_bytes text ≡ end_text op port) }
{
    format!(in alloc; "{op}.{port} ")
}

fn put_ends(alloc: Global, text: &mut Bytes, number: u32, link: &LinkSpec) -> Result<(), NoMemory>
    ensures { OnOk result (text.new ≡ text.old ++ ends_text number link.now) }
{
    put(text, link_head(alloc, number)?.as_str())?;
    put(text, end_text(alloc, link.from, link.out)?.as_str())?;
    put(text, end_text(alloc, link.to, link.port)?.as_str())
}

fn put_sort(text: &mut Bytes, fields: &[Field], sort: &Option<KeyList>) -> Result<(), NoMemory>
    ensures { OnOk result (text.new ≡ text.old ++ sort_text fields.now sort.now) }
{
    match sort {
        None => Ok(()),
        Some(keys) => {
            put(text, " ")?;
            put_named_keys(text, "tsort", fields, keys.as_slice())
        }
    }
}

pub fn put_link(
    alloc: Global,
    text: &mut Bytes,
    number: u32,
    link: &LinkSpec,
    fields: &[Field],
    choice: &Choice,
) -> Result<(), NoMemory>
    ensures { OnOk result (text.new ≡ text.old ++ link_line number link.now fields.now choice.now) }
{
    put_ends(alloc, text, number, link)?;
    put_route(text, fields, &choice.method)?;
    put_sort(text, fields, &choice.sort)?;
    put(text, "\n")
}
