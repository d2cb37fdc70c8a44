//! The whole text of a verdict.

ghost use Rattle.std.specs.Prelude.{◌≡◌, ◌++◌, OnOk, IfOk, length, ◌<◌};
ghost use Rattle.flow_graph.specs.FlowShape.{IsShape};
ghost use Rattle.flow_score.specs.VerdictText.{is_sink, line_of, sink_at, sink_lines, state_lines, verdict_text, IsOf};

use crate::columns::put;
use crate::lines::{put_refusal, put_sink_line, put_state_line};
use crate::links::input_link;
use ds_value::{Bytes, NoMemory};
use flow_graph::{OpKind, Shaped, State};
use flow_rules::Verdict;
use std::alloc::Global;

#[tactic(auto, unfolding(crate::specs::VerdictText::line_of))]
fn put_line(
    alloc: Global,
    text: &mut Bytes,
    shaped: &Shaped,
    states: &[State],
    link: usize,
) -> Result<(), NoMemory>
    requires shape { IsShape shaped.now }
    requires each { length states.now ≡ length shaped.now.flow.links }
    requires link { link < length shaped.now.flow.links }
    ensures { OnOk result (text.new ≡ text.old ++ line_of shaped.now states.now link) }
{
    let fields = shaped.schema(link as u32).as_slice();
    put_state_line(alloc, text, link as u32, fields, &states[link])
}

fn put_states(
    alloc: Global,
    text: &mut Bytes,
    shaped: &Shaped,
    states: &[State],
) -> Result<(), NoMemory>
    requires shape { IsShape shaped.now }
    requires each { length states.now ≡ length shaped.now.flow.links }
    ensures { OnOk result (text.new ≡ text.old ++ state_lines shaped.now states.now) }
{
    for link in 0..states.len() {
        put_line(alloc, text, shaped, states, link)?;
    }
    Ok(())
}

fn is_sink(kind: &OpKind) -> bool
    ensures { result ≡ is_sink kind.now }
{
    match kind {
        OpKind::Export { .. } | OpKind::Dswrite { .. } => true,
        _ => false,
    }
}

#[tactic(auto, using(crate::proofs::SinkInputs::sink_input))]
fn put_sink(
    alloc: Global,
    text: &mut Bytes,
    shaped: &Shaped,
    states: &[State],
    op: usize,
) -> Result<(), NoMemory>
    requires shape { IsShape shaped.now }
    requires each { length states.now ≡ length shaped.now.flow.links }
    requires op { op < length shaped.now.flow.ops }
    ensures { OnOk result (text.new ≡ text.old ++ sink_at shaped.now states.now op) }
{
    let flow = shaped.flow();
    if !is_sink(&flow.ops.as_slice()[op].kind) {
        return Ok(());
    }
    let link = input_link(flow.links.as_slice(), op as u32);
    let fields = shaped.schema(link).as_slice();
    put_sink_line(alloc, text, op as u32, fields, &states[link as usize])
}

fn put_sinks(
    alloc: Global,
    text: &mut Bytes,
    shaped: &Shaped,
    states: &[State],
) -> Result<(), NoMemory>
    requires shape { IsShape shaped.now }
    requires each { length states.now ≡ length shaped.now.flow.links }
    ensures { OnOk result (text.new ≡ text.old ++ sink_lines shaped.now states.now) }
{
    for op in 0..shaped.flow().ops.as_slice().len() {
        put_sink(alloc, text, shaped, states, op)?;
    }
    Ok(())
}

/// The verdict as text: a line for each link and each sink, or one for the link that is refused.
pub fn verdict_text(alloc: Global, shaped: &Shaped, verdict: &Verdict) -> Result<Bytes, NoMemory>
    requires shape { IsShape shaped.now }
    requires of { IsOf shaped.now verdict.now }
    ensures { IfOk result (λ text. text ≡ verdict_text shaped.now verdict.now) }
{
    let mut text = Bytes::new(alloc);
    match verdict {
        Verdict::Accepted { states, .. } => {
            put(&mut text, "verdict accepted\n")?;
            put_states(alloc, &mut text, shaped, states.as_slice())?;
            put_sinks(alloc, &mut text, shaped, states.as_slice())?;
        }
        Verdict::Refused { link, need, have } => {
            let fields = shaped.schema(*link).as_slice();
            put_refusal(alloc, &mut text, *link, fields, need, have)?;
        }
    }
    Ok(text)
}
