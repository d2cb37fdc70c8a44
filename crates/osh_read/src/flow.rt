//! Reading a whole flow.

ghost use Rattle.std.specs.Prelude.{◌≡◌, IfOk};
ghost use Rattle.ds_lex.specs.Reading.{Gives};
ghost use Rattle.osh_read.specs.Joining.{unjoined};
ghost use Rattle.osh_read.specs.Flows.{Answers, end_why, flow_at, flow_of, is_cut_off, joined, made};

use crate::fault::{OshFault, OshWhy};
use crate::links::{links, ops, unjoined};
use crate::stage::{Directives, Stage};
use crate::stages::{directives, stages};
use ds_lex::{Cursor, End, LimitedText, Mode, Refusal, Stop, lex_limited};
use ds_value::NoMemory;
use flow_graph::Flow;
use std::alloc::Global;

fn made(alloc: Global, found: Directives, stages: &[Stage]) -> Result<Flow, NoMemory>
    ensures { IfOk result (λ flow. flow ≡ made found stages.now) }
{
    let ops = ops(alloc, stages)?;
    let links = links(alloc, stages)?;
    Ok(Flow {
        nopart: found.nopart,
        nosort: found.nosort,
        ops,
        links,
    })
}

/// The flow of stages whose data sets are each written once and read once.
fn joined(alloc: Global, found: Directives, stages: &[Stage]) -> Result<Flow, Stop<OshWhy>>
    ensures { Gives result (joined found stages.now (unjoined stages.now)) }
{
    match unjoined(alloc, stages) {
        Ok(None) => match made(alloc, found, stages) {
            Ok(flow) => Ok(flow),
            Err(NoMemory) => Err(Stop::Memory),
        },
        Ok(Some(at)) => Err(Stop::Refused(Refusal::At {
            at,
            why: OshWhy::Unjoined,
        })),
        Err(NoMemory) => Err(Stop::Memory),
    }
}

#[tactic(auto, unfolding(crate::specs::Flows::flow_at))]
fn flow(alloc: Global, cut: bool, cursor: &mut Cursor<'_>) -> Result<Flow, Stop<OshWhy>>
    ensures { Gives result (flow_at cut cursor.old) }
{
    let found = directives(cursor)?;
    let stages = stages(alloc, cut, cursor)?;
    joined(alloc, found, stages.as_slice())
}

/// Whether what stands behind the last token isn't the end of the text.
fn is_cut_off(end: End) -> bool
    ensures { result ≡ is_cut_off end }
{
    match end {
        End::Text(_) => false,
        End::NoToken(_) | End::Limit(_) => true,
    }
}

/// The cause behind the last token.
fn end_why(end: End) -> OshWhy
    ensures { result ≡ end_why end }
{
    match end {
        End::Text(_) => OshWhy::Syntax,
        End::NoToken(_) => OshWhy::Token,
        End::Limit(_) => OshWhy::TooLong,
    }
}

/// The flow that the bytes spell, or their first fault.
#[tactic(auto, unfolding(crate::specs::Flows::flow_of))]
pub fn read_flow(alloc: Global, bytes: &[u8]) -> Result<Flow, OshFault>
    ensures { Answers result (flow_of bytes.now) }
{
    let LimitedText { lexemes, end } = lex_limited(alloc, Mode::Osh, bytes)?;
    let mut cursor = Cursor::new(&lexemes);
    match flow(alloc, is_cut_off(end), &mut cursor) {
        Ok(flow) => Ok(flow),
        Err(Stop::Refused(Refusal::At { at, why })) => Err(OshFault::Bad { at, why }),
        Err(Stop::Refused(Refusal::AtEnd)) => Err(OshFault::Bad {
            at: end.place(),
            why: end_why(end),
        }),
        Err(Stop::Memory) => Err(OshFault::Memory),
    }
}
