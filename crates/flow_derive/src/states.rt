ghost use Rattle.std.specs.Prelude.{◌≡◌, ◌<◌, List, length, map, false, option_copied, IfOk, OnOk};
ghost use Rattle.flow_graph.specs.Charts.{link_at, width_at, links_into, first_width, into_seq, op_at, cols_at};
ghost use Rattle.flow_graph.specs.declared.state.State.{State};
ghost use Rattle.flow_derive.specs.LinkStates.{choice_at, state_at, output_at, link_state, AreStates, written_or_same};
ghost use Rattle.flow_derive.specs.Filling.{Fills};

use crate::outline::outline_at;
use crate::outputs::derived;
use crate::routes::{refined, routed_state};
use crate::rows::no_state;
use ds_value::{Copied, NoMemory};
use flow_graph::{Choice, LinkSpec, Mark, OpKind, Route, Shaped, State};
use std::alloc::Global;

/// A link of the flow.
pub fn link_at(shaped: &Shaped, link: u32) -> &LinkSpec
    requires { link < length shaped.now.flow.links }
    ensures { result.now ≡ link_at shaped.now link }
{
    &shaped.flow().links.as_slice()[link as usize]
}

/// The number of links.
pub fn link_count(shaped: &Shaped) -> u32
    ensures { result ≡ length shaped.now.flow.links }
{
    shaped.is_shaped();
    shaped.flow().links.as_slice().len() as u32
}

/// The number of columns of a link.
fn width_at(shaped: &Shaped, link: u32) -> u32
    ensures { result ≡ width_at shaped.now link }
{
    shaped.is_shaped();
    if link >= link_count(shaped) {
        return 0;
    }
    shaped.schema(link).as_slice().len() as u32
}

/// The links into an operator, by port.
#[tactic(auto, using(crate::proofs::Fills::into_none, crate::proofs::Fills::into_one, crate::proofs::Fills::into_other, crate::proofs::Fills::into_all))]
pub fn links_into(alloc: Global, shaped: &Shaped, op: u32) -> Result<Vec<u32>, NoMemory>
    ensures { IfOk result (λ ins. ins.items ≡ links_into shaped.now op) }
{
    let mut ins = Vec::new(alloc);
    for link in 0..link_count(shaped) {
        if link_at(shaped, link).to == op {
            ins.push(link)?;
        }
    }
    Ok(ins)
}

/// The state of a link; nothing is known beyond the list.
pub fn state_at(alloc: Global, states: &[State], link: u32) -> Result<State, NoMemory>
    ensures { IfOk result (λ s. s ≡ state_at states.now link) }
{
    if link as usize >= states.len() {
        return Ok(no_state(alloc));
    }
    states[link as usize].copied()
}

/// The states of some links.
#[tactic(auto, using(crate::proofs::Fills::states_step))]
pub fn states_at(alloc: Global, states: &[State], links: &[u32]) -> Result<Vec<State>, NoMemory>
    ensures { IfOk result (λ found. found.items ≡ map (state_at states.now) links.now) }
{
    let mut found = Vec::new(alloc);
    for link in links {
        found.push(state_at(alloc, states, *link)?)?;
    }
    Ok(found)
}

fn first_width(alloc: Global, shaped: &Shaped, op: u32) -> Result<u32, NoMemory>
    ensures { IfOk result (λ width. width ≡ first_width shaped.now op) }
{
    let ins = links_into(alloc, shaped, op)?;
    if ins.is_empty() {
        return Ok(width_at(shaped, 0));
    }
    Ok(width_at(shaped, ins[0]))
}

/// Whether a link's consumer is sequential.
pub fn into_seq(shaped: &Shaped, link: u32) -> bool
    requires { link < length shaped.now.flow.links }
    ensures { result ≡ into_seq shaped.now link }
{
    shaped.is_shaped();
    let op = link_at(shaped, link).to;
    match shaped.flow().ops.as_slice()[op as usize].mark {
        Mark::Seq => true,
        Mark::Par | Mark::Stored => false,
    }
}

fn written_or_same(written: Option<&Route>) -> Result<Route, NoMemory>
    ensures { IfOk result (λ route. route ≡ written_or_same (option_copied written.entry)) }
{
    match written {
        None => Ok(Route::Same),
        Some(route) => route.copied(),
    }
}

/// What is chosen for a link.
pub fn choice_at(shaped: &Shaped, link: u32) -> Result<Choice, NoMemory>
    requires { link < length shaped.now.flow.links }
    ensures { IfOk result (λ choice. choice ≡ choice_at shaped.now link) }
{
    shaped.is_shaped();
    Ok(Choice {
        method: written_or_same(shaped.written(link))?,
        sort: None,
    })
}

fn kind_at(shaped: &Shaped, op: u32) -> &OpKind
    requires { op < length shaped.now.flow.ops }
    ensures { result.now ≡ (op_at shaped.now op).kind }
{
    &shaped.flow().ops.as_slice()[op as usize].kind
}

fn columns_at(shaped: &Shaped, op: u32) -> &[u32]
    requires { op < length shaped.now.parts }
    ensures { result.now ≡ cols_at shaped.now op }
{
    shaped.parts(op).cols.as_slice()
}

/// The state of what a link's producer puts on it, by those of the producer's inputs.
pub fn output_at(
    alloc: Global,
    shaped: &Shaped,
    link: u32,
    inputs: &[State],
) -> Result<State, NoMemory>
    requires { link < length shaped.now.flow.links }
    ensures { IfOk result (λ s. (states : List State) → inputs.now ≡ map (state_at states) (links_into shaped.now (link_at shaped.now link).from) → s ≡ output_at false shaped.now states link) }
{
    shaped.is_shaped();
    let spec = link_at(shaped, link);
    let outline = outline_at(shaped, spec.from)?;
    let width = first_width(alloc, shaped, spec.from)?;
    let kind = kind_at(shaped, spec.from);
    let columns = columns_at(shaped, spec.from);
    let state = derived(alloc, kind, &outline, columns, width, spec.out, inputs)?;
    let known = refined(alloc, width_at(shaped, link), state)?;
    Ok(known)
}

/// The state of a link, by those of its producer's inputs.
fn link_state(
    alloc: Global,
    shaped: &Shaped,
    link: u32,
    inputs: &[State],
) -> Result<State, NoMemory>
    requires { link < length shaped.now.flow.links }
    ensures { IfOk result (λ s. (states : List State) → inputs.now ≡ map (state_at states) (links_into shaped.now (link_at shaped.now link).from) → s ≡ link_state false shaped.now states link) }
{
    let output = output_at(alloc, shaped, link, inputs)?;
    let choice = choice_at(shaped, link)?;
    let seq = into_seq(shaped, link);
    let state = routed_state(alloc, seq, &choice.method, &output)?;
    let known = refined(alloc, width_at(shaped, link), state)?;
    Ok(known)
}

/// The states of the links that leave an operator, in their places.
fn fill(shaped: &Shaped, states: &mut Vec<State>, op: u32) -> Result<(), NoMemory>
    requires { length states.old.items ≡ length shaped.now.flow.links }
    ensures { OnOk result (Fills shaped.now op states.old.items states.new.items) }
{
    let alloc = *states.allocator();
    let ins = links_into(alloc, shaped, op)?;
    let inputs = states_at(alloc, states.as_slice(), ins.as_slice())?;
    for link in 0..link_count(shaped) {
        if link_at(shaped, link).from == op {
            let state = link_state(alloc, shaped, link, inputs.as_slice())?;
            states[link as usize] = state;
        }
    }
    Ok(())
}

/// As many states of which nothing is known as there are links.
fn no_states(alloc: Global, count: u32) -> Result<Vec<State>, NoMemory>
    ensures { IfOk result (λ states. length states.items ≡ count) }
{
    let mut states = Vec::new(alloc);
    for _link in 0..count {
        states.push(no_state(alloc))?;
    }
    Ok(states)
}

/// The states of all links, operator by operator in the flow's order.
pub fn all_states(alloc: Global, shaped: &Shaped) -> Result<Vec<State>, NoMemory>
    ensures { IfOk result (λ states. AreStates false shaped.now states.items) }
{
    shaped.is_shaped();
    let mut states = no_states(alloc, link_count(shaped))?;
    let order = shaped.order();
    for op in order {
        fill(shaped, &mut states, *op)?;
    }
    Ok(states)
}
