ghost use Rattle.std.specs.Prelude.{◌≡◌, ◌<◌, length, map, IfOk, MatchOption};
ghost use Rattle.flow_graph.specs.Charts.{all_links, form_at, link_at, links_into};
ghost use Rattle.flow_rules.specs.Needs.{missed, route_missed};
ghost use Rattle.flow_derive.specs.LinkStates.{AreStates, choice_at, state_at, output_at};
ghost use Rattle.flow_rules.specs.Verdicts.{IsRouted, IsVerdict, NoneMisses, first_of, first_with, with_state, link_misses, infer_regains};

use crate::needs::{missed, route_missed};
use crate::{Need, Verdict};
use ds_value::{Items, NoMemory};
use flow_derive::{
    all_states, choice_at, link_at, link_count, links_into, outline_at, output_at, state_at,
    states_at,
};
use flow_graph::{Choice, Shaped, State};
use std::alloc::Global;

/// The need of a link's route that its producer's output misses, with that output's state.
fn missed_before(
    alloc: Global,
    shaped: &Shaped,
    states: &[State],
    link: u32,
) -> Result<Option<(Need, State)>, NoMemory>
    requires { link < length shaped.now.flow.links }
    ensures { IfOk result (λ found. found ≡ first_of (with_state (output_at infer_regains shaped.now states.now link) (route_missed (choice_at shaped.now link).method (output_at infer_regains shaped.now states.now link)))) }
{
    let ins = links_into(alloc, shaped, link_at(shaped, link).from)?;
    let inputs = states_at(alloc, states, ins.as_slice())?;
    let output = output_at(alloc, shaped, link, inputs.as_slice())?;
    let choice = choice_at(shaped, link)?;
    let need = route_missed(&choice.method, &output)?;
    Ok(first_with(need, output))
}

/// The first part of its consumer's need that a link misses, with its state.
fn missed_behind(
    alloc: Global,
    shaped: &Shaped,
    states: &[State],
    link: u32,
) -> Result<Option<(Need, State)>, NoMemory>
    requires { link < length shaped.now.flow.links }
    ensures { IfOk result (λ found. found ≡ first_of (with_state (state_at states.now link) (missed (form_at shaped.now (link_at shaped.now link).to) (map (state_at states.now) (links_into shaped.now (link_at shaped.now link).to)) (link_at shaped.now link).port))) }
{
    shaped.is_shaped();
    let spec = link_at(shaped, link);
    let outline = outline_at(shaped, spec.to)?;
    let ins = links_into(alloc, shaped, spec.to)?;
    let inputs = states_at(alloc, states, ins.as_slice())?;
    let need = missed(alloc, &outline, inputs.as_slice(), spec.port)?;
    let state = state_at(alloc, states, link)?;
    Ok(first_with(need, state))
}

fn first_with(need: Option<Need>, state: State) -> Option<(Need, State)>
    ensures { result ≡ first_with need state }
{
    match need {
        None => None,
        Some(need) => Some((need, state)),
    }
}

/// The first part of a need that a link misses, and the state that misses it.
#[tactic(auto, using(crate::proofs::Refusals::of_route, crate::proofs::Refusals::of_need))]
fn link_missed(
    alloc: Global,
    shaped: &Shaped,
    states: &[State],
    link: u32,
) -> Result<Option<(Need, State)>, NoMemory>
    requires { link < length shaped.now.flow.links }
    ensures { IfOk result (λ found. found ≡ first_of (link_misses infer_regains shaped.now states.now link)) }
{
    match missed_before(alloc, shaped, states, link)? {
        Some(found) => Ok(Some(found)),
        None => {
            let found = missed_behind(alloc, shaped, states, link)?;
            Ok(found)
        }
    }
}

/// The least link that misses something, with the first part that it misses.
#[tactic(auto, using(crate::proofs::Refusals::none_first, crate::proofs::Refusals::none_more, crate::proofs::Refusals::refused, crate::proofs::Refusals::none_misses))]
fn first_refusal(
    alloc: Global,
    shaped: &Shaped,
    states: &[State],
) -> Result<Option<Verdict>, NoMemory>
    requires { AreStates infer_regains shaped.now states.now }
    ensures { IfOk result (λ found. MatchOption found (NoneMisses infer_regains shaped.now states.now) (λ v. IsVerdict shaped.now v)) }
{
    for link in 0..link_count(shaped) {
        let found = link_missed(alloc, shaped, states, link)?;
        if let Some((need, have)) = found {
            return Ok(Some(Verdict::Refused { link, need, have }));
        }
    }
    Ok(None)
}

/// What is chosen for each link. At this stage each link is routed as it is written, or lies
/// between sequential operators with nothing to be sorted; then nothing is inserted.
#[tactic(auto, using(crate::proofs::Refusals::choices_none, crate::proofs::Refusals::choices_one, crate::proofs::Refusals::choices_all))]
pub fn choices(shaped: &Shaped) -> Result<Vec<Choice>, NoMemory>
    requires { IsRouted shaped.now }
    ensures { IfOk result (λ found. found.items ≡ map (choice_at shaped.now) (all_links shaped.now)) }
{
    let mut found = Vec::new(shaped.flow().links.allocator());
    for link in 0..link_count(shaped) {
        found.push(choice_at(shaped, link)?)?;
    }
    Ok(found)
}

/// The verdict on a flow, of which `choices` says what is built.
#[tactic(auto, using(crate::proofs::Refusals::accepted))]
pub fn infer(shaped: &Shaped) -> Result<Verdict, NoMemory>
    requires { IsRouted shaped.now }
    ensures { IfOk result (λ verdict. IsVerdict shaped.now verdict) }
{
    let alloc = shaped.flow().links.allocator();
    let states = all_states(alloc, shaped)?;
    match first_refusal(alloc, shaped, states.as_slice())? {
        Some(refused) => Ok(refused),
        None => Ok(Verdict::Accepted {
            states: Items::from_vec(states),
            choices: Items::from_vec(choices(shaped)?),
        }),
    }
}
