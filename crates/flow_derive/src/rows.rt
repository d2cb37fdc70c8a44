ghost use Rattle.std.specs.Prelude.{◌≡◌, [], cond, IfOk};
ghost use Rattle.ds_schema.specs.Rows.{cols};
ghost use Rattle.op_base.specs.Columns.{only};
ghost use Rattle.flow_graph.specs.Forms.{funnel, funnel_sort};
ghost use Rattle.flow_derive.specs.Derive.{settled, carried_agree, passed_state, all_agree_in, agree_sets, agrees_in, derived, keyed_state, group_agree, grouped_state, declared_state, read_state, solo_state, if_common, more, sorted_state, first_state};
ghost use Rattle.flow_derive.specs.Outlines.{OutputsDiffer};

use crate::carry::{carried, carried_place, kept_place, pairs_of};
use crate::places::{agrees_in, common_place, key_places, placed_in, places};
use crate::sorts::{carried_sort, first_keys, no_keys, resorted};
use ds_place::Place;
use ds_schema::KeyList;
use ds_value::{Copied, Items, NoMemory};
use flow_graph::{ColSet, Spot, State, columns_of};
use std::alloc::Global;

/// A state by its parts, whose agree set may name columns twice and in any order.
#[tactic(auto, using(crate::proofs::Settled::set_twice))]
fn state_of(
    alloc: Global,
    agree: Option<Items<u32>>,
    place: Spot,
    sort: KeyList,
) -> Result<State, NoMemory>
    ensures { IfOk result (λ s. settled s ≡ settled (record { agree = agree; place = place; sort = sort })) }
{
    match agree {
        None => Ok(State {
            agree: None,
            place,
            sort,
        }),
        Some(columns) => {
            let set = ColSet::of(alloc, columns.as_slice())?;
            Ok(State {
                agree: Some(set),
                place,
                sort,
            })
        }
    }
}

/// What nothing is known of.
pub fn no_state(alloc: Global) -> State
    ensures { result ≡ first_state [] }
{
    State {
        agree: None,
        place: Spot::None,
        sort: no_keys(alloc),
    }
}

/// The state of input 0; nothing is known where there is none.
pub fn first_state(alloc: Global, states: &[State]) -> Result<State, NoMemory>
    ensures { IfOk result (λ s. s ≡ first_state states.now) }
{
    match states.first() {
        None => Ok(no_state(alloc)),
        Some(state) => state.copied(),
    }
}

pub(crate) fn solo_state(alloc: Global) -> State
    ensures { result ≡ solo_state }
{
    State {
        agree: Some(ColSet::new(alloc)),
        place: Spot::Solo,
        sort: no_keys(alloc),
    }
}

fn declared_state(alloc: Global, declared: &Option<Place>) -> Result<State, NoMemory>
    ensures { IfOk result (λ s. settled s ≡ settled (declared_state declared.now)) }
{
    match declared {
        None => Ok(no_state(alloc)),
        Some(Place::Hash(columns)) => {
            let agree = columns.copied()?;
            let place = Spot::Placed(Place::Hash(columns.copied()?));
            state_of(alloc, Some(agree), place, no_keys(alloc))
        }
        Some(Place::Modulus(column)) => {
            let mut agree = Items::new(alloc);
            agree.push(*column)?;
            let place = Spot::Placed(Place::Modulus(*column));
            state_of(alloc, Some(agree), place, no_keys(alloc))
        }
    }
}

/// A data set of some partitions.
pub(crate) fn read_state(
    alloc: Global,
    partitions: u32,
    declared: &Option<Place>,
) -> Result<State, NoMemory>
    ensures { IfOk result (λ s. settled s ≡ settled (read_state partitions declared.now)) }
{
    if partitions == 1 {
        return Ok(solo_state(alloc));
    }
    declared_state(alloc, declared)
}

fn columns_if(agree: &Option<ColSet>) -> Result<Option<Items<u32>>, NoMemory>
    ensures { IfOk result (λ found. found ≡ agree.now) }
{
    match agree {
        None => Ok(None),
        Some(set) => {
            let mut columns = Vec::new(set.allocator());
            columns.extend_from_slice(set.as_slice())?;
            Ok(Some(Items::from_vec(columns)))
        }
    }
}

fn carried_agree(
    alloc: Global,
    pairs: &[(u32, u32)],
    agree: Option<Items<u32>>,
) -> Result<Option<Items<u32>>, NoMemory>
    ensures { IfOk result (λ found. found ≡ carried_agree pairs.now agree) }
{
    match agree {
        None => Ok(None),
        Some(columns) => carried(alloc, pairs, columns.as_slice()),
    }
}

/// A state as far as these columns pass.
pub(crate) fn passed_state(
    alloc: Global,
    pairs: &[(u32, u32)],
    state: &State,
) -> Result<State, NoMemory>
    requires { OutputsDiffer pairs.now }
    ensures { IfOk result (λ s. settled s ≡ settled (passed_state (only pairs.now) state.now)) }
{
    let agree = carried_agree(alloc, pairs, columns_if(&state.agree)?)?;
    let place = kept_place(alloc, pairs, &state.place)?;
    let sort = carried_sort(alloc, pairs, &state.sort)?;
    state_of(alloc, agree, place, sort)
}

/// What a sort by keys leaves.
pub(crate) fn sorted_state(alloc: Global, keys: &KeyList, state: &State) -> Result<State, NoMemory>
    ensures { IfOk result (λ s. s ≡ sorted_state (Some keys.now) state.now) }
{
    let sort = resorted(alloc, keys, &state.sort)?;
    Ok(State {
        agree: Copied::copied(&state.agree)?,
        place: state.place.copied()?,
        sort,
    })
}

/// What remdup leaves: the agree set where it lies in the keys.
pub(crate) fn remdup_state(alloc: Global, keys: &KeyList, state: &State) -> Result<State, NoMemory>
    ensures { IfOk result (λ s. s ≡ record { agree = cond (agrees_in (cols keys.now) state.now.agree) state.now.agree None; place = state.now.place; sort = state.now.sort }) }
{
    let columns = columns_of(alloc, keys)?;
    if agrees_in(columns.as_slice(), &state.agree) {
        return state.copied();
    }
    Ok(State {
        agree: None,
        place: state.place.copied()?,
        sort: state.sort.copied()?,
    })
}

fn group_agree(columns: &Vec<u32>, state: &State) -> Result<Option<Items<u32>>, NoMemory>
    ensures { IfOk result (λ found. found ≡ group_agree columns.now.items state.now) }
{
    if agrees_in(columns.as_slice(), &state.agree) {
        return columns_if(&state.agree);
    }
    if placed_in(columns.as_slice(), &state.place) {
        return Ok(Some(Items::from_vec(columns.clone()?)));
    }
    Ok(None)
}

pub(crate) fn grouped_state(
    alloc: Global,
    keys: &KeyList,
    hashes: bool,
    state: &State,
) -> Result<State, NoMemory>
    ensures { IfOk result (λ s. settled s ≡ settled (grouped_state keys.now hashes state.now)) }
{
    let heads = first_keys(alloc, keys)?;
    let columns = columns_of(alloc, keys)?;
    let others = columns_of(alloc, &heads)?;
    let pairs = pairs_of(alloc, columns.as_slice(), others.as_slice())?;
    let agree = carried_agree(alloc, pairs.as_slice(), group_agree(&columns, state)?)?;
    let place = carried_place(alloc, pairs.as_slice(), &state.place)?;
    if hashes {
        return state_of(alloc, agree, place, no_keys(alloc));
    }
    state_of(alloc, agree, place, heads)
}

#[tactic(auto, using(crate::proofs::CodeSteps::agree_step, crate::proofs::CodeSteps::agree_end))]
fn all_agree_in(alloc: Global, keys: &[KeyList], states: &[State]) -> Result<bool, NoMemory>
    ensures { IfOk result (λ found. found ≡ all_agree_in keys.now states.now) }
{
    for (i, list) in keys.iter().enumerate() {
        if i == states.len() {
            return Ok(true);
        }
        let columns = columns_of(alloc, list)?;
        if !agrees_in(columns.as_slice(), &states[i].agree) {
            return Ok(false);
        }
    }
    Ok(true)
}

fn agree_if(alloc: Global, agrees: bool, keys: &KeyList) -> Result<Option<Items<u32>>, NoMemory>
    ensures { IfOk result (λ found. found ≡ cond agrees (Some (cols keys.now)) None) }
{
    if !agrees {
        return Ok(None);
    }
    Ok(Some(Items::from_vec(columns_of(alloc, keys)?)))
}

/// Joins, merge and changecapture, on an output whose keys are `heads`.
pub(crate) fn keyed_state(
    alloc: Global,
    keys: &[KeyList],
    heads: KeyList,
    states: &[State],
) -> Result<State, NoMemory>
    ensures { IfOk result (λ s. settled s ≡ settled (keyed_state keys.now heads states.now)) }
{
    let agree = agree_if(alloc, all_agree_in(alloc, keys, states)?, &heads)?;
    let places = key_places(alloc, keys, &heads, states)?;
    let place = common_place(places.as_slice())?;
    state_of(alloc, agree, place, heads)
}

#[tactic(auto, using(crate::proofs::CodeSteps::sets_more, crate::proofs::CodeSteps::sets_none))]
fn agree_sets(alloc: Global, states: &[State]) -> Result<Option<Items<u32>>, NoMemory>
    ensures { IfOk result (λ found. found ≡ agree_sets states.now) }
{
    let mut found = Vec::new(alloc);
    for state in states {
        match &state.agree {
            None => return Ok(None),
            Some(set) => found.extend_from_slice(set.as_slice())?,
        }
    }
    Ok(Some(Items::from_vec(found)))
}

/// An agree set with more columns.
pub(crate) fn more(
    agree: Option<Items<u32>>,
    columns: &[u32],
) -> Result<Option<Items<u32>>, NoMemory>
    ensures { IfOk result (λ found. found ≡ more agree columns.now) }
{
    match agree {
        None => Ok(None),
        Some(set) => {
            let mut found = set.into_vec();
            found.extend_from_slice(columns)?;
            Ok(Some(Items::from_vec(found)))
        }
    }
}

fn if_common(
    place: &Spot,
    agree: Option<Items<u32>>,
    columns: Vec<u32>,
) -> Result<Option<Items<u32>>, NoMemory>
    ensures { IfOk result (λ found. found ≡ if_common place.now agree columns.items) }
{
    match place {
        Spot::Solo => more(agree, columns.as_slice()),
        Spot::Placed(Place::Hash(own)) => { more(more(agree, own.as_slice())?, columns.as_slice()) }
        Spot::Placed(Place::Modulus(own)) => { more(more(agree, &[*own])?, columns.as_slice()) }
        Spot::Entire | Spot::None => Ok(None),
    }
}

/// A funnel with neither `-sequence` nor `-sort`.
pub(crate) fn funnel_state(alloc: Global, states: &[State]) -> Result<State, NoMemory>
    ensures { IfOk result (λ s. s ≡ derived funnel 0 states.now) }
{
    let places = places(alloc, states)?;
    Ok(State {
        agree: None,
        place: common_place(places.as_slice())?,
        sort: no_keys(alloc),
    })
}

/// A funnel that joins its inputs or merges them by keys.
pub(crate) fn ordered_state(
    alloc: Global,
    keys: &KeyList,
    states: &[State],
) -> Result<State, NoMemory>
    ensures { IfOk result (λ s. settled s ≡ settled (derived (funnel_sort keys.now) 0 states.now)) }
{
    let places = places(alloc, states)?;
    let place = common_place(places.as_slice())?;
    let columns = columns_of(alloc, keys)?;
    let agree = if_common(&place, agree_sets(alloc, states)?, columns)?;
    state_of(alloc, agree, place, keys.copied()?)
}
