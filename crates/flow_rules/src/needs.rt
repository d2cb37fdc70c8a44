ghost use Rattle.std.specs.Prelude.{◌≡◌, ◌++◌, ◌||◌, ◌==◌, [], ◌∷◌, ℕ, not, cond, get_or, IfOk, OnOk};
ghost use Rattle.std.specs.List.{filter};
ghost use Rattle.op_base.specs.Columns.{Passing};
ghost use Rattle.ds_schema.specs.Rows.{cols};
ghost use Rattle.flow_graph.specs.Charts.{funnel_form};
ghost use Rattle.flow_graph.specs.declared.state.Spot.{Spot};
ghost use Rattle.flow_rules.specs.declared.need.Need.TheVariants.{NotEntire, Placed, Colocated, SamePlace, Agree, Sorted, Reference};
ghost use Rattle.flow_derive.specs.Derive.{first_state, placed_in, agrees_in};
ghost use Rattle.flow_rules.specs.Needs.{input_keys, first_place, part_if, keyed_needs, needs, is_entire, begins_with, meets, missed, route_missed};
ghost use Rattle.flow_derive.specs.Outlines.{outline_form};
ghost use Rattle.flow_rules.specs.Verdicts.{first_of};

use crate::Need;
use ds_schema::KeyList;
use ds_value::{Copied, NoMemory};
use flow_derive::{
    Outline, agrees_in, first_state, key_place, keys_of, no_keys, no_state, placed_in, same_place,
};
use flow_graph::{Route, Spot, State, columns_of};
use std::alloc::Global;

impl Copied for Need {
    fn copied(&self) -> Result<Need, NoMemory> {
        match self {
            Need::NotEntire => Ok(Need::NotEntire),
            Need::Placed(keys) => Ok(Need::Placed(keys.copied()?)),
            Need::Colocated(keys) => Ok(Need::Colocated(keys.copied()?)),
            Need::SamePlace(place) => Ok(Need::SamePlace(place.copied()?)),
            Need::Agree(keys) => Ok(Need::Agree(keys.copied()?)),
            Need::Sorted(keys) => Ok(Need::Sorted(keys.copied()?)),
            Need::MergeSort(keys) => Ok(Need::MergeSort(keys.copied()?)),
            Need::Reference(keys) => Ok(Need::Reference(keys.copied()?)),
        }
    }
}

fn funnel_keys(alloc: Global, sequence: bool, keys: &KeyList) -> Result<KeyList, NoMemory>
    ensures { IfOk result (λ found. (i : ℕ) → found ≡ input_keys (funnel_form sequence keys.now) i) }
{
    if sequence {
        return Ok(no_keys(alloc));
    }
    let _ = keys.as_slice().is_empty();
    keys.copied()
}

/// The keys of an operator on an input.
fn input_keys(alloc: Global, outline: &Outline, input: u32) -> Result<KeyList, NoMemory>
    ensures { IfOk result (λ found. (passes : ℕ → Passing) → found ≡ input_keys (outline_form outline.now passes) input) }
{
    match outline {
        Outline::Import | Outline::Dsread(_, _) | Outline::ByRow | Outline::Tsort(_) => {
            Ok(no_keys(alloc))
        }
        Outline::Remdup(keys) | Outline::Group(keys, _, _) | Outline::Changecapture(keys) => {
            keys.copied()
        }
        Outline::Join(left, right) | Outline::Lookup(left, right) => {
            if input == 0 {
                left.copied()
            } else {
                right.copied()
            }
        }
        Outline::Merge(keys) => keys_of(keys, input as usize),
        Outline::Funnel(sequence, keys) => funnel_keys(alloc, *sequence, keys),
    }
}

/// The place of input 0, over the columns of an input.
fn first_place(
    alloc: Global,
    outline: &Outline,
    inputs: &[State],
    input: u32,
) -> Result<Spot, NoMemory>
    ensures { IfOk result (λ found. (passes : ℕ → Passing) → found ≡ first_place (outline_form outline.now passes) inputs.now input) }
{
    let own = input_keys(alloc, outline, 0)?;
    let keys = input_keys(alloc, outline, input)?;
    let first = first_state(alloc, inputs)?;
    key_place(alloc, &own, &keys, &first.place)
}

fn push_if(parts: &mut Vec<Need>, wanted: bool, part: Need) -> Result<(), NoMemory>
    ensures { OnOk result (parts.new.items ≡ parts.old.items ++ part_if wanted part) }
{
    if wanted {
        parts.push(part)?;
    }
    Ok(())
}

fn place_need(first: &Spot, keys: &KeyList, input: u32) -> Result<Need, NoMemory>
    ensures { IfOk result (λ part. part ≡ cond (input == 0) (Placed keys.now) (SamePlace first.now)) }
{
    if input == 0 {
        Ok(Need::Placed(keys.copied()?))
    } else {
        Ok(Need::SamePlace(first.copied()?))
    }
}

/// Joins, merge and changecapture.
fn keyed_needs(
    alloc: Global,
    agrees: bool,
    first: &Spot,
    keys: &KeyList,
    input: u32,
) -> Result<Vec<Need>, NoMemory>
    ensures { IfOk result (λ parts. parts.items ≡ keyed_needs agrees first.now keys.now input) }
{
    let mut parts = Vec::new(alloc);
    parts.push(Need::NotEntire)?;
    parts.push(place_need(first, keys, input)?)?;
    push_if(&mut parts, agrees, Need::Agree(keys.copied()?))?;
    parts.push(Need::Sorted(keys.copied()?))?;
    Ok(parts)
}

fn not_entire(alloc: Global) -> Result<Vec<Need>, NoMemory>
    ensures { IfOk result (λ parts. parts.items ≡ NotEntire ∷ []) }
{
    let mut parts = Vec::new(alloc);
    parts.push(Need::NotEntire)?;
    Ok(parts)
}

fn remdup_needs(alloc: Global, keys: &KeyList) -> Result<Vec<Need>, NoMemory>
    ensures { IfOk result (λ parts. parts.items ≡ NotEntire ∷ (Agree keys.now ∷ (Sorted keys.now ∷ []))) }
{
    let agree = Need::Agree(keys.copied()?);
    let sorted = Need::Sorted(keys.copied()?);
    let mut parts = not_entire(alloc)?;
    parts.push(agree)?;
    parts.push(sorted)?;
    Ok(parts)
}

fn group_needs(
    alloc: Global,
    keys: &KeyList,
    hashes: bool,
    sees_order: bool,
) -> Result<Vec<Need>, NoMemory>
    ensures { IfOk result (λ parts. parts.items ≡ NotEntire ∷ (Colocated keys.now ∷ (part_if sees_order (Agree keys.now) ++ part_if (not hashes) (Sorted keys.now)))) }
{
    let mut parts = not_entire(alloc)?;
    parts.push(Need::Colocated(keys.copied()?))?;
    push_if(&mut parts, sees_order, Need::Agree(keys.copied()?))?;
    push_if(&mut parts, !hashes, Need::Sorted(keys.copied()?))?;
    Ok(parts)
}

fn lookup_needs(alloc: Global, reference: &KeyList, input: u32) -> Result<Vec<Need>, NoMemory>
    ensures { IfOk result (λ parts. parts.items ≡ cond (input == 0) (NotEntire ∷ []) (Reference reference.now ∷ [])) }
{
    if input == 0 {
        return not_entire(alloc);
    }
    let mut parts = Vec::new(alloc);
    parts.push(Need::Reference(reference.copied()?))?;
    Ok(parts)
}

fn funnel_needs(alloc: Global, sequence: bool, keys: &KeyList) -> Result<Vec<Need>, NoMemory>
    ensures { IfOk result (λ parts. (first : Spot) (i : ℕ) → parts.items ≡ needs (funnel_form sequence keys.now) first i) }
{
    let mut parts = not_entire(alloc)?;
    if sequence || keys.as_slice().is_empty() {
        return Ok(parts);
    }
    parts.push(Need::Sorted(keys.copied()?))?;
    Ok(parts)
}

/// The parts of the need of an input, in the order in which they are tested.
fn needs(alloc: Global, outline: &Outline, first: &Spot, input: u32) -> Result<Vec<Need>, NoMemory>
    ensures { IfOk result (λ parts. (passes : ℕ → Passing) → parts.items ≡ needs (outline_form outline.now passes) first.now input) }
{
    match outline {
        Outline::Import | Outline::Dsread(_, _) => Ok(Vec::new(alloc)),
        Outline::ByRow | Outline::Tsort(_) => not_entire(alloc),
        Outline::Remdup(keys) => remdup_needs(alloc, keys),
        Outline::Group(keys, hashes, sees_order) => group_needs(alloc, keys, *hashes, *sees_order),
        Outline::Join(_, _) => {
            let keys = input_keys(alloc, outline, input)?;
            keyed_needs(alloc, false, first, &keys, input)
        }
        Outline::Merge(_) | Outline::Changecapture(_) => {
            let keys = input_keys(alloc, outline, input)?;
            keyed_needs(alloc, true, first, &keys, input)
        }
        Outline::Lookup(_, reference) => lookup_needs(alloc, reference, input),
        Outline::Funnel(sequence, keys) => funnel_needs(alloc, *sequence, keys),
    }
}

fn is_entire(place: &Spot) -> bool
    ensures { result ≡ is_entire place.now }
{
    match place {
        Spot::Entire => true,
        Spot::Solo | Spot::Placed(_) | Spot::None => false,
    }
}

fn is_placed(alloc: Global, keys: &KeyList, state: &State) -> Result<bool, NoMemory>
    ensures { IfOk result (λ placed. placed ≡ placed_in (cols keys.now) state.now.place) }
{
    let columns = columns_of(alloc, keys)?;
    Ok(placed_in(columns.as_slice(), &state.place))
}

fn does_agree(alloc: Global, keys: &KeyList, state: &State) -> Result<bool, NoMemory>
    ensures { IfOk result (λ agrees. agrees ≡ agrees_in (cols keys.now) state.now.agree) }
{
    let columns = columns_of(alloc, keys)?;
    Ok(agrees_in(columns.as_slice(), &state.agree))
}

fn is_reference(
    alloc: Global,
    first: &Spot,
    keys: &KeyList,
    state: &State,
) -> Result<bool, NoMemory>
    ensures { IfOk result (λ is. is ≡ meets first.now state.now (Reference keys.now)) }
{
    if !does_agree(alloc, keys, state)? {
        return Ok(false);
    }
    if is_entire(&state.place) {
        return Ok(true);
    }
    if !is_placed(alloc, keys, state)? {
        return Ok(false);
    }
    Ok(same_place(&state.place, first))
}

fn is_colocated(alloc: Global, keys: &KeyList, state: &State) -> Result<bool, NoMemory>
    ensures { IfOk result (λ is. is ≡ (placed_in (cols keys.now) state.now.place || agrees_in (cols keys.now) state.now.agree)) }
{
    if is_placed(alloc, keys, state)? {
        return Ok(true);
    }
    does_agree(alloc, keys, state)
}

/// Whether a sort list begins with keys: the same columns in the same order and directions.
#[tactic(auto, using(crate::proofs::CodeSteps::begins_step, crate::proofs::CodeSteps::begins_short))]
fn begins_with(keys: &KeyList, sort: &KeyList) -> bool
    ensures { result ≡ begins_with keys.now sort.now }
{
    let found = sort.as_slice();
    for (i, key) in keys.as_slice().iter().enumerate() {
        if i >= found.len() {
            return false;
        }
        if key.col != found[i].col || key.desc != found[i].desc {
            return false;
        }
    }
    true
}

/// Whether a state meets a part of a need, on an input over whose columns input 0 lies at `first`.
fn meets(alloc: Global, first: &Spot, state: &State, part: &Need) -> Result<bool, NoMemory>
    ensures { IfOk result (λ does. does ≡ meets first.now state.now part.now) }
{
    match part {
        Need::NotEntire => Ok(!is_entire(&state.place)),
        Need::Placed(keys) => is_placed(alloc, keys, state),
        Need::Colocated(keys) => is_colocated(alloc, keys, state),
        Need::SamePlace(place) => Ok(same_place(&state.place, place)),
        Need::Agree(keys) => does_agree(alloc, keys, state),
        Need::Sorted(keys) | Need::MergeSort(keys) => Ok(begins_with(keys, &state.sort)),
        Need::Reference(keys) => is_reference(alloc, first, keys, state),
    }
}

#[tactic(auto, using(crate::proofs::CodeSteps::parts_step))]
fn first_missed(
    alloc: Global,
    first: &Spot,
    state: &State,
    parts: &[Need],
) -> Result<Option<Need>, NoMemory>
    ensures { IfOk result (λ found. found ≡ first_of (filter (λ part. not (meets first.now state.now part)) parts.now)) }
{
    for part in parts {
        if !meets(alloc, first, state, part)? {
            return Ok(Some(part.copied()?));
        }
    }
    Ok(None)
}

fn input_state(alloc: Global, inputs: &[State], input: u32) -> Result<State, NoMemory>
    ensures { IfOk result (λ s. s ≡ get_or inputs.now input (first_state [])) }
{
    if input as usize >= inputs.len() {
        return Ok(no_state(alloc));
    }
    inputs[input as usize].copied()
}

/// The first part of its need that an input misses, of the states of all inputs.
pub(crate) fn missed(
    alloc: Global,
    outline: &Outline,
    inputs: &[State],
    input: u32,
) -> Result<Option<Need>, NoMemory>
    ensures { IfOk result (λ found. (passes : ℕ → Passing) → found ≡ first_of (missed (outline_form outline.now passes) inputs.now input)) }
{
    let first = first_place(alloc, outline, inputs, input)?;
    let state = input_state(alloc, inputs, input)?;
    let parts = needs(alloc, outline, &first, input)?;
    let found = first_missed(alloc, &first, &state, parts.as_slice())?;
    Ok(found)
}

/// What a route misses of the state of its producer's output.
pub(crate) fn route_missed(route: &Route, state: &State) -> Result<Option<Need>, NoMemory>
    ensures { IfOk result (λ found. found ≡ first_of (route_missed route.now state.now)) }
{
    match route {
        Route::Merge(keys) => {
            if begins_with(keys, &state.sort) {
                return Ok(None);
            }
            Ok(Some(Need::MergeSort(keys.copied()?)))
        }
        Route::Same
        | Route::RoundRobin
        | Route::Entire
        | Route::Hash(_)
        | Route::Modulus(_)
        | Route::Any
        | Route::Ordered => Ok(None),
    }
}
