ghost use Rattle.std.specs.Prelude.{◌≡◌, IfOk};
ghost use Rattle.ds_schema.specs.Rows.{cols};
ghost use Rattle.op_base.specs.Columns.{pairs_of};
ghost use Rattle.flow_derive.specs.Derive.{carried_place, placed_in, agrees_in, same_list, same_place, all_at_place, common_place, key_places, places};

use crate::carry::{carried_place, pairs_of};
use ds_place::Place;
use ds_schema::KeyList;
use ds_value::{Copied, NoMemory};
use flow_graph::{ColSet, Spot, State, columns_of, is_in, lies};
use std::alloc::Global;

/// Solo, or a place whose columns are all among these.
pub fn placed_in(columns: &[u32], place: &Spot) -> bool
    ensures { result ≡ placed_in columns.now place.now }
{
    match place {
        Spot::Solo => true,
        Spot::Placed(Place::Hash(own)) => lies(own.as_slice(), columns),
        Spot::Placed(Place::Modulus(own)) => is_in(*own, columns),
        Spot::Entire | Spot::None => false,
    }
}

/// Whether there is an agree set, and it lies in these columns.
pub fn agrees_in(columns: &[u32], agree: &Option<ColSet>) -> bool
    ensures { result ≡ agrees_in columns.now agree.now }
{
    match agree {
        None => false,
        Some(set) => set.lies_in(columns),
    }
}

#[tactic(auto, using(crate::proofs::CodeSteps::list_step, crate::proofs::CodeSteps::list_apart))]
fn same_list(columns: &[u32], others: &[u32]) -> bool
    ensures { result ≡ same_list columns.now others.now }
{
    if columns.len() != others.len() {
        return false;
    }
    for (i, column) in columns.iter().enumerate() {
        if *column != others[i] {
            return false;
        }
    }
    true
}

/// The same place, and it is solo, hash or modulus.
pub fn same_place(place: &Spot, other: &Spot) -> bool
    ensures { result ≡ same_place place.now other.now }
{
    match (place, other) {
        (Spot::Solo, Spot::Solo) => true,
        (Spot::Placed(Place::Hash(left)), Spot::Placed(Place::Hash(right))) => {
            same_list(left.as_slice(), right.as_slice())
        }
        (Spot::Placed(Place::Modulus(left)), Spot::Placed(Place::Modulus(right))) => {
            *left == *right
        }
        _ => false,
    }
}

#[tactic(auto, using(crate::proofs::CodeSteps::at_place_step))]
fn all_at_place(place: &Spot, places: &[Spot]) -> bool
    ensures { result ≡ all_at_place place.now places.now }
{
    for other in places {
        if !same_place(other, place) {
            return false;
        }
    }
    true
}

/// The place that all have, if it is solo, hash or modulus.
pub(crate) fn common_place(places: &[Spot]) -> Result<Spot, NoMemory>
    ensures { IfOk result (λ found. found ≡ common_place places.now) }
{
    match places.split_first() {
        None => Ok(Spot::None),
        Some((first, rest)) => {
            if same_place(first, first) && all_at_place(first, rest) {
                first.copied()
            } else {
                Ok(Spot::None)
            }
        }
    }
}

/// The place of each state.
#[tactic(auto, using(crate::proofs::CodeSteps::places_step))]
pub(crate) fn places(alloc: Global, states: &[State]) -> Result<Vec<Spot>, NoMemory>
    ensures { IfOk result (λ found. found.items ≡ places states.now) }
{
    let mut found = Vec::new(alloc);
    for state in states {
        found.push(state.place.copied()?)?;
    }
    Ok(found)
}

/// A place over the columns of other keys.
pub fn key_place(
    alloc: Global,
    keys: &KeyList,
    heads: &KeyList,
    place: &Spot,
) -> Result<Spot, NoMemory>
    ensures { IfOk result (λ found. found ≡ carried_place (pairs_of (cols keys.now) (cols heads.now)) place.now) }
{
    let columns = columns_of(alloc, keys)?;
    let others = columns_of(alloc, heads)?;
    let pairs = pairs_of(alloc, columns.as_slice(), others.as_slice())?;
    carried_place(alloc, pairs.as_slice(), place)
}

/// Each input's place, over the columns of an output with these keys.
#[tactic(auto, using(crate::proofs::CodeSteps::key_places_step, crate::proofs::CodeSteps::key_places_end))]
pub(crate) fn key_places(
    alloc: Global,
    keys: &[KeyList],
    heads: &KeyList,
    states: &[State],
) -> Result<Vec<Spot>, NoMemory>
    ensures { IfOk result (λ found. found.items ≡ key_places keys.now heads.now states.now) }
{
    let mut found = Vec::new(alloc);
    for (i, list) in keys.iter().enumerate() {
        if i == states.len() {
            return Ok(found);
        }
        found.push(key_place(alloc, list, heads, &states[i].place)?)?;
    }
    Ok(found)
}
