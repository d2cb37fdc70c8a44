ghost use Rattle.std.specs.Prelude.{◌≡◌, false, IfOk};
ghost use Rattle.op_base.specs.Columns.{all_columns};
ghost use Rattle.flow_graph.specs.Columns.{set_of};
ghost use Rattle.flow_graph.specs.declared.route.Route.TheVariants as route;
ghost use Rattle.flow_graph.specs.declared.state.Spot.TheVariants as spot;
ghost use Rattle.flow_derive.specs.Derive.{settled, set_if, more, solo_sort, merged_sort, routed_state, or_filled, filled_agree, refined};

use crate::sorts::no_keys;
use ds_place::Place;
use ds_schema::KeyList;
use ds_value::{Copied, NoMemory};
use flow_graph::{ColSet, Route, Spot, State};
use std::alloc::Global;

/// The sort list after a route that brings rows of several partitions together in any order.
fn solo_sort(alloc: Global, place: &Spot, sort: &KeyList) -> Result<KeyList, NoMemory>
    ensures { IfOk result (λ found. found ≡ solo_sort place.now sort.now) }
{
    match place {
        Spot::Solo => sort.copied(),
        Spot::Placed(_) | Spot::Entire | Spot::None => Ok(no_keys(alloc)),
    }
}

/// And after a merge by keys.
fn merged_sort(place: &Spot, sort: &KeyList, by: &KeyList) -> Result<KeyList, NoMemory>
    ensures { IfOk result (λ found. found ≡ merged_sort place.now sort.now by.now) }
{
    match place {
        Spot::Solo => sort.copied(),
        Spot::Placed(_) | Spot::Entire | Spot::None => by.copied(),
    }
}

/// Rows as they come at one place, with the agree set that they had.
fn brought_to(alloc: Global, place: Spot, state: &State) -> Result<State, NoMemory>
    ensures { IfOk result (λ s. s ≡ record { agree = state.now.agree; place = place; sort = solo_sort state.now.place state.now.sort }) }
{
    Ok(State {
        agree: Copied::copied(&state.agree)?,
        place,
        sort: solo_sort(alloc, &state.place, &state.sort)?,
    })
}

fn agree_with(agree: &Option<ColSet>, columns: &[u32]) -> Result<Option<ColSet>, NoMemory>
    ensures { IfOk result (λ found. found ≡ set_if (more agree.now columns.now)) }
{
    match agree {
        None => Ok(None),
        Some(set) => Ok(Some(set.with(columns)?)),
    }
}

/// Rows as a repartition by some columns puts them.
#[tactic(auto, using(crate::proofs::Settled::set_twice))]
fn repartitioned(
    alloc: Global,
    place: Place,
    columns: &[u32],
    state: &State,
) -> Result<State, NoMemory>
    ensures { IfOk result (λ s. settled s ≡ settled (record { agree = more state.now.agree columns.now; place = spot.Placed place; sort = solo_sort state.now.place state.now.sort })) }
{
    Ok(State {
        agree: agree_with(&state.agree, columns)?,
        place: Spot::Placed(place),
        sort: solo_sort(alloc, &state.place, &state.sort)?,
    })
}

fn dealt(alloc: Global, sequential: bool, state: &State) -> Result<State, NoMemory>
    ensures { IfOk result (λ s. s ≡ routed_state sequential route.RoundRobin state.now) }
{
    if sequential {
        return brought_to(alloc, Spot::Solo, state);
    }
    Ok(State {
        agree: None,
        place: Spot::None,
        sort: solo_sort(alloc, &state.place, &state.sort)?,
    })
}

fn merged(state: &State, keys: &KeyList) -> Result<State, NoMemory>
    ensures { IfOk result (λ s. s ≡ record { agree = state.now.agree; place = spot.Solo; sort = merged_sort state.now.place state.now.sort keys.now }) }
{
    Ok(State {
        agree: Copied::copied(&state.agree)?,
        place: Spot::Solo,
        sort: merged_sort(&state.place, &state.sort, keys)?,
    })
}

/// The effect of a route, into a sequential consumer or not.
pub(crate) fn routed_state(
    alloc: Global,
    sequential: bool,
    route: &Route,
    state: &State,
) -> Result<State, NoMemory>
    ensures { IfOk result (λ s. settled s ≡ settled (routed_state sequential route.now state.now)) }
{
    match route {
        Route::Same => state.copied(),
        Route::RoundRobin => dealt(alloc, sequential, state),
        Route::Entire => brought_to(alloc, Spot::Entire, state),
        Route::Hash(columns) => {
            let place = Place::Hash(columns.copied()?);
            repartitioned(alloc, place, columns.as_slice(), state)
        }
        Route::Modulus(column) => {
            repartitioned(alloc, Place::Modulus(*column), &[*column], state)
        }
        Route::Any => brought_to(alloc, Spot::Solo, state),
        Route::Ordered => brought_to(alloc, Spot::Solo, state),
        Route::Merge(keys) => merged(state, keys),
    }
}

/// The columns below a number.
#[tactic(auto, using(crate::proofs::Settled::columns_more))]
pub(crate) fn all_columns(alloc: Global, width: u32) -> Result<Vec<u32>, NoMemory>
    ensures { IfOk result (λ columns. columns.items ≡ all_columns width) }
{
    let mut columns = Vec::new(alloc);
    for column in 0..width {
        columns.push(column)?;
    }
    Ok(columns)
}

fn all_set(alloc: Global, width: u32) -> Result<Option<ColSet>, NoMemory>
    ensures { IfOk result (λ set. set ≡ Some (set_of (all_columns width))) }
{
    let columns = all_columns(alloc, width)?;
    Ok(Some(ColSet::of(alloc, columns.as_slice())?))
}

fn set_or_all(
    alloc: Global,
    width: u32,
    agree: Option<ColSet>,
    place: &Spot,
) -> Result<Option<ColSet>, NoMemory>
    ensures { IfOk result (λ set. set ≡ set_if (or_filled agree (filled_agree width place.now))) }
{
    match agree {
        Some(set) => {
            let _ = set.as_slice();
            Ok(Some(set))
        }
        None => match place {
            Spot::None => Ok(None),
            Spot::Solo | Spot::Placed(_) | Spot::Entire => all_set(alloc, width),
        },
    }
}

/// A state of a link with this number of columns: where the rows have a place and agree in no
/// set, they agree in all columns.
pub(crate) fn refined(alloc: Global, width: u32, state: State) -> Result<State, NoMemory>
    ensures { IfOk result (λ s. s ≡ refined false width state) }
{
    let State { agree, place, sort } = state;
    let agree = set_or_all(alloc, width, agree, &place)?;
    Ok(State { agree, place, sort })
}
