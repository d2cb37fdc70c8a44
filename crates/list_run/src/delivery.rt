//! What a producer's partitions put on a link, brought to its consumer's.

ghost use Rattle.std.specs.Prelude.{◌≡◌, ◌<◌, ◌^◌, ◌∷◌, [], All, IfOk, length, map};
ghost use Rattle.ds_schema.specs.Rows.{row_cmp};
ghost use Rattle.op_base.specs.Keyed.{arranged};
ghost use Rattle.op_base.specs.Lists.{in_turn, joined};
ghost use Rattle.op_collect.specs.Merged.{merged};
ghost use Rattle.flow_graph.specs.Runs.{Arrives, arranged_if};
ghost use Rattle.list_run.specs.Routed.{Joins, SuitsRoute, routed, delivered};

use crate::lanes::{Partitions, by_hash, by_remainder, join, round_robin, to_each};
use crate::work::sort_rows;
use ds_schema::{KeyList, Row};
use ds_value::{Items, NoMemory};
use flow_graph::{Choice, Route};
use run_collect::{merge_lists, take_turns};
use std::alloc::Global;

/// One partition.
pub(crate) fn one_partition(alloc: Global, rows: Items<Row>) -> Result<Partitions, NoMemory>
    ensures { IfOk result (λ got. got ≡ rows ∷ []) }
{
    let mut got = Items::new(alloc);
    got.push(rows)?;
    Ok(got)
}

/// One partition with all of the rows.
fn collect(alloc: Global, sent: Partitions) -> Result<Partitions, NoMemory>
    ensures { IfOk result (λ got. got ≡ joined sent ∷ []) }
{
    one_partition(alloc, join(alloc, sent)?)
}

/// One partition with a row of each producer in turn.
fn in_turn(alloc: Global, sent: Partitions) -> Result<Partitions, NoMemory>
    requires some { 0 < length sent }
    requires few { length sent < 2 ^ 32 }
    ensures { IfOk result (λ got. got ≡ in_turn sent ∷ []) }
{
    one_partition(alloc, take_turns(alloc, sent)?)
}

/// One partition with the merge of the producers' rows.
fn merge(alloc: Global, keys: &KeyList, sent: Partitions) -> Result<Partitions, NoMemory>
    requires some { 0 < length sent }
    requires few { length sent < 2 ^ 32 }
    ensures { IfOk result (λ got. got ≡ merged (row_cmp keys.now) sent ∷ []) }
{
    one_partition(alloc, merge_lists(alloc, keys.copied()?, sent)?)
}

fn bring(
    alloc: Global,
    route: &Route,
    sequential: bool,
    sent: Partitions,
    count: u32,
) -> Result<Partitions, NoMemory>
    requires some { 0 < count }
    requires joins { Joins sequential route.now (length sent) count }
    requires rows { All (All (SuitsRoute route.now)) sent }
    ensures { IfOk result (λ got. got ≡ routed sequential route.now count sent) }
{
    match route {
        Route::Same => Ok(sent),
        Route::RoundRobin => {
            if sequential {
                in_turn(alloc, sent)
            } else {
                round_robin(alloc, sent, count)
            }
        }
        Route::Hash(columns) => by_hash(alloc, columns, sent, count),
        Route::Modulus(column) => by_remainder(alloc, *column, sent, count),
        Route::Entire => to_each(alloc, sent, count),
        Route::Any | Route::Ordered => collect(alloc, sent),
        Route::Merge(keys) => merge(alloc, keys, sent),
    }
}

/// What comes at the partitions of the consumer by a route. Where the route leaves it open, the
/// rows of the first producer come first.
pub fn route_rows(
    alloc: Global,
    route: &Route,
    sequential: bool,
    sent: Partitions,
    count: u32,
) -> Result<Partitions, NoMemory>
    requires some { 0 < count }
    requires joins { Joins sequential route.now (length sent) count }
    requires rows { All (All (SuitsRoute route.now)) sent }
    ensures routed { IfOk result (λ got. got ≡ routed sequential route.now count sent) }
    ensures arrives { IfOk result (λ got. Arrives sequential route.now sent got) }
    ensures count { IfOk result (λ got. length got ≡ count) }
{
    let got = bring(alloc, route, sequential, sent, count)?;
    Ok(got)
}

/// Each partition in the order of the keys.
fn sort_each(alloc: Global, keys: &KeyList, lists: Partitions) -> Result<Partitions, NoMemory>
    ensures { IfOk result (λ sorted. sorted ≡ map (arranged keys.now) lists) }
{
    let mut sorted = Items::new(alloc);
    for rows in lists.into_vec() {
        sorted.push(sort_rows(alloc, keys.copied()?, rows)?)?;
    }
    Ok(sorted)
}

/// What the consumer has: the rows by the chosen route, sorted where a sort was chosen.
pub(crate) fn deliver(
    alloc: Global,
    choice: &Choice,
    sequential: bool,
    sent: Partitions,
    count: u32,
) -> Result<Partitions, NoMemory>
    requires some { 0 < count }
    requires joins { Joins sequential choice.now.method (length sent) count }
    requires rows { All (All (SuitsRoute choice.now.method)) sent }
    ensures { IfOk result (λ got. got ≡ delivered sequential choice.now count sent) }
{
    let got = route_rows(alloc, &choice.method, sequential, sent, count)?;
    match &choice.sort {
        None => Ok(got),
        Some(keys) => sort_each(alloc, keys, got),
    }
}
