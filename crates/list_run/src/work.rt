//! What operators make of the rows of one partition.

ghost use Rattle.std.specs.Prelude.{◌≡◌, ◌∷◌, [], IfOk, map};
ghost use Rattle.ds_schema.specs.Rows.{cols, ways};
ghost use Rattle.op_base.specs.Feeds.{by_runs};
ghost use Rattle.op_base.specs.Keyed.{arranged, get_keys};
ghost use Rattle.op_base.specs.Meanings.{one_row, input};
ghost use Rattle.list_run.specs.Made.{made};

use crate::lanes::Partitions;
use crate::whole::run_whole;
use ds_schema::{KeyList, Row};
use ds_value::{Items, NoMemory};
use flow_graph::{OpKind, OpParts};
use op_order::{remdup, tsort};
use std::alloc::Global;

/// The rows in the order of the keys.
pub fn sort_rows(alloc: Global, keys: KeyList, rows: Items<Row>) -> Result<Items<Row>, NoMemory>
    ensures { IfOk result (λ given. given ≡ arranged keys rows) }
{
    let given = run_whole(alloc, tsort(alloc, keys)?, rows)?;
    Ok(given)
}

/// The first row, or the last, of each run of rows of one key value.
pub fn keep_one(
    alloc: Global,
    keys: KeyList,
    last: bool,
    rows: Items<Row>,
) -> Result<Items<Row>, NoMemory>
    ensures { IfOk result (λ given. given ≡ by_runs (ways keys) (cols keys ∷ []) (λ v same. one_row last (input 0 same)) (rows ∷ [])) }
{
    let given = run_whole(alloc, remdup(alloc, keys, last)?, rows)?;
    Ok(given)
}

/// The keys of an input.
pub(crate) fn keys_of(alloc: Global, parts: &OpParts, input: usize) -> Result<KeyList, NoMemory>
    ensures { IfOk result (λ keys. keys ≡ get_keys parts.now.keys input) }
{
    match parts.keys.as_slice().get(input) {
        Some(keys) => keys.copied(),
        None => Ok(KeyList::from_vec(Vec::new(alloc))),
    }
}

/// What a copy, a tsort or a remdup makes of the rows.
fn pass(
    alloc: Global,
    kind: &OpKind,
    parts: &OpParts,
    rows: Items<Row>,
) -> Result<Items<Row>, NoMemory>
    ensures { IfOk result (λ given. given ≡ made kind.now parts.now.keys rows) }
{
    match kind {
        OpKind::Tsort { .. } => sort_rows(alloc, keys_of(alloc, parts, 0)?, rows),
        OpKind::Remdup { last, .. } => keep_one(alloc, keys_of(alloc, parts, 0)?, *last, rows),
        _ => Ok(rows),
    }
}

/// The same of each partition.
pub(crate) fn pass_each(
    alloc: Global,
    kind: &OpKind,
    parts: &OpParts,
    lists: Partitions,
) -> Result<Partitions, NoMemory>
    ensures { IfOk result (λ given. given ≡ map (made kind.now parts.now.keys) lists) }
{
    let mut given = Items::new(alloc);
    for rows in lists.into_vec() {
        given.push(pass(alloc, kind, parts, rows)?)?;
    }
    Ok(given)
}
