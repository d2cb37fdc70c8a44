ghost use Rattle.std.specs.Prelude.{◌≡◌, ◌<◌, IfOk, []};
ghost use Rattle.streams.specs.Operators.{any_stream, merge_stream, ordered_stream, round_robin_stream};
ghost use Rattle.ds_schema.specs.Rows.{row_cmp};

use crate::{Gather, Ordered, Round, Sequence, SortMerge};
use ds_schema::KeyList;
use ds_value::NoMemory;
use op_base::Operator;
use std::alloc::Global;

/// The collector of one input after another.
pub fn ordered(_alloc: Global, n: u32) -> Result<Ordered, NoMemory>
    requires { 0 < n }
    ensures stream { IfOk result (λ op. ⟦<Ordered as Operator>⟧.stream op ≡ ordered_stream n) }
    ensures stands { IfOk result (λ op. ⟦<Ordered as Operator>⟧.Stands op []) }
{
    Ok(Ordered::new(n))
}

/// The collector of one row of each input in turn.
pub fn round(alloc: Global, n: u32) -> Result<Round, NoMemory>
    requires { 0 < n }
    ensures stream { IfOk result (λ op. ⟦<Round as Operator>⟧.stream op ≡ round_robin_stream n) }
    ensures stands { IfOk result (λ op. ⟦<Round as Operator>⟧.Stands op []) }
{
    Round::new(alloc, n)
}

/// The collector that merges its inputs by keys, and the funnel that does.
pub fn sort_merge(alloc: Global, n: u32, keys: KeyList) -> Result<SortMerge, NoMemory>
    requires { 0 < n }
    ensures stream { IfOk result (λ op. ⟦<SortMerge as Operator>⟧.stream op ≡ merge_stream n (row_cmp keys)) }
    ensures stands { IfOk result (λ op. ⟦<SortMerge as Operator>⟧.Stands op []) }
{
    SortMerge::new(alloc, n, keys)
}

/// The funnel of one input after another.
pub fn sequence(_alloc: Global, n: u32) -> Result<Sequence, NoMemory>
    requires { 0 < n }
    ensures stream { IfOk result (λ op. ⟦<Sequence as Operator>⟧.stream op ≡ ordered_stream n) }
    ensures stands { IfOk result (λ op. ⟦<Sequence as Operator>⟧.Stands op []) }
{
    Ok(Sequence::new(n))
}

/// The collector of rows as they come, and the funnel without an option.
pub fn gather(alloc: Global, n: u32) -> Result<Gather, NoMemory>
    requires { 0 < n }
    ensures stream { IfOk result (λ op. ⟦<Gather as Operator>⟧.stream op ≡ any_stream n) }
    ensures stands { IfOk result (λ op. ⟦<Gather as Operator>⟧.Stands op []) }
{
    Gather::new(alloc, n)
}
