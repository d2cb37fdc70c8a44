ghost use Rattle.std.specs.Prelude.{◌≡◌, IfOk, []};
ghost use Rattle.op_group.specs.Groups.{sorted_stream, hashed_stream, group_suits};

use crate::{Agg, GroupHashed, GroupSorted};
use ds_schema::KeyList;
use ds_value::NoMemory;
use op_base::Operator;
use std::alloc::Global;

/// One row for each run of rows of one key value: the key values, then the results.
pub fn group_sorted(alloc: Global, keys: KeyList, sums: Vec<Agg>) -> Result<GroupSorted, NoMemory>
    ensures stream { IfOk result (λ op. ⟦<GroupSorted as Operator>⟧.stream op ≡ sorted_stream keys sums.items) }
    ensures suits { IfOk result (λ op. ⟦<GroupSorted as Operator>⟧.suits op ≡ group_suits keys sums.items) }
    ensures stands { IfOk result (λ op. ⟦<GroupSorted as Operator>⟧.Stands op []) }
{
    Ok(GroupSorted::new(alloc, keys, sums))
}

/// One row for each key value, in the order of first rows: the key values, then the results.
pub fn group_hashed(alloc: Global, keys: KeyList, sums: Vec<Agg>) -> Result<GroupHashed, NoMemory>
    ensures stream { IfOk result (λ op. ⟦<GroupHashed as Operator>⟧.stream op ≡ hashed_stream keys sums.items) }
    ensures suits { IfOk result (λ op. ⟦<GroupHashed as Operator>⟧.suits op ≡ group_suits keys sums.items) }
    ensures stands { IfOk result (λ op. ⟦<GroupHashed as Operator>⟧.Stands op []) }
{
    Ok(GroupHashed::new(alloc, keys, sums))
}
