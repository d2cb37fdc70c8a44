ghost use Rattle.std.specs.Prelude.{◌≡◌, IfOk, []};
ghost use Rattle.op_order.specs.Ordered.{tsort_stream, remdup_stream};

use crate::{Remdup, Tsort};
use ds_schema::KeyList;
use ds_value::NoMemory;
use op_base::Operator;
use std::alloc::Global;

/// Sorts by the keys.
pub fn tsort(alloc: Global, keys: KeyList) -> Result<Tsort, NoMemory>
    ensures stream { IfOk result (λ op. ⟦<Tsort as Operator>⟧.stream op ≡ tsort_stream keys) }
    ensures stands { IfOk result (λ op. ⟦<Tsort as Operator>⟧.Stands op []) }
{
    Ok(Tsort::new(alloc, keys))
}

/// Keeps one row for each key value of sorted rows: the first, or the last.
pub fn remdup(alloc: Global, keys: KeyList, last: bool) -> Result<Remdup, NoMemory>
    ensures stream { IfOk result (λ op. ⟦<Remdup as Operator>⟧.stream op ≡ remdup_stream keys last) }
    ensures stands { IfOk result (λ op. ⟦<Remdup as Operator>⟧.Stands op []) }
{
    Ok(Remdup::new(alloc, keys, last))
}
