ghost use Rattle.std.specs.Prelude.{◌≡◌, IfOk, []};
ghost use Rattle.ds_schema.specs.Rows.{ways};
ghost use Rattle.op_join.specs.Joining.{AreBelow, joining, join_stream, join_suits};

use crate::columns::Columns;
use crate::layout::Layout;
use crate::{Join, JoinKind};
use ds_schema::KeyList;
use ds_value::NoMemory;
use op_base::Operator;
use std::alloc::Global;

/// Joins two inputs by keys; `widths` are the numbers of their columns.
pub fn join(
    alloc: Global,
    kind: JoinKind,
    left: KeyList,
    right: KeyList,
    widths: (u32, u32),
) -> Result<Join, NoMemory>
    requires ways { ways left ≡ ways right }
    requires left { AreBelow widths.0 left }
    requires right { AreBelow widths.1 right }
    ensures stream { IfOk result (λ op. ⟦<Join as Operator>⟧.stream op ≡ join_stream (joining kind left right widths.0 widths.1)) }
    ensures suits { IfOk result (λ op. ⟦<Join as Operator>⟧.suits op ≡ join_suits widths.0 widths.1) }
    ensures stands { IfOk result (λ op. ⟦<Join as Operator>⟧.Stands op []) }
{
    let layout = Layout {
        alloc,
        kind,
        left: Columns::new(alloc, left, widths.0)?,
        right: Columns::new(alloc, right, widths.1)?,
    };
    Ok(Join::new(alloc, layout))
}
