ghost use Rattle.std.specs.Prelude.{◌≡◌, ◌<◌, ◌^◌, IfOk, true, length, []};
ghost use Rattle.ds_schema.specs.Schemas.{row_fits};
ghost use Rattle.expr_table.specs.declared.entry.Shape.TheVariants as shape;
ghost use Rattle.op_row.specs.ByRow.{copier_stream, modify_stream, each_row, has_columns};
ghost use Rattle.op_row.specs.Expressed.{filter_stream, switch_stream, transform_stream, input_fields, IsWhole, AreDistinct, AreSets};

use crate::{Copier, Filter, Modify, Set, Switcher, Transform};
use ds_expr::Typed;
use ds_value::NoMemory;
use op_base::Operator;
use std::alloc::Global;

/// Each row to each of some outputs.
pub fn copier(alloc: Global, outs: u32) -> Result<Copier, NoMemory>
    ensures stream { IfOk result (λ op. ⟦<Copier as Operator>⟧.stream op ≡ copier_stream outs) }
    ensures suits { IfOk result (λ op. ⟦<Copier as Operator>⟧.suits op ≡ (λ feeds. true)) }
    ensures stands { IfOk result (λ op. ⟦<Copier as Operator>⟧.Stands op []) }
{
    Ok(Copier::new(alloc, outs))
}

/// Rows of some of their columns, in the order in which these are given.
pub fn modify(alloc: Global, cols: Vec<u32>) -> Result<Modify, NoMemory>
    ensures stream { IfOk result (λ op. ⟦<Modify as Operator>⟧.stream op ≡ modify_stream cols.items) }
    ensures suits { IfOk result (λ op. ⟦<Modify as Operator>⟧.suits op ≡ each_row (has_columns cols.items)) }
    ensures stands { IfOk result (λ op. ⟦<Modify as Operator>⟧.Stands op []) }
{
    Ok(Modify::new(alloc, cols))
}

/// The rows of which a test is true. The others go to a second output with `reject`.
pub fn filter(alloc: Global, test: Typed, reject: bool) -> Result<Filter, NoMemory>
    requires { test.typing.shape ≡ shape.Truth }
    ensures stream { IfOk result (λ op. ⟦<Filter as Operator>⟧.stream op ≡ filter_stream test reject) }
    ensures suits { IfOk result (λ op. ⟦<Filter as Operator>⟧.suits op ≡ each_row (row_fits test.fields)) }
    ensures stands { IfOk result (λ op. ⟦<Filter as Operator>⟧.Stands op []) }
{
    Ok(Filter::new(alloc, test, reject))
}

/// Each row to the output of its number's case, counted from 0. The rows of no case go to one
/// more output with `reject`.
pub fn switcher(
    alloc: Global,
    on: Typed,
    cases: Vec<i64>,
    reject: bool,
) -> Result<Switcher, NoMemory>
    requires whole { IsWhole on }
    requires distinct { AreDistinct cases.items }
    requires few { length cases.items < 2 ^ 32 }
    ensures stream { IfOk result (λ op. ⟦<Switcher as Operator>⟧.stream op ≡ switch_stream on cases.items reject) }
    ensures suits { IfOk result (λ op. ⟦<Switcher as Operator>⟧.suits op ≡ each_row (row_fits on.fields)) }
    ensures stands { IfOk result (λ op. ⟦<Switcher as Operator>⟧.Stands op []) }
{
    Ok(Switcher::new(alloc, on, cases, reject))
}

/// Rows with columns that are computed from them, each from the row as it came. A row that
/// faults goes to a second output with `reject`.
pub fn transform(alloc: Global, sets: Vec<Set>, reject: bool) -> Result<Transform, NoMemory>
    requires { AreSets sets.items }
    ensures stream { IfOk result (λ op. ⟦<Transform as Operator>⟧.stream op ≡ transform_stream sets.items reject) }
    ensures suits { IfOk result (λ op. ⟦<Transform as Operator>⟧.suits op ≡ each_row (row_fits (input_fields sets.items))) }
    ensures stands { IfOk result (λ op. ⟦<Transform as Operator>⟧.Stands op []) }
{
    Ok(Transform::new(alloc, sets, reject))
}
