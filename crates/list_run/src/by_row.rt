//! Operators that work row by row, over the rows of a partition.

ghost use Rattle.std.specs.Prelude.{◌≡◌, ◌≤◌, ◌∷◌, [], true, IfOk, length};
ghost use Rattle.std.specs.List.{list_all};
ghost use Rattle.ds_schema.specs.Schemas.{row_fits};
ghost use Rattle.expr_table.specs.declared.entry.Shape.TheVariants as shape;
ghost use Rattle.op_base.specs.RowOperators.{filter_rule, switch_rule, modify_rule};
ghost use Rattle.op_row.specs.ByRow.{has_columns};
ghost use Rattle.op_row.specs.Expressed.{AreDistinct, AreSets, IsWhole, input_fields, sets_rule, with_rejects};
ghost use Rattle.op_row.specs.Judging.{judged, case_of};
ghost use Rattle.flow_graph.specs.RowRules.{first_expr, sets_of};
ghost use Rattle.list_run.specs.Worked.{Works};

use ds_expr::{Typed, copy_typed};
use ds_schema::Row;
use ds_value::{Copied, Items, NoMemory};
use flow_graph::{OpParts, SetSpec};
use op_base::{Emit, run_list};
use op_row::{Set, filter, modify, switcher, transform};
use std::alloc::Global;

pub(crate) fn run_filter(
    alloc: Global,
    test: &Typed,
    reject: bool,
    rows: Vec<Row>,
) -> Result<Emit, NoMemory>
    requires truth { test.now.typing.shape ≡ shape.Truth }
    requires rows { list_all (row_fits test.now.fields) rows.items ≡ true }
    ensures { IfOk result (λ emit. Works (filter_rule (judged test.now) reject) (with_rejects 1 reject) rows.items emit) }
{
    let copy = copy_typed(alloc, test)?;
    let mut op = filter(alloc, copy, reject)?;
    let emit = run_list(alloc, &mut op, rows)?;
    Ok(emit)
}

pub(crate) fn run_transform(
    alloc: Global,
    sets: Vec<Set>,
    reject: bool,
    rows: Vec<Row>,
) -> Result<Emit, NoMemory>
    requires sets { AreSets sets.items }
    requires rows { list_all (row_fits (input_fields sets.items)) rows.items ≡ true }
    ensures { IfOk result (λ emit. Works (sets_rule sets.items reject) (with_rejects 1 reject) rows.items emit) }
{
    let mut op = transform(alloc, sets, reject)?;
    let emit = run_list(alloc, &mut op, rows)?;
    Ok(emit)
}

pub(crate) fn run_modify(alloc: Global, cols: &Items<u32>, rows: Vec<Row>) -> Result<Emit, NoMemory>
    requires { list_all (has_columns cols.now) rows.items ≡ true }
    ensures { IfOk result (λ emit. Works (modify_rule cols.now) 1 rows.items emit) }
{
    let kept = cols.copied()?;
    let mut op = modify(alloc, kept.into_vec())?;
    let emit = run_list(alloc, &mut op, rows)?;
    Ok(emit)
}

pub(crate) fn run_switch(
    alloc: Global,
    on: &Typed,
    cases: &Items<i64>,
    reject: bool,
    rows: Vec<Row>,
) -> Result<Emit, NoMemory>
    requires whole { IsWhole on.now }
    requires distinct { AreDistinct cases.now }
    requires few { length cases.now ≤ 16 }
    requires rows { list_all (row_fits on.now.fields) rows.items ≡ true }
    ensures { IfOk result (λ emit. Works (switch_rule (length cases.now) (case_of on.now cases.now) reject) (with_rejects (length cases.now) reject) rows.items emit) }
{
    let copy = copy_typed(alloc, on)?;
    let numbers = cases.copied()?;
    let mut op = switcher(alloc, copy, numbers.into_vec(), reject)?;
    let emit = run_list(alloc, &mut op, rows)?;
    Ok(emit)
}

/// The one expression of a filter or a switch.
pub(crate) fn first_expr(parts: &OpParts) -> &Typed
    requires { parts.now.exprs ≡ first_expr parts.now ∷ [] }
    ensures { result.now ≡ first_expr parts.now }
{
    &parts.exprs.as_slice()[0]
}

/// The sets of a transform, each with its column and its expression.
pub(crate) fn sets_of(
    alloc: Global,
    set: &Items<SetSpec>,
    cols: &Items<u32>,
    exprs: &Items<Typed>,
) -> Result<Vec<Set>, NoMemory>
    requires cols { length cols.now ≡ length set.now }
    requires exprs { length exprs.now ≡ length set.now }
    ensures { IfOk result (λ sets. sets.items ≡ sets_of set.now cols.now exprs.now) }
{
    let set = set.as_slice();
    let mut sets = Vec::new(alloc);
    for i in 0..set.len() {
        sets.push(Set {
            col: cols.as_slice()[i],
            field: set[i].field.copied()?,
            expr: copy_typed(alloc, &exprs.as_slice()[i])?,
        })?;
    }
    Ok(sets)
}
