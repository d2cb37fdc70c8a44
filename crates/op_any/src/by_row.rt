//! Makes the operators that work row by row.

ghost use Rattle.std.specs.Prelude.{◌≡◌, IfOk, []};
ghost use Rattle.ds_schema.specs.Schemas.{row_fits};
ghost use Rattle.expr_table.specs.declared.entry.Shape.TheVariants as shape;
ghost use Rattle.op_row.specs.ByRow.{modify_stream, each_row, has_columns};
ghost use Rattle.op_row.specs.Expressed.{AreSets, filter_stream, input_fields, switch_stream, transform_stream};
ghost use Rattle.flow_graph.specs.RowRules.{first_expr, sets_of};
ghost use Rattle.kind_streams.specs.Making.{CanMake, CanSet, CanSwitch, HasOneExpr, IsByRow, IsMade};

use crate::RowOperator;
use crate::parts::{first_expr, sets_of};
use ds_expr::copy_typed;
use ds_value::{Copied, Items, NoMemory};
use flow_graph::{OpKind, OpParts, SetSpec};
use op_base::Operator;
use op_row::{Filter, Modify, Switcher, Transform, copier, filter, modify, switcher, transform};
use std::alloc::Global;

fn filter_by(alloc: Global, parts: &OpParts, reject: bool) -> Result<Filter, NoMemory>
    requires one { HasOneExpr parts.now }
    requires truth { (first_expr parts.now).typing.shape ≡ shape.Truth }
    ensures stream { IfOk result (λ op. ⟦<Filter as Operator>⟧.stream op ≡ filter_stream (first_expr parts.now) reject) }
    ensures suits { IfOk result (λ op. ⟦<Filter as Operator>⟧.suits op ≡ each_row (row_fits (first_expr parts.now).fields)) }
    ensures stands { IfOk result (λ op. ⟦<Filter as Operator>⟧.Stands op []) }
{
    let test = copy_typed(alloc, first_expr(parts))?;
    filter(alloc, test, reject)
}

fn switcher_by(
    alloc: Global,
    parts: &OpParts,
    cases: &Items<i64>,
    reject: bool,
) -> Result<Switcher, NoMemory>
    requires { CanSwitch cases.now parts.now }
    ensures stream { IfOk result (λ op. ⟦<Switcher as Operator>⟧.stream op ≡ switch_stream (first_expr parts.now) cases.now reject) }
    ensures suits { IfOk result (λ op. ⟦<Switcher as Operator>⟧.suits op ≡ each_row (row_fits (first_expr parts.now).fields)) }
    ensures stands { IfOk result (λ op. ⟦<Switcher as Operator>⟧.Stands op []) }
{
    let on = copy_typed(alloc, first_expr(parts))?;
    let numbers = cases.copied()?;
    let op = switcher(alloc, on, numbers.into_vec(), reject)?;
    Ok(op)
}

fn transform_by(
    alloc: Global,
    parts: &OpParts,
    set: &Items<SetSpec>,
    reject: bool,
) -> Result<Transform, NoMemory>
    requires { CanSet set.now parts.now }
    ensures stream { IfOk result (λ op. ⟦<Transform as Operator>⟧.stream op ≡ transform_stream (sets_of set.now parts.now.cols parts.now.exprs) reject) }
    ensures suits { IfOk result (λ op. ⟦<Transform as Operator>⟧.suits op ≡ each_row (row_fits (input_fields (sets_of set.now parts.now.cols parts.now.exprs)))) }
    ensures stands { IfOk result (λ op. ⟦<Transform as Operator>⟧.Stands op []) }
{
    let sets = sets_of(alloc, set, &parts.cols, &parts.exprs)?;
    transform(alloc, sets, reject)
}

fn modify_by(alloc: Global, parts: &OpParts) -> Result<Modify, NoMemory>
    ensures stream { IfOk result (λ op. ⟦<Modify as Operator>⟧.stream op ≡ modify_stream parts.now.cols) }
    ensures suits { IfOk result (λ op. ⟦<Modify as Operator>⟧.suits op ≡ each_row (has_columns parts.now.cols)) }
    ensures stands { IfOk result (λ op. ⟦<Modify as Operator>⟧.Stands op []) }
{
    let kept = parts.cols.copied()?;
    modify(alloc, kept.into_vec())
}

pub(crate) fn make_row_operator(
    alloc: Global,
    kind: &OpKind,
    parts: &OpParts,
    _widths: &[u32],
    outs: u32,
) -> Result<RowOperator, NoMemory>
    requires by_row { IsByRow kind.now }
    requires can { CanMake kind.now parts.now _widths.now }
    ensures { IfOk result (λ op. IsMade kind.now parts.now _widths.now outs (⟦<RowOperator as Operator>⟧.stream op) (⟦<RowOperator as Operator>⟧.suits op) (⟦<RowOperator as Operator>⟧.Stands op)) }
{
    match kind {
        OpKind::Copy => Ok(RowOperator::Copier(copier(alloc, outs)?)),
        OpKind::Filter { reject, .. } => {
            Ok(RowOperator::Filter(filter_by(alloc, parts, *reject)?))
        }
        OpKind::Transform { set, reject } => {
            Ok(RowOperator::Transform(transform_by(alloc, parts, set, *reject)?))
        }
        OpKind::Modify { .. } => Ok(RowOperator::Modify(modify_by(alloc, parts)?)),
        OpKind::Switch { cases, reject, .. } => {
            Ok(RowOperator::Switcher(switcher_by(alloc, parts, cases, *reject)?))
        }
        _ => unreachable!(),
    }
}
