//! Operators that emit rows for some outputs, and faults, over the lists of partitions.

ghost use Rattle.std.specs.Prelude.{◌≡◌, OnOk, IfOk, length};
ghost use Rattle.op_base.specs.Meanings.{input};
ghost use Rattle.list_run.specs.Found.{Grows, found_by};
ghost use Rattle.list_run.specs.Worked.{AreMade, CanWork, HasWorked, IsWorked, SuitsLists, SuitsParts, outputs_of, ports_of};

use crate::by_row::{first_expr, run_filter, run_modify, run_switch, run_transform, sets_of};
use crate::grouping::{aggs_of, run_group};
use crate::held::take_at;
use crate::lanes::{Partitions, empty_lists};
use crate::matching::{look_up, match_rows};
use crate::partitions::{by_partition, take_partition};
use crate::tally::Tally;
use crate::work::keys_of;
use ds_schema::Row;
use ds_value::NoMemory;
use flow_graph::{OpKind, OpParts};
use op_base::Emit;
use op_join::JoinKind;
use std::alloc::Global;

/// The rows of the first list.
fn first_rows(alloc: Global, lists: Partitions) -> Vec<Row>
    ensures { result.items ≡ input 0 lists }
{
    let mut lists = lists.into_vec();
    take_at(alloc, &mut lists, 0).into_vec()
}

/// What an operator of one input emits for the rows of a partition.
fn work_alone(
    alloc: Global,
    kind: &OpKind,
    parts: &OpParts,
    widths: &[u32],
    lists: Partitions,
) -> Result<Emit, NoMemory>
    requires parts { SuitsParts kind.now parts.now widths.now }
    requires alone { ports_of kind.now ≡ 1 }
    requires one { length lists ≡ 1 }
    requires rows { SuitsLists kind.now parts.now widths.now lists }
    ensures { IfOk result (λ emit. HasWorked kind.now parts.now widths.now lists emit) }
{
    let rows = first_rows(alloc, lists);
    match kind {
        OpKind::Filter { reject, .. } => run_filter(alloc, first_expr(parts), *reject, rows),
        OpKind::Transform { set, reject } => {
            let sets = sets_of(alloc, set, &parts.cols, &parts.exprs)?;
            run_transform(alloc, sets, *reject, rows)
        }
        OpKind::Modify { .. } => run_modify(alloc, &parts.cols, rows),
        OpKind::Switch { cases, reject, .. } => {
            run_switch(alloc, first_expr(parts), cases, *reject, rows)
        }
        OpKind::Group { hash, results, .. } => {
            let keys = keys_of(alloc, parts, 0)?;
            let aggs = aggs_of(alloc, results, &parts.cols)?;
            run_group(alloc, keys, aggs, *hash, rows)
        }
        _ => unreachable!(),
    }
}

/// What an operator emits for the lists of one partition, by port.
fn work(
    alloc: Global,
    kind: &OpKind,
    parts: &OpParts,
    widths: &[u32],
    lists: Partitions,
) -> Result<Emit, NoMemory>
    requires parts { SuitsParts kind.now parts.now widths.now }
    requires ports { length lists ≡ ports_of kind.now }
    requires rows { SuitsLists kind.now parts.now widths.now lists }
    ensures { IfOk result (λ emit. HasWorked kind.now parts.now widths.now lists emit) }
{
    match kind {
        OpKind::InnerJoin { .. } => match_rows(alloc, JoinKind::Inner, parts, widths, lists),
        OpKind::LeftOuterJoin { .. } => match_rows(alloc, JoinKind::Left, parts, widths, lists),
        OpKind::RightOuterJoin { .. } => match_rows(alloc, JoinKind::Right, parts, widths, lists),
        OpKind::FullOuterJoin { .. } => match_rows(alloc, JoinKind::Full, parts, widths, lists),
        OpKind::Lookup { missing, .. } => look_up(alloc, *missing, parts, widths, lists),
        OpKind::Filter { .. }
        | OpKind::Transform { .. }
        | OpKind::Modify { .. }
        | OpKind::Switch { .. }
        | OpKind::Group { .. } => work_alone(alloc, kind, parts, widths, lists),
        _ => unreachable!(),
    }
}

/// How many lists of rows the operator gives. A list behind the outputs of a filter, a transform
/// or a lookup without rejects, and the last one of a switch, stays empty.
fn outputs_of(kind: &OpKind) -> usize
    requires { IsWorked kind.now }
    ensures { result ≡ outputs_of kind.now }
{
    match kind {
        OpKind::Filter { .. } | OpKind::Transform { .. } | OpKind::Lookup { .. } => 2,
        OpKind::Switch { cases, .. } => cases.as_slice().len() + 2,
        _ => 1,
    }
}

/// What an operator makes of the lists of each partition, by output. Its faults are tallied.
pub(crate) fn work_on_each(
    alloc: Global,
    op: u32,
    kind: &OpKind,
    parts: &OpParts,
    widths: &[u32],
    inputs: Vec<Partitions>,
    tally: &mut Tally,
) -> Result<Vec<Partitions>, NoMemory>
    requires worked { IsWorked kind.now }
    requires can { CanWork kind.now parts.now widths.now inputs.items }
    ensures made { IfOk result (λ outs. AreMade op kind.now parts.now widths.now inputs.items outs.items) }
    ensures found { OnOk result (Grows tally.old tally.new (found_by op kind.now parts.now widths.now inputs.items)) }
{
    let mut outs = empty_lists(alloc, outputs_of(kind))?;
    let slices = by_partition(alloc, inputs)?;
    for lists in slices {
        let emit = work(alloc, kind, parts, widths, lists)?;
        take_partition(alloc, emit.sent, &mut outs)?;
        tally.add(op, emit.faults, emit.least);
    }
    Ok(outs)
}
