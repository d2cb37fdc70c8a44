//! Makes the operators by keys, and funnels.

ghost use Rattle.std.specs.Prelude.{◌≡◌, IfOk, [], get_or, length, true};
ghost use Rattle.ds_schema.specs.Rows.{cols};
ghost use Rattle.op_base.specs.Keyed.{get_keys};
ghost use Rattle.op_join.specs.Joining.{join_stream, join_suits};
ghost use Rattle.op_lookup.specs.Looked.{looked_stream, suits_lookup};
ghost use Rattle.op_match.specs.Captures.{capture_stream, capture_suits};
ghost use Rattle.op_match.specs.Merges.{merge_stream, merge_suits, merging};
ghost use Rattle.op_group.specs.Groups.{group_suits};
ghost use Rattle.flow_ops.specs.Keyed.{aggs_of, join_of};
ghost use Rattle.kind_streams.specs.OfKinds.{funnel_stream, group_stream};
ghost use Rattle.kind_streams.specs.Making.{CanGather, CanJoin, CanLookUp, CanMerge};

use crate::parts::{aggs_of, key_columns, keys_of, width_of};
use crate::{AnyCollector, AnyOperator};
use ds_value::{Copied, Items, NoMemory};
use flow_graph::{AggSpec, OpParts};
use op_base::{Missing, Operator};
use op_collect::{gather, ordered, sort_merge};
use op_group::{group_hashed, group_sorted};
use op_join::{Join, JoinKind, join};
use op_lookup::{Lookup, lookup};
use op_match::{Capture, Merger, capture, merger};
use std::alloc::Global;

pub(crate) fn group_by(
    alloc: Global,
    parts: &OpParts,
    hash: bool,
    results: &Items<AggSpec>,
) -> Result<AnyOperator, NoMemory>
    ensures stream { IfOk result (λ op. ⟦<AnyOperator as Operator>⟧.stream op ≡ group_stream (get_keys parts.now.keys 0) hash (aggs_of results.now parts.now.cols)) }
    ensures suits { IfOk result (λ op. ⟦<AnyOperator as Operator>⟧.suits op ≡ group_suits (get_keys parts.now.keys 0) (aggs_of results.now parts.now.cols)) }
    ensures stands { IfOk result (λ op. ⟦<AnyOperator as Operator>⟧.Stands op []) }
{
    let keys = keys_of(alloc, parts, 0)?;
    let aggs = aggs_of(alloc, results, &parts.cols)?;
    if hash {
        Ok(AnyOperator::GroupHashed(group_hashed(alloc, keys, aggs)?))
    } else {
        Ok(AnyOperator::GroupSorted(group_sorted(alloc, keys, aggs)?))
    }
}

pub(crate) fn join_by(
    alloc: Global,
    kind: JoinKind,
    parts: &OpParts,
    widths: &[u32],
) -> Result<Join, NoMemory>
    requires { CanJoin parts.now widths.now }
    ensures stream { IfOk result (λ op. ⟦<Join as Operator>⟧.stream op ≡ join_stream (join_of kind parts.now (get_or widths.now 0 0) (get_or widths.now 1 0))) }
    ensures suits { IfOk result (λ op. ⟦<Join as Operator>⟧.suits op ≡ join_suits (get_or widths.now 0 0) (get_or widths.now 1 0)) }
    ensures stands { IfOk result (λ op. ⟦<Join as Operator>⟧.Stands op []) }
{
    let left = keys_of(alloc, parts, 0)?;
    let right = keys_of(alloc, parts, 1)?;
    let widths = (width_of(widths, 0), width_of(widths, 1));
    let op = join(alloc, kind, left, right, widths)?;
    Ok(op)
}

pub(crate) fn lookup_by(
    alloc: Global,
    missing: Missing,
    parts: &OpParts,
    widths: &[u32],
) -> Result<Lookup, NoMemory>
    requires { CanLookUp parts.now widths.now }
    ensures stream { IfOk result (λ op. ⟦<Lookup as Operator>⟧.stream op ≡ looked_stream (cols (get_keys parts.now.keys 0)) (cols (get_keys parts.now.keys 1)) (get_or widths.now 1 0) missing) }
    ensures suits { IfOk result (λ op. ⟦<Lookup as Operator>⟧.suits op ≡ suits_lookup (cols (get_keys parts.now.keys 0)) (get_or widths.now 1 0)) }
    ensures stands { IfOk result (λ op. ⟦<Lookup as Operator>⟧.Stands op []) }
{
    let main = key_columns(alloc, parts, 0)?;
    let reference = key_columns(alloc, parts, 1)?;
    lookup(alloc, main, reference, width_of(widths, 1), missing)
}

pub(crate) fn merger_by(
    alloc: Global,
    keep: bool,
    reject: bool,
    parts: &OpParts,
    widths: &[u32],
) -> Result<Merger, NoMemory>
    requires { CanMerge parts.now widths.now }
    ensures stream { IfOk result (λ op. ⟦<Merger as Operator>⟧.stream op ≡ merge_stream (merging parts.now.keys widths.now keep reject)) }
    ensures suits { IfOk result (λ op. ⟦<Merger as Operator>⟧.suits op ≡ merge_suits widths.now) }
    ensures stands { IfOk result (λ op. ⟦<Merger as Operator>⟧.Stands op []) }
{
    let keys = parts.keys.copied()?;
    let widths = widths.to_vec(alloc)?;
    merger(alloc, keys.into_vec(), widths, keep, reject)
}

pub(crate) fn capture_by(alloc: Global, keep: bool, parts: &OpParts) -> Result<Capture, NoMemory>
    ensures stream { IfOk result (λ op. ⟦<Capture as Operator>⟧.stream op ≡ capture_stream (get_keys parts.now.keys 0) parts.now.cols keep) }
    ensures suits { IfOk result (λ op. ⟦<Capture as Operator>⟧.suits op ≡ capture_suits (get_keys parts.now.keys 0) parts.now.cols) }
    ensures stands { IfOk result (λ op. ⟦<Capture as Operator>⟧.Stands op []) }
{
    let keys = keys_of(alloc, parts, 0)?;
    let values = parts.cols.copied()?;
    capture(alloc, keys, values.into_vec(), keep)
}

pub(crate) fn funnel_by(
    alloc: Global,
    sequence: bool,
    parts: &OpParts,
    widths: &[u32],
) -> Result<AnyCollector, NoMemory>
    requires { CanGather (length widths.now) }
    ensures stream { IfOk result (λ op. ⟦<AnyCollector as Operator>⟧.stream op ≡ funnel_stream sequence (get_keys parts.now.keys 0) (length widths.now)) }
    ensures suits { IfOk result (λ op. ⟦<AnyCollector as Operator>⟧.suits op ≡ (λ feeds. true)) }
    ensures stands { IfOk result (λ op. ⟦<AnyCollector as Operator>⟧.Stands op []) }
{
    let inputs = widths.len() as u32;
    if sequence {
        return Ok(AnyCollector::Ordered(ordered(alloc, inputs)?));
    }
    let keys = keys_of(alloc, parts, 0)?;
    if keys.as_slice().is_empty() {
        Ok(AnyCollector::Gather(gather(alloc, inputs)?))
    } else {
        Ok(AnyCollector::SortMerge(sort_merge(alloc, inputs, keys)?))
    }
}
