//! Makes the operator of a kind.

ghost use Rattle.std.specs.Prelude.{IfOk};
ghost use Rattle.kind_streams.specs.Making.{CanMake, IsMade};

use crate::AnyOperator;
use crate::by_row::make_row_operator;
use crate::keyed::{capture_by, funnel_by, group_by, join_by, lookup_by, merger_by};
use crate::parts::keys_of;
use ds_value::NoMemory;
use flow_graph::{OpKind, OpParts};
use op_base::Operator;
use op_join::JoinKind;
use op_order::{remdup, tsort};
use std::alloc::Global;

/// The operator of a kind between imports and exports, by what its names stand for, the widths
/// of its inputs and the number of links that leave it. Its faults have no number yet: who runs
/// it puts that of the operator.
pub fn make_operator(
    alloc: Global,
    kind: &OpKind,
    parts: &OpParts,
    widths: &[u32],
    outs: u32,
) -> Result<AnyOperator, NoMemory>
    requires { CanMake kind.now parts.now widths.now }
    ensures { IfOk result (λ op. IsMade kind.now parts.now widths.now outs (⟦<AnyOperator as Operator>⟧.stream op) (⟦<AnyOperator as Operator>⟧.suits op) (⟦<AnyOperator as Operator>⟧.Stands op)) }
{
    match kind {
        OpKind::Copy
        | OpKind::Filter { .. }
        | OpKind::Transform { .. }
        | OpKind::Modify { .. }
        | OpKind::Switch { .. } => {
            Ok(AnyOperator::ByRow(make_row_operator(alloc, kind, parts, widths, outs)?))
        }
        OpKind::Tsort { .. } => Ok(AnyOperator::Tsort(tsort(alloc, keys_of(alloc, parts, 0)?)?)),
        OpKind::Remdup { last, .. } => {
            Ok(AnyOperator::Remdup(remdup(alloc, keys_of(alloc, parts, 0)?, *last)?))
        }
        OpKind::Group { hash, results, .. } => Ok(group_by(alloc, parts, *hash, results)?),
        OpKind::InnerJoin { .. } => {
            Ok(AnyOperator::Join(join_by(alloc, JoinKind::Inner, parts, widths)?))
        }
        OpKind::LeftOuterJoin { .. } => {
            Ok(AnyOperator::Join(join_by(alloc, JoinKind::Left, parts, widths)?))
        }
        OpKind::RightOuterJoin { .. } => {
            Ok(AnyOperator::Join(join_by(alloc, JoinKind::Right, parts, widths)?))
        }
        OpKind::FullOuterJoin { .. } => {
            Ok(AnyOperator::Join(join_by(alloc, JoinKind::Full, parts, widths)?))
        }
        OpKind::Merge {
            keepbad,
            reject,
            ..
        } => { Ok(AnyOperator::Merger(merger_by(alloc, *keepbad, *reject, parts, widths)?)) }
        OpKind::Lookup { missing, .. } => {
            Ok(AnyOperator::Lookup(lookup_by(alloc, *missing, parts, widths)?))
        }
        OpKind::Changecapture { keepcopy, .. } => {
            Ok(AnyOperator::Capture(capture_by(alloc, *keepcopy, parts)?))
        }
        OpKind::Funnel { sequence, .. } => {
            Ok(AnyOperator::Funnel(funnel_by(alloc, *sequence, parts, widths)?))
        }
        OpKind::Import { .. }
        | OpKind::Export { .. }
        | OpKind::Dsread { .. }
        | OpKind::Dswrite { .. } => { unreachable!() }
    }
}
