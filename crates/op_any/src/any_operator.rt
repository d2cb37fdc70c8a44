ghost use Rattle.std.specs.Prelude.{◌≡◌};

use crate::{AnyCollector, RowOperator};
use ds_schema::Row;
use ds_value::NoMemory;
use op_base::{Emit, Operator, Want};
use op_group::{GroupHashed, GroupSorted};
use op_join::Join;
use op_lookup::Lookup;
use op_match::{Capture, Merger};
use op_order::{Remdup, Tsort};

/// An operator between imports and exports.
#[derive(Debug, Drop)]
pub enum AnyOperator {
    ByRow(RowOperator),
    Tsort(Tsort),
    Remdup(Remdup),
    GroupSorted(GroupSorted),
    GroupHashed(GroupHashed),
    Join(Join),
    Lookup(Lookup),
    Merger(Merger),
    Capture(Capture),
    Funnel(AnyCollector),
}

impl Operator for AnyOperator {
    ghost use Rattle.op_any.specs.AnyOperator.{by_type, are_streams};
    ghost use Rattle.op_any.specs.contracts.row_operator.RowOperatorOperator.TheImpl.Laws as by_row;
    ghost use Rattle.op_order.specs.contracts.sorter.TsortOperator.TheImpl.Laws as tsort;
    ghost use Rattle.op_order.specs.contracts.deduplicator.RemdupOperator.TheImpl.Laws as remdup;
    ghost use Rattle.op_group.specs.contracts.sorted.GroupSortedOperator.TheImpl.Laws as group_sorted;
    ghost use Rattle.op_group.specs.contracts.hashed.GroupHashedOperator.TheImpl.Laws as group_hashed;
    ghost use Rattle.op_join.specs.contracts.joiner.JoinOperator.TheImpl.Laws as join;
    ghost use Rattle.op_lookup.specs.contracts.looker.LookupOperator.TheImpl.Laws as lookup;
    ghost use Rattle.op_match.specs.contracts.merge.MergerOperator.TheImpl.Laws as merger;
    ghost use Rattle.op_match.specs.contracts.captures.CaptureOperator.TheImpl.Laws as capture;
    ghost use Rattle.op_any.specs.contracts.any_collector.AnyCollectorOperator.TheImpl.Laws as funnel;

    ghost stream = { by_type ⟦<RowOperator as Operator>⟧.stream ⟦<Tsort as Operator>⟧.stream ⟦<Remdup as Operator>⟧.stream ⟦<GroupSorted as Operator>⟧.stream ⟦<GroupHashed as Operator>⟧.stream ⟦<Join as Operator>⟧.stream ⟦<Lookup as Operator>⟧.stream ⟦<Merger as Operator>⟧.stream ⟦<Capture as Operator>⟧.stream ⟦<AnyCollector as Operator>⟧.stream };

    ghost suits = { by_type ⟦<RowOperator as Operator>⟧.suits ⟦<Tsort as Operator>⟧.suits ⟦<Remdup as Operator>⟧.suits ⟦<GroupSorted as Operator>⟧.suits ⟦<GroupHashed as Operator>⟧.suits ⟦<Join as Operator>⟧.suits ⟦<Lookup as Operator>⟧.suits ⟦<Merger as Operator>⟧.suits ⟦<Capture as Operator>⟧.suits ⟦<AnyCollector as Operator>⟧.suits };

    ghost Stands = { by_type ⟦<RowOperator as Operator>⟧.Stands ⟦<Tsort as Operator>⟧.Stands ⟦<Remdup as Operator>⟧.Stands ⟦<GroupSorted as Operator>⟧.Stands ⟦<GroupHashed as Operator>⟧.Stands ⟦<Join as Operator>⟧.Stands ⟦<Lookup as Operator>⟧.Stands ⟦<Merger as Operator>⟧.Stands ⟦<Capture as Operator>⟧.Stands ⟦<AnyCollector as Operator>⟧.Stands };

    ghost is_stream = { are_streams _ _ _ _ _ _ _ _ _ _ by_row.is_stream-law tsort.is_stream-law remdup.is_stream-law group_sorted.is_stream-law group_hashed.is_stream-law join.is_stream-law lookup.is_stream-law merger.is_stream-law capture.is_stream-law funnel.is_stream-law };

    fn wants(&self) -> Want {
        match self {
            AnyOperator::ByRow(op) => op.wants(),
            AnyOperator::Tsort(op) => op.wants(),
            AnyOperator::Remdup(op) => op.wants(),
            AnyOperator::GroupSorted(op) => op.wants(),
            AnyOperator::GroupHashed(op) => op.wants(),
            AnyOperator::Join(op) => op.wants(),
            AnyOperator::Lookup(op) => op.wants(),
            AnyOperator::Merger(op) => op.wants(),
            AnyOperator::Capture(op) => op.wants(),
            AnyOperator::Funnel(op) => op.wants(),
        }
    }

    fn feed(&mut self, port: u32, row: Row, emit: &mut Emit) -> Result<(), NoMemory> {
        match self {
            AnyOperator::ByRow(op) => op.feed(port, row, emit),
            AnyOperator::Tsort(op) => op.feed(port, row, emit),
            AnyOperator::Remdup(op) => op.feed(port, row, emit),
            AnyOperator::GroupSorted(op) => op.feed(port, row, emit),
            AnyOperator::GroupHashed(op) => op.feed(port, row, emit),
            AnyOperator::Join(op) => op.feed(port, row, emit),
            AnyOperator::Lookup(op) => op.feed(port, row, emit),
            AnyOperator::Merger(op) => op.feed(port, row, emit),
            AnyOperator::Capture(op) => op.feed(port, row, emit),
            AnyOperator::Funnel(op) => op.feed(port, row, emit),
        }
    }

    fn end(&mut self, port: u32, emit: &mut Emit) -> Result<(), NoMemory> {
        match self {
            AnyOperator::ByRow(op) => op.end(port, emit),
            AnyOperator::Tsort(op) => op.end(port, emit),
            AnyOperator::Remdup(op) => op.end(port, emit),
            AnyOperator::GroupSorted(op) => op.end(port, emit),
            AnyOperator::GroupHashed(op) => op.end(port, emit),
            AnyOperator::Join(op) => op.end(port, emit),
            AnyOperator::Lookup(op) => op.end(port, emit),
            AnyOperator::Merger(op) => op.end(port, emit),
            AnyOperator::Capture(op) => op.end(port, emit),
            AnyOperator::Funnel(op) => op.end(port, emit),
        }
    }

    fn finish(&mut self, emit: &mut Emit) -> Result<(), NoMemory> {
        match self {
            AnyOperator::ByRow(op) => op.finish(emit),
            AnyOperator::Tsort(op) => op.finish(emit),
            AnyOperator::Remdup(op) => op.finish(emit),
            AnyOperator::GroupSorted(op) => op.finish(emit),
            AnyOperator::GroupHashed(op) => op.finish(emit),
            AnyOperator::Join(op) => op.finish(emit),
            AnyOperator::Lookup(op) => op.finish(emit),
            AnyOperator::Merger(op) => op.finish(emit),
            AnyOperator::Capture(op) => op.finish(emit),
            AnyOperator::Funnel(op) => op.finish(emit),
        }
    }
}
