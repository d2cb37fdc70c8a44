ghost use Rattle.std.specs.Prelude.{◌≡◌};

use ds_schema::Row;
use ds_value::NoMemory;
use op_base::{Emit, Operator, Want};
use op_collect::{Gather, Ordered, Round, SortMerge};

/// A collector, or a funnel.
#[derive(Debug, Drop)]
pub enum AnyCollector {
    Gather(Gather),
    Ordered(Ordered),
    Round(Round),
    SortMerge(SortMerge),
}

impl Operator for AnyCollector {
    ghost use Rattle.op_any.specs.AnyCollector.{by_type, are_streams};
    ghost use Rattle.op_collect.specs.contracts.any_order.GatherOperator.TheImpl.Laws as gather;
    ghost use Rattle.op_collect.specs.contracts.in_order.OrderedOperator.TheImpl.Laws as ordered;
    ghost use Rattle.op_collect.specs.contracts.in_turn.RoundOperator.TheImpl.Laws as round;
    ghost use Rattle.op_collect.specs.contracts.merging.SortMergeOperator.TheImpl.Laws as merge;

    ghost stream = { by_type ⟦<Gather as Operator>⟧.stream ⟦<Ordered as Operator>⟧.stream ⟦<Round as Operator>⟧.stream ⟦<SortMerge as Operator>⟧.stream };

    ghost suits = { by_type ⟦<Gather as Operator>⟧.suits ⟦<Ordered as Operator>⟧.suits ⟦<Round as Operator>⟧.suits ⟦<SortMerge as Operator>⟧.suits };

    ghost Stands = { by_type ⟦<Gather as Operator>⟧.Stands ⟦<Ordered as Operator>⟧.Stands ⟦<Round as Operator>⟧.Stands ⟦<SortMerge as Operator>⟧.Stands };

    ghost is_stream = { are_streams _ _ _ _ gather.is_stream-law ordered.is_stream-law round.is_stream-law merge.is_stream-law };

    fn wants(&self) -> Want {
        match self {
            AnyCollector::Gather(op) => op.wants(),
            AnyCollector::Ordered(op) => op.wants(),
            AnyCollector::Round(op) => op.wants(),
            AnyCollector::SortMerge(op) => op.wants(),
        }
    }

    fn feed(&mut self, port: u32, row: Row, emit: &mut Emit) -> Result<(), NoMemory> {
        match self {
            AnyCollector::Gather(op) => op.feed(port, row, emit),
            AnyCollector::Ordered(op) => op.feed(port, row, emit),
            AnyCollector::Round(op) => op.feed(port, row, emit),
            AnyCollector::SortMerge(op) => op.feed(port, row, emit),
        }
    }

    fn end(&mut self, port: u32, emit: &mut Emit) -> Result<(), NoMemory> {
        match self {
            AnyCollector::Gather(op) => op.end(port, emit),
            AnyCollector::Ordered(op) => op.end(port, emit),
            AnyCollector::Round(op) => op.end(port, emit),
            AnyCollector::SortMerge(op) => op.end(port, emit),
        }
    }

    fn finish(&mut self, emit: &mut Emit) -> Result<(), NoMemory> {
        match self {
            AnyCollector::Gather(op) => op.finish(emit),
            AnyCollector::Ordered(op) => op.finish(emit),
            AnyCollector::Round(op) => op.finish(emit),
            AnyCollector::SortMerge(op) => op.finish(emit),
        }
    }
}
