ghost use Rattle.std.specs.Prelude.{◌≡◌};

use ds_schema::Row;
use ds_value::NoMemory;
use op_base::{Emit, Operator, Want};
use op_row::{Copier, Filter, Modify, Switcher, Transform};

/// An operator that works row by row.
#[derive(Debug, Drop)]
pub enum RowOperator {
    Copier(Copier),
    Filter(Filter),
    Transform(Transform),
    Modify(Modify),
    Switcher(Switcher),
}

impl Operator for RowOperator {
    ghost use Rattle.op_any.specs.RowOperator.{by_type, are_streams};
    ghost use Rattle.op_row.specs.contracts.copying.CopierOperator.TheImpl.Laws as copier;
    ghost use Rattle.op_row.specs.contracts.sifting.FilterOperator.TheImpl.Laws as filter;
    ghost use Rattle.op_row.specs.contracts.transforming.TransformOperator.TheImpl.Laws as transform;
    ghost use Rattle.op_row.specs.contracts.keeping.ModifyOperator.TheImpl.Laws as modify;
    ghost use Rattle.op_row.specs.contracts.switching.SwitcherOperator.TheImpl.Laws as switcher;

    ghost stream = { by_type ⟦<Copier as Operator>⟧.stream ⟦<Filter as Operator>⟧.stream ⟦<Transform as Operator>⟧.stream ⟦<Modify as Operator>⟧.stream ⟦<Switcher as Operator>⟧.stream };

    ghost suits = { by_type ⟦<Copier as Operator>⟧.suits ⟦<Filter as Operator>⟧.suits ⟦<Transform as Operator>⟧.suits ⟦<Modify as Operator>⟧.suits ⟦<Switcher as Operator>⟧.suits };

    ghost Stands = { by_type ⟦<Copier as Operator>⟧.Stands ⟦<Filter as Operator>⟧.Stands ⟦<Transform as Operator>⟧.Stands ⟦<Modify as Operator>⟧.Stands ⟦<Switcher as Operator>⟧.Stands };

    ghost is_stream = { are_streams _ _ _ _ _ copier.is_stream-law filter.is_stream-law transform.is_stream-law modify.is_stream-law switcher.is_stream-law };

    fn wants(&self) -> Want {
        match self {
            RowOperator::Copier(op) => op.wants(),
            RowOperator::Filter(op) => op.wants(),
            RowOperator::Transform(op) => op.wants(),
            RowOperator::Modify(op) => op.wants(),
            RowOperator::Switcher(op) => op.wants(),
        }
    }

    fn feed(&mut self, port: u32, row: Row, emit: &mut Emit) -> Result<(), NoMemory> {
        match self {
            RowOperator::Copier(op) => op.feed(port, row, emit),
            RowOperator::Filter(op) => op.feed(port, row, emit),
            RowOperator::Transform(op) => op.feed(port, row, emit),
            RowOperator::Modify(op) => op.feed(port, row, emit),
            RowOperator::Switcher(op) => op.feed(port, row, emit),
        }
    }

    fn end(&mut self, port: u32, emit: &mut Emit) -> Result<(), NoMemory> {
        match self {
            RowOperator::Copier(op) => op.end(port, emit),
            RowOperator::Filter(op) => op.end(port, emit),
            RowOperator::Transform(op) => op.end(port, emit),
            RowOperator::Modify(op) => op.end(port, emit),
            RowOperator::Switcher(op) => op.end(port, emit),
        }
    }

    fn finish(&mut self, emit: &mut Emit) -> Result<(), NoMemory> {
        match self {
            RowOperator::Copier(op) => op.finish(emit),
            RowOperator::Filter(op) => op.finish(emit),
            RowOperator::Transform(op) => op.finish(emit),
            RowOperator::Modify(op) => op.finish(emit),
            RowOperator::Switcher(op) => op.finish(emit),
        }
    }
}
