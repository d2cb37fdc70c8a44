ghost use Rattle.std.specs.Prelude.{◌≡◌, ◌∷◌, OnOk, true, [], if◌then◌else◌};
ghost use Rattle.std.specs.List.{AllByRecursion};
ghost use Rattle.streams.specs.Streams.{sends, fails};
ghost use Rattle.ds_schema.specs.Schemas.{IsField, row_fits};
ghost use Rattle.op_base.specs.Emits.{Adds};
ghost use Rattle.op_row.specs.ByRow.{made, each_row};
ghost use Rattle.op_row.specs.Expressed.{AreSets, input_fields, sets_rule, transform_stream, with_rejects};
ghost use Rattle.op_row.specs.Judging.{row_fault};

use crate::faulting::{kind_of, row_fault};
use crate::setting::{Set, SetList, set_row, set_values};
use ds_schema::{Field, Row};
use ds_value::NoMemory;
use op_base::{Emit, FaultKind, Operator, Want};
use std::alloc::Global;

/// Rows with columns that are computed from them.
#[derive(Debug, Drop)]
pub struct Transform {
    sets: SetList,
    reject: bool,
    alloc: Global,
    over: bool,
}

/// The fields of the input; none where nothing is set.
fn input_fields(sets: &[Set]) -> &[Field]
    ensures fields { result.now ≡ input_fields sets.now }
    ensures each { AllByRecursion IsField result.now }
{
    match sets.first() {
        Some(set) => set.expr.schema().as_slice(),
        None => &[],
    }
}

/// Sends a row to the second output, or its fault.
fn send_failed(
    alloc: Global,
    fields: &[Field],
    reject: bool,
    kind: FaultKind,
    row: Row,
    emit: &mut Emit,
) -> Result<(), NoMemory>
    requires fields { AllByRecursion IsField fields.now }
    requires fits { row_fits fields.now row ≡ true }
    ensures { OnOk result (Adds emit.old emit.new (if reject then sends 1 row ∷ [] else fails (row_fault kind row) ∷ [])) }
{
    if reject {
        emit.send(1, row)?;
    } else {
        emit.fault(row_fault(alloc, fields, kind, &row)?);
    }
    Ok(())
}

/// Sends a row with what is set, or what its fault makes of it.
fn send_set(
    alloc: Global,
    sets: &[Set],
    reject: bool,
    row: Row,
    emit: &mut Emit,
) -> Result<(), NoMemory>
    requires sets { AreSets sets.now }
    requires fits { row_fits (input_fields sets.now) row ≡ true }
    ensures { OnOk result (Adds emit.old emit.new (made (sets_rule sets.now reject) (with_rejects 1 reject) row)) }
{
    match set_values(alloc, sets, &row) {
        Ok(values) => {
            let row = set_row(sets, values, row)?;
            emit.send(0, row)?;
            Ok(())
        }
        Err(why) => {
            let kind = kind_of(why)?;
            send_failed(alloc, input_fields(sets), reject, kind, row, emit)?;
            Ok(())
        }
    }
}

impl Transform {
    pub(crate) fn new(alloc: Global, sets: Vec<Set>, reject: bool) -> Transform
        requires { AreSets sets.items }
        ensures stream { ⟦<Transform as Operator>⟧.stream result ≡ transform_stream sets.items reject }
        ensures suits { ⟦<Transform as Operator>⟧.suits result ≡ each_row (row_fits (input_fields sets.items)) }
        ensures stands { ⟦<Transform as Operator>⟧.Stands result [] }
    {
        Transform {
            sets: SetList::from_vec(sets),
            reject,
            alloc,
            over: false,
        }
    }
}

impl Operator for Transform {
    ghost use Rattle.streams.specs.Streams.{ended};
    ghost use Rattle.ds_schema.specs.Schemas.{row_fits};
    ghost use Rattle.op_row.specs.ByRow.{each_row};
    ghost use Rattle.op_row.specs.Expressed.{input_fields, sets_rule, transform_stream, with_rejects};
    ghost use Rattle.op_row.specs.AreStreams.{by_row_is};

    ghost stream = { λ s. transform_stream s.sets s.reject };

    ghost suits = { λ s. each_row (row_fits (input_fields s.sets)) };

    ghost Stands = { λ s feeds. s.over ≡ ended 0 feeds };

    ghost is_stream = { λ s. by_row_is (sets_rule s.sets s.reject) (with_rejects 1 s.reject) };

    fn wants(&self) -> Want {
        if self.over {
            Want::Nothing
        } else {
            Want::Port(0)
        }
    }

    fn feed(&mut self, _port: u32, row: Row, emit: &mut Emit) -> Result<(), NoMemory> {
        send_set(self.alloc, self.sets.as_slice(), self.reject, row, emit)?;
        Ok(())
    }

    fn end(&mut self, _port: u32, _emit: &mut Emit) -> Result<(), NoMemory> {
        self.over = true;
        Ok(())
    }

    fn finish(&mut self, _emit: &mut Emit) -> Result<(), NoMemory> {
        Ok(())
    }
}
