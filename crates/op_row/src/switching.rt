ghost use Rattle.std.specs.Prelude.{◌≡◌, ◌<◌, ◌^◌, OnOk, IfOk, true, length, []};
ghost use Rattle.ds_schema.specs.Schemas.{row_fits};
ghost use Rattle.op_base.specs.Emits.{Adds};
ghost use Rattle.op_base.specs.RowOperators.{switch_rule};
ghost use Rattle.op_row.specs.ByRow.{made, each_row};
ghost use Rattle.op_row.specs.Expressed.{switch_stream, with_rejects};
ghost use Rattle.op_row.specs.Judging.{case_of, case_with, case_at};
ghost use Rattle.op_row.specs.Verdicts.{case_as, IsAmong};

use crate::faulting::{kind_of, row_fault};
use ds_expr::{Arg, Typed, eval};
use ds_schema::Row;
use ds_value::NoMemory;
use op_base::{Emit, Fault, Operator, Want};
use std::alloc::Global;

/// Which of the cases a row is.
#[derive(Debug, Drop)]
pub enum Placing {
    Case(u32),
    Other,
    Fails(Fault),
}

/// Each row to the output of its case. The rows of none go to one more output, or nowhere.
#[derive(Debug, Drop)]
pub struct Switcher {
    on: Typed,
    cases: Vec<i64>,
    reject: bool,
    alloc: Global,
    over: bool,
    ghost few: { length cases.items < 2 ^ 32 },
}

fn find(cases: &[i64], number: i128) -> Placing
    requires { length cases.now < 2 ^ 32 }
    ensures case { case_as result ≡ case_at number 0 cases.now }
    ensures among { IsAmong (length cases.now) result }
{
    for (i, case) in cases.iter().enumerate() {
        if i128::from(*case) == number {
            return Placing::Case(i as u32);
        }
    }
    Placing::Other
}

fn find_value(cases: &[i64], value: Arg) -> Placing
    requires { length cases.now < 2 ^ 32 }
    ensures case { case_as result ≡ case_with cases.now value }
    ensures among { IsAmong (length cases.now) result }
{
    match value {
        Arg::Num(number) => find(cases, number),
        _ => Placing::Other,
    }
}

fn place(alloc: Global, on: &Typed, cases: &[i64], row: &Row) -> Result<Placing, NoMemory>
    requires few { length cases.now < 2 ^ 32 }
    requires fits { row_fits on.now.fields row.now ≡ true }
    ensures case { IfOk result (λ place. case_as place ≡ case_of on.now cases.now row.now) }
    ensures among { IfOk result (IsAmong (length cases.now)) }
{
    match eval(alloc, on, row) {
        Ok(value) => Ok(find_value(cases, value)),
        Err(why) => {
            let kind = kind_of(why)?;
            let fields = on.schema().as_slice();
            Ok(Placing::Fails(row_fault(alloc, fields, kind, row)?))
        }
    }
}

/// Sends a row where its place says.
fn send_placed(
    place: Placing,
    cases: u32,
    reject: bool,
    row: Row,
    emit: &mut Emit,
) -> Result<(), NoMemory>
    requires { IsAmong cases place }
    ensures { OnOk result (Adds emit.old emit.new (made (switch_rule cases (λ r. case_as place) reject) (with_rejects cases reject) row)) }
{
    match place {
        Placing::Case(i) => {
            emit.send(i, row)?;
            Ok(())
        }
        Placing::Other => {
            if reject {
                emit.send(cases, row)?;
            }
            Ok(())
        }
        Placing::Fails(fault) => {
            emit.fault(fault);
            Ok(())
        }
    }
}

impl Switcher {
    pub(crate) fn new(alloc: Global, on: Typed, cases: Vec<i64>, reject: bool) -> Switcher
        requires { length cases.items < 2 ^ 32 }
        ensures stream { ⟦<Switcher as Operator>⟧.stream result ≡ switch_stream on cases.items reject }
        ensures suits { ⟦<Switcher as Operator>⟧.suits result ≡ each_row (row_fits on.fields) }
        ensures stands { ⟦<Switcher as Operator>⟧.Stands result [] }
    {
        Switcher {
            on,
            cases,
            reject,
            alloc,
            over: false,
        }
    }
}

impl Operator for Switcher {
    ghost use Rattle.streams.specs.Streams.{ended};
    ghost use Rattle.ds_schema.specs.Schemas.{row_fits};
    ghost use Rattle.op_base.specs.RowOperators.{switch_rule};
    ghost use Rattle.op_row.specs.ByRow.{each_row};
    ghost use Rattle.op_row.specs.Expressed.{switch_stream, with_rejects};
    ghost use Rattle.op_row.specs.Judging.{case_of};
    ghost use Rattle.op_row.specs.AreStreams.{by_row_is};

    ghost stream = { λ s. switch_stream s.on s.cases.items s.reject };

    ghost suits = { λ s. each_row (row_fits s.on.fields) };

    ghost Stands = { λ s feeds. s.over ≡ ended 0 feeds };

    ghost is_stream = { λ s. by_row_is (switch_rule (length s.cases.items) (case_of s.on s.cases.items) s.reject) (with_rejects (length s.cases.items) s.reject) };

    fn wants(&self) -> Want {
        if self.over {
            Want::Nothing
        } else {
            Want::Port(0)
        }
    }

    fn feed(&mut self, _port: u32, row: Row, emit: &mut Emit) -> Result<(), NoMemory> {
        let cases = self.cases.as_slice();
        let place = place(self.alloc, &self.on, cases, &row)?;
        send_placed(place, cases.len() as u32, self.reject, row, emit)?;
        Ok(())
    }

    fn end(&mut self, _port: u32, _emit: &mut Emit) -> Result<(), NoMemory> {
        self.over = true;
        Ok(())
    }

    fn finish(&mut self, _emit: &mut Emit) -> Result<(), NoMemory> {
        Ok(())
    }
}
