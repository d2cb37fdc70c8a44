ghost use Rattle.std.specs.Prelude.{◌≡◌, OnOk, IfOk, true, []};
ghost use Rattle.ds_schema.specs.Schemas.{row_fits};
ghost use Rattle.op_base.specs.Emits.{Adds};
ghost use Rattle.op_base.specs.RowOperators.{filter_rule};
ghost use Rattle.op_row.specs.ByRow.{made, each_row};
ghost use Rattle.op_row.specs.Expressed.{filter_stream, with_rejects};
ghost use Rattle.op_row.specs.Judging.{judged};
ghost use Rattle.op_row.specs.Verdicts.{judged_as};

use crate::faulting::{kind_of, row_fault};
use ds_expr::{Arg, Typed, eval};
use ds_schema::Row;
use ds_value::NoMemory;
use op_base::{Emit, Fault, Operator, Want};
use std::alloc::Global;

/// What a test says of a row.
#[derive(Debug, Drop)]
pub enum Verdict {
    Yes,
    No,
    Fails(Fault),
}

/// The rows of which its test is true, and on a second output those of which it isn't.
#[derive(Debug, Drop)]
pub struct Filter {
    test: Typed,
    reject: bool,
    alloc: Global,
    over: bool,
}

fn judge(alloc: Global, test: &Typed, row: &Row) -> Result<Verdict, NoMemory>
    requires { row_fits test.now.fields row.now ≡ true }
    ensures { IfOk result (λ verdict. judged_as verdict ≡ judged test.now row.now) }
{
    match eval(alloc, test, row) {
        Ok(Arg::Truth(true)) => Ok(Verdict::Yes),
        Ok(_) => Ok(Verdict::No),
        Err(why) => {
            let kind = kind_of(why)?;
            let fields = test.schema().as_slice();
            Ok(Verdict::Fails(row_fault(alloc, fields, kind, row)?))
        }
    }
}

/// Sends a row where its verdict says.
fn send_judged(verdict: Verdict, reject: bool, row: Row, emit: &mut Emit) -> Result<(), NoMemory>
    ensures { OnOk result (Adds emit.old emit.new (made (filter_rule (λ r. judged_as verdict) reject) (with_rejects 1 reject) row)) }
{
    match verdict {
        Verdict::Yes => {
            emit.send(0, row)?;
            Ok(())
        }
        Verdict::No => {
            if reject {
                emit.send(1, row)?;
            }
            Ok(())
        }
        Verdict::Fails(fault) => {
            emit.fault(fault);
            Ok(())
        }
    }
}

impl Filter {
    pub(crate) fn new(alloc: Global, test: Typed, reject: bool) -> Filter
        ensures stream { ⟦<Filter as Operator>⟧.stream result ≡ filter_stream test reject }
        ensures suits { ⟦<Filter as Operator>⟧.suits result ≡ each_row (row_fits test.fields) }
        ensures stands { ⟦<Filter as Operator>⟧.Stands result [] }
    {
        Filter {
            test,
            reject,
            alloc,
            over: false,
        }
    }
}

impl Operator for Filter {
    ghost use Rattle.streams.specs.Streams.{ended};
    ghost use Rattle.ds_schema.specs.Schemas.{row_fits};
    ghost use Rattle.op_base.specs.RowOperators.{filter_rule};
    ghost use Rattle.op_row.specs.ByRow.{each_row};
    ghost use Rattle.op_row.specs.Expressed.{filter_stream, with_rejects};
    ghost use Rattle.op_row.specs.Judging.{judged};
    ghost use Rattle.op_row.specs.AreStreams.{by_row_is};

    ghost stream = { λ s. filter_stream s.test s.reject };

    ghost suits = { λ s. each_row (row_fits s.test.fields) };

    ghost Stands = { λ s feeds. s.over ≡ ended 0 feeds };

    ghost is_stream = { λ s. by_row_is (filter_rule (judged s.test) s.reject) (with_rejects 1 s.reject) };

    fn wants(&self) -> Want {
        if self.over {
            Want::Nothing
        } else {
            Want::Port(0)
        }
    }

    fn feed(&mut self, _port: u32, row: Row, emit: &mut Emit) -> Result<(), NoMemory> {
        let verdict = judge(self.alloc, &self.test, &row)?;
        send_judged(verdict, self.reject, row, emit)?;
        Ok(())
    }

    fn end(&mut self, _port: u32, _emit: &mut Emit) -> Result<(), NoMemory> {
        self.over = true;
        Ok(())
    }

    fn finish(&mut self, _emit: &mut Emit) -> Result<(), NoMemory> {
        Ok(())
    }
}
