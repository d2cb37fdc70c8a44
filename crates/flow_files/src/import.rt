//! Reading the lines of a file as rows.

ghost use Rattle.std.specs.Prelude.{◌≡◌, ◌<◌, [], true, false, IsTrue, IfOk, OnOk, Ok, Err};
ghost use Rattle.ds_port.specs.Causes.{HasCause};
ghost use Rattle.ds_text.specs.Forms.{FormFits};
ghost use Rattle.ds_text.specs.Readers.{remaining};
ghost use Rattle.flow_files.specs.Lines.{AllFit, AreOfLines, Imports, bad_record, line_row};
ghost use Rattle.op_base.specs.Meanings.{bad};
ghost use Rattle.flow_files.specs.Steps.{Adds, Takes, Steps, Ends, TakesAll, AreFew};

use crate::fault::{FileFault, bad_record, file_too_long, line_row};
use crate::tally::Tally;
use ds_port::Source;
use ds_schema::{Row, Schema};
use ds_text::{Form, LineEnd, LineFault, Lines, RecordFault, read_record};
use ds_value::{Bytes, Items, NoMemory};
use std::alloc::Global;

/// What an import has of a file: the rows of the good lines, and a row of the bytes of each bad
/// line where bad lines are rejected.
#[derive(Drop)]
pub struct Imported {
    pub rows: Items<Row>,
    pub rejected: Items<Row>,
}

/// How far an import has come: the number of the last line, the line, and the rows.
#[derive(Drop)]
pub struct Progress {
    number: u64,
    line: Bytes,
    rows: Vec<Row>,
    rejected: Vec<Row>,
}

/// Takes a bad line: it is rejected, or its fault is counted.
fn take_bad(
    alloc: Global,
    op: u32,
    rejects: bool,
    run: &mut Progress,
    tally: &mut Tally,
) -> Result<(), NoMemory>
    ensures adds { OnOk result (Adds rejects (bad (line_row run.old.line) (bad_record op run.old.number run.old.line)) run.old run.new tally.old tally.new) }
    ensures number { run.new.number ≡ run.old.number }
    ensures rows { run.new.rows ≡ run.old.rows }
    ensures lines { AreOfLines run.old.rejected.items → OnOk result (AreOfLines run.new.rejected.items) }
    ensures none { rejects ≡ false → run.new.rejected ≡ run.old.rejected }
{
    if rejects {
        run.rejected.push(line_row(alloc, run.line.as_slice())?)?;
    } else {
        tally.add(bad_record(alloc, op, run.number, run.line.as_slice())?);
    }
    Ok(())
}

/// Takes the line: its row goes behind the others, or it is bad.
fn take_line(
    alloc: Global,
    op: u32,
    rejects: bool,
    schema: &Schema,
    form: &Form,
    run: &mut Progress,
    tally: &mut Tally,
) -> Result<(), NoMemory>
    requires { FormFits schema.now form.now }
    ensures takes { OnOk result (Takes form.now schema.now op rejects run.old.line run.old run.new tally.old tally.new) }
    ensures fit { AllFit schema.now run.old.rows.items → OnOk result (AllFit schema.now run.new.rows.items) }
    ensures lines { AreOfLines run.old.rejected.items → OnOk result (AreOfLines run.new.rejected.items) }
    ensures none { rejects ≡ false → run.new.rejected ≡ run.old.rejected }
{
    match read_record(alloc, schema, form, run.line.as_slice()) {
        Ok(row) => {
            run.rows.push(row)?;
            Ok(())
        }
        Err(RecordFault::Bad) => take_bad(alloc, op, rejects, run, tally),
        Err(RecordFault::Memory) => Err(NoMemory),
    }
}

/// Takes the next line, and answers whether there was one.
fn step<S: Source>(
    alloc: Global,
    op: u32,
    rejects: bool,
    schema: &Schema,
    form: &Form,
    lines: &mut Lines<S>,
    run: &mut Progress,
    tally: &mut Tally,
) -> Result<bool, FileFault>
    requires { FormFits schema.now form.now }
    ensures more { IsTrue S.tells → result ≡ Ok true → Steps form.now schema.now op rejects (remaining lines.old) (remaining lines.new) run.old run.new tally.old tally.new }
    ensures ended { IsTrue S.tells → result ≡ Ok false → Ends op (remaining lines.old) run.old run.new tally.old tally.new }
    ensures fit { AllFit schema.now run.old.rows.items → OnOk result (AllFit schema.now run.new.rows.items) }
    ensures lines { AreOfLines run.old.rejected.items → OnOk result (AreOfLines run.new.rejected.items) }
    ensures none { rejects ≡ false → run.new.rejected ≡ run.old.rejected }
    ensures shorter { result ≡ Ok true → lines.new.room < lines.old.room }
    ensures cause { HasCause lines.old.faults lines.new.faults (result ≡ Err FileFault.Device) }
{
    match lines.next_line(&mut run.line) {
        Ok(LineEnd::Line) => {}
        Ok(LineEnd::End) => return Ok(false),
        Err(LineFault::FileTooLong) => {
            tally.add(file_too_long(alloc, op));
            return Ok(false);
        }
        Err(LineFault::Device) => return Err(FileFault::Device),
        Err(LineFault::Memory) => return Err(FileFault::Memory),
    }
    run.number = run.number.saturating_add(1);
    match take_line(alloc, op, rejects, schema, form, run, tally) {
        Ok(()) => Ok(true),
        Err(_) => Err(FileFault::Memory),
    }
}

/// The rows of the lines that are left.
fn read_rows<S: Source>(
    alloc: Global,
    op: u32,
    rejects: bool,
    schema: &Schema,
    form: &Form,
    lines: &mut Lines<S>,
    tally: &mut Tally,
) -> Result<Imported, FileFault>
    requires { FormFits schema.now form.now }
    ensures told { IsTrue S.tells → AreFew (remaining lines.old) → IfOk result (λ made. TakesAll form.now schema.now op rejects (remaining lines.old) made.rows made.rejected tally.old tally.new) }
    ensures fit { IfOk result (λ made. AllFit schema.now made.rows) }
    ensures lines { IfOk result (λ made. AreOfLines made.rejected) }
    ensures none { IfOk result (λ made. rejects ≡ false → made.rejected ≡ []) }
    ensures cause { HasCause lines.old.faults lines.new.faults (result ≡ Err FileFault.Device) }
{
    let mut run = Progress {
        number: 0,
        line: Bytes::new(alloc),
        rows: Vec::new(alloc),
        rejected: Vec::new(alloc),
    };
    while step(alloc, op, rejects, schema, form, lines, &mut run, tally)? {}
    Ok(Imported {
        rows: Items::from_vec(run.rows),
        rejected: Items::from_vec(run.rejected),
    })
}

/// Reads a file to its end, for the import with the number `op`: the source, and the rows of its
/// lines in their order. Bad lines are rejected where `rejects` says so, and else they are faults.
/// After an error the tally is of no use.
pub fn import_rows<S: Source>(
    alloc: Global,
    op: u32,
    rejects: bool,
    schema: &Schema,
    form: &Form,
    source: S,
    tally: &mut Tally,
) -> (S, Result<Imported, FileFault>)
    requires { FormFits schema.now form.now }
    ensures told { IsTrue S.tells → IfOk result.1 (λ made. Imports form.now schema.now op rejects (S.rest source) made.rows made.rejected tally.old tally.new) }
    ensures fit { IfOk result.1 (λ made. AllFit schema.now made.rows) }
    ensures lines { IfOk result.1 (λ made. AreOfLines made.rejected) }
    ensures none { IfOk result.1 (λ made. rejects ≡ false → made.rejected ≡ []) }
    ensures cause { HasCause (S.faults source) (S.faults result.0) (result.1 ≡ Err FileFault.Device) }
{
    let mut lines = Lines::new(alloc, source);
    let made = read_rows(alloc, op, rejects, schema, form, &mut lines, tally);
    (lines.into_inner(), made)
}
