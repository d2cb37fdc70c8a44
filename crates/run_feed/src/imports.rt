//! The rows of the files that imports read.

ghost use Rattle.std.specs.Prelude.{◌≡◌, ◌-◌, ◌<◌, ℕ, false, [], length, IsTrue, IfOk, Err, Some, true};
ghost use Rattle.ds_port.specs.Causes.{HasCause};
ghost use Rattle.ds_port.specs.FileMap.{FileMap};
ghost use Rattle.ds_text.specs.Forms.{FormFits};
ghost use Rattle.flow_files.specs.Lines.{Imports};
ghost use Rattle.flow_graph.specs.Charts.{op_at};
ghost use Rattle.flow_graph.specs.Fitting.{FitsFields};
ghost use Rattle.osh_ends.specs.Built.{is_built, is_built_op};
ghost use Rattle.osh_ends.specs.FlowFiles.{form};
ghost use Rattle.op_shape.specs.Options.{line_fields};
ghost use Rattle.flow_shape.specs.Refusals.{IsShapeOf};
ghost use Rattle.osh_sound.specs.Sound.{KeepsForms};
ghost use Rattle.run_feed.specs.Inputs.{AreInputs, IsInput, all_faults, faults_of, number_of, one_if_some};
ghost use Rattle.run_feed.specs.Sources.{AllSuit, CanFeed, CanRead, ReadTo, ReadsFile, RowsSuit, Sourced};
ghost use Rattle.std.specs.List.{AllByRecursion};

use crate::inputs::{Inputs, settle_inputs};
use crate::links::{Reads, by_link};
use ds_port::{Files, Source};
use ds_schema::{Row, Schema};
use ds_text::Form;
use ds_value::{Copied, Items, NoMemory};
use flow_files::{FileFault, Imported, Tally, import_rows};
use flow_graph::{OpKind, Shaped};
use std::alloc::Global;

/// What is had of no file.
fn no_rows(alloc: Global) -> Imported
    ensures rows { result.rows ≡ [] }
    ensures rejected { result.rejected ≡ [] }
{
    Imported {
        rows: Items::new(alloc),
        rejected: Items::new(alloc),
    }
}

/// What an import has of its file, which stays where it is.
fn import_file<S: Source + Drop>(
    alloc: Global,
    op: u32,
    rejects: bool,
    schema: &Schema,
    form: &Form,
    input: &mut Option<S>,
    tally: &mut Tally,
) -> Result<Imported, FileFault>
    requires { FormFits schema.now form.now }
    ensures told { IsTrue S.tells → (source : S) → input.old ≡ Some source → IfOk result (λ made. Imports form.now schema.now op rejects (S.rest source) made.rows made.rejected tally.old tally.new) }
    ensures fit { IfOk result (λ made. AllByRecursion (FitsFields schema.now) made.rows) }
    ensures lines { IfOk result (λ made. AllByRecursion (FitsFields line_fields) made.rejected) }
    ensures none { IfOk result (λ made. rejects ≡ false → made.rejected ≡ []) }
    ensures kept { one_if_some input.new ≡ one_if_some input.old }
    ensures cause { result ≡ Err FileFault.Device → 0 < faults_of S.faults input.new }
{
    let _fields = schema.as_slice();
    let Some(source) = input.take() else {
        return Ok(no_rows(alloc));
    };
    let (source, made) = import_rows(alloc, op, rejects, schema, form, source, tally);
    *input = Some(source);
    made
}

/// Fields with a delimiter between them, or of fixed widths.
fn form(delim: u8, fixed: &Option<Items<u32>>) -> Result<Form, NoMemory>
    ensures { IfOk result (λ made. made ≡ form delim fixed.now) }
{
    match fixed {
        None => Ok(Form::Delimited(delim)),
        Some(widths) => Ok(Form::Fixed(widths.copied()?)),
    }
}

/// What an operator reads: rows of its file, where it imports.
fn read_operator<S: Source + Drop>(
    alloc: Global,
    op: u32,
    kind: &OpKind,
    input: &mut Option<S>,
    tally: &mut Tally,
) -> Result<Imported, FileFault>
    requires { CanRead kind.now }
    ensures told { IsTrue S.tells → (files : FileMap) → IsInput (IsTrue S.tells) S.rest files kind.now input.old → IfOk result (λ made. ReadsFile files op kind.now made.rows made.rejected tally.old tally.new) }
    ensures fit { IfOk result (λ made. RowsSuit kind.now made.rows made.rejected) }
    ensures kept { one_if_some input.new ≡ one_if_some input.old }
    ensures cause { result ≡ Err FileFault.Device → 0 < faults_of S.faults input.new }
{
    match kind {
        OpKind::Import {
            schema,
            delim,
            fixed,
            reject,
            ..
        } => {
            let form = form(*delim, fixed)?;
            import_file(alloc, op, *reject, schema, &form, input, tally)
        }
        _ => Ok(no_rows(alloc)),
    }
}

/// What each operator reads, by its number.
fn read_all<S: Source + Drop>(
    alloc: Global,
    shaped: &Shaped,
    inputs: &mut Inputs<S>,
    tally: &mut Tally,
) -> Result<Reads, FileFault>
    requires built { (o : ℕ) → o < length shaped.now.flow.ops → is_built_op (op_at shaped.now o).kind ≡ true }
    requires forms { (o : ℕ) → o < length shaped.now.flow.ops → CanRead (op_at shaped.now o).kind }
    requires count { length inputs.old.by_operator.items ≡ length shaped.now.flow.ops }
    ensures told { IsTrue S.tells → (files : FileMap) → AreInputs (IsTrue S.tells) S.rest files shaped.now.flow.ops inputs.old.by_operator.items → IfOk result (λ reads. ReadTo files shaped.now (length shaped.now.flow.ops) reads.rows reads.rejected tally.old tally.new) }
    ensures fit { IfOk result (λ reads. AllSuit shaped.now (length shaped.now.flow.ops) reads.rows reads.rejected) }
    ensures kept { number_of inputs.new.by_operator.items ≡ number_of inputs.old.by_operator.items }
    ensures cause { result ≡ Err FileFault.Device → 0 < all_faults S.faults inputs.new.by_operator.items }
{
    shaped.is_shaped();
    let mut rows = Items::new(alloc);
    let mut rejected = Items::new(alloc);
    for (op, spec) in shaped.flow().ops.as_slice().iter().enumerate() {
        let input = &mut inputs.by_operator[op];
        let read = read_operator(alloc, op as u32, &spec.kind, input, tally)?;
        rows.push(read.rows)?;
        rejected.push(read.rejected)?;
    }
    Ok(Reads { rows, rejected })
}

/// The rows that imports put on their links, by link. All inputs stay where they are.
#[tactic(auto, using(crate::proofs::Ready::built_at, crate::proofs::Forms::can_read))]
fn rows_by_link<S: Source + Drop>(
    alloc: Global,
    shaped: &Shaped,
    inputs: &mut Inputs<S>,
    tally: &mut Tally,
) -> Result<Items<Items<Row>>, FileFault>
    requires shape { IsShapeOf shaped.now.flow [] shaped.now }
    requires built { is_built shaped.now.flow ≡ true }
    requires forms { KeepsForms shaped.now.flow }
    requires count { length inputs.old.by_operator.items ≡ length shaped.now.flow.ops }
    ensures told { IsTrue S.tells → (files : FileMap) → AreInputs (IsTrue S.tells) S.rest files shaped.now.flow.ops inputs.old.by_operator.items → IfOk result (λ sources. Sourced files shaped.now sources tally.old tally.new) }
    ensures feeds { IfOk result (λ sources. CanFeed shaped.now sources) }
    ensures kept { number_of inputs.new.by_operator.items ≡ number_of inputs.old.by_operator.items }
    ensures cause { result ≡ Err FileFault.Device → 0 < all_faults S.faults inputs.new.by_operator.items }
{
    shaped.is_shaped();
    let reads = read_all(alloc, shaped, inputs, tally)?;
    match by_link(alloc, shaped, reads) {
        Ok(sources) => Ok(sources),
        Err(_) => Err(FileFault::Memory),
    }
}

/// The rows that imports put on their links, by link. All inputs are handed back. After an error
/// the tally is of no use.
pub(crate) fn import_all<F: Files>(
    alloc: Global,
    files: &mut F,
    shaped: &Shaped,
    inputs: Inputs<F::Input>,
    tally: &mut Tally,
) -> Result<Items<Items<Row>>, FileFault>
    requires shape { IsShapeOf shaped.now.flow [] shaped.now }
    requires built { is_built shaped.now.flow ≡ true }
    requires forms { KeepsForms shaped.now.flow }
    requires inputs { AreInputs (IsTrue F.tells) F.Input.rest (F.holds files.old) shaped.now.flow.ops inputs.by_operator.items }
    ensures told { IsTrue F.tells → IfOk result (λ sources. Sourced (F.holds files.old) shaped.now sources tally.old tally.new) }
    ensures feeds { IfOk result (λ sources. CanFeed shaped.now sources) }
    ensures same { F.holds files.new ≡ F.holds files.old }
    ensures lent { F.lent files.new ≡ F.lent files.old - number_of inputs.by_operator.items }
    ensures cause { HasCause (F.faults files.old) (F.faults files.new) (result ≡ Err FileFault.Device) }
{
    let mut inputs = inputs;
    let sources = rows_by_link(alloc, shaped, &mut inputs, tally);
    settle_inputs(files, inputs);
    sources
}
