//! Writing what came at the exports.

ghost use Rattle.std.specs.Prelude.{◌≡◌, ◌<◌, ◌≤◌, ◌+◌, ◌-◌, ◌++◌, ◌∷◌, [], ℕ, List, All, IsTrue, IsSome, IfOk, IfErr, OnOk, OnErr, Err, Some, get_or, length, map};
ghost use Rattle.std.specs.List.{AllByRecursion, flat_map};
ghost use Rattle.std.specs.Option.{option_to_list};
ghost use Rattle.ds_port.specs.Causes.{HasCause};
ghost use Rattle.ds_port.specs.FileMap.{FileMap};
ghost use Rattle.ds_text.specs.Forms.{FormFits};
ghost use Rattle.op_base.specs.Columns.{Row as Cells};
ghost use Rattle.op_base.specs.Lists.{joined};
ghost use Rattle.flow_graph.specs.Charts.{op_at};
ghost use Rattle.flow_graph.specs.Operators.{Op};
ghost use Rattle.flow_outputs.specs.Outputs.{file_from};
ghost use Rattle.flow_shape.specs.Refusals.{all_ops};
ghost use Rattle.flow_sound.specs.Tallies.{faults_written};
ghost use Rattle.flow_rules.specs.Exports.{IsExport, input_of};
ghost use Rattle.osh_ends.specs.Ends.{file_of, files_of};
ghost use Rattle.osh_ends.specs.FlowFiles.{form, fields_of};
ghost use Rattle.run_finish.specs.Written.{CanWrite, CanWriteAll, AreOps, ComeAt, faults_at};
ghost use Rattle.flow_files.specs.Lines.{AllFit};
ghost use Rattle.flow_files.specs.Tallies.{Grows};
ghost use Rattle.flow_files.specs.Texts.{exported_text, export_faults};

use ds_port::{Files, MakeFault, Sink};
use ds_schema::Schema;
use ds_text::Form;
use ds_value::{Copied, Items, Name, NoMemory};
use flow_files::{FileFault, Tally, export_rows};
use flow_graph::{OpKind, Shaped};
use flow_outputs::discard_all;
use list_run::Partitions;
use std::alloc::Global;

/// Writes the rows of all partitions.
fn write_partitions<K: Sink>(
    alloc: Global,
    op: u32,
    schema: &Schema,
    form: &Form,
    parts: &Partitions,
    sink: &mut K,
    tally: &mut Tally,
) -> Result<(), FileFault>
    requires form { FormFits schema.now form.now }
    requires fit { AllByRecursion (AllFit schema.now) parts.now }
    ensures told { IsTrue K.tells → OnOk result (K.held sink.new ≡ K.held sink.old ++ flat_map (exported_text form.now schema.now) (joined parts.now)) }
    ensures tallied { OnOk result (Grows tally.old tally.new (flat_map (export_faults op form.now schema.now) (joined parts.now))) }
    ensures name { K.name sink.new ≡ K.name sink.old }
    ensures cause { HasCause (K.faults sink.old) (K.faults sink.new) (result ≡ Err FileFault.Device) }
{
    for rows in parts.as_slice() {
        export_rows(alloc, op, schema, form, rows.as_slice(), sink, tally)?;
    }
    Ok(())
}

/// Writes the rows of all partitions, and passes them on.
fn fill<K: Sink>(
    alloc: Global,
    op: u32,
    schema: &Schema,
    form: &Form,
    parts: &Partitions,
    sink: &mut K,
    tally: &mut Tally,
) -> Result<(), FileFault>
    requires form { FormFits schema.now form.now }
    requires fit { AllByRecursion (AllFit schema.now) parts.now }
    ensures told { IsTrue K.tells → OnOk result (K.held sink.new ≡ K.held sink.old ++ flat_map (exported_text form.now schema.now) (joined parts.now)) }
    ensures tallied { OnOk result (Grows tally.old tally.new (flat_map (export_faults op form.now schema.now) (joined parts.now))) }
    ensures name { K.name sink.new ≡ K.name sink.old }
    ensures cause { HasCause (K.faults sink.old) (K.faults sink.new) (result ≡ Err FileFault.Device) }
{
    write_partitions(alloc, op, schema, form, parts, sink, tally)?;
    sink.finish()?;
    Ok(())
}

/// Writes what came at an export, and counts the rows that can't be written as faults. After an
/// error nothing is left of the output, and the tally is of no use.
pub fn write_sink<F: Files>(
    alloc: Global,
    files: &mut F,
    op: u32,
    file: &Name,
    schema: &Schema,
    form: &Form,
    parts: &Partitions,
    tally: &mut Tally,
) -> Result<F::Output, FileFault>
    requires form { FormFits schema.now form.now }
    requires fit { AllByRecursion (AllFit schema.now) parts.now }
    ensures held { IsTrue F.tells → IfOk result (λ output. F.Output.held output ≡ flat_map (exported_text form.now schema.now) (joined parts.now)) }
    ensures name { IfOk result (λ output. F.Output.name output ≡ Some file.now) }
    ensures tallied { OnOk result (Grows tally.old tally.new (flat_map (export_faults op form.now schema.now) (joined parts.now))) }
    ensures same { F.holds files.new ≡ F.holds files.old }
    ensures lent { IfOk result (λ output. F.lent files.new ≡ F.lent files.old + 1) }
    ensures none_lent { OnErr result (F.lent files.new ≡ F.lent files.old) }
    ensures cause { HasCause (F.faults files.old) (F.faults files.new) (result ≡ Err FileFault.Device) }
{
    let mut output = match files.create(alloc, file) {
        Ok(output) => output,
        Err(MakeFault::Device) => return Err(FileFault::Device),
        Err(MakeFault::Memory) => return Err(FileFault::Memory),
    };
    if let Err(fault) = fill(alloc, op, schema, form, parts, &mut output, tally) {
        files.discard(output);
        return Err(fault);
    }
    Ok(output)
}

/// The form of an export's file.
fn form_of(delim: u8, fixed: &Option<Items<u32>>) -> Result<Form, NoMemory>
    ensures { IfOk result (λ made. made ≡ form delim fixed.now) }
{
    match fixed {
        None => Ok(Form::Delimited(delim)),
        Some(widths) => Ok(Form::Fixed(widths.copied()?)),
    }
}

/// The link into an operator of one input.
fn input_of(shaped: &Shaped, op: u32) -> usize
    ensures { result ≡ input_of shaped.now op }
{
    for (link, spec) in shaped.flow().links.as_slice().iter().enumerate() {
        if spec.to == op {
            return link;
        }
    }
    0
}

/// The columns of an export's input.
#[tactic(auto, using(crate::proofs::Exporting::input_there, crate::proofs::Exporting::input_few))]
fn input_schema(shaped: &Shaped, op: u32) -> &Schema
    requires op { op < length shaped.now.flow.ops }
    requires export { IsExport (op_at shaped.now op).kind }
    ensures { result.now ≡ fields_of shaped.now (input_of shaped.now op) }
{
    shaped.is_shaped();
    let link = input_of(shaped, op);
    shaped.schema(link as u32)
}

/// Writes what came at an operator, where it is an export.
fn write_kind<F: Files>(
    alloc: Global,
    files: &mut F,
    shaped: &Shaped,
    op: u32,
    kind: &OpKind,
    parts: &Partitions,
    tally: &mut Tally,
) -> Result<Option<F::Output>, FileFault>
    requires op { op < length shaped.now.flow.ops }
    requires kind { kind.now ≡ (op_at shaped.now op).kind }
    requires can { CanWrite shaped.now op parts.now kind.now }
    ensures files { IsTrue F.tells → IfOk result (λ made. map (λ o. file_from (F.Output.name o) (F.Output.held o)) (option_to_list made) ≡ file_of shaped.now (λ l. parts.now) op kind.now) }
    ensures named { IfOk result (λ made. All (λ o. IsSome (F.Output.name o)) (option_to_list made)) }
    ensures tallied { OnOk result (Grows tally.old tally.new (faults_at shaped.now op parts.now kind.now)) }
    ensures same { F.holds files.new ≡ F.holds files.old }
    ensures lent { IfOk result (λ made. F.lent files.new ≡ F.lent files.old + length (option_to_list made)) }
    ensures none_lent { OnErr result (F.lent files.new ≡ F.lent files.old) }
    ensures cause { HasCause (F.faults files.old) (F.faults files.new) (result ≡ Err FileFault.Device) }
{
    match kind {
        OpKind::Export { file, delim, fixed } => {
            let form = form_of(*delim, fixed)?;
            let schema = input_schema(shaped, op);
            let output = write_sink(alloc, files, op, file, schema, &form, parts, tally)?;
            Ok(Some(output))
        }
        _ => Ok(None),
    }
}

/// Puts an output behind the others, or discards it where there is no room.
fn put_output<F: Files>(
    files: &mut F,
    outputs: &mut Vec<F::Output>,
    output: Option<F::Output>,
) -> Result<(), FileFault>
    ensures ok { OnOk result (outputs.new.items ≡ outputs.old.items ++ option_to_list output) }
    ensures err { OnErr result (outputs.new.items ≡ outputs.old.items) }
    ensures memory { IfErr result (λ fault. fault ≡ FileFault.Memory) }
    ensures same { F.holds files.new ≡ F.holds files.old }
    ensures lent { OnOk result (F.lent files.new ≡ F.lent files.old) }
    ensures returned { OnErr result (F.lent files.new ≡ F.lent files.old - length (option_to_list output)) }
    ensures later { F.faults files.old ≤ F.faults files.new }
{
    let Some(output) = output else {
        return Ok(());
    };
    match outputs.push(output) {
        Ok(()) => Ok(()),
        Err(refused) => {
            files.discard(refused.value);
            Err(FileFault::Memory)
        }
    }
}

/// What came at an operator, or nothing.
fn sink_at<'a>(sinks: &'a [Partitions], op: usize, none: &'a Partitions) -> &'a Partitions
    ensures { result.now ≡ get_or sinks.now op none.now }
{
    match sinks.get(op) {
        Some(parts) => parts,
        None => none,
    }
}

/// Writes what came at an operator, and puts its output behind the others.
fn write_at<F: Files>(
    alloc: Global,
    files: &mut F,
    shaped: &Shaped,
    op: usize,
    parts: &Partitions,
    outputs: &mut Vec<F::Output>,
    tally: &mut Tally,
) -> Result<(), FileFault>
    requires op { op < length shaped.now.flow.ops }
    requires can { CanWrite shaped.now op parts.now (op_at shaped.now op).kind }
    ensures files { IsTrue F.tells → OnOk result (map (λ o. file_from (F.Output.name o) (F.Output.held o)) outputs.new.items ≡ map (λ o. file_from (F.Output.name o) (F.Output.held o)) outputs.old.items ++ file_of shaped.now (λ l. parts.now) op (op_at shaped.now op).kind) }
    ensures named { All (λ o. IsSome (F.Output.name o)) outputs.old.items → OnOk result (All (λ o. IsSome (F.Output.name o)) outputs.new.items) }
    ensures tallied { OnOk result (Grows tally.old tally.new (faults_at shaped.now op parts.now (op_at shaped.now op).kind)) }
    ensures same { F.holds files.new ≡ F.holds files.old }
    ensures lent { OnOk result (F.lent files.new + length outputs.old.items ≡ F.lent files.old + length outputs.new.items) }
    ensures none_lent { OnErr result (F.lent files.new ≡ F.lent files.old) }
    ensures kept { OnErr result (outputs.new.items ≡ outputs.old.items) }
    ensures cause { HasCause (F.faults files.old) (F.faults files.new) (result ≡ Err FileFault.Device) }
{
    shaped.is_shaped();
    let kind = &shaped.flow().ops.as_slice()[op].kind;
    let output = write_kind(alloc, files, shaped, op as u32, kind, parts, tally)?;
    put_output(files, outputs, output)
}

/// Writes what came at each export, by the numbers of the operators. After an error nothing is
/// left of the outputs, and the tally is of no use.
pub fn write_sinks<F: Files>(
    alloc: Global,
    files: &mut F,
    shaped: &Shaped,
    sinks: &[Partitions],
    tally: &mut Tally,
) -> Result<Vec<F::Output>, FileFault>
    requires { CanWriteAll shaped.now sinks.now }
    ensures files { IsTrue F.tells → (parts : ℕ → List (List Cells)) → ComeAt shaped.now sinks.now parts → IfOk result (λ outputs. map (λ o. file_from (F.Output.name o) (F.Output.held o)) outputs.items ≡ files_of shaped.now parts) }
    ensures named { IfOk result (λ outputs. All (λ o. IsSome (F.Output.name o)) outputs.items) }
    ensures tallied { (given : FileMap) (ops : ℕ → Op) (parts : ℕ → List (List Cells)) → AreOps given shaped.now ops → ComeAt shaped.now sinks.now parts → OnOk result (Grows tally.old tally.new (flat_map (faults_written shaped.now ops (λ l. joined (parts l))) (all_ops shaped.now))) }
    ensures same { F.holds files.new ≡ F.holds files.old }
    ensures lent { IfOk result (λ outputs. F.lent files.new ≡ F.lent files.old + length outputs.items) }
    ensures none_lent { OnErr result (F.lent files.new ≡ F.lent files.old) }
    ensures cause { HasCause (F.faults files.old) (F.faults files.new) (result ≡ Err FileFault.Device) }
{
    let none = Items::new(alloc);
    let mut outputs = Vec::new(alloc);
    for op in 0..shaped.flow().ops.as_slice().len() {
        let parts = sink_at(sinks, op, &none);
        if let Err(fault) = write_at(alloc, files, shaped, op, parts, &mut outputs, tally) {
            discard_all(files, outputs);
            return Err(fault);
        }
    }
    Ok(outputs)
}
