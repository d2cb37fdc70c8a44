//! What a run stands on: the flow's shape, the number of nodes, and the files that are there.

ghost use Rattle.std.specs.Prelude.{◌≡◌, ◌+◌, ◌<◌, None, IsTrue, IfOk, IfErr, OnErr};
ghost use Rattle.ds_port.specs.Causes.{HasCause};
ghost use Rattle.osh_ends.specs.Ends.{RunsFile};
ghost use Rattle.osh_ends.specs.FlowFiles.{first_missing};
ghost use Rattle.osh_call.specs.Answers.{Halts, IsOfCommand};
ghost use Rattle.osh_call.specs.Stages.{IsRead, IsBuiltShape};
ghost use Rattle.osh_run.specs.Stages.{AreTexts, IsPrepared};
ghost use Rattle.run_feed.specs.Inputs.{AreInputs, number_of};

use ds_port::Files;
use ds_value::Name;
use flow_graph::{Flow, Shaped};
use osh_call::{Answer, flow_at, nodes_at, shaped};
use run_feed::{InputFault, Inputs, find_inputs};
use std::alloc::Global;

/// The shape of a flow, how many nodes the default pool has that it runs on, and the inputs of its
/// imports.
#[derive(Drop)]
pub struct Prepared<I: Drop> {
    pub shaped: Shaped,
    pub nodes: u32,
    pub inputs: Inputs<I>,
}

/// The flow and the number of nodes, in the order in which their files are read.
fn texts<F: Files>(
    alloc: Global,
    files: &mut F,
    flow: &Name,
    config: &Name,
) -> Result<(Flow, u32), Answer>
    ensures read { IfOk result (λ texts. IsRead texts.0) }
    ensures some { IfOk result (λ texts. 0 < texts.1) }
    ensures found { IsTrue F.tells → IfOk result (λ texts. AreTexts (F.holds files.old) flow.now config.now texts.0 texts.1) }
    ensures stops { IsTrue F.tells → IfErr result (Halts (RunsFile (F.holds files.old) flow.now config.now)) }
    ensures command { IfErr result IsOfCommand }
    ensures same { F.holds files.new ≡ F.holds files.old }
    ensures lent { F.lent files.new ≡ F.lent files.old }
    ensures cause { HasCause (F.faults files.old) (F.faults files.new) (result ≡ Err Answer.Device) }
{
    let read = match flow_at(alloc, files, flow) {
        Ok(read) => read,
        Err(answer) => return Err(answer),
    };
    match nodes_at(alloc, files, config) {
        Ok(nodes) => Ok((read, nodes)),
        Err(answer) => Err(answer),
    }
}

/// The shape of the flow, and the number of nodes.
fn shape_on<F: Files>(
    alloc: Global,
    files: &mut F,
    flow: &Name,
    config: &Name,
) -> Result<(Shaped, u32), Answer>
    ensures built { IfOk result (λ p. IsBuiltShape p.0) }
    ensures some { IfOk result (λ p. 0 < p.1) }
    ensures found { IsTrue F.tells → IfOk result (λ p. IsPrepared (F.holds files.old) flow.now config.now p.0 p.1) }
    ensures stops { IsTrue F.tells → IfErr result (Halts (RunsFile (F.holds files.old) flow.now config.now)) }
    ensures command { IfErr result IsOfCommand }
    ensures same { F.holds files.new ≡ F.holds files.old }
    ensures lent { F.lent files.new ≡ F.lent files.old }
    ensures cause { HasCause (F.faults files.old) (F.faults files.new) (result ≡ Err Answer.Device) }
{
    let (read, nodes) = match texts(alloc, files, flow, config) {
        Ok(texts) => texts,
        Err(answer) => return Err(answer),
    };
    match shaped(alloc, read) {
        Ok(shaped) => Ok((shaped, nodes)),
        Err(answer) => Err(answer),
    }
}

/// Reads the flow, the configuration and the shape, and finds all files that the flow reads. The
/// first of these that isn't so stops the call, which then has no input out.
pub fn prepare<F: Files>(
    alloc: Global,
    files: &mut F,
    flow: &Name,
    config: &Name,
) -> Result<Prepared<F::Input>, Answer>
    ensures built { IfOk result (λ p. IsBuiltShape p.shaped) }
    ensures some { IfOk result (λ p. 0 < p.nodes) }
    ensures inputs { IfOk result (λ p. AreInputs (IsTrue F.tells) F.Input.rest (F.holds files.old) p.shaped.flow.ops p.inputs.by_operator.items) }
    ensures found { IsTrue F.tells → IfOk result (λ p. IsPrepared (F.holds files.old) flow.now config.now p.shaped p.nodes) }
    ensures there { IsTrue F.tells → IfOk result (λ p. first_missing (F.holds files.old) p.shaped.flow.ops ≡ None) }
    ensures stops { IsTrue F.tells → IfErr result (Halts (RunsFile (F.holds files.old) flow.now config.now)) }
    ensures command { IfErr result IsOfCommand }
    ensures same { F.holds files.new ≡ F.holds files.old }
    ensures lent { IfOk result (λ p. F.lent files.new ≡ F.lent files.old + number_of p.inputs.by_operator.items) }
    ensures none_lent { OnErr result (F.lent files.new ≡ F.lent files.old) }
    ensures cause { HasCause (F.faults files.old) (F.faults files.new) (result ≡ Err Answer.Device) }
{
    let (shaped, nodes) = match shape_on(alloc, files, flow, config) {
        Ok(shape) => shape,
        Err(answer) => return Err(answer),
    };
    match find_inputs(alloc, files, shaped.flow().ops.as_slice()) {
        Ok(inputs) => Ok(Prepared {
            shaped,
            nodes,
            inputs,
        }),
        Err(InputFault::Absent(name)) => Err(Answer::Absent(name)),
        Err(InputFault::Device) => Err(Answer::Device),
        Err(InputFault::Memory) => Err(Answer::Memory),
    }
}
