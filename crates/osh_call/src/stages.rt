//! The texts that a command needs.

ghost use Rattle.std.specs.Prelude.{◌≡◌, ◌⊎◌, ◌<◌, IsTrue, IfOk, IfErr};
ghost use Rattle.ds_port.specs.Causes.{HasCause};
ghost use Rattle.osh_call.specs.Answers.{IsOfCommand};
ghost use Rattle.osh_call.specs.Stages.{IsFlowIn, IsNodesIn, IsRead, Has, FlowInStops, NodesInStops, FileStops};

use crate::answer::Answer;
use config_read::{ConfigFault, default_nodes, read_config};
use ds_lex::TEXT_LIMIT;
use ds_port::Files;
use ds_value::Name;
use flow_graph::Flow;
use flow_outputs::{LoadFault, load};
use osh_ends::is_built;
use osh_read::{OshFault, read_flow};
use std::alloc::Global;

/// The answer that a file isn't there.
pub fn absent(name: &Name) -> Answer
    ensures absent { (result ≡ Answer.Absent name.now) ⊎ (result ≡ Answer.Memory) }
    ensures command { IsOfCommand result }
{
    match name.copied() {
        Ok(name) => Answer::Absent(name),
        Err(_) => Answer::Memory,
    }
}

/// The flow that a text spells.
fn flow_in(alloc: Global, text: &[u8]) -> Result<Flow, Answer>
    ensures flow { IfOk result (IsFlowIn text.now) }
    ensures stops { IfErr result (FlowInStops text.now) }
    ensures command { IfErr result IsOfCommand }
{
    match read_flow(alloc, text) {
        Ok(flow) => {
            if is_built(&flow) {
                Ok(flow)
            } else {
                Err(Answer::Unbuilt)
            }
        }
        Err(OshFault::Bad { at, why }) => Err(Answer::BadFlow { at, why }),
        Err(OshFault::Memory) => Err(Answer::Memory),
    }
}

/// The flow in a file.
pub fn flow_at<F: Files>(alloc: Global, files: &mut F, name: &Name) -> Result<Flow, Answer>
    ensures read { IfOk result IsRead }
    ensures found { IsTrue F.tells → IfOk result (λ flow. Has (F.holds files.old) name.now (λ text. IsFlowIn text flow)) }
    ensures stops { IsTrue F.tells → IfErr result (FileStops (F.holds files.old) name.now FlowInStops) }
    ensures command { IfErr result IsOfCommand }
    ensures same { F.holds files.new ≡ F.holds files.old }
    ensures lent { F.lent files.new ≡ F.lent files.old }
    ensures cause { HasCause (F.faults files.old) (F.faults files.new) (result ≡ Err Answer.Device) }
{
    match load(alloc, files, name, TEXT_LIMIT) {
        Ok(text) => flow_in(alloc, text.as_slice()),
        Err(LoadFault::NotFound) => Err(absent(name)),
        Err(LoadFault::Failed) => Err(Answer::Device),
        Err(LoadFault::Refused) => Err(Answer::Memory),
    }
}

/// The number of nodes in the default pool of the configuration that a text spells.
fn nodes_in(alloc: Global, text: &[u8]) -> Result<u32, Answer>
    ensures nodes { IfOk result (IsNodesIn text.now) }
    ensures some { IfOk result (λ nodes. 0 < nodes) }
    ensures stops { IfErr result (NodesInStops text.now) }
    ensures command { IfErr result IsOfCommand }
{
    match read_config(alloc, text) {
        Ok(config) => Ok(default_nodes(&config)),
        Err(ConfigFault::Bad { at, why }) => Err(Answer::BadConfig { at, why }),
        Err(ConfigFault::Memory) => Err(Answer::Memory),
    }
}

/// The number of nodes in the default pool of the configuration in a file.
pub fn nodes_at<F: Files>(alloc: Global, files: &mut F, name: &Name) -> Result<u32, Answer>
    ensures found { IsTrue F.tells → IfOk result (λ nodes. Has (F.holds files.old) name.now (λ text. IsNodesIn text nodes)) }
    ensures some { IfOk result (λ nodes. 0 < nodes) }
    ensures stops { IsTrue F.tells → IfErr result (FileStops (F.holds files.old) name.now NodesInStops) }
    ensures command { IfErr result IsOfCommand }
    ensures same { F.holds files.new ≡ F.holds files.old }
    ensures lent { F.lent files.new ≡ F.lent files.old }
    ensures cause { HasCause (F.faults files.old) (F.faults files.new) (result ≡ Err Answer.Device) }
{
    match load(alloc, files, name, TEXT_LIMIT) {
        Ok(text) => nodes_in(alloc, text.as_slice()),
        Err(LoadFault::NotFound) => Err(absent(name)),
        Err(LoadFault::Failed) => Err(Answer::Device),
        Err(LoadFault::Refused) => Err(Answer::Memory),
    }
}
