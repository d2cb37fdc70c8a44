//! The shape of a flow and the verdict on it.

ghost use Rattle.std.specs.Prelude.{◌≡◌, [], IsTrue, IfOk, IfErr};
ghost use Rattle.flow_shape.specs.Refusals.{IsShapeOf};
ghost use Rattle.flow_rules.specs.Verdicts.{IsVerdict};
ghost use Rattle.ds_port.specs.Causes.{HasCause};
ghost use Rattle.osh_call.specs.Answers.{IsOfCommand};
ghost use Rattle.osh_call.specs.Stages.{IsRead, IsBuiltShape, IsShapeIn, ShapeStops, ShapeFileStops};

use crate::answer::Answer;
use crate::stages::flow_at;
use ds_port::Files;
use ds_value::{Name, NoMemory};
use flow_graph::{Flow, Shaped};
use flow_rules::{Verdict, infer};
use flow_shape::{ShapeFault, shape};
use std::alloc::Global;

/// The shape of a flow that was read.
#[tactic(auto, using(crate::proofs::BuiltFlows::only_known))]
pub fn shaped(alloc: Global, flow: Flow) -> Result<Shaped, Answer>
    requires { IsRead flow }
    ensures shape { IfOk result (λ c. IsShapeOf flow [] c) }
    ensures stops { IfErr result (ShapeStops flow) }
    ensures command { IfErr result IsOfCommand }
{
    osh_sound::flows_can_be_shaped();
    match shape(alloc, flow, &[]) {
        Ok(shaped) => Ok(shaped),
        Err(ShapeFault::Bad { why, op }) => Err(Answer::BadShape { why, op }),
        Err(ShapeFault::Memory) => Err(Answer::Memory),
    }
}

/// The shape of the flow in a file.
pub fn shape_at<F: Files>(alloc: Global, files: &mut F, name: &Name) -> Result<Shaped, Answer>
    ensures built { IfOk result IsBuiltShape }
    ensures found { IsTrue F.tells → IfOk result (IsShapeIn (F.holds files.old) name.now) }
    ensures stops { IsTrue F.tells → IfErr result (ShapeFileStops (F.holds files.old) name.now) }
    ensures command { IfErr result IsOfCommand }
    ensures same { F.holds files.new ≡ F.holds files.old }
    ensures lent { F.lent files.new ≡ F.lent files.old }
    ensures cause { HasCause (F.faults files.old) (F.faults files.new) (result ≡ Err Answer.Device) }
{
    match flow_at(alloc, files, name) {
        Ok(flow) => shaped(alloc, flow),
        Err(answer) => Err(answer),
    }
}

/// The verdict on the shape of a flow that is built.
#[tactic(auto, using(crate::proofs::BuiltFlows::routed))]
pub fn judged(shaped: &Shaped) -> Result<Verdict, NoMemory>
    requires { IsBuiltShape shaped.now }
    ensures { IfOk result (λ v. IsVerdict shaped.now v) }
{
    shaped.is_shaped();
    infer(shaped)
}
