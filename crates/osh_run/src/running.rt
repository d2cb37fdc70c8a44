//! The command `run`.

ghost use Rattle.std.specs.Prelude.{◌≡◌, ◌≤◌, ◌⊎◌, IsTrue};
ghost use Rattle.ds_port.specs.Causes.{Rose};
ghost use Rattle.osh_ends.specs.Ends.{RunsFile};
ghost use Rattle.osh_call.specs.Answers.{IsOfCommand, IsSilent, Serves};

use crate::seating::run_seated;
use crate::stages::{Prepared, prepare};
use ds_port::{Files, Sink};
use ds_value::Name;
use flow_rules::Verdict;
use osh_call::{Answer, judged, tell};
use run_feed::settle_inputs;
use std::alloc::Global;

/// Runs the flow in a file on the configuration in another, one player after the other. A flow that
/// is refused isn't run: its verdict is printed.
pub fn run<F: Files, O: Sink>(
    alloc: Global,
    files: &mut F,
    out: &mut O,
    flow: &Name,
    config: &Name,
) -> Answer
    ensures serves { IsTrue F.tells → Serves (RunsFile (F.holds files.old) flow.now config.now) (F.holds files.old) (F.holds files.new) O.tells (O.held out.old) (O.held out.new) (Rose (F.faults files.old) (F.faults files.new)) (Rose (O.faults out.old) (O.faults out.new)) result }
    ensures device { result ≡ Answer.Device → Rose (F.faults files.old) (F.faults files.new) ⊎ Rose (O.faults out.old) (O.faults out.new) }
    ensures command { IsOfCommand result }
    ensures silent { IsSilent result → out.new ≡ out.old }
    ensures lent { F.lent files.new ≡ F.lent files.old }
    ensures files_later { F.faults files.old ≤ F.faults files.new }
    ensures out_later { O.faults out.old ≤ O.faults out.new }
{
    let Prepared {
        shaped,
        nodes,
        inputs,
    } = match prepare(alloc, files, flow, config) {
        Ok(prepared) => prepared,
        Err(answer) => return answer,
    };
    let verdict = match judged(&shaped) {
        Ok(verdict) => verdict,
        Err(_) => {
            settle_inputs(files, inputs);
            return Answer::Memory;
        }
    };
    match &verdict {
        Verdict::Accepted { choices, .. } => {
            let choices = choices.as_slice();
            run_seated(alloc, files, out, &shaped, inputs, &verdict, choices, nodes)
        }
        Verdict::Refused { .. } => {
            settle_inputs(files, inputs);
            tell(alloc, out, &shaped, &verdict)
        }
    }
}
