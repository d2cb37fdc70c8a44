//! The command `check`.

ghost use Rattle.std.specs.Prelude.{◌≡◌, ◌≤◌, ◌⊎◌, IfOk, IsTrue};
ghost use Rattle.ds_port.specs.Causes.{Rose};
ghost use Rattle.flow_rules.specs.Verdicts.{IsVerdict};
ghost use Rattle.osh_ends.specs.Ends.{ChecksFile};
ghost use Rattle.osh_ends.specs.Reports.{verdict_report};
ghost use Rattle.osh_call.specs.Answers.{IsOfCommand, IsSilent, Serves, Tells};

use crate::answer::Answer;
use crate::checking::{judged, shape_at};
use ds_port::{Files, Sink};
use ds_value::{Bytes, Name, NoMemory};
use flow_graph::Shaped;
use flow_outputs::print;
use flow_rules::Verdict;
use flow_score::verdict_text;
use osh_ends::put;
use std::alloc::Global;

/// The report of a verdict.
#[tactic(auto, using(crate::proofs::VerdictsOf::is_of))]
pub fn verdict_report(alloc: Global, shaped: &Shaped, verdict: &Verdict) -> Result<Bytes, NoMemory>
    requires { IsVerdict shaped.now verdict.now }
    ensures { IfOk result (λ text. text ≡ verdict_report shaped.now verdict.now) }
{
    shaped.is_shaped();
    let mut text = verdict_text(alloc, shaped, verdict)?;
    let status = match verdict {
        Verdict::Accepted { .. } => "status 0\n",
        Verdict::Refused { .. } => "status 5\n",
    };
    put(&mut text, status)?;
    Ok(text)
}

/// Prints the report of a verdict.
pub fn tell<O: Sink>(alloc: Global, out: &mut O, shaped: &Shaped, verdict: &Verdict) -> Answer
    requires { IsVerdict shaped.now verdict.now }
    ensures told { Tells shaped.now verdict.now O.tells (O.held out.old) (O.held out.new) (Rose (O.faults out.old) (O.faults out.new)) result }
    ensures command { IsOfCommand result }
    ensures silent { IsSilent result → out.new ≡ out.old }
    ensures later { O.faults out.old ≤ O.faults out.new }
{
    let Ok(text) = verdict_report(alloc, shaped, verdict) else {
        return Answer::Memory;
    };
    if print(out, text.as_slice()).is_err() {
        return Answer::Device;
    }
    match verdict {
        Verdict::Accepted { .. } => Answer::Checked,
        Verdict::Refused { .. } => Answer::Refused,
    }
}

/// Says what the verdict on the flow in a file is.
pub fn check<F: Files, O: Sink>(alloc: Global, files: &mut F, out: &mut O, name: &Name) -> Answer
    ensures serves { IsTrue F.tells → Serves (ChecksFile (F.holds files.old) name.now) (F.holds files.old) (F.holds files.new) O.tells (O.held out.old) (O.held out.new) (Rose (F.faults files.old) (F.faults files.new)) (Rose (O.faults out.old) (O.faults out.new)) result }
    ensures device { result ≡ Answer.Device → Rose (F.faults files.old) (F.faults files.new) ⊎ Rose (O.faults out.old) (O.faults out.new) }
    ensures command { IsOfCommand result }
    ensures silent { IsSilent result → out.new ≡ out.old }
    ensures lent { F.lent files.new ≡ F.lent files.old }
    ensures files_later { F.faults files.old ≤ F.faults files.new }
    ensures out_later { O.faults out.old ≤ O.faults out.new }
{
    let shaped = match shape_at(alloc, files, name) {
        Ok(shaped) => shaped,
        Err(answer) => return answer,
    };
    match judged(&shaped) {
        Ok(verdict) => tell(alloc, out, &shaped, &verdict),
        Err(_) => Answer::Memory,
    }
}
