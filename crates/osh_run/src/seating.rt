//! A run of a flow that was accepted.

ghost use Rattle.std.specs.Prelude.{◌≡◌, ◌≤◌, ◌<◌, ◌-◌, ◌⊎◌, List, IsTrue, IfOk, IfErr};
ghost use Rattle.ds_port.specs.Causes.{Rose};
ghost use Rattle.flow_graph.specs.declared.state.State.{State};
ghost use Rattle.flow_rules.specs.declared.verdict.Verdict.TheVariants.{Accepted};
ghost use Rattle.flow_rules.specs.Verdicts.{IsVerdict};
ghost use Rattle.flow_score.specs.Seating.{Seats};
ghost use Rattle.osh_ends.specs.Ends.{AcceptedRuns, SeatsOn};
ghost use Rattle.osh_call.specs.Answers.{Halts, IsOfCommand, IsSilent, Serves};
ghost use Rattle.osh_call.specs.Stages.{IsBuiltShape};
ghost use Rattle.osh_run.specs.Stages.{answer_of};
ghost use Rattle.run_feed.specs.Inputs.{AreInputs, number_of};

use ds_port::{Files, Sink};
use flow_graph::{Choice, Shaped};
use flow_rules::Verdict;
use flow_score::{ScoreFault, seat};
use osh_call::Answer;
use run_feed::{Inputs, settle_inputs};
use run_finish::Ending;
use run_whole::run_accepted;
use std::alloc::Global;

/// The number of players, where degrees and players suit so many nodes.
fn seated(shaped: &Shaped, choices: &[Choice], nodes: u32) -> Result<u32, Answer>
    requires { (states : List State) × IsVerdict shaped.now (Accepted states choices.now) }
    ensures seats { IfOk result (Seats shaped.now choices.now nodes) }
    ensures stops { IfErr result (Halts (SeatsOn shaped.now choices.now nodes (λ _. ⊥))) }
    ensures quiet { IfErr result (λ answer. answer ≡ Answer.Device → ⊥) }
    ensures command { IfErr result IsOfCommand }
{
    shaped.is_shaped();
    match seat(shaped, choices, nodes) {
        Ok(players) => Ok(players),
        Err(ScoreFault::DegreeMismatch { link, from, to }) => {
            Err(Answer::Mismatch { link, from, to })
        }
        Err(ScoreFault::TooManyPlayers { players }) => Err(Answer::Crowded { players }),
        Err(ScoreFault::Memory) => Err(Answer::Memory),
    }
}

fn answer_of(ending: Ending) -> Answer
    ensures answer { result ≡ answer_of ending }
    ensures silent { IsSilent result → ending ≡ Ending.Memory }
    ensures command { IsOfCommand result }
{
    match ending {
        Ending::Done => Answer::Done,
        Ending::Faulty => Answer::Faulty,
        Ending::Device => Answer::Device,
        Ending::Memory => Answer::Memory,
    }
}

/// Runs a flow that was accepted, where degrees and players suit so many nodes. All inputs are
/// handed back, also where it isn't run.
pub fn run_seated<F: Files, O: Sink>(
    alloc: Global,
    files: &mut F,
    out: &mut O,
    shaped: &Shaped,
    inputs: Inputs<F::Input>,
    verdict: &Verdict,
    choices: &[Choice],
    nodes: u32,
) -> Answer
    requires built { IsBuiltShape shaped.now }
    requires some { 0 < nodes }
    requires inputs { AreInputs (IsTrue F.tells) F.Input.rest (F.holds files.old) shaped.now.flow.ops inputs.by_operator.items }
    requires verdict { IsVerdict shaped.now verdict.now }
    requires accepted { (states : List State) × (verdict.now ≡ Accepted states choices.now) }
    ensures serves { IsTrue F.tells → Serves (AcceptedRuns (F.holds files.old) shaped.now nodes verdict.now) (F.holds files.old) (F.holds files.new) O.tells (O.held out.old) (O.held out.new) (Rose (F.faults files.old) (F.faults files.new)) (Rose (O.faults out.old) (O.faults out.new)) result }
    ensures device { result ≡ Answer.Device → Rose (F.faults files.old) (F.faults files.new) ⊎ Rose (O.faults out.old) (O.faults out.new) }
    ensures command { IsOfCommand result }
    ensures silent { IsSilent result → out.new ≡ out.old }
    ensures lent { F.lent files.new ≡ F.lent files.old - number_of inputs.by_operator.items }
    ensures files_later { F.faults files.old ≤ F.faults files.new }
    ensures out_later { O.faults out.old ≤ O.faults out.new }
{
    osh_sound::flows_can_be_shaped();
    let players = match seated(shaped, choices, nodes) {
        Ok(players) => players,
        Err(answer) => {
            settle_inputs(files, inputs);
            return answer;
        }
    };
    answer_of(run_accepted(
        alloc, files, out, shaped, inputs, verdict, choices, nodes, players,
    ))
}
