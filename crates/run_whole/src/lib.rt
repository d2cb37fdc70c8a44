//! A run of a flow that was accepted, from its files to its end.
#![tactic(auto)]

ghost use Rattle.std.specs.Prelude.{◌≡◌, ◌≤◌, ◌-◌, ◌⊎◌, List, IsTrue};
ghost use Rattle.ds_port.specs.Causes.{Rose};
ghost use Rattle.flow_graph.specs.declared.state.State.{State};
ghost use Rattle.flow_rules.specs.declared.verdict.Verdict.TheVariants.{Accepted};
ghost use Rattle.flow_rules.specs.Verdicts.{IsVerdict};
ghost use Rattle.flow_score.specs.Seating.{Seats};
ghost use Rattle.run_feed.specs.Fed.{IsReady};
ghost use Rattle.run_feed.specs.Inputs.{AreInputs, number_of};
ghost use Rattle.run_finish.specs.Finished.{Ends};

use ds_port::{Files, Sink};
use flow_files::{FileFault, Tally};
use flow_graph::{Choice, Shaped};
use flow_rules::Verdict;
use run_feed::{Inputs, feed};
use run_finish::{Ending, finish_run};
use std::alloc::Global;

/// Reads the inputs of the imports, runs the flow, and writes the files of the exports and the
/// report. All inputs are handed back, however it ends.
#[tactic(auto, using(crate::proofs::Whole::is_of))]
pub fn run_accepted<F: Files, O: Sink>(
    alloc: Global,
    files: &mut F,
    out: &mut O,
    shaped: &Shaped,
    inputs: Inputs<F::Input>,
    verdict: &Verdict,
    choices: &[Choice],
    nodes: u32,
    players: u32,
) -> Ending
    requires ready { IsReady shaped.now choices.now nodes }
    requires inputs { AreInputs (IsTrue F.tells) F.Input.rest (F.holds files.old) shaped.now.flow.ops inputs.by_operator.items }
    requires verdict { IsVerdict shaped.now verdict.now }
    requires seats { Seats shaped.now choices.now nodes players }
    ensures ends { IsTrue F.tells → (states : List State) → verdict.now ≡ Accepted states choices.now → Ends (F.holds files.old) (F.holds files.new) shaped.now nodes states choices.now O.tells (O.held out.old) (O.held out.new) (Rose (F.faults files.old) (F.faults files.new)) (Rose (O.faults out.old) (O.faults out.new)) result }
    ensures silent { result ≡ Ending.Memory → out.new ≡ out.old }
    ensures lent { F.lent files.new ≡ F.lent files.old - number_of inputs.by_operator.items }
    ensures cause { result ≡ Ending.Device → Rose (F.faults files.old) (F.faults files.new) ⊎ Rose (O.faults out.old) (O.faults out.new) }
    ensures files_later { F.faults files.old ≤ F.faults files.new }
    ensures out_later { O.faults out.old ≤ O.faults out.new }
{
    shaped.is_shaped();
    let mut tally = Tally::new();
    match feed(alloc, files, shaped, inputs, choices, nodes, &mut tally) {
        Ok(ran) => finish_run(
            alloc, files, out, shaped, verdict, choices, nodes, players, &ran, tally,
        ),
        Err(FileFault::Device) => Ending::Device,
        Err(FileFault::Memory) => Ending::Memory,
    }
}
