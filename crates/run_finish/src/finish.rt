//! A run from its lists to its end.

ghost use Rattle.std.specs.Prelude.{◌≡◌, ◌≤◌, ◌⊎◌, List, IsTrue, length};
ghost use Rattle.ds_port.specs.Causes.{Rose};
ghost use Rattle.flow_graph.specs.declared.state.State.{State};
ghost use Rattle.flow_rules.specs.declared.verdict.Verdict.TheVariants.{Accepted};
ghost use Rattle.flow_score.specs.Seating.{Seats};
ghost use Rattle.flow_score.specs.VerdictText.{IsOf};
ghost use Rattle.run_finish.specs.Finished.{Ends, IsRun};
ghost use Rattle.run_finish.specs.Written.{CanWriteAll};

use crate::ending::{Ending, deliver, refuse};
use crate::sinks::write_sinks;
use ds_port::{Files, Sink};
use flow_files::{FileFault, Tally};
use flow_graph::{Choice, Shaped};
use flow_rules::Verdict;
use list_run::Ran;
use std::alloc::Global;

/// Writes what came at the exports. Where no operator had a fault the outputs become files and the
/// numbers of rows are reported; else no file is made, and the faults are reported. `tally` has the
/// faults of the imports and of the operators between imports and exports. No output is left out.
pub fn finish_run<F: Files, O: Sink>(
    alloc: Global,
    files: &mut F,
    out: &mut O,
    shaped: &Shaped,
    verdict: &Verdict,
    choices: &[Choice],
    nodes: u32,
    players: u32,
    ran: &Ran,
    tally: Tally,
) -> Ending
    requires of { IsOf shaped.now verdict.now }
    requires each { length choices.now ≡ length shaped.now.flow.links }
    requires seats { Seats shaped.now choices.now nodes players }
    requires can { CanWriteAll shaped.now ran.now.sinks }
    ensures ends { IsTrue F.tells → (states : List State) → verdict.now ≡ Accepted states choices.now → IsRun (F.holds files.old) shaped.now states choices.now ran.now tally → Ends (F.holds files.old) (F.holds files.new) shaped.now nodes states choices.now O.tells (O.held out.old) (O.held out.new) (Rose (F.faults files.old) (F.faults files.new)) (Rose (O.faults out.old) (O.faults out.new)) result }
    ensures silent { result ≡ Ending.Memory → out.new ≡ out.old }
    ensures lent { F.lent files.new ≡ F.lent files.old }
    ensures cause { result ≡ Ending.Device → Rose (F.faults files.old) (F.faults files.new) ⊎ Rose (O.faults out.old) (O.faults out.new) }
    ensures files_later { F.faults files.old ≤ F.faults files.new }
    ensures out_later { O.faults out.old ≤ O.faults out.new }
{
    let mut tally = tally;
    let sinks = ran.sinks.as_slice();
    let outputs = match write_sinks(alloc, files, shaped, sinks, &mut tally) {
        Ok(outputs) => outputs,
        Err(FileFault::Device) => return Ending::Device,
        Err(FileFault::Memory) => return Ending::Memory,
    };
    match &tally.least {
        None => {
            let counts = ran.counts.as_slice();
            deliver(
                alloc, files, out, shaped, verdict, choices, nodes, players, counts, outputs,
            )
        }
        Some(least) => {
            let faults = tally.faults;
            refuse(
                alloc, files, out, shaped, verdict, choices, nodes, players, faults, least, outputs,
            )
        }
    }
}
