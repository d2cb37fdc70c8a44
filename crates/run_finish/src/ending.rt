//! What is left of a run: files and a report, or a report of faults.

ghost use Rattle.std.specs.Prelude.{◌≡◌, ◌≤◌, ◌-◌, ◌⊎◌, ℕ, List, All, IsTrue, IsSome, length, map};
ghost use Rattle.ds_port.specs.Causes.{HasCause, Rose};
ghost use Rattle.flow_graph.specs.declared.state.State.{State};
ghost use Rattle.flow_outputs.specs.Outputs.{file_from};
ghost use Rattle.flow_rules.specs.declared.verdict.Verdict.TheVariants.{Accepted};
ghost use Rattle.flow_score.specs.Seating.{Seats};
ghost use Rattle.flow_score.specs.VerdictText.{IsOf};
ghost use Rattle.op_base.specs.Columns.{Row};
ghost use Rattle.osh_ends.specs.Reports.{fault_report, report};
ghost use Rattle.run_finish.specs.Endings.{Delivers, Refuses};
ghost use Rattle.run_finish.specs.Reported.{AreCounts};

use crate::report::{fault_text, report_text};
use ds_port::{Files, Sink};
use flow_graph::{Choice, Shaped};
use flow_outputs::{commit_all, discard_all, print};
use flow_rules::Verdict;
use op_base::Fault;
use std::alloc::Global;

/// How a run ends: its files and its report are out, or the report of its faults; a device has
/// failed; or memory was wanting.
#[derive(Clone, Copy, Debug, PartialEq, Eq)]
pub enum Ending {
    Done,
    Faulty,
    Device,
    Memory,
}

/// Makes the outputs files, and prints a text. All outputs are taken, however it ends.
fn make_files<F: Files, O: Sink>(
    files: &mut F,
    out: &mut O,
    outputs: Vec<F::Output>,
    text: &[u8],
) -> Ending
    requires { All (λ o. IsSome (F.Output.name o)) outputs.items }
    ensures delivers { IsTrue F.tells → Delivers (F.holds files.old) (F.holds files.new) (map (λ o. file_from (F.Output.name o) (F.Output.held o)) outputs.items) O.tells (O.held out.old) (O.held out.new) text.now (Rose (F.faults files.old) (F.faults files.new)) (Rose (O.faults out.old) (O.faults out.new)) result }
    ensures answer { (result ≡ Ending.Done) ⊎ (result ≡ Ending.Device) }
    ensures lent { F.lent files.new ≡ F.lent files.old - length outputs.items }
    ensures cause { result ≡ Ending.Device → Rose (F.faults files.old) (F.faults files.new) ⊎ Rose (O.faults out.old) (O.faults out.new) }
    ensures files_later { F.faults files.old ≤ F.faults files.new }
    ensures out_later { O.faults out.old ≤ O.faults out.new }
{
    if commit_all(files, outputs).is_err() {
        return Ending::Device;
    }
    match print(out, text) {
        Ok(()) => Ending::Done,
        Err(_) => Ending::Device,
    }
}

/// Makes the outputs files, and prints the report of the run. The report is made before the first
/// of the files. All outputs are taken, however it ends.
pub fn deliver<F: Files, O: Sink>(
    alloc: Global,
    files: &mut F,
    out: &mut O,
    shaped: &Shaped,
    verdict: &Verdict,
    choices: &[Choice],
    nodes: u32,
    players: u32,
    counts: &[u64],
    outputs: Vec<F::Output>,
) -> Ending
    requires of { IsOf shaped.now verdict.now }
    requires each { length choices.now ≡ length shaped.now.flow.links }
    requires seats { Seats shaped.now choices.now nodes players }
    requires named { All (λ o. IsSome (F.Output.name o)) outputs.items }
    ensures delivers { IsTrue F.tells → (states : List State) (whole : ℕ → List Row) → verdict.now ≡ Accepted states choices.now → AreCounts shaped.now whole counts.now → Delivers (F.holds files.old) (F.holds files.new) (map (λ o. file_from (F.Output.name o) (F.Output.held o)) outputs.items) O.tells (O.held out.old) (O.held out.new) (report shaped.now states choices.now nodes whole) (Rose (F.faults files.old) (F.faults files.new)) (Rose (O.faults out.old) (O.faults out.new)) result }
    ensures answer { (result ≡ Ending.Done) ⊎ ((result ≡ Ending.Device) ⊎ (result ≡ Ending.Memory)) }
    ensures silent { result ≡ Ending.Memory → out.new ≡ out.old }
    ensures lent { F.lent files.new ≡ F.lent files.old - length outputs.items }
    ensures cause { result ≡ Ending.Device → Rose (F.faults files.old) (F.faults files.new) ⊎ Rose (O.faults out.old) (O.faults out.new) }
    ensures files_later { F.faults files.old ≤ F.faults files.new }
    ensures out_later { O.faults out.old ≤ O.faults out.new }
{
    let Ok(text) = report_text(alloc, shaped, verdict, choices, nodes, players, counts) else {
        discard_all(files, outputs);
        return Ending::Memory;
    };
    make_files(files, out, outputs, text.as_slice())
}

/// Makes no file, and prints the report of the faults. All outputs are taken.
pub fn refuse<F: Files, O: Sink>(
    alloc: Global,
    files: &mut F,
    out: &mut O,
    shaped: &Shaped,
    verdict: &Verdict,
    choices: &[Choice],
    nodes: u32,
    players: u32,
    faults: u64,
    least: &Fault,
    outputs: Vec<F::Output>,
) -> Ending
    requires of { IsOf shaped.now verdict.now }
    requires each { length choices.now ≡ length shaped.now.flow.links }
    requires seats { Seats shaped.now choices.now nodes players }
    ensures refuses { (states : List State) → verdict.now ≡ Accepted states choices.now → Refuses (F.holds files.old) (F.holds files.new) O.tells (O.held out.old) (O.held out.new) (fault_report shaped.now states choices.now nodes faults least.now) (Rose (O.faults out.old) (O.faults out.new)) result }
    ensures answer { (result ≡ Ending.Faulty) ⊎ ((result ≡ Ending.Device) ⊎ (result ≡ Ending.Memory)) }
    ensures silent { result ≡ Ending.Memory → out.new ≡ out.old }
    ensures lent { F.lent files.new ≡ F.lent files.old - length outputs.items }
    ensures cause { result ≡ Ending.Device → Rose (O.faults out.old) (O.faults out.new) }
    ensures files_later { F.faults files.old ≤ F.faults files.new }
    ensures out_later { O.faults out.old ≤ O.faults out.new }
{
    discard_all(files, outputs);
    let Ok(text) = fault_text(
        alloc, shaped, verdict, choices, nodes, players, faults, least,
    ) else {
        return Ending::Memory;
    };
    match print(out, text.as_slice()) {
        Ok(()) => Ending::Faulty,
        Err(_) => Ending::Device,
    }
}
