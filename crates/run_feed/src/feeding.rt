//! The lists of a run.

ghost use Rattle.std.specs.Prelude.{◌≡◌, ◌-◌, List, IsTrue, IfOk, Err};
ghost use Rattle.ds_port.specs.Causes.{HasCause};
ghost use Rattle.flow_graph.specs.declared.state.State.{State};
ghost use Rattle.flow_rules.specs.declared.verdict.Verdict.TheVariants.{Accepted};
ghost use Rattle.flow_rules.specs.Verdicts.{IsVerdict};
ghost use Rattle.run_feed.specs.Fed.{Fed, IsReady, SinksFit};
ghost use Rattle.run_feed.specs.Inputs.{AreInputs, number_of};

use crate::imports::import_all;
use crate::inputs::Inputs;
use ds_port::Files;
use flow_files::{FileFault, Tally};
use flow_graph::{Choice, Shaped};
use list_run::{Ran, run_lists};
use std::alloc::Global;

/// Reads the inputs of the imports, hands them all back, and runs the flow over their rows. The
/// faults of the imports and those that the run found go into the tally, which is of no use after
/// an error.
pub fn feed<F: Files>(
    alloc: Global,
    files: &mut F,
    shaped: &Shaped,
    inputs: Inputs<F::Input>,
    choices: &[Choice],
    nodes: u32,
    tally: &mut Tally,
) -> Result<Ran, FileFault>
    requires ready { IsReady shaped.now choices.now nodes }
    requires inputs { AreInputs (IsTrue F.tells) F.Input.rest (F.holds files.old) shaped.now.flow.ops inputs.by_operator.items }
    ensures fed { IsTrue F.tells → IfOk result (λ ran. (states : List State) → IsVerdict shaped.now (Accepted states choices.now) → Fed (F.holds files.old) shaped.now states choices.now ran tally.old tally.new) }
    ensures fit { IfOk result (λ ran. SinksFit shaped.now ran) }
    ensures same { F.holds files.new ≡ F.holds files.old }
    ensures lent { F.lent files.new ≡ F.lent files.old - number_of inputs.by_operator.items }
    ensures cause { HasCause (F.faults files.old) (F.faults files.new) (result ≡ Err FileFault.Device) }
{
    shaped.is_shaped();
    let sources = import_all(alloc, files, shaped, inputs, tally)?;
    match run_lists(alloc, shaped, choices, nodes, sources) {
        Ok(mut ran) => {
            tally.add_emitted(ran.faults, ran.least.take());
            Ok(ran)
        }
        Err(_) => Err(FileFault::Memory),
    }
}
