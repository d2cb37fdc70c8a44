//! The inputs of a run, which are found before its verdict and all come back.

ghost use Rattle.std.specs.Prelude.{◌≡◌, ◌≤◌, ◌<◌, ◌-◌, ◌++◌, ◌∷◌, [], OnOk, OnErr, IfErr};
ghost use Rattle.ds_port.specs.Causes.{HasCause};
ghost use Rattle.run_feed.specs.Inputs.{all_faults, faults_of, number_of, one_if_some};

use crate::fault::InputFault;
use ds_port::Files;
use std::alloc::Global;

/// The input of each operator by its number, where it imports.
#[derive(Drop)]
pub struct Inputs<I: Drop> {
    pub by_operator: Vec<Option<I>>,
}

/// No inputs yet.
pub(crate) fn no_inputs<I: Drop>(alloc: Global) -> Inputs<I>
    ensures { result.by_operator.items ≡ [] }
{
    Inputs {
        by_operator: Vec::new(alloc),
    }
}

/// Hands an input back, where there is one.
fn settle_input<F: Files>(files: &mut F, input: Option<F::Input>)
    ensures same { F.holds files.new ≡ F.holds files.old }
    ensures lent { F.lent files.new ≡ F.lent files.old - one_if_some input }
    ensures returned { HasCause (F.faults files.old) (F.faults files.new) (0 < faults_of F.Input.faults input) }
{
    if let Some(input) = input {
        files.settle(input);
    }
}

/// Hands all inputs back, with their faults.
pub fn settle_inputs<F: Files>(files: &mut F, inputs: Inputs<F::Input>)
    ensures same { F.holds files.new ≡ F.holds files.old }
    ensures lent { F.lent files.new ≡ F.lent files.old - number_of inputs.by_operator.items }
    ensures returned { HasCause (F.faults files.old) (F.faults files.new) (0 < all_faults F.Input.faults inputs.by_operator.items) }
{
    for input in inputs.by_operator {
        settle_input(files, input);
    }
}

/// Puts an operator's input behind the others, or hands it back where there is no room.
pub(crate) fn put_input<F: Files>(
    files: &mut F,
    inputs: &mut Inputs<F::Input>,
    input: Option<F::Input>,
) -> Result<(), InputFault>
    ensures ok { OnOk result (inputs.new.by_operator.items ≡ inputs.old.by_operator.items ++ input ∷ []) }
    ensures err { OnErr result (inputs.new.by_operator.items ≡ inputs.old.by_operator.items) }
    ensures memory { IfErr result (λ fault. fault ≡ InputFault.Memory) }
    ensures same { F.holds files.new ≡ F.holds files.old }
    ensures kept { OnOk result (F.lent files.new ≡ F.lent files.old) }
    ensures lent { OnErr result (F.lent files.new ≡ F.lent files.old - one_if_some input) }
    ensures later { F.faults files.old ≤ F.faults files.new }
{
    match inputs.by_operator.push(input) {
        Ok(()) => Ok(()),
        Err(refused) => {
            settle_input(files, refused.value);
            Err(InputFault::Memory)
        }
    }
}
