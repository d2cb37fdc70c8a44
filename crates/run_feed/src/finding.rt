//! The files that a flow reads.

ghost use Rattle.std.specs.Prelude.{◌≡◌, ◌+◌, ◌⊎◌, ℕ, List, [], IsTrue, IfOk, OnErr, OnOk, Err, Some, None};
ghost use Rattle.ds_port.specs.Causes.{HasCause};
ghost use Rattle.osh_ends.specs.FlowFiles.{first_missing, missing_of};
ghost use Rattle.run_feed.specs.Inputs.{AreInputs, IsInput, all_faults, faults_of, number_of, one_if_some};

use crate::fault::InputFault;
use crate::inputs::{Inputs, no_inputs, put_input, settle_inputs};
use ds_port::{Files, FindFault};
use ds_value::Name;
use flow_graph::{OpKind, OpSpec};
use std::alloc::Global;

/// The answer that a file isn't there.
fn absent(name: &Name) -> InputFault
    ensures { (result ≡ InputFault.Absent name.now) ⊎ (result ≡ InputFault.Memory) }
{
    match name.copied() {
        Ok(name) => InputFault::Absent(name),
        Err(_) => InputFault::Memory,
    }
}

/// The file that an operator reads.
fn find_input<F: Files>(
    alloc: Global,
    files: &mut F,
    kind: &OpKind,
) -> Result<Option<F::Input>, InputFault>
    ensures input { IfOk result (IsInput (IsTrue F.tells) F.Input.rest (F.holds files.old) kind.now) }
    ensures fresh { IfOk result (λ input. faults_of F.Input.faults input ≡ 0) }
    ensures there { IsTrue F.tells → IfOk result (λ _. missing_of (F.holds files.old) kind.now ≡ None) }
    ensures absent { IsTrue F.tells → (gone : List ℕ) → result ≡ Err (InputFault.Absent gone) → missing_of (F.holds files.old) kind.now ≡ Some gone }
    ensures same { F.holds files.new ≡ F.holds files.old }
    ensures lent { IfOk result (λ input. F.lent files.new ≡ F.lent files.old + one_if_some input) }
    ensures none_lent { OnErr result (F.lent files.new ≡ F.lent files.old) }
    ensures cause { HasCause (F.faults files.old) (F.faults files.new) (result ≡ Err InputFault.Device) }
{
    let OpKind::Import { file, .. } = kind else {
        return Ok(None);
    };
    match files.find(alloc, file) {
        Ok(input) => Ok(Some(input)),
        Err(FindFault::Absent) => Err(absent(file)),
        Err(FindFault::Device) => Err(InputFault::Device),
        Err(FindFault::Memory) => Err(InputFault::Memory),
    }
}

/// Finds the file of each import, and puts it behind those found before; they stay there after an
/// error too.
fn find_each<F: Files>(
    alloc: Global,
    files: &mut F,
    ops: &[OpSpec],
    inputs: &mut Inputs<F::Input>,
) -> Result<(), InputFault>
    requires { inputs.old.by_operator.items ≡ [] }
    ensures inputs { OnOk result (AreInputs (IsTrue F.tells) F.Input.rest (F.holds files.old) ops.now inputs.new.by_operator.items) }
    ensures fresh { all_faults F.Input.faults inputs.new.by_operator.items ≡ 0 }
    ensures there { IsTrue F.tells → OnOk result (first_missing (F.holds files.old) ops.now ≡ None) }
    ensures absent { IsTrue F.tells → (gone : List ℕ) → result ≡ Err (InputFault.Absent gone) → first_missing (F.holds files.old) ops.now ≡ Some gone }
    ensures same { F.holds files.new ≡ F.holds files.old }
    ensures lent { F.lent files.new ≡ F.lent files.old + number_of inputs.new.by_operator.items }
    ensures cause { HasCause (F.faults files.old) (F.faults files.new) (result ≡ Err InputFault.Device) }
{
    for op in ops {
        let input = find_input(alloc, files, &op.kind)?;
        put_input(files, inputs, input)?;
    }
    Ok(())
}

/// Finds the file of each import once, in the order of the operators. The first that isn't there is
/// told, and those found before it are handed back.
pub fn find_inputs<F: Files>(
    alloc: Global,
    files: &mut F,
    ops: &[OpSpec],
) -> Result<Inputs<F::Input>, InputFault>
    ensures inputs { IfOk result (λ inputs. AreInputs (IsTrue F.tells) F.Input.rest (F.holds files.old) ops.now inputs.by_operator.items) }
    ensures fresh { IfOk result (λ inputs. all_faults F.Input.faults inputs.by_operator.items ≡ 0) }
    ensures there { IsTrue F.tells → IfOk result (λ _. first_missing (F.holds files.old) ops.now ≡ None) }
    ensures absent { IsTrue F.tells → (gone : List ℕ) → result ≡ Err (InputFault.Absent gone) → first_missing (F.holds files.old) ops.now ≡ Some gone }
    ensures same { F.holds files.new ≡ F.holds files.old }
    ensures lent { IfOk result (λ inputs. F.lent files.new ≡ F.lent files.old + number_of inputs.by_operator.items) }
    ensures none_lent { OnErr result (F.lent files.new ≡ F.lent files.old) }
    ensures cause { HasCause (F.faults files.old) (F.faults files.new) (result ≡ Err InputFault.Device) }
{
    let mut inputs = no_inputs(alloc);
    match find_each(alloc, files, ops, &mut inputs) {
        Ok(()) => Ok(inputs),
        Err(fault) => {
            settle_inputs(files, inputs);
            Err(fault)
        }
    }
}
