ghost use Rattle.std.specs.Prelude.{◌≡◌, ◌<◌, ◌≤◌, ◌-◌, length, map, All, IsTrue, IsSome, IsErr, IfOk, OnOk, OnErr, true, false, ◌∷◌, []};
ghost use Rattle.ds_port.specs.Causes.{HasCause};
ghost use Rattle.flow_outputs.specs.Outputs.{with_files, file_from, MakesSome};

use ds_port::{DeviceFault, Files, Sink};

/// Commits an output, or discards it where one before it wasn't committed. Answers whether one failed.
fn commit_next<F: Files>(files: &mut F, output: F::Output, failed: bool) -> bool
    requires { IsSome (F.Output.name output) }
    ensures kept { failed ≡ true → F.holds files.new ≡ F.holds files.old }
    ensures failed { failed ≡ true → result ≡ true }
    ensures stays { failed ≡ false → result ≡ true → F.holds files.new ≡ F.holds files.old }
    ensures made { IsTrue F.tells → failed ≡ false → result ≡ false → F.holds files.new ≡ with_files (F.holds files.old) (file_from (F.Output.name output) (F.Output.held output) ∷ []) }
    ensures lent { F.lent files.new ≡ F.lent files.old - 1 }
    ensures cause { HasCause (F.faults files.old) (F.faults files.new) (failed ≡ false × result ≡ true) }
{
    if failed {
        files.discard(output);
        return true;
    }
    files.commit(output).is_err()
}

/// Makes each output the file of its name, in their order. Where one fails, the ones behind it
/// become no files.
pub fn commit_all<F: Files>(files: &mut F, outputs: Vec<F::Output>) -> Result<(), DeviceFault>
    requires { All (λ o. IsSome (F.Output.name o)) outputs.items }
    ensures ok { IsTrue F.tells → OnOk result (F.holds files.new ≡ with_files (F.holds files.old) (map (λ o. file_from (F.Output.name o) (F.Output.held o)) outputs.items)) }
    ensures err { IsTrue F.tells → OnErr result (MakesSome (F.holds files.old) (F.holds files.new) (map (λ o. file_from (F.Output.name o) (F.Output.held o)) outputs.items)) }
    ensures lent { F.lent files.new ≡ F.lent files.old - length outputs.items }
    ensures cause { HasCause (F.faults files.old) (F.faults files.new) (IsErr result) }
{
    let mut failed = false;
    for output in outputs {
        failed = commit_next(files, output, failed);
    }
    if failed { Err(DeviceFault) } else { Ok(()) }
}

/// Lets all outputs go; none becomes a file.
pub fn discard_all<F: Files>(files: &mut F, outputs: Vec<F::Output>)
    ensures same { F.holds files.new ≡ F.holds files.old }
    ensures lent { F.lent files.new ≡ F.lent files.old - length outputs.items }
    ensures later { F.faults files.old ≤ F.faults files.new }
{
    for output in outputs {
        files.discard(output);
    }
}
