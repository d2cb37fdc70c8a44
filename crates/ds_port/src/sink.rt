ghost use Rattle.std.specs.Prelude.{◌≡◌, ◌<◌, ◌≤◌, ◌-◌, ◌^◌, ◌++◌, List, ℕ, Bool, take, length, IsTrue, IsErr, IfOk, OnErr};
ghost use Rattle.std.specs.Io.{WritesAtMost};
ghost use Rattle.std.specs.declared.option.Option.{Option};
ghost use Rattle.ds_port.specs.Causes.{HasCause};

use crate::DeviceFault;

/// Bytes that go out.
pub trait Sink {
    /// Whether it tells what it holds; where it doesn't, `held` says nothing.
    ghost tells: { Bool };

    /// The bytes that were written.
    ghost held: { Self → List ℕ };

    /// The name of the file that it becomes, if it is to be one.
    ghost name: { Self → Option (List ℕ) };

    /// How often it has failed.
    ghost faults: { Self → ℕ };

    /// Writes a part of `bytes` from their front, at least one byte where there is one.
    fn write(&mut self, bytes: &[u8]) -> Result<usize, DeviceFault>
        ensures bound { WritesAtMost result bytes.now }
        ensures some { IfOk result (λ n. 0 < length bytes.now → 0 < n) }
        ensures appended { IsTrue tells → IfOk result (λ n. held self.new ≡ held self.old ++ take n bytes.now) }
        ensures err { OnErr result (held self.new ≡ held self.old) }
        ensures name { name self.new ≡ name self.old }
        ensures cause { HasCause (faults self.old) (faults self.new) (IsErr result) };

    /// Passes on what it still holds back.
    fn finish(&mut self) -> Result<(), DeviceFault>
        ensures held { held self.new ≡ held self.old }
        ensures name { name self.new ≡ name self.old }
        ensures cause { HasCause (faults self.old) (faults self.new) (IsErr result) };

    /// No count is greater.
    ghost bounded: { (s : Self) → faults s ≤ 2 ^ 64 - 1 };
}
