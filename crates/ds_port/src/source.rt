ghost use Rattle.std.specs.Prelude.{◌≡◌, ◌<◌, ◌≤◌, ◌-◌, ◌^◌, ◌++◌, [], List, ℕ, Bool, take, length, IsTrue, IsErr, IfOk, OnErr};
ghost use Rattle.std.specs.Io.{ReadsAtMost};
ghost use Rattle.ds_port.specs.Causes.{HasCause};

use crate::DeviceFault;

/// Bytes that come in.
pub trait Source {
    /// Whether it tells what it holds; where it doesn't, `rest` says nothing.
    ghost tells: { Bool };

    /// The bytes that are left.
    ghost rest: { Self → List ℕ };

    /// How often it has failed.
    ghost faults: { Self → ℕ };

    /// Fills a part of `buf` from its front; 0 bytes are the end.
    fn read(&mut self, buf: &mut [u8]) -> Result<usize, DeviceFault>
        ensures bound { ReadsAtMost result buf.new }
        ensures taken { IsTrue tells → IfOk result (λ n. rest self.old ≡ take n buf.new ++ rest self.new) }
        ensures end { IsTrue tells → IfOk result (λ n. n ≡ 0 → 0 < length buf.old → rest self.old ≡ []) }
        ensures err { OnErr result (rest self.new ≡ rest self.old) }
        ensures cause { HasCause (faults self.old) (faults self.new) (IsErr result) };

    /// No count is greater.
    ghost bounded: { (s : Self) → faults s ≤ 2 ^ 64 - 1 };
}
