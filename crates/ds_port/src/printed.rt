ghost use Rattle.std.specs.Prelude.{◌≡◌, ◌<◌, ◌-◌, ◌^◌, min, false, [], None, length, IfOk, IsErr};
ghost use Rattle.std.specs.Io.{WritesAtMost};
ghost use Rattle.std.proofs.Math.Nat.{min-le_right};
ghost use Rattle.ds_port.specs.Causes.{HasCause};

use crate::{DeviceFault, Sink};
use std::io::Write;

/// One write to a writer of std. One that takes nothing of a piece fails.
pub fn write_once<W: Write>(
    writer: &mut W,
    faults: &mut u64,
    bytes: &[u8],
) -> Result<usize, DeviceFault>
    ensures bound { WritesAtMost result bytes.now }
    ensures some { IfOk result (λ n. 0 < length bytes.now → 0 < n) }
    ensures cause { HasCause faults.old faults.new (IsErr result) }
{
    match writer.write(bytes) {
        Ok(count) if count > 0 || bytes.is_empty() => Ok(count),
        _ => {
            *faults = faults.saturating_add(1);
            Err(DeviceFault)
        }
    }
}

/// What is printed, over any writer of std.
#[derive(Drop)]
pub struct StdoutSink<W: Write + Drop> {
    writer: W,
    faults: u64,
}

impl<W: Write + Drop> StdoutSink<W> {
    pub fn new(writer: W) -> StdoutSink<W>
        ensures { ⟦<StdoutSink<W> as Sink>⟧.faults result ≡ 0 }
    {
        StdoutSink { writer, faults: 0 }
    }
}

impl<W: Write + Drop> Sink for StdoutSink<W> {
    ghost tells = { false };

    ghost held = { λ _. [] };

    ghost name = { λ _. None };

    ghost faults = { λ s. min s.faults (2 ^ 64 - 1) };

    ghost bounded = { λ s. min-le_right s.faults (2 ^ 64 - 1) };

    fn write(&mut self, bytes: &[u8]) -> Result<usize, DeviceFault> {
        write_once(&mut self.writer, &mut self.faults, bytes)
    }

    fn finish(&mut self) -> Result<(), DeviceFault> {
        match self.writer.flush() {
            Ok(()) => Ok(()),
            Err(_) => {
                self.faults = self.faults.saturating_add(1);
                Err(DeviceFault)
            }
        }
    }
}
