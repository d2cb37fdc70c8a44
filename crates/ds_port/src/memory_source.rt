ghost use Rattle.std.specs.Prelude.{◌≡◌, ◌<◌, ◌≤◌, ◌↔◌, ◌++◌, [], IsTrue, IsErr, IfOk, OnOk, OnErr, true, drop, length, take, vec_len};
ghost use Rattle.std.specs.Io.{ReadsAtMost};
ghost use Rattle.ds_port.specs.Causes.{HasCause};
ghost use Rattle.ds_port.specs.Failing.{IsCounted, NextFails};

use crate::{DeviceFault, Failures, Source};

/// A source in memory.
#[derive(Drop)]
pub struct MemSource<P: Failures> {
    bytes: Vec<u8>,
    at: usize,
    failures: P,
    ghost within: { at ≤ vec_len bytes },
}

impl<P: Failures> MemSource<P> {
    pub fn new(bytes: Vec<u8>, failures: P) -> MemSource<P>
        ensures rest { ⟦<MemSource<P> as Source>⟧.rest result ≡ bytes.items }
        ensures faults { ⟦<MemSource<P> as Source>⟧.faults result ≡ P.count failures }
        ensures failures { result.failures ≡ failures }
    {
        MemSource {
            bytes,
            at: 0,
            failures,
        }
    }

    pub fn has_failed(&self) -> bool
        ensures { IsTrue result ↔ (0 < ⟦<MemSource<P> as Source>⟧.faults self.now) }
    {
        self.failures.faults() > 0
    }
}

impl<P: Failures> Source for MemSource<P> {
    ghost tells = { true };

    ghost rest = { λ s. drop s.at s.bytes.items };

    ghost faults = { λ s. P.count s.failures };

    ghost bounded = { λ s. P.bounded s.failures };

    fn read(&mut self, buf: &mut [u8]) -> Result<usize, DeviceFault>
        ensures listed { IsErr result ↔ NextFails P.numbers P.calls self.old.failures }
        ensures counted { IsCounted P.numbers P.calls self.old.failures self.new.failures }
        ensures bound { ReadsAtMost result buf.new }
        ensures taken { IfOk result (λ n. ⟦<MemSource<P> as Source>⟧.rest self.old ≡ take n buf.new ++ ⟦<MemSource<P> as Source>⟧.rest self.new) }
        ensures end { IfOk result (λ n. n ≡ 0 → 0 < length buf.old → ⟦<MemSource<P> as Source>⟧.rest self.old ≡ []) }
        ensures err { OnErr result (⟦<MemSource<P> as Source>⟧.rest self.new ≡ ⟦<MemSource<P> as Source>⟧.rest self.old) }
        ensures cause { HasCause (⟦<MemSource<P> as Source>⟧.faults self.old) (⟦<MemSource<P> as Source>⟧.faults self.new) (IsErr result) }
        ensures kept { OnOk result (⟦<MemSource<P> as Source>⟧.faults self.new ≡ ⟦<MemSource<P> as Source>⟧.faults self.old) }
    {
        if self.failures.fails() {
            return Err(DeviceFault);
        }
        let left = &self.bytes[self.at..];
        let count = left.len().min(buf.len());
        buf[..count].copy_from_slice(&left[..count]);
        self.at += count;
        Ok(count)
    }
}
