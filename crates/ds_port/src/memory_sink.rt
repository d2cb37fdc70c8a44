ghost use Rattle.std.specs.Prelude.{◌≡◌, ◌<◌, ◌≤◌, ◌↔◌, ◌⊎◌, ◌+◌, ◌-◌, ◌^◌, ◌++◌, [], IsTrue, IsErr, IsSome, IfOk, OnOk, OnErr, true, length, take, vec_capacity, vec_len, Some};
ghost use Rattle.std.specs.Io.{WritesAtMost};
ghost use Rattle.std.proofs.Math.Nat.{min-le_right};
ghost use Rattle.ds_port.specs.Causes.{HasCause, both};
ghost use Rattle.ds_port.specs.Failing.{IsCounted, NextFails};

use crate::{DeviceFault, Failures, Sink};
use ds_value::{Bytes, Name, NoMemory};
use std::alloc::Global;

/// A sink in memory. Want of memory in a write counts as a fault; there is none while its room lasts.
#[derive(Drop)]
pub struct MemSink<P: Failures> {
    bytes: Vec<u8>,
    name: Option<Name>,
    failures: P,
    refused: u64,
}

impl<P: Failures> MemSink<P> {
    pub fn new(alloc: Global, name: Option<Name>, failures: P) -> MemSink<P>
        ensures held { ⟦<MemSink<P> as Sink>⟧.held result ≡ [] }
        ensures name { ⟦<MemSink<P> as Sink>⟧.name result ≡ name }
        ensures faults { ⟦<MemSink<P> as Sink>⟧.faults result ≡ P.count failures }
        ensures failures { result.failures ≡ failures }
    {
        MemSink {
            bytes: Vec::new(alloc),
            name,
            failures,
            refused: 0,
        }
    }

    /// One that has room for so many bytes before it wants memory in a write.
    pub fn with_room(
        alloc: Global,
        name: Option<Name>,
        failures: P,
        room: usize,
    ) -> Result<MemSink<P>, NoMemory>
        ensures held { IfOk result (λ sink. ⟦<MemSink<P> as Sink>⟧.held sink ≡ []) }
        ensures name { IfOk result (λ sink. ⟦<MemSink<P> as Sink>⟧.name sink ≡ name) }
        ensures faults { IfOk result (λ sink. ⟦<MemSink<P> as Sink>⟧.faults sink ≡ P.count failures) }
        ensures failures { IfOk result (λ sink. sink.failures ≡ failures) }
        ensures room { IfOk result (λ sink. room ≤ vec_capacity sink.bytes) }
    {
        Ok(MemSink {
            bytes: Vec::with_capacity(alloc, room)?,
            name,
            failures,
            refused: 0,
        })
    }

    pub fn has_failed(&self) -> bool
        ensures { IsTrue result ↔ (0 < ⟦<MemSink<P> as Sink>⟧.faults self.now) }
    {
        self.failures.faults() > 0 || self.refused > 0
    }

    pub fn name(&self) -> &Option<Name>
        ensures { result.now ≡ ⟦<MemSink<P> as Sink>⟧.name self.now }
    {
        &self.name
    }

    /// The file that it becomes.
    pub fn into_file(self) -> (Name, Bytes)
        requires { IsSome (⟦<MemSink<P> as Sink>⟧.name self) }
        ensures name { ⟦<MemSink<P> as Sink>⟧.name self ≡ Some result.0 }
        ensures bytes { ⟦<MemSink<P> as Sink>⟧.held self ≡ result.1 }
    {
        (self.name.unwrap(), Bytes::from_vec(self.bytes))
    }

    pub fn bytes(&self) -> &[u8]
        ensures { result.now ≡ ⟦<MemSink<P> as Sink>⟧.held self.now }
    {
        self.bytes.as_slice()
    }
}

impl<P: Failures> Sink for MemSink<P> {
    ghost tells = { true };

    ghost held = { λ s. s.bytes.items };

    ghost name = { λ s. s.name };

    ghost faults = { λ s. both (P.count s.failures) s.refused };

    ghost bounded = { λ s. min-le_right (P.count s.failures + s.refused) (2 ^ 64 - 1) };

    fn write(&mut self, bytes: &[u8]) -> Result<usize, DeviceFault>
        ensures listed { NextFails P.numbers P.calls self.old.failures → IsErr result }
        ensures full { OnErr result (NextFails P.numbers P.calls self.old.failures ⊎ (vec_capacity self.old.bytes < vec_len self.old.bytes + length bytes.now)) }
        ensures room { vec_capacity self.old.bytes ≤ vec_capacity self.new.bytes }
        ensures counted { IsCounted P.numbers P.calls self.old.failures self.new.failures }
        ensures bound { WritesAtMost result bytes.now }
        ensures some { IfOk result (λ n. 0 < length bytes.now → 0 < n) }
        ensures appended { IfOk result (λ n. ⟦<MemSink<P> as Sink>⟧.held self.new ≡ ⟦<MemSink<P> as Sink>⟧.held self.old ++ take n bytes.now) }
        ensures err { OnErr result (⟦<MemSink<P> as Sink>⟧.held self.new ≡ ⟦<MemSink<P> as Sink>⟧.held self.old) }
        ensures name { ⟦<MemSink<P> as Sink>⟧.name self.new ≡ ⟦<MemSink<P> as Sink>⟧.name self.old }
        ensures cause { HasCause (⟦<MemSink<P> as Sink>⟧.faults self.old) (⟦<MemSink<P> as Sink>⟧.faults self.new) (IsErr result) }
        ensures kept { OnOk result (⟦<MemSink<P> as Sink>⟧.faults self.new ≡ ⟦<MemSink<P> as Sink>⟧.faults self.old) }
    {
        if self.failures.fails() {
            return Err(DeviceFault);
        }
        match self.bytes.extend_from_slice(bytes) {
            Ok(()) => Ok(bytes.len()),
            Err(_) => {
                self.refused = self.refused.saturating_add(1);
                Err(DeviceFault)
            }
        }
    }

    fn finish(&mut self) -> Result<(), DeviceFault>
        ensures listed { IsErr result ↔ NextFails P.numbers P.calls self.old.failures }
        ensures counted { IsCounted P.numbers P.calls self.old.failures self.new.failures }
        ensures held { ⟦<MemSink<P> as Sink>⟧.held self.new ≡ ⟦<MemSink<P> as Sink>⟧.held self.old }
        ensures name { ⟦<MemSink<P> as Sink>⟧.name self.new ≡ ⟦<MemSink<P> as Sink>⟧.name self.old }
        ensures cause { HasCause (⟦<MemSink<P> as Sink>⟧.faults self.old) (⟦<MemSink<P> as Sink>⟧.faults self.new) (IsErr result) }
        ensures kept { OnOk result (⟦<MemSink<P> as Sink>⟧.faults self.new ≡ ⟦<MemSink<P> as Sink>⟧.faults self.old) }
    {
        if self.failures.fails() {
            return Err(DeviceFault);
        }
        Ok(())
    }
}
