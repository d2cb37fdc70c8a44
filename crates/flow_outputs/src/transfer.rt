//! Reading the front of a source, and writing all of some bytes.

ghost use Rattle.std.specs.Prelude.{◌≡◌, ◌≤◌, ◌<◌, ◌^◌, ◌+◌, ◌++◌, ℕ, length, take, IsTrue, IsErr, IfOk, OnOk, OnErr};
ghost use Rattle.ds_port.specs.Causes.{HasCause};

use ds_port::{DeviceFault, Sink, Source};
use ds_value::Bytes;
use std::alloc::Global;

pub enum ReadFault {
    Device,
    Memory,
}

/// The bytes that a source has left, up to one more than the limit.
pub fn read_front<S: Source>(
    alloc: Global,
    source: &mut S,
    limit: usize,
) -> Result<Bytes, ReadFault>
    requires { limit < 2 ^ 40 }
    ensures front { IsTrue S.tells → IfOk result (λ bytes. bytes ≡ take (limit + 1) (S.rest source.old)) }
    ensures most { IfOk result (λ bytes. length bytes ≤ limit + 1) }
    ensures cause { HasCause (S.faults source.old) (S.faults source.new) (result ≡ Err ReadFault.Device) }
{
    let mut bytes = Bytes::new(alloc);
    let mut buf = [0u8; 65_536];
    while bytes.as_slice().len() <= limit {
        let wanted = (limit + 1 - bytes.as_slice().len()).min(buf.len());
        let front = &mut buf[..wanted];
        let Ok(count) = source.read(front) else {
            return Err(ReadFault::Device);
        };
        if count == 0 {
            return Ok(bytes);
        }
        let Ok(()) = bytes.append(&front[..count]) else {
            return Err(ReadFault::Memory);
        };
    }
    Ok(bytes)
}

/// Writes all bytes, or some of them and fails.
pub fn write_whole<K: Sink>(sink: &mut K, bytes: &[u8]) -> Result<(), DeviceFault>
    ensures ok { IsTrue K.tells → OnOk result (K.held sink.new ≡ K.held sink.old ++ bytes.now) }
    ensures err { IsTrue K.tells → OnErr result ((n : ℕ) × (K.held sink.new ≡ K.held sink.old ++ take n bytes.now)) }
    ensures name { K.name sink.new ≡ K.name sink.old }
    ensures cause { HasCause (K.faults sink.old) (K.faults sink.new) (IsErr result) }
{
    let mut at = 0;
    while at < bytes.len() {
        at += sink.write(&bytes[at..])?;
    }
    Ok(())
}

/// Writes all bytes and passes them on, or some of them and fails.
pub fn print<K: Sink>(sink: &mut K, bytes: &[u8]) -> Result<(), DeviceFault>
    ensures ok { IsTrue K.tells → OnOk result (K.held sink.new ≡ K.held sink.old ++ bytes.now) }
    ensures err { IsTrue K.tells → OnErr result ((n : ℕ) × (K.held sink.new ≡ K.held sink.old ++ take n bytes.now)) }
    ensures cause { HasCause (K.faults sink.old) (K.faults sink.new) (IsErr result) }
{
    write_whole(sink, bytes)?;
    sink.finish()
}
