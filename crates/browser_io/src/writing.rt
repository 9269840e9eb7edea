//! Writing all of a slice.

ghost use Rattle.std.specs.Prelude.{◌≡◌, ◌≤◌, ◌<◌, [], length, take, IsOk, IfErr, OnOk, OnErr};
ghost use Rattle.std.specs.Io.KnownBytes.{Appends};
ghost use Rattle.browser_io.specs.Faults.{Rose};
ghost use Rattle.browser_io.specs.Moved.{KeepsTelling};

use crate::sink::Sink;
use thiserror::Error;

/// A write failed after `sent` bytes.
#[derive(Clone, Copy, Debug, PartialEq, Eq, Error)]
#[error("a write failed after {sent} bytes")]
pub struct WriteStop {
    /// How many first bytes went out.
    pub sent: usize,
}

/// Writes all of `bytes`, and stops at the first failed write. It takes no memory.
pub fn write_all<K: Sink>(sink: &mut K, bytes: &[u8]) -> Result<(), WriteStop>
    ensures all { OnOk result (Appends (K.written sink.old) (K.written sink.new) bytes.now) }
    ensures none { bytes.now ≡ [] → (result ≡ Ok tt) × (sink.new ≡ sink.old) }

    // After a failed write exactly the first `sent` bytes went out.
    ensures short { IfErr result (λ stop. stop.sent < length bytes.now) }
    ensures sent { IfErr result (λ stop.
        Appends (K.written sink.old) (K.written sink.new) (take stop.sent bytes.now)) }
    ensures fault { OnErr result (Rose (K.faults sink.old) (K.faults sink.new)) }
    ensures calm { OnOk result (K.faults sink.new ≡ K.faults sink.old) }

    ensures later { K.faults sink.old ≤ K.faults sink.new }
    ensures telling { KeepsTelling (K.written sink.old) (K.written sink.new) }
{
    let mut sent = 0;
    'writes: while sent < bytes.len() {
        let (_, rest) = bytes.split_at(sent);
        match sink.write(rest) {
            Ok(count) => sent += count,
            Err(_) => return Err(WriteStop { sent }),
        }
    }
    Ok(())
}
