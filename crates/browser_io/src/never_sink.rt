//! A sink that never fails.

ghost use Rattle.std.specs.Prelude.{◌≡◌, ◌≤◌, ◌<◌, length, min, None, IfOk, IsOk};

use crate::failed::Failed;
use crate::sink::Sink;
use std::marker::Model;

/// Takes at most a step of bytes a write, and keeps none of them. As a [`Sink`] it doesn't tell its
/// bytes. No write fails, and the count of faults is 0 for ever.
#[derive(Drop)]
pub struct NeverSink {
    step: usize,
}

impl Model for NeverSink {
    ghost use Rattle.std.specs.Prelude.{◌<◌};
    ghost use Rattle.browser_io.specs.Memory.{FaultlessSink};

    ghost Value = { FaultlessSink };

    ghost view = { λ s. record { step = s.step } };

    ghost invariant = { λ s. 0 < s.step };
}

impl NeverSink {
    /// A sink that takes at most `step` bytes a write.
    pub fn new(step: usize) -> Self
        requires { 1 ≤ step }
        ensures { result.step ≡ step }
    {
        NeverSink { step }
    }
}

impl Sink for NeverSink {
    ghost written = { λ _. None };

    ghost faults = { λ _. 0 };

    fn write(&mut self, piece: &[u8]) -> Result<usize, Failed>
        requires { 0 < length piece.now }
        ensures never { IsOk result }
        ensures count { IfOk result (λ n. n ≡ min self.old.step (length piece.now)) }
        ensures some { IfOk result (λ n. 1 ≤ n) }
        ensures same { self.new ≡ self.old }
    {
        Ok(self.step.min(piece.len()))
    }
}
