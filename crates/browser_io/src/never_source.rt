//! A source in memory that never fails.

ghost use Rattle.std.specs.Prelude.{◌≡◌, ◌≤◌, ◌<◌, ◌++◌, [], length, take, min, Some, IfOk, IsOk};

use crate::cursor::Cursor;
use crate::failed::Failed;
use crate::source::Source;
use std::marker::Model;

/// Bytes in memory, of which each read hands over at most a step. No read fails, and the count of
/// faults is 0 for ever: what is promised where no fault rises holds over this source without that
/// premise.
#[derive(Drop)]
pub struct NeverSource {
    cursor: Cursor,
    step: usize,
}

impl Model for NeverSource {
    ghost use Rattle.std.specs.Prelude.{◌<◌};
    ghost use Rattle.browser_io.specs.Memory.{FaultlessSource};

    ghost Value = { FaultlessSource };

    ghost view = { λ s. record { left = s.cursor; step = s.step } };

    ghost invariant = { λ s. 0 < s.step };
}

impl NeverSource {
    /// A source of `bytes` that hands over at most `step` of them a read.
    pub fn new(bytes: Vec<u8>, step: usize) -> Self
        requires { 1 ≤ step }
        ensures left { result.left ≡ bytes.items }
        ensures step { result.step ≡ step }
    {
        NeverSource {
            cursor: Cursor::new(bytes),
            step,
        }
    }
}

impl Source for NeverSource {
    ghost left = { λ s. Some s.left };

    ghost faults = { λ _. 0 };

    fn read(&mut self, buf: &mut [u8]) -> Result<usize, Failed>
        requires { 0 < length buf.old }
        ensures never { IsOk result }
        ensures count { IfOk result (λ n.
            n ≡ min self.old.step (min (length buf.new) (length self.old.left))) }
        ensures bytes { IfOk result (λ n. self.old.left ≡ take n buf.new ++ self.new.left) }
        ensures end { IfOk result (λ n. n ≡ 0 → self.new.left ≡ []) }
        ensures step { self.new.step ≡ self.old.step }
    {
        Ok(self.cursor.hand_over(buf, self.step))
    }
}
