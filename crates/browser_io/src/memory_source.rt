//! A source in memory.

ghost use Rattle.std.specs.Prelude.{◌≡◌, ◌≤◌, ◌<◌, ◌↔◌, ◌++◌, [], length, take, min, Some, IfOk, OnErr, IsErr, Contains};
ghost use Rattle.browser_io.specs.Faults.{counted_on, count_after};

use crate::cursor::Cursor;
use crate::failed::Failed;
use crate::source::Source;
use std::marker::Model;

/// Bytes in memory, of which each read hands over at most a step, with reads that fail by plan.
///
/// A read fails exactly where its number, counted from 0, stands in the plan.
#[derive(Drop)]
pub struct MemSource {
    cursor: Cursor,
    step: usize,
    fails: Vec<u64>,
    calls: u64,
    faults: u64,
}

impl Model for MemSource {
    ghost use Rattle.std.specs.Prelude.{◌<◌};
    ghost use Rattle.browser_io.specs.Memory.{MemorySource};

    ghost Value = { MemorySource };

    ghost view = { λ s. record {
      left = s.cursor;
      step = s.step;
      fails = s.fails.items;
      calls = s.calls;
      faults = s.faults;
    } };

    ghost invariant = { λ s. 0 < s.step };
}

impl MemSource {
    ghost use Rattle.browser_io.specs.Memory.{fresh_source};

    /// A source of `bytes` that hands over at most `step` of them a read, and fails at the reads
    /// whose numbers stand in `fails`.
    pub fn new(bytes: Vec<u8>, step: usize, fails: Vec<u64>) -> Self
        requires { 1 ≤ step }
        ensures { result ≡ fresh_source bytes.items step fails.items }
    {
        MemSource {
            cursor: Cursor::new(bytes),
            step,
            fails,
            calls: 0,
            faults: 0,
        }
    }
}

impl Source for MemSource {
    ghost left = { λ s. Some s.left };

    ghost faults = { λ s. s.faults };

    fn read(&mut self, buf: &mut [u8]) -> Result<usize, Failed>
        requires { 0 < length buf.old }
        ensures fails { IsErr result ↔ Contains self.old.fails self.old.calls }
        ensures count { IfOk result (λ n.
            n ≡ min self.old.step (min (length buf.new) (length self.old.left))) }
        ensures bytes { IfOk result (λ n. self.old.left ≡ take n buf.new ++ self.new.left) }
        ensures end { IfOk result (λ n. n ≡ 0 → self.new.left ≡ []) }
        ensures unmoved { OnErr result (self.new.left ≡ self.old.left) }

        ensures later { self.old.faults ≤ self.new.faults }
        ensures faults { self.new.faults ≡ count_after self.old.faults result }
        ensures calls { self.new.calls ≡ counted_on self.old.calls }
        ensures step { self.new.step ≡ self.old.step }
        ensures plan { self.new.fails ≡ self.old.fails }
    {
        let call = self.calls;
        self.calls = call.saturating_add(1);
        if self.fails.contains(&call) {
            self.faults = self.faults.saturating_add(1);
            return Err(Failed);
        }
        Ok(self.cursor.hand_over(buf, self.step))
    }
}
