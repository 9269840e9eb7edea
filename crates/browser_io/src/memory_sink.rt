//! A sink in memory.

ghost use Rattle.std.specs.Prelude.{◌≡◌, ◌≤◌, ◌<◌, ◌-◌, ◌↔◌, ◌⊎◌, ◌++◌, length, take, min, Some, IfOk, OnErr, IsErr, Contains};
ghost use Rattle.browser_io.specs.Faults.{counted_on, count_after};

use crate::failed::Failed;
use crate::sink::Sink;
use call_answers::NoMemory;
use std::alloc::Global;
use std::marker::Model;

/// Bytes in memory, of which each write takes at most a step, with writes that fail by plan.
///
/// A write fails exactly where its number, counted from 0, stands in the plan, and where the room
/// is full. The room is taken when the sink is made, so that no write takes memory.
#[derive(Drop)]
pub struct MemSink {
    bytes: Vec<u8>,
    room: usize,
    step: usize,
    fails: Vec<u64>,
    calls: u64,
    faults: u64,
}

impl Model for MemSink {
    ghost use Rattle.std.specs.Prelude.{◌≤◌, ◌<◌, vec_len, vec_capacity};
    ghost use Rattle.browser_io.specs.Memory.{MemorySink};

    ghost Value = { MemorySink };

    ghost view = { λ s. record {
      written = s.bytes.items;
      room = s.room;
      step = s.step;
      fails = s.fails.items;
      calls = s.calls;
      faults = s.faults;
    } };

    ghost invariant = { λ s. (vec_len s.bytes ≤ s.room) × (s.room ≤ vec_capacity s.bytes) × (0 < s.step) };
}

impl MemSink {
    ghost use Rattle.browser_io.specs.Memory.{fresh_sink};

    /// An empty sink that holds at most `room` bytes, takes at most `step` of them a write, and
    /// fails at the writes whose numbers stand in `fails`.
    pub fn new(alloc: Global, room: usize, step: usize, fails: Vec<u64>) -> Result<Self, NoMemory>
        requires { 1 ≤ step }
        ensures { IfOk result (λ sink. sink ≡ fresh_sink room step fails.items) }
    {
        Ok(MemSink {
            bytes: Vec::with_capacity(alloc, room)?,
            room,
            step,
            fails,
            calls: 0,
            faults: 0,
        })
    }

    /// The bytes written so far.
    pub fn written(&self) -> &[u8]
        ensures { result.now ≡ self.now.written }
    {
        self.bytes.as_slice()
    }
}

impl Sink for MemSink {
    ghost written = { λ s. Some s.written };

    ghost faults = { λ s. s.faults };

    fn write(&mut self, piece: &[u8]) -> Result<usize, Failed>
        requires { 0 < length piece.now }
        ensures fails { IsErr result ↔
            (Contains self.old.fails self.old.calls ⊎ (self.old.room ≤ length self.old.written)) }
        ensures count { IfOk result (λ n. let room = self.old.room - length self.old.written in
            n ≡ min self.old.step (min (length piece.now) room)) }
        ensures some { IfOk result (λ n. 1 ≤ n) }
        ensures bytes { IfOk result (λ n. self.new.written ≡ self.old.written ++ take n piece.now) }
        ensures unmoved { OnErr result (self.new.written ≡ self.old.written) }

        ensures later { self.old.faults ≤ self.new.faults }
        ensures faults { self.new.faults ≡ count_after self.old.faults result }
        ensures calls { self.new.calls ≡ counted_on self.old.calls }
        ensures room { self.new.room ≡ self.old.room }
        ensures step { self.new.step ≡ self.old.step }
        ensures plan { self.new.fails ≡ self.old.fails }
    {
        let call = self.calls;
        self.calls = call.saturating_add(1);
        let room = self.room - self.bytes.len();
        let count = self.step.min(piece.len().min(room));
        if count == 0 || self.fails.contains(&call) {
            self.faults = self.faults.saturating_add(1);
            return Err(Failed);
        }
        self.bytes.extend_from_slice(&piece[..count]).unwrap();
        Ok(count)
    }
}
