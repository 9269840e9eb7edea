//! Bytes in memory that are handed over from the front on.

ghost use Rattle.std.specs.Prelude.{◌≡◌, ◌<◌, ◌++◌, [], length, take, min};

use std::marker::Model;

/// Bytes, and how many of them were handed over. Contracts see those that are left.
#[derive(Drop)]
pub(crate) struct Cursor {
    bytes: Vec<u8>,
    at: usize,
}

impl Model for Cursor {
    ghost use Rattle.std.specs.Prelude.{ℕ, List, ◌≤◌, drop, vec_len};

    ghost Value = { List ℕ };

    ghost view = { λ c. drop c.at c.bytes.items };

    ghost invariant = { λ c. c.at ≤ vec_len c.bytes };
}

/// Copies as many first bytes as `step` and both slices allow, and says how many.
pub(crate) fn copy_front(rest: &[u8], buf: &mut [u8], step: usize) -> usize
    ensures count { result ≡ min step (min (length buf.new) (length rest.now)) }
    ensures bytes { take result buf.new ≡ take result rest.now }
{
    let count = step.min(buf.len().min(rest.len()));
    buf[..count].copy_from_slice(&rest[..count]);
    count
}

impl Cursor {
    pub(crate) fn new(bytes: Vec<u8>) -> Self
        ensures { result ≡ bytes.items }
    {
        Cursor { bytes, at: 0 }
    }

    /// Hands over the next bytes, as many as `step` and the buffer allow, and says how many.
    pub(crate) fn hand_over(&mut self, buf: &mut [u8], step: usize) -> usize
        requires room { 0 < length buf.old }
        requires step { 0 < step }
        ensures count { result ≡ min step (min (length buf.new) (length self.old)) }
        ensures bytes { self.old ≡ take result buf.new ++ self.new }
        ensures end { result ≡ 0 → self.new ≡ [] }
    {
        let (_, rest) = self.bytes.as_slice().split_at(self.at);
        let count = copy_front(rest, buf, step);
        self.at += count;
        count
    }
}
