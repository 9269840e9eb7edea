//! A source over any reader.

ghost use Rattle.std.specs.Prelude.{◌≡◌, ◌≤◌, ◌<◌, None, length, IfOk, OnErr};
ghost use Rattle.std.specs.Io.KnownBytes.{ReadConsumes};
ghost use Rattle.browser_io.specs.Faults.{count_after};

use crate::failed::Failed;
use crate::source::Source;
use std::io::Read;
use std::marker::Model;

/// Reads from any reader, as standard input. It counts the reader's errors, and as a [`Source`]
/// doesn't tell its bytes.
///
/// Every error is a fault, `Interrupted` too: `std` promises no bound on how often that can come
/// again, so a read that retried it might not return.
#[derive(Drop)]
pub struct InputSource<R: Read> {
    reader: R,
    faults: u64,
}

impl<R: Read> Model for InputSource<R> {
    ghost use Rattle.browser_io.specs.Adapters.{ReaderSource};

    ghost Value = { ReaderSource };

    ghost view = { λ s. record { remaining = R.remaining s.reader; faults = s.faults } };
}

impl<R: Read> InputSource<R> {
    /// A source over `reader` that has met no fault.
    pub fn new(reader: R) -> Self
        ensures remaining { result.remaining ≡ R.remaining reader }
        ensures faults { result.faults ≡ 0 }
    {
        InputSource { reader, faults: 0 }
    }
}

impl<R: Read> Source for InputSource<R> {
    ghost left = { λ _. None };

    ghost faults = { λ s. s.faults };

    fn read(&mut self, buf: &mut [u8]) -> Result<usize, Failed>
        requires { 0 < length buf.old }
        ensures bound { IfOk result (λ n. n ≤ length buf.new) }
        ensures bytes { ReadConsumes self.old.remaining self.new.remaining result buf.new }
        ensures later { self.old.faults ≤ self.new.faults }
        ensures faults { self.new.faults ≡ count_after self.old.faults result }
    {
        match self.reader.read(buf) {
            Ok(count) => Ok(count),
            Err(_) => {
                self.faults = self.faults.saturating_add(1);
                Err(Failed)
            }
        }
    }
}
