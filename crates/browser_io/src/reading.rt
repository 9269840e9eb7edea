//! Reading a source to its end.

ghost use Rattle.std.specs.Prelude.{◌≡◌, ◌≢◌, ◌≤◌, ◌+◌, IfOk, IfSome, OnOk, vec_len};
ghost use Rattle.std.specs.Io.KnownBytes.{Consumes, IsAtEnd};
ghost use Rattle.browser_io.specs.Faults.{Rose};
ghost use Rattle.browser_io.specs.Moved.{KeepsTelling, TakesAtMost, TakesExactly};
ghost use Rattle.browser_io.specs.declared.reading.ReadStop.TheVariants.{NoMemory};

use crate::source::Source;
use std::alloc::{AllocError, Global};
use thiserror::Error;

/// Why a source was not read to its end.
#[derive(Clone, Copy, Debug, PartialEq, Eq, Error)]
pub enum ReadStop {
    /// A read failed.
    #[error("a read failed")]
    Fault,
    /// One byte more than the limit was read.
    #[error("there are too many bytes")]
    TooLarge,
    /// The allocator had no memory left.
    #[error("{}", call_answers::NoMemory)]
    NoMemory,
}

impl From<AllocError> for ReadStop {
    ghost from_gives = { λ _ stop. stop ≡ NoMemory };

    fn from(_error: AllocError) -> Self {
        ReadStop::NoMemory
    }
}

// The most bytes that one read asks for.
const CHUNK: usize = 4096;

/// Reads all bytes to the end, where they are at most `max`.
///
/// It stops at the first failed read, at byte `max + 1`, and where no memory is left.
pub fn read_all<S: Source>(alloc: Global, source: &mut S, max: usize) -> Result<Vec<u8>, ReadStop>
    ensures whole { IfOk result (λ all. IfSome (S.left source.old) (λ input. all.items ≡ input)) }
    ensures bytes { IfOk result (λ all.
        Consumes (S.left source.old) (S.left source.new) all.items) }
    ensures end { OnOk result (IsAtEnd (S.left source.new)) }
    ensures fits { IfOk result (λ all. vec_len all ≤ max) }

    // Whatever the answer, no more than `max + 1` bytes were taken, and that many only at TooLarge.
    ensures taken { TakesAtMost (S.left source.old) (S.left source.new) (max + 1) }
    ensures large { result ≡ Err ReadStop.TooLarge →
        TakesExactly (S.left source.old) (S.left source.new) (max + 1) }
    ensures others { result ≢ Err ReadStop.TooLarge →
        TakesAtMost (S.left source.old) (S.left source.new) max }

    ensures fault { result ≡ Err ReadStop.Fault → Rose (S.faults source.old) (S.faults source.new) }
    ensures calm { result ≢ Err ReadStop.Fault → S.faults source.new ≡ S.faults source.old }

    ensures later { S.faults source.old ≤ S.faults source.new }
    ensures telling { KeepsTelling (S.left source.old) (S.left source.new) }
{
    let mut all = Vec::new(alloc);
    let mut buf = [0; CHUNK];
    'reads: loop {
        let room = max - all.len();
        let want = room.min(CHUNK - 1) + 1;
        match source.read(&mut buf[..want]) {
            Ok(0) => return Ok(all),
            Ok(count) if count > room => return Err(ReadStop::TooLarge),
            Ok(count) => all.extend_from_slice(&buf[..count])?,
            Err(_) => return Err(ReadStop::Fault),
        }
    }
}
