//! A sink over any writer.

ghost use Rattle.std.specs.Prelude.{◌≡◌, ◌≤◌, ◌<◌, None, length, IfOk};
ghost use Rattle.std.specs.Io.KnownBytes.{WriteAppends};
ghost use Rattle.browser_io.specs.Faults.{count_after};

use crate::failed::Failed;
use crate::sink::Sink;
use std::io::Write;
use std::marker::Model;

/// Writes to any writer, as standard output. It counts the writer's errors, and as a [`Sink`]
/// doesn't tell its bytes.
///
/// A writer that takes no byte is a fault, and so is every error, `Interrupted` too: `std`
/// promises no bound on how often that can come again, so a write that retried it might not return.
#[derive(Drop)]
pub struct OutputSink<W: Write> {
    writer: W,
    faults: u64,
}

impl<W: Write> Model for OutputSink<W> {
    ghost use Rattle.browser_io.specs.Adapters.{WriterSink};

    ghost Value = { WriterSink };

    ghost view = { λ s. record { contents = W.contents s.writer; faults = s.faults } };
}

impl<W: Write> OutputSink<W> {
    /// A sink over `writer` that has met no fault.
    pub fn new(writer: W) -> Self
        ensures contents { result.contents ≡ W.contents writer }
        ensures faults { result.faults ≡ 0 }
    {
        OutputSink { writer, faults: 0 }
    }
}

impl<W: Write> Sink for OutputSink<W> {
    ghost written = { λ _. None };

    ghost faults = { λ s. s.faults };

    fn write(&mut self, piece: &[u8]) -> Result<usize, Failed>
        requires { 0 < length piece.now }
        ensures some { IfOk result (λ n. 1 ≤ n) }
        ensures bound { IfOk result (λ n. n ≤ length piece.now) }
        ensures bytes { WriteAppends self.old.contents self.new.contents result piece.now }
        ensures later { self.old.faults ≤ self.new.faults }
        ensures faults { self.new.faults ≡ count_after self.old.faults result }
    {
        match self.writer.write(piece) {
            Ok(count) if count > 0 => Ok(count),
            _ => {
                self.faults = self.faults.saturating_add(1);
                Err(Failed)
            }
        }
    }
}
