//! The trait of sinks.

ghost use Rattle.std.specs.Prelude.{◌≡◌, ◌≤◌, ◌<◌, ℕ, List, length, take, Option, IfOk, OnOk, OnErr};
ghost use Rattle.std.specs.Io.KnownBytes.{Appends};
ghost use Rattle.browser_io.specs.Faults.{Rose};
ghost use Rattle.browser_io.specs.Moved.{KeepsTelling};

use crate::failed::Failed;

/// Where bytes go to.
///
/// Contracts see the bytes written so far, where the sink tells them, and its count of faults.
pub trait Sink {
    // The bytes written so far, where they are told.
    ghost written: { Self → Option (List ℕ) };

    // How often it has failed.
    ghost faults: { Self → ℕ };

    /// Takes the first bytes of `piece`, at least one, and says how many.
    fn write(&mut self, piece: &[u8]) -> Result<usize, Failed>
        requires { 0 < length piece.now }
        ensures some { IfOk result (λ n. 1 ≤ n) }
        ensures bound { IfOk result (λ n. n ≤ length piece.now) }
        ensures bytes { IfOk result (λ n.
            Appends (written self.old) (written self.new) (take n piece.now)) }

        // A failure is counted, and moves no byte. Nothing else is counted.
        ensures rose { OnErr result (Rose (faults self.old) (faults self.new)) }
        ensures unmoved { OnErr result (written self.new ≡ written self.old) }

        ensures calm { OnOk result (faults self.new ≡ faults self.old) }
        ensures later { faults self.old ≤ faults self.new }
        ensures telling { KeepsTelling (written self.old) (written self.new) };
}
