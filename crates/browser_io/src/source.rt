//! The trait of sources.

ghost use Rattle.std.specs.Prelude.{◌≡◌, ◌≤◌, ◌<◌, ℕ, List, length, take, Option, IfOk, OnOk, OnErr};
ghost use Rattle.std.specs.Io.KnownBytes.{Consumes, IsAtEnd};
ghost use Rattle.browser_io.specs.Faults.{Rose};
ghost use Rattle.browser_io.specs.Moved.{KeepsTelling};

use crate::failed::Failed;

/// Where bytes come from.
///
/// Contracts see the bytes still to come, where the source tells them, and its count of faults.
pub trait Source {
    // The bytes still to come, where they are told.
    ghost left: { Self → Option (List ℕ) };

    // How often it has failed.
    ghost faults: { Self → ℕ };

    /// Hands over the next bytes as the first of `buf`, and says how many; 0 only at the end.
    fn read(&mut self, buf: &mut [u8]) -> Result<usize, Failed>
        requires { 0 < length buf.old }
        ensures bound { IfOk result (λ n. n ≤ length buf.new) }
        ensures bytes { IfOk result (λ n.
            Consumes (left self.old) (left self.new) (take n buf.new)) }
        ensures end { IfOk result (λ n. n ≡ 0 → IsAtEnd (left self.new)) }

        // A failure is counted, and moves no byte. Nothing else is counted.
        ensures rose { OnErr result (Rose (faults self.old) (faults self.new)) }
        ensures unmoved { OnErr result (left self.new ≡ left self.old) }

        ensures calm { OnOk result (faults self.new ≡ faults self.old) }
        ensures later { faults self.old ≤ faults self.new }
        ensures telling { KeepsTelling (left self.old) (left self.new) };
}
