//! The trait of wires.

ghost use Rattle.std.specs.Prelude.{◌≡◌, ◌≤◌, ◌<◌, ℕ, Bool, true, false, List, length, take, Option, IfOk, OnOk, OnErr};
ghost use Rattle.browser_io.specs.Faults.{Rose};
ghost use Rattle.browser_io.specs.Wires.{HandsOver, IsUsedUp, KeepsTellingPieces};

use crate::failed::Failed;

/// The most bytes that a piece has.
pub const MAX_PIECE: usize = 16_384;

/// Where the body of a response comes from, in pieces.
///
/// Contracts see the pieces still to come and whether the wire fails after them, where it tells them, and its count of
/// faults.
pub trait Wire {
    // The pieces still to come, where they are told.
    ghost left: { Self → Option (List (List ℕ)) };

    // Whether it fails after them. Where they are not told, this says nothing.
    ghost fails: { Self → Bool };

    // How often it has failed.
    ghost faults: { Self → ℕ };

    /// Hands over the next piece whole, as the first bytes of `buf`, and says how many they are; 0 only where no piece is
    /// left and the wire does not fail.
    fn read(&mut self, buf: &mut [u8]) -> Result<usize, Failed>
        requires { MAX_PIECE ≤ length buf.old }
        ensures bound { IfOk result (λ n. n ≤ length buf.new) }
        ensures piece { IfOk result (λ n.
            0 < n → HandsOver (left self.old) (left self.new) (take n buf.new)) }
        ensures end { IfOk result (λ n. n ≡ 0 → IsUsedUp (left self.old) (fails self.old) false) }
        ensures over { IfOk result (λ n. n ≡ 0 → left self.new ≡ left self.old) }

        // A failure is counted, and moves no byte. Nothing else is counted.
        ensures failing { OnErr result (IsUsedUp (left self.old) (fails self.old) true) }
        ensures rose { OnErr result (Rose (faults self.old) (faults self.new)) }
        ensures unmoved { OnErr result (left self.new ≡ left self.old) }

        ensures calm { OnOk result (faults self.new ≡ faults self.old) }
        ensures later { faults self.old ≤ faults self.new }
        ensures telling { KeepsTellingPieces (left self.old) (left self.new) }
        ensures steady { fails self.new ≡ fails self.old };
}
