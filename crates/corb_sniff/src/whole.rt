ghost use Rattle.std.specs.Prelude.{◌≡◌, true};
ghost use Rattle.std.specs.List.{flat_map};
ghost use Rattle.corb_sniff.specs.Answers.{answer_of};

use crate::kind::{Answer, SniffKind};
use crate::sniffer::Sniffer;

/// The answer on a body that is there whole, in these pieces: that on all their bytes.
pub fn sniff(kind: SniffKind, pieces: &[Vec<u8>]) -> Answer
    ensures { result ≡ answer_of kind (flat_map (λ piece. piece.items) pieces.now) true }
{
    let mut sniffer = Sniffer::new(kind);
    for piece in pieces {
        let _answer = sniffer.feed(piece);
    }
    sniffer.finish()
}
