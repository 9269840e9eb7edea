ghost use Rattle.std.specs.Prelude.{◌≡◌, ◌<◌, true};
ghost use Rattle.corb_sniff.specs.Answers.{answer_of};

use corb_sniff::{Answer, SniffKind, Sniffer};

/// The answer at the end of a body that is fed in pieces of this size.
pub fn sniff_in_pieces(kind: SniffKind, body: &[u8], size: usize) -> Answer
    requires { 0 < size }
    ensures { result ≡ answer_of kind body.now true }
{
    let mut sniffer = Sniffer::new(kind);
    let mut start = 0;
    while start < body.len() {
        let end = start + size.min(body.len() - start);
        let _answer = sniffer.feed(&body[start..end]);
        start = end;
    }
    sniffer.finish()
}
