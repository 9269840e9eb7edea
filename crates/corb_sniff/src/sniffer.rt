ghost use Rattle.std.specs.Prelude.{◌≤◌};

use crate::html::HtmlState;
use crate::json::JsonState;
use crate::kind::{Answer, SniffKind, Sniffed};
use crate::prefix::PrefixState;
use crate::xml::XmlState;

/// How many bytes of a body are looked at.
const WINDOW: usize = 1024;

/// All that a body can be found to be.
const ALL: [Sniffed; 4] = [Sniffed::Html, Sniffed::Xml, Sniffed::Json, Sniffed::Prefix];

/// Tells from a body's first 1,024 bytes, which come in pieces, what it shows itself to be. It keeps no byte.
///
/// After any pieces the answer is that on all their bytes, and an answer other than `More` stays whatever follows
/// (`laws::answer_stays`). A sniffer that was finished has read nothing that is known.
#[derive(Drop)]
pub struct Sniffer {
    kind: SniffKind,
    seen: usize,
    html: HtmlState,
    xml: XmlState,
    json: JsonState,
    prefix: PrefixState,
    ghost within: { seen ≤ 1024 },
}

impl Sniffer {
    ghost use Rattle.std.specs.Prelude.{◌≡◌, ◌≢◌, ◌↔◌, ◌+◌, ◌<◌, ℕ, true, false, List, [], ◌∷◌, ◌++◌, length, IsTrue};
    ghost use Rattle.corb_sniff.specs.Continuations.{IsHopeless};
    ghost use Rattle.corb_sniff.specs.Confirmation.{meets};
    ghost use Rattle.corb_sniff.specs.Answers.{answer_of};
    ghost use Rattle.corb_sniff.specs.Reading.{Reads, sample_of, is_met, met_now, IsHopelessNow, AnswersNow};
    ghost use Rattle.corb_sniff.specs.HasRead.{HasRead};
    ghost use Rattle.corb_sniff.specs.declared.kind.SniffKind.{SniffKind as KindData};
    ghost use Rattle.corb_sniff.specs.declared.kind.Sniffed.{Sniffed as SniffedData};
    ghost use Rattle.corb_sniff.specs.declared.kind.Answer.TheVariants.{More};

    /// A sniffer that has read nothing of a body of this kind.
    pub fn new(kind: SniffKind) -> Sniffer
        ensures { HasRead result kind [] }
    {
        Sniffer {
            kind,
            seen: 0,
            html: HtmlState::Blank,
            xml: XmlState::White,
            json: JsonState::White,
            prefix: PrefixState::Start,
        }
    }

    fn read_byte(&mut self, byte: u8)
        requires { self.old.seen < 1024 }
        ensures { Reads self.old (byte ∷ []) self.new }
    {
        self.seen += 1;
        self.html = self.html.next(byte);
        self.xml = self.xml.next(byte);
        self.json = self.json.next(byte);
        self.prefix = self.prefix.next(byte);
    }

    fn read(&mut self, bytes: &[u8])
        requires { self.old.seen + length bytes.now ≤ 1024 }
        ensures { Reads self.old bytes.now self.new }
    {
        for byte in bytes {
            self.read_byte(*byte);
        }
    }

    fn meets(&self, sniffed: Sniffed) -> bool
        ensures { result ≡ meets sniffed (sample_of self.now sniffed) }
    {
        match sniffed {
            Sniffed::Html => self.html.is_met(),
            Sniffed::Xml => self.xml.is_met(),
            Sniffed::Json => self.json.is_met(),
            Sniffed::Prefix => self.prefix.is_met(),
        }
    }

    fn is_missed(&self, sniffed: Sniffed) -> bool
        ensures { IsTrue result ↔ IsHopeless (meets sniffed) (sample_of self.now sniffed) }
    {
        match sniffed {
            Sniffed::Html => self.html.is_missed(),
            Sniffed::Xml => self.xml.is_missed(),
            Sniffed::Json => self.json.is_missed(),
            Sniffed::Prefix => self.prefix.is_missed(),
        }
    }

    fn is_met(&self, sniffed: Sniffed) -> bool
        ensures { result ≡ is_met self.now sniffed }
    {
        self.kind.tests(sniffed) && self.meets(sniffed)
    }

    fn is_hopeless(&self, sniffed: Sniffed) -> bool
        ensures { IsTrue result ↔ IsHopelessNow self.now sniffed }
    {
        !self.kind.tests(sniffed) || self.is_missed(sniffed)
    }

    fn confirmed(&self) -> Option<Sniffed>
        ensures { result ≡ met_now self.now }
    {
        ALL.iter().copied().find(|sniffed| self.is_met(*sniffed))
    }

    #[tactic(auto, using(crate::proofs::ReadLemmas::each_hopeless))]
    fn all_hopeless(&self) -> bool
        ensures { IsTrue result ↔ ((sniffed : SniffedData) → IsHopelessNow self.now sniffed) }
    {
        ALL.iter().all(|sniffed| self.is_hopeless(*sniffed))
    }

    fn answer(&self, ended: bool) -> Answer
        ensures { AnswersNow self.now ended result }
    {
        match self.confirmed() {
            Some(sniffed) => Answer::Confirmed(sniffed),
            None if ended => Answer::Clear,
            None if self.seen == WINDOW => Answer::Clear,
            None if self.all_hopeless() => Answer::Clear,
            None => Answer::More,
        }
    }

    /// Reads one more piece. The answer is that on all bytes so far: `More` exactly where they settle nothing.
    pub fn feed(&mut self, piece: &[u8]) -> Answer
        ensures read { (kind : KindData) (list : List ℕ) →
            HasRead self.old kind list → HasRead self.new kind (list ++ piece.now) }
        ensures answer { (kind : KindData) (list : List ℕ) →
            HasRead self.old kind list → result ≡ answer_of kind (list ++ piece.now) false }
    {
        let taken = piece.len().min(WINDOW - self.seen);
        self.read(&piece[..taken]);
        self.answer(false)
    }

    /// Ends the body. The answer is that on all bytes fed, and never `More`. Nothing is fed afterwards.
    pub fn finish(&mut self) -> Answer
        ensures settled { result ≢ Answer.More }
        ensures answer { (kind : KindData) (list : List ℕ) →
            HasRead self.old kind list → result ≡ answer_of kind list true }
    {
        self.answer(true)
    }
}
