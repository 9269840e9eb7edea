ghost use Rattle.std.specs.Prelude.{◌≡◌, ◌↔◌, IsTrue, [], ◌∷◌, ◌++◌};
ghost use Rattle.corb_sniff.specs.Continuations.{AreAlike, IsHopeless};
ghost use Rattle.corb_sniff.specs.XmlGrammar.{is_xml};
ghost use Rattle.corb_sniff.specs.XmlSamples.{xml_sample};

use crate::front::is_white;

/// How much of white space and `<?xml` has come.
#[derive(Clone, Copy)]
pub enum XmlState {
    /// White space.
    White,
    /// `<`
    Open,
    /// `<?`
    Question,
    /// `<?x`
    LetterX,
    /// `<?xm`
    LetterM,
    /// `<?xml`: what follows doesn't matter.
    Met,
    /// Nothing that could follow would make it XML.
    Missed,
}

impl XmlState {
    /// The state after one more byte.
    #[tactic(auto, unfolding(crate::specs::XmlGrammar::is_xml))]
    pub fn next(self, byte: u8) -> XmlState
        ensures { AreAlike is_xml (xml_sample self ++ byte ∷ []) (xml_sample result) }
    {
        match self {
            XmlState::White if is_white(byte) => XmlState::White,
            XmlState::White if byte == b'<' => XmlState::Open,
            XmlState::Open if byte == b'?' => XmlState::Question,
            XmlState::Question if byte == b'x' => XmlState::LetterX,
            XmlState::LetterX if byte == b'm' => XmlState::LetterM,
            XmlState::LetterM if byte == b'l' => XmlState::Met,
            XmlState::Met => XmlState::Met,
            _ => XmlState::Missed,
        }
    }

    /// Whether what has come meets the grammar.
    #[tactic(auto, unfolding(crate::specs::XmlGrammar::is_xml))]
    pub fn is_met(self) -> bool
        ensures { result ≡ is_xml (xml_sample self) }
    {
        matches!(self, XmlState::Met)
    }

    /// Whether nothing that could follow would meet the grammar.
    #[tactic(auto, using(crate::proofs::XmlWays::xml_hope), unfolding(crate::specs::XmlGrammar::is_xml))]
    pub fn is_missed(self) -> bool
        ensures { IsTrue result ↔ IsHopeless is_xml (xml_sample self) }
    {
        matches!(self, XmlState::Missed)
    }
}
