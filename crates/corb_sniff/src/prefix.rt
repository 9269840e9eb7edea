ghost use Rattle.std.specs.Prelude.{◌≡◌, ◌↔◌, IsTrue, [], ◌∷◌, ◌++◌};
ghost use Rattle.corb_sniff.specs.Continuations.{AreAlike, IsHopeless};
ghost use Rattle.corb_sniff.specs.ScriptPrefixes.{has_prefix};
ghost use Rattle.corb_sniff.specs.PrefixSamples.{prefix_sample};

/// How much of `)]}'`, `{}&&` or `for(;;);` has come.
#[derive(Clone, Copy)]
pub enum PrefixState {
    /// Nothing.
    Start,
    /// `)`
    CloseParen,
    /// `)]`
    CloseBracket,
    /// `)]}`
    CloseBrace,
    /// `{`
    OpenBrace,
    /// `{}`
    EmptyBraces,
    /// `{}&`
    Ampersand,
    /// `f`
    LetterF,
    /// `fo`
    LetterO,
    /// `for`
    For,
    /// `for(`
    ForParen,
    /// `for(;`
    OneSemicolon,
    /// `for(;;`
    TwoSemicolons,
    /// `for(;;)`
    EmptyLoop,
    /// A whole prefix: what follows doesn't matter.
    Met,
    /// Nothing that could follow would make it begin with a prefix.
    Missed,
}

impl PrefixState {
    /// The state after one more byte.
    #[tactic(auto, unfolding(crate::specs::ScriptPrefixes::has_prefix))]
    pub fn next(self, byte: u8) -> PrefixState
        ensures { AreAlike has_prefix (prefix_sample self ++ byte ∷ []) (prefix_sample result) }
    {
        match (self, byte) {
            (PrefixState::Start, b')') => PrefixState::CloseParen,
            (PrefixState::CloseParen, b']') => PrefixState::CloseBracket,
            (PrefixState::CloseBracket, b'}') => PrefixState::CloseBrace,
            (PrefixState::CloseBrace, b'\'') => PrefixState::Met,
            (PrefixState::Start, b'{') => PrefixState::OpenBrace,
            (PrefixState::OpenBrace, b'}') => PrefixState::EmptyBraces,
            (PrefixState::EmptyBraces, b'&') => PrefixState::Ampersand,
            (PrefixState::Ampersand, b'&') => PrefixState::Met,
            (PrefixState::Start, b'f') => PrefixState::LetterF,
            (PrefixState::LetterF, b'o') => PrefixState::LetterO,
            (PrefixState::LetterO, b'r') => PrefixState::For,
            (PrefixState::For, b'(') => PrefixState::ForParen,
            (PrefixState::ForParen, b';') => PrefixState::OneSemicolon,
            (PrefixState::OneSemicolon, b';') => PrefixState::TwoSemicolons,
            (PrefixState::TwoSemicolons, b')') => PrefixState::EmptyLoop,
            (PrefixState::EmptyLoop, b';') => PrefixState::Met,
            (PrefixState::Met, _) => PrefixState::Met,
            _ => PrefixState::Missed,
        }
    }

    /// Whether what has come meets the grammar.
    #[tactic(auto, unfolding(crate::specs::ScriptPrefixes::has_prefix))]
    pub fn is_met(self) -> bool
        ensures { result ≡ has_prefix (prefix_sample self) }
    {
        matches!(self, PrefixState::Met)
    }

    /// Whether nothing that could follow would meet the grammar.
    #[tactic(auto, using(crate::proofs::PrefixWays::prefix_hope), unfolding(crate::specs::ScriptPrefixes::has_prefix))]
    pub fn is_missed(self) -> bool
        ensures { IsTrue result ↔ IsHopeless has_prefix (prefix_sample self) }
    {
        matches!(self, PrefixState::Missed)
    }
}
