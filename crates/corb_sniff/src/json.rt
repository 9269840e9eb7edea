ghost use Rattle.std.specs.Prelude.{◌≡◌, ◌↔◌, IsTrue, [], ◌∷◌, ◌++◌};
ghost use Rattle.corb_sniff.specs.Continuations.{AreAlike, IsHopeless};
ghost use Rattle.corb_sniff.specs.JsonGrammar.{is_json};
ghost use Rattle.corb_sniff.specs.JsonSamples.{json_sample};

use crate::front::is_white;

/// How much of the front of an object has come.
#[derive(Clone, Copy)]
pub enum JsonState {
    /// White space.
    White,
    /// `{` and white space.
    Object,
    /// The first name, whose closing quote is still to come.
    String,
    /// The first name, as far as a `\`.
    Escape,
    /// The whole first name and white space.
    Named,
    /// The colon: what follows doesn't matter.
    Met,
    /// Nothing that could follow would make it JSON.
    Missed,
}

impl JsonState {
    /// The state after one more byte.
    #[tactic(auto, unfolding(crate::specs::JsonGrammar::is_json))]
    pub fn next(self, byte: u8) -> JsonState
        ensures { AreAlike is_json (json_sample self ++ byte ∷ []) (json_sample result) }
    {
        match self {
            JsonState::White if is_white(byte) => JsonState::White,
            JsonState::White if byte == b'{' => JsonState::Object,
            JsonState::Object if is_white(byte) => JsonState::Object,
            JsonState::Object if byte == b'"' => JsonState::String,
            JsonState::String if byte == b'"' => JsonState::Named,
            JsonState::String if byte == b'\\' => JsonState::Escape,
            JsonState::String | JsonState::Escape if byte >= 32 => JsonState::String,
            JsonState::Named if is_white(byte) => JsonState::Named,
            JsonState::Named if byte == b':' => JsonState::Met,
            JsonState::Met => JsonState::Met,
            _ => JsonState::Missed,
        }
    }

    /// Whether what has come meets the grammar.
    #[tactic(auto, unfolding(crate::specs::JsonGrammar::is_json))]
    pub fn is_met(self) -> bool
        ensures { result ≡ is_json (json_sample self) }
    {
        matches!(self, JsonState::Met)
    }

    /// Whether nothing that could follow would meet the grammar.
    #[tactic(auto, using(crate::proofs::JsonWays::json_hope), unfolding(crate::specs::JsonGrammar::is_json))]
    pub fn is_missed(self) -> bool
        ensures { IsTrue result ↔ IsHopeless is_json (json_sample self) }
    {
        matches!(self, JsonState::Missed)
    }
}
