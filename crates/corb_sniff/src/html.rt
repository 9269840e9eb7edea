ghost use Rattle.std.specs.Prelude.{◌≡◌, ◌↔◌, IsTrue, [], ◌∷◌, ◌++◌, codes};
ghost use Rattle.corb_sniff.specs.Continuations.{AreAlike, IsHopeless};
ghost use Rattle.corb_sniff.specs.HtmlGrammar.{is_html, is_lower_html};
ghost use Rattle.corb_sniff.specs.TagParts.{front_of};
ghost use Rattle.corb_sniff.specs.HtmlSamples.{html_sample};

use crate::front::is_white;
use crate::tag::{BegunTag, Tag};

/// How much of white space, comments and a tag has come, in lower case.
#[derive(Clone, Copy)]
pub enum HtmlState {
    /// White space and whole comments.
    Blank,
    /// `<`
    Open,
    /// `<!`
    Bang,
    /// `<!-`
    BangDash,
    /// `<h`
    LetterH,
    /// `<s`
    LetterS,
    /// `<t`
    LetterT,
    /// A tag that is told from all others.
    Begun(BegunTag),
    /// A comment, and nothing of its end.
    Comment,
    /// A comment that ends in one dash.
    Dash,
    /// A comment that ends in two dashes or more.
    Dashes,
    /// A tag: what follows doesn't matter.
    Met,
    /// Nothing that could follow would make it HTML.
    Missed,
}

/// At the start of a tag of which the front has come.
fn begun(tag: Tag) -> HtmlState
    ensures { html_sample result ≡ front_of tag }
{
    HtmlState::Begun(BegunTag { tag, count: 0 })
}

/// After white space and whole comments.
#[tactic(auto, unfolding(crate::specs::HtmlGrammar::is_lower_html, crate::specs::HtmlGrammar::holds_behind_blanks, crate::specs::HtmlGrammar::holds_within))]
fn after_blank(byte: u8) -> HtmlState
    ensures { AreAlike is_lower_html (byte ∷ []) (html_sample result) }
{
    match byte {
        b'<' => HtmlState::Open,
        _ if is_white(byte) => HtmlState::Blank,
        _ => HtmlState::Missed,
    }
}

/// After `<`.
#[tactic(auto, unfolding(crate::specs::HtmlGrammar::is_lower_html, crate::specs::HtmlGrammar::holds_behind_blanks, crate::specs::HtmlGrammar::holds_within))]
fn after_open(byte: u8) -> HtmlState
    ensures { AreAlike is_lower_html (codes "<" ++ byte ∷ []) (html_sample result) }
{
    match byte {
        b'!' => HtmlState::Bang,
        b'h' => HtmlState::LetterH,
        b's' => HtmlState::LetterS,
        b't' => HtmlState::LetterT,
        b'd' => begun(Tag::Div),
        b'f' => begun(Tag::Font),
        b'i' => begun(Tag::Iframe),
        b'a' | b'b' | b'p' => HtmlState::Met,
        _ => HtmlState::Missed,
    }
}

/// After `<!`.
#[tactic(auto, unfolding(crate::specs::HtmlGrammar::is_lower_html, crate::specs::HtmlGrammar::holds_behind_blanks, crate::specs::HtmlGrammar::holds_within))]
fn after_bang(byte: u8) -> HtmlState
    ensures { AreAlike is_lower_html (codes "<!" ++ byte ∷ []) (html_sample result) }
{
    match byte {
        b'-' => HtmlState::BangDash,
        b'd' => begun(Tag::Doctype),
        _ => HtmlState::Missed,
    }
}

/// After `<!-`.
#[tactic(auto, unfolding(crate::specs::HtmlGrammar::is_lower_html, crate::specs::HtmlGrammar::holds_behind_blanks, crate::specs::HtmlGrammar::holds_within))]
fn after_bang_dash(byte: u8) -> HtmlState
    ensures { AreAlike is_lower_html (codes "<!-" ++ byte ∷ []) (html_sample result) }
{
    match byte {
        b'-' => HtmlState::Comment,
        _ => HtmlState::Missed,
    }
}

/// After `<h`.
#[tactic(auto, unfolding(crate::specs::HtmlGrammar::is_lower_html, crate::specs::HtmlGrammar::holds_behind_blanks, crate::specs::HtmlGrammar::holds_within))]
fn after_h(byte: u8) -> HtmlState
    ensures { AreAlike is_lower_html (codes "<h" ++ byte ∷ []) (html_sample result) }
{
    match byte {
        b'1' => HtmlState::Met,
        b'e' => begun(Tag::Head),
        b't' => begun(Tag::Html),
        _ => HtmlState::Missed,
    }
}

/// After `<s`.
#[tactic(auto, unfolding(crate::specs::HtmlGrammar::is_lower_html, crate::specs::HtmlGrammar::holds_behind_blanks, crate::specs::HtmlGrammar::holds_within))]
fn after_s(byte: u8) -> HtmlState
    ensures { AreAlike is_lower_html (codes "<s" ++ byte ∷ []) (html_sample result) }
{
    match byte {
        b'c' => begun(Tag::Script),
        b't' => begun(Tag::Style),
        _ => HtmlState::Missed,
    }
}

/// After `<t`.
#[tactic(auto, unfolding(crate::specs::HtmlGrammar::is_lower_html, crate::specs::HtmlGrammar::holds_behind_blanks, crate::specs::HtmlGrammar::holds_within))]
fn after_t(byte: u8) -> HtmlState
    ensures { AreAlike is_lower_html (codes "<t" ++ byte ∷ []) (html_sample result) }
{
    match byte {
        b'a' => begun(Tag::Table),
        b'i' => begun(Tag::Title),
        _ => HtmlState::Missed,
    }
}

/// In a tag.
#[tactic(auto, using(crate::proofs::HtmlLemmas::tag_missed, crate::proofs::HtmlLemmas::tag_met, crate::proofs::HtmlLemmas::html_met, crate::proofs::HtmlLemmas::html_missed))]
fn in_tag(begun: BegunTag, byte: u8) -> HtmlState
    ensures { AreAlike is_lower_html (html_sample (HtmlState.Begun begun) ++ byte ∷ []) (html_sample result) }
{
    let rest = begun.tag.rest();
    let count = begun.count + 1;
    if byte != rest[begun.count] {
        HtmlState::Missed
    } else if count == rest.len() {
        HtmlState::Met
    } else {
        HtmlState::Begun(BegunTag {
            tag: begun.tag,
            count,
        })
    }
}

/// In a comment, of whose end nothing has come.
#[tactic(auto, using(crate::proofs::HtmlLemmas::html_comment))]
fn in_comment(byte: u8) -> HtmlState
    ensures { AreAlike is_lower_html (codes "<!--" ++ byte ∷ []) (html_sample result) }
{
    match byte {
        b'-' => HtmlState::Dash,
        _ => HtmlState::Comment,
    }
}

/// In a comment, behind one dash.
#[tactic(auto, using(crate::proofs::HtmlLemmas::html_comment))]
fn after_dash(byte: u8) -> HtmlState
    ensures { AreAlike is_lower_html (codes "<!---" ++ byte ∷ []) (html_sample result) }
{
    match byte {
        b'-' => HtmlState::Dashes,
        _ => HtmlState::Comment,
    }
}

/// In a comment, behind two dashes or more.
#[tactic(auto, using(crate::proofs::HtmlLemmas::html_comment))]
fn after_dashes(byte: u8) -> HtmlState
    ensures { AreAlike is_lower_html (codes "<!----" ++ byte ∷ []) (html_sample result) }
{
    match byte {
        b'-' => HtmlState::Dashes,
        b'>' => HtmlState::Blank,
        _ => HtmlState::Comment,
    }
}

impl HtmlState {
    /// The state after one more byte, whose case doesn't matter.
    #[tactic(auto, using(crate::proofs::HtmlCase::AreAlike_in_lower_case))]
    pub fn next(self, byte: u8) -> HtmlState
        ensures { AreAlike is_html (html_sample self ++ byte ∷ []) (html_sample result) }
    {
        self.next_lower(byte.to_ascii_lowercase())
    }

    #[tactic(auto, using(crate::proofs::HtmlLemmas::html_met, crate::proofs::HtmlLemmas::html_missed))]
    fn next_lower(self, byte: u8) -> HtmlState
        ensures { AreAlike is_lower_html (html_sample self ++ byte ∷ []) (html_sample result) }
    {
        match self {
            HtmlState::Blank => after_blank(byte),
            HtmlState::Open => after_open(byte),
            HtmlState::Bang => after_bang(byte),
            HtmlState::BangDash => after_bang_dash(byte),
            HtmlState::LetterH => after_h(byte),
            HtmlState::LetterS => after_s(byte),
            HtmlState::LetterT => after_t(byte),
            HtmlState::Begun(begun) => in_tag(begun, byte),
            HtmlState::Comment => in_comment(byte),
            HtmlState::Dash => after_dash(byte),
            HtmlState::Dashes => after_dashes(byte),
            HtmlState::Met => HtmlState::Met,
            HtmlState::Missed => HtmlState::Missed,
        }
    }

    /// Whether what has come meets the grammar.
    #[tactic(auto, using(crate::proofs::HtmlCase::html_of_sample, crate::proofs::HtmlWays::html_unmet), unfolding(crate::specs::HtmlGrammar::is_lower_html, crate::specs::HtmlGrammar::holds_behind_blanks, crate::specs::HtmlGrammar::holds_within))]
    pub fn is_met(self) -> bool
        ensures { result ≡ is_html (html_sample self) }
    {
        matches!(self, HtmlState::Met)
    }

    /// Whether nothing that could follow would meet the grammar.
    #[tactic(auto, using(crate::proofs::HtmlWays::html_hope, crate::proofs::HtmlWays::html_hopeless))]
    pub fn is_missed(self) -> bool
        ensures { IsTrue result ↔ IsHopeless is_html (html_sample self) }
    {
        matches!(self, HtmlState::Missed)
    }
}
