//! The rows of the table of verdicts that follow from one answer.

ghost use Rattle.std.specs.Prelude.{◌≡◌};
ghost use Rattle.script_model.specs.Verdicts as verdicts;

use corb_sniff::{Answer, SniffKind, Sniffed};
use cors_check::Cors;
use history_entry::Rule;
use mime_kind::Kind;

/// Whether the document that made a request may read its response, and by which row of the table.
#[derive(Clone, Copy, Debug, PartialEq, Eq)]
pub enum Verdict {
    Allow(Rule),
    Block(Rule),
}

/// Whether a kind is protected: what pages of other sites are not to read.
pub(crate) fn is_protected(kind: Kind) -> bool
    ensures { result ≡ verdicts.is_protected kind }
{
    match kind {
        Kind::Html | Kind::Xml | Kind::Json => true,
        Kind::Plain | Kind::Css | Kind::Other => false,
    }
}

/// Whether a kind is protected or `Plain`.
pub(crate) fn is_protected_or_plain(kind: Kind) -> bool
    ensures { result ≡ verdicts.is_protected_or_plain kind }
{
    match kind {
        Kind::Plain => true,
        _ => is_protected(kind),
    }
}

/// The verdict of the CORS check, A1, A2 or B1.
pub(crate) fn cors_verdict(answer: Cors) -> Verdict
    ensures { result ≡ verdicts.cors_verdict answer }
{
    match answer {
        Cors::SameOrigin => Verdict::Allow(Rule::A1),
        Cors::Passed => Verdict::Allow(Rule::A2),
        Cors::Failed => Verdict::Block(Rule::B1),
    }
}

/// As what a body of a kind is sniffed.
pub fn sniff_kind(kind: Kind) -> SniffKind
    ensures { result ≡ verdicts.sniff_kind kind }
{
    match kind {
        Kind::Html => SniffKind::Html,
        Kind::Xml => SniffKind::Xml,
        Kind::Json => SniffKind::Json,
        Kind::Plain => SniffKind::Plain,
        Kind::Css => SniffKind::Css,
        Kind::Other => SniffKind::Other,
    }
}

/// The verdict on a body that was confirmed, one of B4 to B7.
fn confirmed_verdict(sniffed: Sniffed) -> Verdict
    ensures { result ≡ verdicts.confirmed_verdict sniffed }
{
    match sniffed {
        Sniffed::Html => Verdict::Block(Rule::B4),
        Sniffed::Xml => Verdict::Block(Rule::B5),
        Sniffed::Json => Verdict::Block(Rule::B6),
        Sniffed::Prefix => Verdict::Block(Rule::B7),
    }
}

/// The verdict on a body that is clear, A4 or A5.
fn clear_verdict(kind: Kind) -> Verdict
    ensures { result ≡ verdicts.clear_verdict kind }
{
    if is_protected_or_plain(kind) {
        Verdict::Allow(Rule::A5)
    } else {
        Verdict::Allow(Rule::A4)
    }
}

/// The verdict by the rows from B4 on, where sniffing a body of this kind gives this answer. There is none at
/// [`Answer::More`].
pub fn sniffed_verdict(kind: Kind, answer: Answer) -> Option<Verdict>
    ensures { result ≡ verdicts.sniffed_verdict kind answer }
{
    match answer {
        Answer::Confirmed(sniffed) => Some(confirmed_verdict(sniffed)),
        Answer::Clear => Some(clear_verdict(kind)),
        Answer::More => None,
    }
}
