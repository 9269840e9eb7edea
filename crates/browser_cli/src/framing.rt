//! The frame of what `audit` reads: a script and the text of a history in one input.

ghost use Rattle.std.specs.Prelude.{◌≡◌, ◌++◌, ◌∷◌, IfSome, None, true};
ghost use Rattle.std.specs.List.{list_all};
ghost use Rattle.browser_cli.specs.Commands.{HasNoCut, HasNoFrame, IsCut, IsFramed, is_no_feed};

use crate::command::SCRIPT_LIMIT;
use decimal_text::decimal_number;
use memchr::memchr;

/// What stands before and behind the first line feed.
fn first_line(text: &[u8]) -> Option<(&[u8], &[u8])>
    ensures some { IfSome result (λ p. (text.now ≡ p.0.now ++ 10 ∷ p.1.now) × (list_all is_no_feed p.0.now ≡ true)) }
    ensures none { result ≡ None → list_all is_no_feed text.now ≡ true }
{
    let end = memchr(b'\n', text)?;
    Some((&text[..end], &text[end + 1..]))
}

/// The script and the text behind the word: LEN and a line feed, LEN bytes of the script, and the text. LEN is
/// [`SCRIPT_LIMIT`] at most.
fn cut(rest: &[u8]) -> Option<(&[u8], &[u8])>
    ensures some { IfSome result (λ parts. IsCut rest.now parts.0.now parts.1.now) }
    ensures none { result ≡ None → HasNoCut rest.now }
{
    let (number, more) = first_line(rest)?;
    let length = decimal_number(number)? as usize;
    if length > SCRIPT_LIMIT {
        return None;
    }
    more.split_at_checked(length)
}

/// The script and the text of an input: the line `script LEN`, LEN bytes of the script, and the text behind them.
pub fn framed(input: &[u8]) -> Option<(&[u8], &[u8])>
    ensures some { IfSome result (λ parts. IsFramed input.now parts.0.now parts.1.now) }
    ensures none { result ≡ None → HasNoFrame input.now }
{
    cut(input.strip_prefix(b"script ")?)
}
