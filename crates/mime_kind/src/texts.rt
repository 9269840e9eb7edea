//! Parts of a text, without taking memory.

ghost use Rattle.std.specs.Prelude.{◌≡◌, map, reverse};
ghost use Rattle.std.specs.Char.{to_ascii_lowercase};
ghost use Rattle.mime_kind.specs.FieldText.{is_blank};
ghost use Rattle.mime_kind.specs.Texts.{without_front_blanks, stripped, before, after, is_same, ends_same};

use memchr::memchr;

/// A space or a tab.
pub fn is_blank(byte: u8) -> bool
    ensures { result ≡ is_blank byte }
{
    byte == b' ' || byte == b'\t'
}

fn without_front_blanks(text: &[u8]) -> &[u8]
    ensures { result.now ≡ without_front_blanks text.now }
{
    let mut rest = text;
    while let [byte, more @ ..] = rest {
        if !is_blank(*byte) {
            break;
        }
        rest = more;
    }
    rest
}

fn without_back_blanks(text: &[u8]) -> &[u8]
    ensures { result.now ≡ reverse (without_front_blanks (reverse text.now)) }
{
    let mut rest = text;
    while let [more @ .., byte] = rest {
        if !is_blank(*byte) {
            break;
        }
        rest = more;
    }
    rest
}

/// The text without the blanks at either end.
pub fn stripped(text: &[u8]) -> &[u8]
    ensures { result.now ≡ stripped text.now }
{
    without_back_blanks(without_front_blanks(text))
}

/// The part before the first mark, or the whole text.
pub fn before(text: &[u8], mark: u8) -> &[u8]
    ensures { result.now ≡ before mark text.now }
{
    match memchr(mark, text) {
        Some(end) => &text[..end],
        None => text,
    }
}

/// The part after the first mark, or nothing.
pub fn after(text: &[u8], mark: u8) -> &[u8]
    ensures { result.now ≡ after mark text.now }
{
    match memchr(mark, text) {
        Some(end) => &text[end + 1..],
        None => &[],
    }
}

/// Whether the texts are equal without regard to ASCII case.
pub fn is_same(text: &[u8], lower: &[u8]) -> bool
    requires { map to_ascii_lowercase lower.now ≡ lower.now }
    ensures { result ≡ is_same text.now lower.now }
{
    text.eq_ignore_ascii_case(lower)
}

/// Whether the text ends so, without regard to ASCII case.
pub fn ends_same(text: &[u8], lower: &[u8]) -> bool
    requires { map to_ascii_lowercase lower.now ≡ lower.now }
    ensures { result ≡ ends_same text.now lower.now }
{
    lower.len() <= text.len() && is_same(&text[text.len() - lower.len()..], lower)
}
