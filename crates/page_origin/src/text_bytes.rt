//! Bytes of texts that a history keeps: which are spelled as hosts or URLs, and why others are refused.

ghost use Rattle.std.specs.Prelude.{◌≡◌, IfOk, IsUtf8, string_bytes};
ghost use Rattle.std.specs.List.{list_all};
ghost use Rattle.page_origin.specs.HostSpelling.{is_address_byte, is_host, is_name_byte};
ghost use Rattle.page_origin.specs.UrlText.{is_printable, is_url_spelling};

use call_answers::NoMemory;
use std::alloc::{AllocError, Global};
use thiserror::Error;

/// Why bytes are no text of their kind.
#[derive(Clone, Copy, Debug, PartialEq, Eq, Error)]
pub enum TextRefusal {
    /// The bytes are not spelled so.
    #[error("the text is not spelled as a history spells it")]
    BadText,
    /// Memory ran out.
    #[error("{}", NoMemory)]
    NoMemory,
}

impl From<AllocError> for TextRefusal {
    ghost use Rattle.std.specs.Prelude.{◌≡◌};
    ghost use Rattle.page_origin.specs.declared.text_bytes.TextRefusal.TheVariants.{NoMemory as OutOfMemory};

    ghost from_gives = { λ _ refusal. refusal ≡ OutOfMemory };

    fn from(_: AllocError) -> TextRefusal {
        TextRefusal::NoMemory
    }
}

fn is_address_byte(byte: u8) -> bool
    ensures { result ≡ is_address_byte byte }
{
    byte.is_ascii_hexdigit() || byte == b':' || byte == b'.'
}

fn has_address_bytes(text: &[u8]) -> bool
    ensures { result ≡ list_all is_address_byte text.now }
{
    text.iter().all(|byte| is_address_byte(*byte))
}

fn has_name_bytes(text: &[u8]) -> bool
    ensures { result ≡ list_all is_name_byte text.now }
{
    text.iter().all(|byte| byte.is_ascii_graphic() && !matches!(*byte, b'/' | b':' | b'[' | b']'))
}

/// Whether bytes are all from space to tilde.
pub(crate) fn is_printable(text: &[u8]) -> bool
    ensures { result ≡ list_all is_printable text.now }
{
    text.iter().all(|byte| *byte >= b' ' && *byte <= b'~')
}

/// Whether bytes are spelled as a host.
#[tactic(auto, unfolding(crate::specs::HostSpelling::is_host))]
pub(crate) fn is_host(text: &[u8]) -> bool
    ensures { result ≡ is_host text.now }
{
    match text {
        [b'[', inner @ .., b']'] => !inner.is_empty() && has_address_bytes(inner),
        [b'[', ..] => false,
        _ => !text.is_empty() && has_name_bytes(text),
    }
}

/// Whether bytes are spelled as the URL of an entry.
#[tactic(auto, unfolding(crate::specs::UrlText::is_url_spelling))]
pub(crate) fn is_url_spelling(text: &[u8]) -> bool
    ensures { result ≡ is_url_spelling text.now }
{
    !text.is_empty() && is_printable(text)
}

/// A copy of a text.
pub(crate) fn text_copy(alloc: Global, text: &[u8]) -> Result<String, AllocError>
    requires { IsUtf8 text.now }
    ensures { IfOk result (λ copy. string_bytes copy ≡ text.now) }
{
    let bytes = Vec::from_slice(alloc, text)?;
    Ok(String::from_utf8(bytes).unwrap())
}
