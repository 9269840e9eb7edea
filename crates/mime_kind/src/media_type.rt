ghost use Rattle.std.specs.Prelude.{◌≡◌};
ghost use Rattle.std.specs.List.{list_all};
ghost use Rattle.http_header.specs.Token.{is_token_byte};
ghost use Rattle.mime_kind.specs.MediaType.{essence, is_token, is_well_formed, subtype};

use crate::texts::{after, before, stripped};
use http_header::is_token_char;

/// The part of a value before its first `;`, stripped.
pub fn essence(value: &[u8]) -> &[u8]
    ensures { result.now ≡ essence value.now }
{
    stripped(before(value, b';'))
}

fn has_token_bytes(text: &[u8]) -> bool
    ensures { result ≡ list_all is_token_byte text.now }
{
    text.iter().all(|byte| is_token_char(*byte))
}

fn is_token(text: &[u8]) -> bool
    ensures { result ≡ is_token text.now }
{
    !text.is_empty() && has_token_bytes(text)
}

/// Whether an essence is a token, `/` and a token.
pub fn is_well_formed(essence: &[u8]) -> bool
    ensures { result ≡ is_well_formed essence.now }
{
    is_token(before(essence, b'/')) && is_token(after(essence, b'/'))
}

/// The part of an essence after its `/`.
pub fn subtype(essence: &[u8]) -> &[u8]
    ensures { result.now ≡ subtype essence.now }
{
    after(essence, b'/')
}
