//! The values of a header, joined, without taking memory.

ghost use Rattle.std.specs.Prelude.{◌≡◌, ◌≢◌, ◌++◌, MatchOption, List, ℕ, bytes_eq};
ghost use Rattle.mime_kind.specs.JoinedValues.{joined_values};

use crate::field_text::FieldText;
use http_header::GetAll;

/// The rest of a text that begins with another.
fn rest_after<'a>(text: &'a [u8], front: &[u8]) -> Option<&'a [u8]>
    ensures { MatchOption result ((rest : List ℕ) → text.now ≢ front.now ++ rest) (λ rest. text.now ≡ front.now ++ rest.now) }
{
    text.strip_prefix(front)
}

/// The rest of a text that begins with a separator and a value.
fn rest_after_value<'a>(text: &'a [u8], separator: &[u8], value: &[u8]) -> Option<&'a [u8]>
    ensures { MatchOption result ((rest : List ℕ) → text.now ≢ separator.now ++ (value.now ++ rest)) (λ rest. text.now ≡ separator.now ++ (value.now ++ rest.now)) }
{
    match rest_after(text, separator) {
        Some(rest) => rest_after(rest, value),
        None => None,
    }
}

/// Whether a text is the values of a header joined with `, `, as the Fetch Standard gets them. It takes no memory.
#[tactic(auto, using(crate::proofs::Joining::goes_on, crate::proofs::Joining::breaks_off, crate::proofs::Joining::joined_is_listed))]
pub fn is_joined(values: GetAll<'_, FieldText>, text: &[u8]) -> bool
    ensures { result ≡ bytes_eq (joined_values values.entry) text.now }
{
    let mut rest = text;
    let mut separator: &[u8] = b"";
    for value in values {
        match rest_after_value(rest, separator, value.as_bytes()) {
            Some(more) => rest = more,
            None => return false,
        }
        separator = b", ";
    }
    rest.is_empty()
}
