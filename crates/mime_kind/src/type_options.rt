ghost use Rattle.std.specs.Prelude.{◌≡◌};
ghost use Rattle.mime_kind.specs.Nosniff.{nosniff};

use crate::field_text::FieldText;
use crate::texts::{before, is_same, stripped};
use http_header::HeaderMap;

/// Whether the fields ask that the type be taken as it is: the first member of the list that the
/// `X-Content-Type-Options` values make is `nosniff`, in any case (Fetch Standard). It takes no memory.
#[tactic(auto, unfolding(crate::specs::Nosniff::nosniff), using(crate::proofs::FirstMember::before_first_value, crate::proofs::FirstMember::no_values))]
pub fn nosniff(fields: &HeaderMap<FieldText>) -> bool
    ensures { result ≡ nosniff fields.now }
{
    match fields.get("x-content-type-options") {
        Some(value) => is_same(stripped(before(value.as_bytes(), b',')), b"nosniff"),
        None => false,
    }
}
