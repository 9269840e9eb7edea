ghost use Rattle.std.specs.Prelude.{◌≡◌, option_copied};
ghost use Rattle.mime_kind.specs.Kinds.{is_xml_essence, is_json_essence, kind_by_name, kind_of_essence, last, kind_of};

use crate::field_text::FieldText;
use crate::media_type::{essence, is_well_formed, subtype};
use crate::texts::{ends_same, is_same};
use http_header::{GetAll, HeaderMap};

/// What a response's headers say that its body is. `Html`, `Xml` and `Json` are the protected kinds.
#[derive(Clone, Copy, Debug, PartialEq, Eq)]
pub enum Kind {
    /// `text/html`
    Html,
    /// `text/xml`, `application/xml` or a subtype that ends in `+xml`, but not `image/svg+xml`.
    Xml,
    /// `application/json`, `text/json` or a subtype that ends in `+json`.
    Json,
    /// `text/plain`
    Plain,
    /// `text/css`
    Css,
    /// Everything else: no type, a malformed one, `image/svg+xml` and all others.
    Other,
}

fn is_xml_essence(essence: &[u8]) -> bool
    ensures { result ≡ is_xml_essence essence.now }
{
    is_same(essence, b"text/xml")
        || is_same(essence, b"application/xml")
        || ends_same(subtype(essence), b"+xml")
}

fn is_json_essence(essence: &[u8]) -> bool
    ensures { result ≡ is_json_essence essence.now }
{
    is_same(essence, b"application/json")
        || is_same(essence, b"text/json")
        || ends_same(subtype(essence), b"+json")
}

fn kind_by_name(essence: &[u8]) -> Kind
    ensures { result ≡ kind_by_name essence.now }
{
    if is_same(essence, b"text/html") {
        Kind::Html
    } else if is_same(essence, b"image/svg+xml") {
        Kind::Other
    } else if is_xml_essence(essence) {
        Kind::Xml
    } else if is_json_essence(essence) {
        Kind::Json
    } else if is_same(essence, b"text/plain") {
        Kind::Plain
    } else if is_same(essence, b"text/css") {
        Kind::Css
    } else {
        Kind::Other
    }
}

fn kind_of_essence(essence: &[u8]) -> Kind
    ensures { result ≡ kind_of_essence essence.now }
{
    if is_well_formed(essence) {
        kind_by_name(essence)
    } else {
        Kind::Other
    }
}

fn last_of<'a>(values: GetAll<'a, FieldText>) -> Option<&'a FieldText>
    ensures { option_copied result ≡ last values.entry }
{
    let mut last = None;
    for value in values {
        last = Some(value);
    }
    last
}

/// The kind of the last `Content-Type` among the fields. It takes no memory.
#[tactic(auto, unfolding(crate::specs::Kinds::kind_of))]
pub fn kind_of(fields: &HeaderMap<FieldText>) -> Kind
    ensures { result ≡ kind_of fields.now }
{
    match last_of(fields.get_all("content-type")) {
        Some(value) => kind_of_essence(essence(value.as_bytes())),
        None => Kind::Other,
    }
}
