use crate::field_text::FieldText;
use http::StatusCode;
use http_header::HeaderMap;

/// A response without its body.
#[derive(Drop)]
pub struct Head {
    pub status: StatusCode,
    pub fields: HeaderMap<FieldText>,
}
