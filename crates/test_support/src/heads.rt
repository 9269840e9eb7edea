use http::StatusCode;
use http_header::{HeaderMap, HeaderName};
use mime_kind::{FieldText, Head};
use std::alloc::Global;
use std::test::Fail;

/// The head of a response with this status and these header fields, names and values.
pub fn head(alloc: Global, status: u16, fields: &[(&str, &str)]) -> Result<Head, Fail> {
    let mut map = HeaderMap::empty(alloc);
    for (name, value) in fields {
        let name = HeaderName::from_bytes(alloc, name.as_bytes())?;
        map.append(name, FieldText::new(alloc, value)?)?;
    }
    let status = StatusCode::from_u16(status).map_err(|_| Fail::new("a status of a test is none"))?;
    Ok(Head {
        status,
        fields: map,
    })
}
