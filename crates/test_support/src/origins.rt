use crate::urls::web_url;
use page_origin::{OpaqueOrigin, Origin, Site, TupleOrigin, tuple_of};
use std::alloc::Global;
use std::test::Fail;

/// The tuple origin of a URL.
pub fn tuple_origin(alloc: Global, url: &str) -> Result<TupleOrigin, Fail> {
    let url = web_url(alloc, url)?;
    Ok(tuple_of(alloc, &url)?)
}

/// The origin of a URL.
pub fn origin(alloc: Global, url: &str) -> Result<Origin, Fail> {
    Ok(Origin::Tuple(tuple_origin(alloc, url)?))
}

/// An opaque origin of a document, whose precursor has the scheme and the whole host of a URL, and this port where it is an
/// isolated origin.
pub fn opaque_origin(
    alloc: Global,
    document: u32,
    url: &str,
    only: Option<u16>,
) -> Result<Origin, Fail> {
    let tuple = tuple_origin(alloc, url)?;
    let precursor = Site {
        scheme: tuple.scheme,
        host: tuple.host,
        only,
    };
    Ok(Origin::Opaque(OpaqueOrigin {
        document,
        precursor,
    }))
}
