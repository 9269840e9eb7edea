//! Hosts, sites and origins, and the URLs of pages.
//!
//! The URLs of pages are read, joined and serialized by the URL Standard, as the crate `url` defines it; they have at
//! most 2,048 bytes, all printable. Tuple origins and their texts are those of the URL Standard. An opaque origin is
//! made for one document, and keeps the site that it comes from. A site is a scheme with a host.
#![tactic(auto)]

mod any_text;
mod class;
mod host;
mod origin;
mod origin_spelling;
mod page;
mod parts;
mod site;
mod text_bytes;
mod tuple;
mod url_text;

pub use any_text::{class_of_text, join_text, key_of_text, tuple_of_text};
pub use call_answers::NoMemory;
pub use class::UrlClass;
pub use host::HostText;
pub use origin::{OpaqueOrigin, Origin, TupleOrigin, equal_origins, equal_tuples, same_origin};
pub use origin_spelling::{OriginText, origin_text};
pub use page::{PageUrl, UrlRefusal, join_url, page_url};
pub use site::{Scheme, Site, equal_sites};
pub use text_bytes::TextRefusal;
pub use tuple::{has_origin, same_tuple, tuple_of};
pub use url_text::UrlText;

#[cfg(test)]
mod tests;
