//! The tuple origins of URLs.

ghost use Rattle.std.specs.Prelude.{◌≡◌, ◌↔◌, IfOk, IsTrue};
ghost use Rattle.page_origin.specs.PageUrls.{class_of};
ghost use Rattle.page_origin.specs.Origins as origins;

use crate::class::UrlClass;
use crate::host::HostText;
use crate::origin::{Origin, TupleOrigin};
use crate::page::PageUrl;
use call_answers::NoMemory;
use std::alloc::Global;

/// The tuple origin of a URL of class [`UrlClass::Web`], by the URL Standard.
pub fn tuple_of(alloc: Global, url: &PageUrl) -> Result<TupleOrigin, NoMemory>
    requires { class_of url.now ≡ UrlClass.Web }
    ensures { IfOk result (λ origin. origin ≡ origins.tuple_of url.now) }
{
    let host = HostText::new(String::from_str(alloc, url.host())?);
    Ok(TupleOrigin {
        scheme: url.scheme(),
        host,
        port: url.port(),
    })
}

fn is_tuple_of(url: &PageUrl, tuple: &TupleOrigin) -> bool
    requires { class_of url.now ≡ UrlClass.Web }
    ensures { IsTrue result ↔ (tuple.now ≡ origins.tuple_of url.now) }
{
    tuple.scheme == url.scheme() && tuple.host.as_str() == url.host() && tuple.port == url.port()
}

/// Whether two URLs of class [`UrlClass::Web`] have one tuple origin. This takes no memory.
pub fn same_tuple(a: &PageUrl, b: &PageUrl) -> bool
    requires a { class_of a.now ≡ UrlClass.Web }
    requires b { class_of b.now ≡ UrlClass.Web }
    ensures { result ≡ origins.equal_tuples (origins.tuple_of a.now) (origins.tuple_of b.now) }
{
    a.scheme() == b.scheme() && a.host() == b.host() && a.port() == b.port()
}

/// Whether an origin is the tuple origin of a URL of class [`UrlClass::Web`]. This takes no memory.
pub fn has_origin(url: &PageUrl, origin: &Origin) -> bool
    requires { class_of url.now ≡ UrlClass.Web }
    ensures tuple { IsTrue result ↔ (origin.now ≡ Origin.Tuple (origins.tuple_of url.now)) }
    ensures value { result ≡ origins.has_origin url.now origin.now }
{
    match origin {
        Origin::Tuple(tuple) => is_tuple_of(url, tuple),
        Origin::Opaque(_) => false,
    }
}
