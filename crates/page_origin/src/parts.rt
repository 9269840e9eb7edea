//! What the crate `url` says of a URL, in the words of this crate.

ghost use Rattle.std.specs.Prelude.{◌≡◌};
ghost use Rattle.url.specs.Host.{host_text};
ghost use Rattle.url.specs.Parts.{host_or_empty};
ghost use Rattle.page_origin.specs.PageUrls.{url_text, class_of_parts};
ghost use Rattle.page_origin.specs.Origins.{scheme_of_parts};
ghost use Rattle.page_origin.specs.Refusals.{refusal_of};

use crate::class::UrlClass;
use crate::page::UrlRefusal;
use crate::site::Scheme;
use url::{ParseError, Url};

/// The text of a URL.
#[tactic(auto, unfolding(crate::specs::PageUrls::url_text))]
pub fn text_of_url(url: &Url) -> &str
    ensures { result.now ≡ url_text url.now }
{
    url.as_str()
}

/// Whether parsing ran out of memory, or the text is no URL. An overflow, whose cause the crate `url` doesn't name, is told
/// as the first.
pub fn refusal(error: ParseError) -> UrlRefusal
    ensures { result ≡ refusal_of error }
{
    match error {
        ParseError::OutOfMemory | ParseError::Overflow => UrlRefusal::NoMemory,
        _ => UrlRefusal::BadUrl,
    }
}

/// What a URL leads to.
pub fn class_of_url(url: &Url) -> UrlClass
    ensures { result ≡ class_of_parts url.now }
{
    match (url.scheme(), url.path()) {
        ("http" | "https", _) => UrlClass::Web,
        ("about", "blank") => UrlClass::AboutBlank,
        ("about", "srcdoc") => UrlClass::AboutSrcdoc,
        ("data", _) => UrlClass::DataUrl,
        _ => UrlClass::Foreign,
    }
}

/// The scheme of a URL of class [`UrlClass::Web`].
pub fn scheme_of_url(url: &Url) -> Scheme
    ensures { result ≡ scheme_of_parts url.now }
{
    if url.scheme() == "http" {
        Scheme::Http
    } else {
        Scheme::Https
    }
}

/// The host's text, empty where there is no host.
#[tactic(auto, using(crate::proofs::HostLemmas::host_str_text))]
pub fn host_of_url(url: &Url) -> &str
    ensures { result.now ≡ host_text (host_or_empty url.now) }
{
    url.host_str().unwrap_or("")
}
