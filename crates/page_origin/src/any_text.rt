//! Texts that need not be URLs, as those of a history that anyone may have written.

ghost use Rattle.std.specs.Prelude.{◌≡◌, IfOk, IfSome, None, Ok, true};
ghost use Rattle.url.specs.Parser.{parse_url};
ghost use Rattle.page_origin.specs.HostSpelling.{is_host};
ghost use Rattle.page_origin.specs.Origins as origins;
ghost use Rattle.page_origin.specs.PageUrls.{Gives, class_of, class_of_parts, join_url_of, key_of, parts_of, url_text};

use crate::class::UrlClass;
use crate::host::HostText;
use crate::origin::TupleOrigin;
use crate::page::{PageUrl, UrlRefusal, join_parsed, page_url};
use crate::parts::{class_of_url, host_of_url, refusal, scheme_of_url};
use call_answers::NoMemory;
use std::alloc::Global;
use url::Url;

/// The URL that a text names, without a page's limits; none where it is no URL.
fn parsed(alloc: Global, text: &str) -> Result<Option<Url>, NoMemory>
    ensures parts { IfOk result (λ url. url ≡ parts_of text.now) }
    ensures again { IfOk result (λ url. IfSome url (λ u. parse_url None (url_text u) ≡ Ok u)) }
{
    match Url::parse(alloc, text) {
        Ok(url) => {
            let _valid = url.as_str();
            Ok(Some(url))
        }
        Err(error) => match refusal(error) {
            UrlRefusal::NoMemory => Err(NoMemory),
            _ => Ok(None),
        },
    }
}

/// What the URL with a text leads to. A text that is no URL is [`UrlClass::Foreign`].
#[tactic(auto, unfolding(crate::specs::PageUrls::class_of))]
pub fn class_of_text(alloc: Global, text: &str) -> Result<UrlClass, NoMemory>
    ensures { IfOk result (λ class. class ≡ class_of text.now) }
{
    match parsed(alloc, text)? {
        Some(url) => Ok(class_of_url(&url)),
        None => Ok(UrlClass::Foreign),
    }
}

fn web_host(url: &Url) -> &str
    requires { class_of_parts url.now ≡ UrlClass.Web }
    ensures value { result.now ≡ (origins.tuple_of_parts url.now).host }
    ensures host { is_host result.now ≡ true }
{
    let _valid = url.as_str();
    host_of_url(url)
}

fn tuple_of_parsed(alloc: Global, url: &Url) -> Result<TupleOrigin, NoMemory>
    requires { class_of_parts url.now ≡ UrlClass.Web }
    ensures { IfOk result (λ origin. origin ≡ origins.tuple_of_parts url.now) }
{
    let host = HostText::new(String::from_str(alloc, web_host(url))?);
    Ok(TupleOrigin {
        scheme: scheme_of_url(url),
        host,
        port: url.port_or_known_default().unwrap_or(0),
    })
}

/// The tuple origin of the URL with a text, which is of class [`UrlClass::Web`].
#[tactic(auto, unfolding(crate::specs::PageUrls::class_of, crate::specs::Origins::tuple_of))]
pub fn tuple_of_text(alloc: Global, text: &str) -> Result<TupleOrigin, NoMemory>
    requires { class_of text.now ≡ UrlClass.Web }
    ensures { IfOk result (λ origin. origin ≡ origins.tuple_of text.now) }
{
    let url = parsed(alloc, text)?.unwrap();
    tuple_of_parsed(alloc, &url)
}

/// A URL's text without its fragment.
pub fn key_of_text(text: &str) -> &str
    ensures { result.now ≡ key_of text.now }
{
    match text.split_once('#') {
        Some((key, _)) => key,
        None => text,
    }
}

/// The URL that a text names against the URL with another text; where that is no URL, without a base.
pub fn join_text(alloc: Global, base: &str, text: &str) -> Result<PageUrl, UrlRefusal>
    ensures { Gives result (join_url_of base.now text.now) }
{
    match parsed(alloc, base)? {
        Some(base) => join_parsed(&base, text),
        None => page_url(alloc, text),
    }
}
