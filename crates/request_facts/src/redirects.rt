//! Redirects: where a chain of URLs goes on.

ghost use Rattle.std.specs.Prelude.{◌≡◌, [], IfOk, None, Some, if◌then◌else◌, unwrap_or};
ghost use Rattle.std.specs.Option.{option_copied};
ghost use Rattle.history_rules.specs.Redirects as redirects;
ghost use Rattle.request_facts.specs.Views.{response_view};

use crate::chain::Chain;
use crate::response::{Response, resource_at};
use page_origin::{class_of_text, join_text};
use script_model::{NoMemory, PageUrl, Script, UrlClass, UrlRefusal};
use std::alloc::Global;

/// Whether a URL is of class Web.
pub fn is_web(alloc: Global, url: &str) -> Result<bool, NoMemory>
    ensures { IfOk result (λ web. web ≡ redirects.is_web url.now) }
{
    match class_of_text(alloc, url)? {
        UrlClass::Web => Ok(true),
        _ => Ok(false),
    }
}

/// The response of a chain: that of its last URL.
pub fn response<'a>(script: &'a Script, chain: &'a Chain) -> Response<'a>
    ensures { response_view result ≡ redirects.response script.now chain.now }
{
    resource_at(script, chain.last())
}

/// The first `Location` as a text, which may be empty.
fn location_text<'a>(response: &Response<'a>) -> &'a str
    ensures { result.now ≡ unwrap_or (redirects.location_of (response_view response.now)) [] }
{
    match response.location() {
        Some(location) => location.as_str(),
        None => "",
    }
}

/// The `Location` joined to the current URL.
pub fn joined_url(
    alloc: Global,
    script: &Script,
    chain: &Chain,
) -> Result<Option<PageUrl>, NoMemory>
    ensures { IfOk result (λ url. url ≡ redirects.joined_url script.now chain.now) }
{
    let response = response(script, chain);
    match join_text(alloc, chain.last(), location_text(&response)) {
        Ok(url) => Ok(Some(url)),
        Err(UrlRefusal::NoMemory) => Err(NoMemory),
        Err(_) => Ok(None),
    }
}

/// A URL where it is of class Web.
fn web_alone(url: PageUrl) -> Option<PageUrl>
    ensures { result ≡ (if redirects.is_web url then Some url else None) }
{
    match url.class() {
        UrlClass::Web => Some(url),
        _ => None,
    }
}

/// The URL to which the redirect is followed at which a chain ends.
#[tactic(auto, unfolding(history_rules::specs::Redirects::hop_url))]
pub fn hop_url(alloc: Global, script: &Script, chain: &Chain) -> Result<Option<PageUrl>, NoMemory>
    ensures { IfOk result (λ url. url ≡ redirects.hop_url script.now chain.now) }
{
    let response = response(script, chain);
    if response.fails_at_once() || !response.is_redirect() || chain.is_spent() {
        return Ok(None);
    }
    match joined_url(alloc, script, chain)? {
        Some(url) => Ok(web_alone(url)),
        None => Ok(None),
    }
}
