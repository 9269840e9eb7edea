//! The URLs of a generated script.

ghost use Rattle.std.specs.Prelude.{◌≡◌, ◌<◌, IfOk, Ok, string_bytes};
ghost use Rattle.page_origin.specs.PageUrls.{class_of, page_url_of};
ghost use Rattle.script_gen.specs.Generated as spec;

use script_model::{NoMemory, PageUrl, UrlClass, UrlRefusal, page_url};
use std::alloc::Global;

/// The URL of class Web with a text that names itself.
fn own_url(alloc: Global, text: &str) -> Result<PageUrl, NoMemory>
    requires own { page_url_of text.now ≡ Ok text.now }
    requires web { class_of text.now ≡ UrlClass.Web }
    ensures url { IfOk result (λ url. url ≡ text.now) }
    ensures web { IfOk result (λ url. class_of url ≡ UrlClass.Web) }
{
    match page_url(alloc, text) {
        Ok(url) => Ok(url),
        Err(UrlRefusal::NoMemory) => Err(NoMemory),
        Err(UrlRefusal::TooLong) => unreachable!(),
        Err(UrlRefusal::BadUrl) => unreachable!(),
    }
}

/// The text of the URL of a page.
#[tactic(auto, unfolding(crate::specs::Generated::page_url))]
fn page_text(alloc: Global, page: u32) -> Result<String, NoMemory>
    ensures { IfOk result (λ text. string_bytes text ≡ spec.page_url page) }
{
    Ok(format!(in alloc; "https://p{page}.test/")?)
}

/// The URL of a page.
#[tactic(auto, using(crate::proofs::OwnUrls::page_is_own, crate::proofs::OwnUrls::page_is_web))]
pub fn url_of_page(alloc: Global, page: u32) -> Result<PageUrl, NoMemory>
    requires { page < 8 }
    ensures url { IfOk result (λ url. url ≡ spec.page_url page) }
    ensures web { IfOk result (λ url. class_of url ≡ UrlClass.Web) }
{
    let text = page_text(alloc, page)?;
    own_url(alloc, text.as_str())
}

/// The text of the URL of a frame's document.
#[tactic(auto, unfolding(crate::specs::Generated::frame_url))]
pub fn frame_text(alloc: Global, frame: u32) -> Result<String, NoMemory>
    ensures { IfOk result (λ text. string_bytes text ≡ spec.frame_url frame) }
{
    Ok(format!(in alloc; "https://f{frame}.test/")?)
}

/// The URL of a frame's document.
#[tactic(auto, using(crate::proofs::OwnUrls::frame_is_own, crate::proofs::OwnUrls::frame_is_web))]
pub fn url_of_frame(alloc: Global, frame: u32) -> Result<PageUrl, NoMemory>
    requires { frame < 8 }
    ensures url { IfOk result (λ url. url ≡ spec.frame_url frame) }
    ensures web { IfOk result (λ url. class_of url ≡ UrlClass.Web) }
{
    let text = frame_text(alloc, frame)?;
    own_url(alloc, text.as_str())
}

/// The text of the URL of a response.
#[tactic(auto, unfolding(crate::specs::Generated::response_url))]
pub fn response_text(alloc: Global, response: u32) -> Result<String, NoMemory>
    ensures { IfOk result (λ text. string_bytes text ≡ spec.response_url response) }
{
    Ok(format!(in alloc; "https://b{response}.test/r")?)
}

/// The URL of a response.
#[tactic(auto, using(crate::proofs::OwnUrls::response_is_own, crate::proofs::OwnUrls::response_is_web))]
pub fn url_of_response(alloc: Global, response: u32) -> Result<PageUrl, NoMemory>
    requires { response < 32 }
    ensures { IfOk result (λ url. url ≡ spec.response_url response) }
{
    let text = response_text(alloc, response)?;
    own_url(alloc, text.as_str())
}
