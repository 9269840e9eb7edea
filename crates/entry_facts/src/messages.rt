//! What a message and its reply say.

ghost use Rattle.std.specs.Prelude.{◌≡◌, IfOk};
ghost use Rattle.std.specs.Option.{option_map};
ghost use Rattle.std.specs.Result.{result_ok};
ghost use Rattle.page_origin.specs.Origins.{equal_origins, equal_sites};
ghost use Rattle.page_origin.specs.PageUrls.{class_of, page_url_of};
ghost use Rattle.history_rules.specs.Judgement as judgement;

use history_entry::{Body, RawUrl, Reply};
use page_origin::{NoMemory, Origin, Site, UrlClass, UrlRefusal, page_url};
use service_rule::ServiceAnswer;
use std::alloc::Global;

/// Whether a message tells a commit.
pub fn is_did_commit(body: &Body) -> bool
    ensures { result ≡ judgement.is_did_commit body.now }
{
    matches!(body, Body::DidCommit { .. })
}

/// Whether a frame or a page may be navigated to URLs of a class.
pub fn may_load(class: UrlClass) -> bool
    ensures { result ≡ judgement.may_load class }
{
    match class {
        UrlClass::Web | UrlClass::AboutBlank | UrlClass::DataUrl => true,
        UrlClass::AboutSrcdoc | UrlClass::Foreign => false,
    }
}

/// The class of the URL that a text names, if it names one.
pub fn class_in(alloc: Global, text: &RawUrl) -> Result<Option<UrlClass>, NoMemory>
    ensures { IfOk result (λ class. class ≡ option_map class_of (result_ok (page_url_of text.now))) }
{
    match page_url(alloc, text.as_str()) {
        Ok(url) => Ok(Some(url.class())),
        Err(UrlRefusal::NoMemory) => Err(NoMemory),
        Err(_) => Ok(None),
    }
}

/// Whether a text names a URL of class [`UrlClass::Web`].
pub fn is_web_text(alloc: Global, text: &RawUrl) -> Result<bool, NoMemory>
    ensures { IfOk result (λ web. web ≡ judgement.is_web_text text.now) }
{
    match class_in(alloc, text)? {
        Some(class) => Ok(class == UrlClass::Web),
        None => Ok(false),
    }
}

/// Whether two sites are equal.
pub fn is_same_site(a: &Site, b: &Site) -> bool
    ensures { result ≡ equal_sites a.now b.now }
{
    a == b
}

/// Whether two origins are equal as whole values.
pub fn is_equal(a: &Origin, b: &Origin) -> bool
    ensures { result ≡ equal_origins a.now b.now }
{
    a == b
}

/// The reply by a service's answer.
pub fn reply_of_answer(answer: ServiceAnswer) -> Reply
    ensures { result ≡ judgement.reply_of_answer answer }
{
    match answer {
        ServiceAnswer::Said(text) => Reply::Answer(text),
        ServiceAnswer::Refused(rule) => Reply::Deny(rule),
    }
}
