ghost use Rattle.std.specs.Prelude.{◌≡◌, true, IfOk, None, Ok, Some};
ghost use Rattle.std.specs.List.{list_all};
ghost use Rattle.url.specs.Parser.{parse_url};
ghost use Rattle.page_origin.specs.HostSpelling.{is_host};
ghost use Rattle.page_origin.specs.UrlText.{is_printable, is_url_spelling};
ghost use Rattle.page_origin.specs.PageUrls.{Gives, page_url_of, join_url_of, read_url, url_text, admitted, key_of, class_of};
ghost use Rattle.page_origin.specs.Origins as origins;

use crate::any_text::key_of_text;
use crate::class::UrlClass;
use crate::parts::{class_of_url, host_of_url, refusal, scheme_of_url, text_of_url};
use crate::site::Scheme;
use crate::text_bytes::is_printable;
use call_answers::NoMemory;
use std::alloc::Global;
use std::marker::Model;
use thiserror::Error;
use url::Url;

/// The most bytes that the text of a URL has.
const MAX_LENGTH: usize = 2048;

/// Why a text is no page's URL.
#[derive(Clone, Copy, Debug, PartialEq, Eq, Error)]
pub enum UrlRefusal {
    /// The text, or the URL's own text, has more than 2,048 bytes.
    #[error("the URL has more than 2048 bytes")]
    TooLong,
    /// The text is no URL by the URL Standard, or the URL's own text has a byte that is not printable.
    #[error("the text is no URL")]
    BadUrl,
    /// Memory ran out.
    #[error("{}", call_answers::NoMemory)]
    NoMemory,
}

impl From<NoMemory> for UrlRefusal {
    ghost use Rattle.std.specs.Prelude.{◌≡◌};
    ghost use Rattle.page_origin.specs.declared.page.UrlRefusal.TheVariants.{NoMemory as OutOfMemory};

    ghost from_gives = { λ _ refusal. refusal ≡ OutOfMemory };

    fn from(_: NoMemory) -> UrlRefusal {
        UrlRefusal::NoMemory
    }
}

/// The URL of a page, by the URL Standard, seen as its text.
#[derive(Drop)]
pub struct PageUrl {
    url: Url,
}

impl Model for PageUrl {
    ghost use Rattle.std.specs.Prelude.{List, ℕ};
    ghost use Rattle.page_origin.specs.PageUrls.{url_text};
    ghost use Rattle.page_origin.specs.PageUrlLayout.{IsPageUrl};

    ghost Value = { List ℕ };

    ghost view = { λ page. url_text page.url };

    ghost invariant = { λ page. IsPageUrl page.url };
}

/// The page's URL with these parts, unless its text is too long or has a byte that is not printable.
#[tactic(auto, unfolding(crate::specs::PageUrls::admitted))]
fn admit(url: Url) -> Result<PageUrl, UrlRefusal>
    requires { parse_url None (url_text url) ≡ Ok url }
    ensures { result ≡ admitted (url_text url) }
{
    if text_of_url(&url).len() > MAX_LENGTH {
        return Err(UrlRefusal::TooLong);
    }
    if !is_printable(text_of_url(&url).as_bytes()) {
        return Err(UrlRefusal::BadUrl);
    }
    Ok(PageUrl { url })
}

/// The URL that a text names.
pub fn page_url(alloc: Global, text: &str) -> Result<PageUrl, UrlRefusal>
    ensures { Gives result (page_url_of text.now) }
{
    if text.len() > MAX_LENGTH {
        return Err(UrlRefusal::TooLong);
    }
    match Url::parse(alloc, text) {
        Ok(url) => {
            let _valid = url.as_str();
            admit(url)
        }
        Err(error) => Err(refusal(error)),
    }
}

/// The URL that a text names against a URL that was read.
pub(crate) fn join_parsed(base: &Url, text: &str) -> Result<PageUrl, UrlRefusal>
    requires { parse_url None (url_text base.now) ≡ Ok base.now }
    ensures { Gives result (read_url (Some base.now) text.now) }
{
    if text.len() > MAX_LENGTH {
        return Err(UrlRefusal::TooLong);
    }
    let _valid_base = base.as_str();
    match base.join(text) {
        Ok(url) => {
            let _valid = url.as_str();
            admit(url)
        }
        Err(error) => Err(refusal(error)),
    }
}

/// The URL that a text names against the URL of a page of class [`UrlClass::Web`].
pub fn join_url(_alloc: Global, base: &PageUrl, text: &str) -> Result<PageUrl, UrlRefusal>
    requires { class_of base.now ≡ UrlClass.Web }
    ensures { Gives result (join_url_of base.now text.now) }
{
    join_parsed(&base.url, text)
}

impl PageUrl {
    /// The URL's text.
    #[tactic(auto, using(crate::proofs::PageUrlLemmas::page_spelling))]
    pub fn text(&self) -> &str
        ensures text { result.now ≡ self.now }
        ensures spelling { is_url_spelling self.now ≡ true }
    {
        text_of_url(&self.url)
    }

    /// The URL's text without its fragment.
    pub fn key(&self) -> &str
        ensures { result.now ≡ key_of self.now }
    {
        key_of_text(self.text())
    }

    /// What the URL leads to.
    pub fn class(&self) -> UrlClass
        ensures { result ≡ class_of self.now }
    {
        class_of_url(&self.url)
    }

    /// An equal URL.
    pub fn copy(&self, _alloc: Global) -> Result<Self, NoMemory>
        ensures { IfOk result (λ copy. copy ≡ self.now) }
    {
        match self.url.clone() {
            Ok(url) => Ok(PageUrl { url }),
            Err(_) => Err(NoMemory),
        }
    }

    /// The scheme of a URL of class [`UrlClass::Web`].
    pub(crate) fn scheme(&self) -> Scheme
        requires { class_of self.now ≡ UrlClass.Web }
        ensures { result ≡ (origins.tuple_of self.now).scheme }
    {
        scheme_of_url(&self.url)
    }

    /// The host of a URL of class [`UrlClass::Web`].
    pub(crate) fn host(&self) -> &str
        requires { class_of self.now ≡ UrlClass.Web }
        ensures value { result.now ≡ (origins.tuple_of self.now).host }
        ensures host { is_host result.now ≡ true }
    {
        let _valid = self.url.as_str();
        host_of_url(&self.url)
    }

    /// The port of a URL of class [`UrlClass::Web`]: its own, or its scheme's.
    pub(crate) fn port(&self) -> u16
        requires { class_of self.now ≡ UrlClass.Web }
        ensures { result ≡ (origins.tuple_of self.now).port }
    {
        self.url.port_or_known_default().unwrap_or(0)
    }
}
