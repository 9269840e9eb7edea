ghost use Rattle.std.specs.Prelude.{◌≡◌, true, false, Err, IfOk, string_bytes};
ghost use Rattle.page_origin.specs.UrlText.{is_url_spelling};

use crate::page::PageUrl;
use crate::text_bytes::{TextRefusal, is_url_spelling, text_copy};
use call_answers::NoMemory;
use std::alloc::Global;
use std::marker::Model;

/// The text of a URL, as an entry of a history keeps it: one or more bytes from space to tilde.
#[derive(Drop)]
pub struct UrlText {
    text: String,
}

impl Model for UrlText {
    ghost use Rattle.std.specs.Prelude.{ℕ, List, string_bytes, ◌≡◌, true};
    ghost use Rattle.page_origin.specs.UrlText.{is_url_spelling};

    ghost Value = { List ℕ };

    ghost view = { λ u. string_bytes u.text };

    ghost invariant = { λ u. is_url_spelling (string_bytes u.text) ≡ true };
}

impl UrlText {
    /// The URL's text that this text is.
    pub fn new(text: String) -> Self
        requires { is_url_spelling (string_bytes text) ≡ true }
        ensures { result ≡ string_bytes text }
    {
        UrlText { text }
    }

    /// The URL's text that bytes are.
    #[tactic(auto, using(crate::proofs::Spellings::url_is_text))]
    pub fn from_bytes(alloc: Global, text: &[u8]) -> Result<Self, TextRefusal>
        ensures ok { IfOk result (λ url. url ≡ text.now) }
        ensures url { IfOk result (λ url. is_url_spelling text.now ≡ true) }
        ensures bad { result ≡ Err TextRefusal.BadText → is_url_spelling text.now ≡ false }
    {
        if !is_url_spelling(text) {
            return Err(TextRefusal::BadText);
        }
        Ok(UrlText::new(text_copy(alloc, text)?))
    }

    /// The text of a page's URL.
    pub fn of(alloc: Global, url: &PageUrl) -> Result<Self, NoMemory>
        ensures { IfOk result (λ text. text ≡ url.now) }
    {
        let text = String::from_str(alloc, url.text())?;
        Ok(UrlText { text })
    }

    /// The text of the URL, one or more bytes from space to tilde.
    pub fn as_str(&self) -> &str
        ensures text { result.now ≡ self.now }
        ensures spelling { is_url_spelling self.now ≡ true }
    {
        self.text.as_str()
    }

    /// An equal text, in memory of its own.
    pub fn copy(&self, alloc: Global) -> Result<Self, NoMemory>
        ensures { IfOk result (λ copy. copy ≡ self.now) }
    {
        let text = String::from_str(alloc, self.text.as_str())?;
        Ok(UrlText { text })
    }
}

impl PartialEq for UrlText {
    ghost use Rattle.std.specs.Str.{bytes_eq};
    ghost use Rattle.std.specs.Cmp.{partial_equiv_from_equiv};
    ghost use Rattle.std.proofs.lemmas.Cmp.{nat_list_eq_equiv};

    ghost eq = { bytes_eq };

    ghost laws = { partial_equiv_from_equiv nat_list_eq_equiv };

    fn eq(&self, other: &Self) -> bool {
        self.text.as_str() == other.text.as_str()
    }
}
