ghost use Rattle.std.specs.Prelude.{◌≡◌, ◌++◌, ◌∷◌, [], IfOk, length, unwrap_or};
ghost use Rattle.std.specs.Option.{option_copied, option_to_list};
ghost use Rattle.history_rules.specs.Redirects as redirects;

use script_model::limits::MAX_REDIRECTS;
use script_model::{NoMemory, RawUrl, UrlText};
use std::alloc::Global;
use std::marker::Model;

/// The URLs of a navigation or a request, as texts: the first, and one for each redirect that was followed.
#[derive(Drop)]
pub struct Chain {
    urls: Vec<RawUrl>,
}

impl Model for Chain {
    ghost use Rattle.std.specs.Prelude.{ℕ, List};

    ghost Value = { List (List ℕ) };

    ghost view = { λ c. c.urls.items };
}

impl Chain {
    /// The chain of a first URL, which is empty where the text that it was read of is no URL.
    pub fn new(alloc: Global, first: Option<UrlText>) -> Result<Self, NoMemory>
        ensures { IfOk result (λ chain. chain ≡ unwrap_or first [] ∷ []) }
    {
        let text = match &first {
            Some(url) => url.as_str(),
            None => "",
        };
        let mut urls = Vec::new(alloc);
        urls.push(RawUrl::of(alloc, text)?)?;
        Ok(Chain { urls })
    }

    /// Adds the URL of a redirect, if there is one.
    pub fn follow(&mut self, alloc: Global, url: Option<&UrlText>) -> Result<(), NoMemory>
        ensures { IfOk result (λ _. self.new ≡ self.old ++ option_to_list (option_copied url.entry)) }
    {
        if let Some(url) = url {
            self.urls.push(RawUrl::of(alloc, url.as_str())?)?;
        }
        Ok(())
    }

    pub fn as_slice(&self) -> &[RawUrl]
        ensures { result.now ≡ self.now }
    {
        self.urls.as_slice()
    }

    /// The last URL.
    #[tactic(auto, using(crate::proofs::LastUrl::last_url_is))]
    pub fn last(&self) -> &str
        ensures { result.now ≡ redirects.last_url self.now }
    {
        match self.urls.last() {
            Some(url) => url.as_str(),
            None => "",
        }
    }

    /// Whether 20 redirects were followed, so that one more is the 21st.
    pub fn is_spent(&self) -> bool
        ensures { result ≡ redirects.is_spent self.now }
    {
        self.urls.len() > MAX_REDIRECTS as usize
    }
}
