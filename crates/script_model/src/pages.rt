ghost use Rattle.std.specs.Prelude.{◌≡◌, slice_get};
ghost use Rattle.std.specs.Option.{option_copied};

use page_origin::PageUrl;
use std::marker::Model;

/// A list of URLs of pages.
#[derive(Drop)]
pub struct PageUrls {
    urls: Vec<PageUrl>,
}

impl Model for PageUrls {
    ghost use Rattle.std.specs.Prelude.{ℕ, List};

    ghost Value = { List (List ℕ) };

    ghost view = { λ u. u.urls.items };
}

impl PageUrls {
    /// The list of these URLs.
    pub fn from_vec(urls: Vec<PageUrl>) -> Self
        ensures { result ≡ urls.items }
    {
        PageUrls { urls }
    }

    /// The URLs, in order.
    pub fn as_slice(&self) -> &[PageUrl]
        ensures { result.now ≡ self.now }
    {
        self.urls.as_slice()
    }

    /// The URL with this number, counted from 0.
    pub fn get(&self, index: usize) -> Option<&PageUrl>
        ensures { option_copied result ≡ slice_get self.now index }
    {
        self.urls.get(index)
    }
}
