ghost use Rattle.std.specs.Prelude.{◌≡◌, All, IfOk};
ghost use Rattle.page_origin.specs.PageUrls.{class_of};

use page_origin::{PageUrl, UrlClass, page_url};
use std::alloc::Global;
use std::test::Fail;

/// The URL of a page of class [`UrlClass::Web`].
pub fn web_url(alloc: Global, text: &str) -> Result<PageUrl, Fail>
    ensures { IfOk result (λ url. class_of url ≡ UrlClass.Web) }
{
    let url = page_url(alloc, text)?;
    if url.class() != UrlClass::Web {
        return Err(Fail::new("a URL of a test is not of class Web"));
    }
    Ok(url)
}

/// A chain of such URLs.
pub fn web_chain(alloc: Global, texts: &[&str]) -> Result<Vec<PageUrl>, Fail>
    ensures { IfOk result (λ chain. All (λ url. class_of url ≡ UrlClass.Web) chain.items) }
{
    let mut chain = Vec::new(alloc);
    for text in texts {
        chain.push(web_url(alloc, text)?)?;
    }
    Ok(chain)
}
