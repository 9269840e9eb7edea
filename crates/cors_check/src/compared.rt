ghost use Rattle.std.specs.Prelude.{◌≡◌, IfOk};
ghost use Rattle.cors_check.specs.Chains.{IsWebChain, compared_text};

use crate::chain::is_tainted;
use page_origin::{NoMemory, Origin, OriginText, PageUrl, origin_text};
use std::alloc::Global;

/// The text that `Access-Control-Allow-Origin` must have, unless it is `*`: that of the request's origin, or `null`
/// where the chain has gone from a URL that is not of that origin to a URL of another origin than that URL. Each URL of
/// the chain is of class `UrlClass::Web`.
#[tactic(auto, unfolding(crate::specs::Chains::compared_text))]
pub fn compared_text(
    alloc: Global,
    origin: &Origin,
    chain: &[PageUrl],
) -> Result<OriginText, NoMemory>
    requires { IsWebChain chain.now }
    ensures { IfOk result (λ text. text ≡ compared_text origin.now chain.now) }
{
    if is_tainted(origin, chain) {
        OriginText::null(alloc)
    } else {
        origin_text(alloc, origin)
    }
}
