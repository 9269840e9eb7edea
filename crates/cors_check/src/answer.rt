ghost use Rattle.std.specs.Prelude.{◌≡◌, codes};
ghost use Rattle.http_header.specs.HeaderMap.{get_all};
ghost use Rattle.cors_check.specs.Chains.{IsWebChain, compared_text};
ghost use Rattle.cors_check.specs.Cors.{allows, cors};

use crate::chain::is_same_origin_chain;
use http_header::HeaderMap;
use mime_kind::{FieldText, is_joined};
use page_origin::{Origin, OriginText, PageUrl};

/// Whether a response may be read by the request's origin.
#[derive(Clone, Copy, Debug, PartialEq, Eq)]
pub enum Cors {
    /// Each URL of the chain has the request's origin.
    SameOrigin,
    /// `Access-Control-Allow-Origin` lets the request's origin read the response.
    Passed,
    /// It does not, or there is none.
    Failed,
}

/// The header by which a response names the origin that may read it.
const ALLOW_ORIGIN: &str = "access-control-allow-origin";

#[tactic(auto, using(crate::proofs::FirstValue::has_value))]
fn allows(compared: &[u8], fields: &HeaderMap<FieldText>) -> bool
    ensures { result ≡ allows compared.now (get_all fields.now (codes "access-control-allow-origin")) }
{
    match fields.get(ALLOW_ORIGIN) {
        Some(_) => {
            is_joined(fields.get_all(ALLOW_ORIGIN), b"*")
                || is_joined(fields.get_all(ALLOW_ORIGIN), compared)
        }
        None => false,
    }
}

/// The CORS check of a response, by the origin of its request, the chain of the request's URLs, each of class
/// `UrlClass::Web`, and the response's fields. `compared` is what [`compared_text`] gives for this chain. It takes no
/// memory.
#[tactic(auto, unfolding(crate::specs::Cors::cors))]
pub fn check(
    origin: &Origin,
    compared: &OriginText,
    chain: &[PageUrl],
    fields: &HeaderMap<FieldText>,
) -> Cors
    requires web { IsWebChain chain.now }
    requires compared { compared.now ≡ compared_text origin.now chain.now }
    ensures { result ≡ cors origin.now chain.now fields.now }
{
    if is_same_origin_chain(origin, chain) {
        Cors::SameOrigin
    } else if allows(compared.as_str().as_bytes(), fields) {
        Cors::Passed
    } else {
        Cors::Failed
    }
}
