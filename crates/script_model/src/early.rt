//! The rows of the table of verdicts that need no byte of a body.

ghost use Rattle.std.specs.Prelude.{◌≡◌, IfOk};
ghost use Rattle.page_origin.specs.PageUrls.{class_of};
ghost use Rattle.page_origin.specs.Origins.{equal_sites};
ghost use Rattle.site_url.specs.Sites.{site_of, site_of_origin};
ghost use Rattle.cors_check.specs.Chains.{IsWebChain};
ghost use Rattle.cors_check.specs.Cors.{cors};
ghost use Rattle.script_model.specs.Verdicts as verdicts;

use crate::verdict::{Verdict, cors_verdict, is_protected, is_protected_or_plain};
use cors_check::{Cors, check, compared_text, is_same_origin_chain};
use history_entry::{Mode, Policy, Rule};
use http::StatusCode;
use mime_kind::{Head, ResourcePolicy, kind_of, nosniff, resource_policy};
use page_origin::{NoMemory, Origin, PageUrl, UrlClass, tuple_of};
use site_url::{SiteRules, same_site};
use std::alloc::Global;

/// Whether a URL of class `UrlClass::Web` has the site of an origin.
fn has_site(
    alloc: Global,
    rules: &SiteRules,
    url: &PageUrl,
    origin: &Origin,
) -> Result<bool, NoMemory>
    requires { class_of url.now ≡ UrlClass.Web }
    ensures { IfOk result (λ b. b ≡ equal_sites (site_of rules.now url.now) (site_of_origin rules.now origin.now)) }
{
    let own = Origin::Tuple(tuple_of(alloc, url)?);
    Ok(same_site(rules, &own, origin))
}

/// Whether an origin is a tuple, and every URL of a chain has its site.
#[tactic(auto, unfolding(crate::specs::Verdicts::is_same_site_chain))]
fn is_same_site_chain(
    alloc: Global,
    rules: &SiteRules,
    origin: &Origin,
    chain: &[PageUrl],
) -> Result<bool, NoMemory>
    requires { IsWebChain chain.now }
    ensures { IfOk result (λ b. b ≡ verdicts.is_same_site_chain rules.now origin.now chain.now) }
{
    let Origin::Tuple(_) = origin else {
        return Ok(false);
    };
    for url in chain {
        if !has_site(alloc, rules, url, origin)? {
            return Ok(false);
        }
    }
    Ok(true)
}

/// Whether a resource policy leaves out a request of an origin with a chain.
fn leaves_out(
    alloc: Global,
    rules: &SiteRules,
    origin: &Origin,
    chain: &[PageUrl],
    policy: ResourcePolicy,
) -> Result<bool, NoMemory>
    requires { IsWebChain chain.now }
    ensures { IfOk result (λ b. b ≡ verdicts.leaves_out rules.now origin.now chain.now policy) }
{
    match policy {
        ResourcePolicy::Any => Ok(false),
        ResourcePolicy::SameOrigin => Ok(!is_same_origin_chain(origin, chain)),
        ResourcePolicy::SameSite => Ok(!is_same_site_chain(alloc, rules, origin, chain)?),
    }
}

/// Whether B8 applies: under the second policy, where the response's resource policy leaves out the request.
#[tactic(auto, unfolding(crate::specs::Verdicts::is_left_out))]
fn is_left_out(
    alloc: Global,
    rules: &SiteRules,
    policy: Policy,
    origin: &Origin,
    chain: &[PageUrl],
    head: &Head,
) -> Result<bool, NoMemory>
    requires { IsWebChain chain.now }
    ensures { IfOk result (λ b. b ≡ verdicts.is_left_out policy rules.now origin.now chain.now head.now) }
{
    match policy {
        Policy::One => Ok(false),
        Policy::Two => leaves_out(alloc, rules, origin, chain, resource_policy(&head.fields)),
    }
}

/// The CORS check of a response.
fn cors(alloc: Global, origin: &Origin, chain: &[PageUrl], head: &Head) -> Result<Cors, NoMemory>
    requires { IsWebChain chain.now }
    ensures { IfOk result (λ answer. answer ≡ cors origin.now chain.now head.now.fields) }
{
    let compared = compared_text(alloc, origin, chain)?;
    Ok(check(origin, &compared, chain, &head.fields))
}

/// The verdict by the head alone: B2 or B3, or none.
#[tactic(auto, unfolding(crate::specs::Verdicts::head_verdict))]
fn head_verdict(head: &Head) -> Option<Verdict>
    ensures { result ≡ verdicts.head_verdict head.now }
{
    let kind = kind_of(&head.fields);
    if head.status == StatusCode::PARTIAL_CONTENT && is_protected(kind) {
        Some(Verdict::Block(Rule::B2))
    } else if nosniff(&head.fields) && is_protected_or_plain(kind) {
        Some(Verdict::Block(Rule::B3))
    } else {
        None
    }
}

/// The verdict by the rows that need no byte of the body, A1, A2, B1, B8, A3, B2 and B3, if one of them applies. It is
/// then that of every body (`laws::a_verdict_is_early_or_by_bytes`). Each URL of the chain is of class `UrlClass::Web`.
#[tactic(auto, unfolding(crate::specs::Verdicts::early_verdict))]
pub fn early_verdict(
    alloc: Global,
    rules: &SiteRules,
    policy: Policy,
    origin: &Origin,
    chain: &[PageUrl],
    mode: Mode,
    head: &Head,
) -> Result<Option<Verdict>, NoMemory>
    requires { IsWebChain chain.now }
    ensures { IfOk result (λ answer. answer ≡ verdicts.early_verdict policy rules.now origin.now chain.now mode head.now) }
{
    if mode == Mode::Cors {
        Ok(Some(cors_verdict(cors(alloc, origin, chain, head)?)))
    } else if is_left_out(alloc, rules, policy, origin, chain, head)? {
        Ok(Some(Verdict::Block(Rule::B8)))
    } else if is_same_site_chain(alloc, rules, origin, chain)? {
        Ok(Some(Verdict::Allow(Rule::A3)))
    } else {
        Ok(head_verdict(head))
    }
}
