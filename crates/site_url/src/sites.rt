ghost use Rattle.std.specs.Prelude.{◌≡◌, true, IfOk};
ghost use Rattle.page_origin.specs.HostSpelling.{is_host};
ghost use Rattle.page_origin.specs.PageUrls.{class_of};
ghost use Rattle.site_url.specs.Sites as sites;

use crate::address::is_ip_address;
use crate::site_rules::SiteRules;
use page_origin::{
    HostText, NoMemory, Origin, PageUrl, Scheme, Site, TupleOrigin, UrlClass, tuple_of,
};
use public_suffix::Rules;
use std::alloc::Global;

/// The host of the site of a host: its registrable domain, or all of it.
#[tactic(auto, unfolding(crate::specs::Sites::site_host))]
fn site_host<'a>(rules: &Rules, host: &'a HostText) -> &'a str
    ensures value { result.now ≡ sites.site_host rules.now host.now }
    ensures host { is_host result.now ≡ true }
{
    let text = host.as_str();
    if is_ip_address(text) {
        return text;
    }
    match rules.registrable(text) {
        Some(start) => &text[start..],
        None => text,
    }
}

fn new_site(alloc: Global, scheme: Scheme, host: &str, only: Option<u16>) -> Result<Site, NoMemory>
    requires { is_host host.now ≡ true }
    ensures { IfOk result (λ site. site ≡ record { scheme = scheme; host = host.now; only = only }) }
{
    let host = HostText::new(String::from_str(alloc, host)?);
    Ok(Site { scheme, host, only })
}

/// The host and the port of the site of a tuple origin.
#[tactic(auto, unfolding(crate::specs::Sites::site_of_tuple))]
fn tuple_parts<'a>(rules: &SiteRules, tuple: &'a TupleOrigin) -> (&'a str, Option<u16>)
    ensures host { result.0.now ≡ (sites.site_of_tuple rules.now tuple.now).host }
    ensures only { result.1 ≡ (sites.site_of_tuple rules.now tuple.now).only }
    ensures spelling { is_host result.0.now ≡ true }
{
    if rules.is_isolated(tuple) {
        (tuple.host.as_str(), Some(tuple.port))
    } else {
        (site_host(rules.suffixes(), &tuple.host), None)
    }
}

#[tactic(auto, unfolding(crate::specs::Sites::site_of_tuple))]
fn site_of_tuple(alloc: Global, rules: &SiteRules, tuple: &TupleOrigin) -> Result<Site, NoMemory>
    ensures { IfOk result (λ site. site ≡ sites.site_of_tuple rules.now tuple.now) }
{
    let (host, only) = tuple_parts(rules, tuple);
    new_site(alloc, tuple.scheme, host, only)
}

/// The site of a URL of class [`UrlClass::Web`].
pub fn site_of(alloc: Global, rules: &SiteRules, url: &PageUrl) -> Result<Site, NoMemory>
    requires { class_of url.now ≡ UrlClass.Web }
    ensures { IfOk result (λ site. site ≡ sites.site_of rules.now url.now) }
{
    site_of_tuple(alloc, rules, &tuple_of(alloc, url)?)
}

/// The site of an origin: that of a tuple origin, or the precursor of an opaque one, which may be isolated.
pub fn site_of_origin(alloc: Global, rules: &SiteRules, origin: &Origin) -> Result<Site, NoMemory>
    ensures { IfOk result (λ site. site ≡ sites.site_of_origin rules.now origin.now) }
{
    match origin {
        Origin::Tuple(tuple) => site_of_tuple(alloc, rules, tuple),
        Origin::Opaque(opaque) => opaque.precursor.copy(alloc),
    }
}

/// The scheme, the host and the port of the site of an origin.
#[tactic(auto, unfolding(crate::specs::Sites::site_of_tuple))]
fn site_parts<'a>(rules: &SiteRules, origin: &'a Origin) -> (Scheme, &'a str, Option<u16>)
    ensures scheme { result.0 ≡ (sites.site_of_origin rules.now origin.now).scheme }
    ensures host { result.1.now ≡ (sites.site_of_origin rules.now origin.now).host }
    ensures only { result.2 ≡ (sites.site_of_origin rules.now origin.now).only }
{
    match origin {
        Origin::Tuple(tuple) => {
            let (host, only) = tuple_parts(rules, tuple);
            (tuple.scheme, host, only)
        }
        Origin::Opaque(opaque) => {
            let site = &opaque.precursor;
            (site.scheme, site.host.as_str(), site.only)
        }
    }
}

/// Whether two origins have one site. This takes no memory.
pub fn same_site(rules: &SiteRules, a: &Origin, b: &Origin) -> bool
    ensures { result ≡ sites.same_site rules.now a.now b.now }
{
    let (scheme_a, host_a, only_a) = site_parts(rules, a);
    let (scheme_b, host_b, only_b) = site_parts(rules, b);
    scheme_a == scheme_b && host_a == host_b && only_a == only_b
}
