//! Navigations: their chains, and the origins that they commit with.

ghost use Rattle.std.specs.Prelude.{◌≡◌, ◌∷◌, [], IfOk, codes, filter_map, option_and_then, unwrap_or};
ghost use Rattle.std.specs.Option.{option_copied, option_map};
ghost use Rattle.history_rules.specs.Documents.{origin_of};
ghost use Rattle.history_rules.specs.Frames.{adder_of};
ghost use Rattle.history_rules.specs.Navigations as navigations;
ghost use Rattle.history_rules.specs.Redirects.{last_url};
ghost use Rattle.history_rules.specs.Entries.{last_match};

use crate::chain::Chain;
use entry_facts::navigations::hop_of_navigation;
use page_origin::{class_of_text, tuple_of_text};
use plain_facts::PlainFacts;
use plain_facts::documents::origin_of;
use plain_facts::numbers::entry_number;
use script_model::{
    Body, Entry, NoMemory, OpaqueOrigin, Origin, Script, Src, UrlClass, UrlRefusal, UrlText,
    page_url, site_of_origin,
};
use std::alloc::Global;

/// The URL that an accepted text names; none where it is no URL, whose text in a chain is empty.
pub fn url_of_text(alloc: Global, text: &str) -> Result<Option<UrlText>, NoMemory>
    ensures { IfOk result (λ url. unwrap_or url [] ≡ navigations.url_of_text text.now) }
{
    match page_url(alloc, text) {
        Ok(url) => Ok(Some(UrlText::of(alloc, &url)?)),
        Err(UrlRefusal::NoMemory) => Err(NoMemory),
        Err(_) => Ok(None),
    }
}

/// The URL of a document whose frame names a resource.
#[tactic(auto, unfolding(page_origin::specs::UrlText::is_url_spelling))]
fn srcdoc_url(alloc: Global) -> Result<UrlText, NoMemory>
    ensures { IfOk result (λ url. url ≡ codes "about:srcdoc") }
{
    Ok(UrlText::new(String::from_str(alloc, "about:srcdoc")?))
}

/// The first URL of a frame's source.
fn src_url(alloc: Global, src: &Src) -> Result<Option<UrlText>, NoMemory>
    ensures { IfOk result (λ url. unwrap_or url [] ≡ navigations.src_url src.now) }
{
    match src {
        Src::Url(text) => url_of_text(alloc, text.as_str()),
        Src::Doc(_) => Ok(Some(srcdoc_url(alloc)?)),
    }
}

/// The first URL of the navigation that a message begins.
fn body_url(alloc: Global, body: &Body) -> Result<Option<UrlText>, NoMemory>
    ensures { IfOk result (λ url. unwrap_or url [] ≡ navigations.body_url body.now) }
{
    match body {
        Body::Navigate { url, .. } | Body::OpenPage { url } => url_of_text(alloc, url.as_str()),
        Body::AddFrame { src, .. } => src_url(alloc, src),
        _ => Ok(None),
    }
}

/// The first URL of a navigation: that of a start page is the script's.
#[tactic(auto, unfolding(history_rules::specs::Navigations::first_url))]
pub fn first_url(
    alloc: Global,
    facts: &PlainFacts<'_>,
    navigation: u64,
) -> Result<Option<UrlText>, NoMemory>
    ensures { IfOk result (λ url. unwrap_or url [] ≡ navigations.first_url facts.now.script facts.now.entries navigation) }
{
    if navigation < facts.start_count() {
        let page = facts.script().page(navigation as u32);
        return Ok(Some(UrlText::of(alloc, page)?));
    }
    match facts.navigation_maker(navigation) {
        Some(maker) => body_url(alloc, &maker.body),
        None => Ok(None),
    }
}

/// A first URL, and one for each redirect of a navigation that was followed.
fn with_hops(
    alloc: Global,
    first: Option<UrlText>,
    entries: &[Entry],
    navigation: u64,
) -> Result<Chain, NoMemory>
    ensures { IfOk result (λ chain. chain ≡ unwrap_or first [] ∷ filter_map (navigations.hop_of_navigation navigation) entries.now) }
{
    let mut chain = Chain::new(alloc, first)?;
    for entry in entries {
        chain.follow(alloc, hop_of_navigation(entry, navigation))?;
    }
    Ok(chain)
}

/// The URLs of a navigation: the first, and one for each redirect that was followed.
#[tactic(auto, unfolding(history_rules::specs::Navigations::chain_of))]
pub fn chain_of(alloc: Global, facts: &PlainFacts<'_>, navigation: u64) -> Result<Chain, NoMemory>
    ensures { IfOk result (λ chain. chain ≡ navigations.chain_of facts.now.script facts.now.entries navigation) }
{
    let first = first_url(alloc, facts, navigation)?;
    with_hops(alloc, first, facts.entries(), navigation)
}

/// The last redirect of a navigation that was followed.
fn last_hop(entries: &[Entry], navigation: u64) -> Option<&UrlText>
    ensures { option_copied result ≡ last_match (navigations.hop_of_navigation navigation) entries.now }
{
    let mut last = None;
    for entry in entries {
        last = hop_of_navigation(entry, navigation).or(last);
    }
    last
}

/// The last URL of a navigation's chain; none where it is empty.
#[tactic(auto, unfolding(history_rules::specs::Navigations::chain_of), using(crate::proofs::LastUrl::last_of_chain))]
pub fn last_text(
    alloc: Global,
    facts: &PlainFacts<'_>,
    navigation: u64,
) -> Result<Option<UrlText>, NoMemory>
    ensures { IfOk result (λ url. unwrap_or url [] ≡ last_url (navigations.chain_of facts.now.script facts.now.entries navigation)) }
{
    match last_hop(facts.entries(), navigation) {
        Some(url) => Ok(Some(url.copy(alloc)?)),
        None => first_url(alloc, facts, navigation),
    }
}

/// A new opaque origin of a navigation with an origin's site.
fn opaque_of(
    alloc: Global,
    script: &Script,
    navigation: u64,
    origin: &Origin,
) -> Result<Origin, NoMemory>
    ensures { IfOk result (λ opaque. opaque ≡ navigations.opaque_of script.now navigation origin.now) }
{
    let document = entry_number(navigation)?;
    let precursor = site_of_origin(alloc, &script.rules, origin)?;
    Ok(Origin::Opaque(OpaqueOrigin {
        document,
        precursor,
    }))
}

/// A copy of an origin, if there is one.
fn copied(alloc: Global, origin: Option<&Origin>) -> Result<Option<Origin>, NoMemory>
    ensures { IfOk result (λ copy. copy ≡ option_copied origin.entry) }
{
    match origin {
        Some(origin) => Ok(Some(origin.copy(alloc)?)),
        None => Ok(None),
    }
}

/// A new opaque origin with the site of another, if there is one.
fn opaque_like(
    alloc: Global,
    script: &Script,
    navigation: u64,
    origin: Option<&Origin>,
) -> Result<Option<Origin>, NoMemory>
    ensures { IfOk result (λ opaque. opaque ≡ option_map (navigations.opaque_of script.now navigation) (option_copied origin.entry)) }
{
    match origin {
        Some(origin) => Ok(Some(opaque_of(alloc, script, navigation, origin)?)),
        None => Ok(None),
    }
}

/// The origin of the document that added a frame.
fn adder_origin<'a>(facts: &PlainFacts<'a>, frame: u64) -> Option<&'a Origin>
    ensures { option_copied result ≡ option_and_then (origin_of facts.now.entries) (adder_of facts.now.script facts.now.entries frame) }
{
    match facts.adder_of(frame) {
        Some(adder) => origin_of(facts.entries(), adder),
        None => None,
    }
}

/// The base origin of a navigation by the class of its final URL: the URL's tuple, the initiator's origin, that of the
/// document that added the frame, or a new opaque one with the initiator's site.
#[tactic(auto, unfolding(history_rules::specs::Navigations::base_origin))]
pub fn base_origin(
    alloc: Global,
    facts: &PlainFacts<'_>,
    navigation: u64,
) -> Result<Option<Origin>, NoMemory>
    ensures { IfOk result (λ origin. origin ≡ navigations.base_origin facts.now.script facts.now.entries navigation) }
{
    let chain = chain_of(alloc, facts, navigation)?;
    let url = chain.last();
    match class_of_text(alloc, url)? {
        UrlClass::Web => Ok(Some(Origin::Tuple(tuple_of_text(alloc, url)?))),
        UrlClass::AboutBlank => copied(alloc, facts.initiator_of(navigation)),
        UrlClass::AboutSrcdoc => copied(alloc, adder_origin(facts, facts.frame_of(navigation))),
        UrlClass::DataUrl => opaque_like(
            alloc,
            facts.script(),
            navigation,
            facts.initiator_of(navigation),
        ),
        UrlClass::Foreign => Ok(None),
    }
}

/// The origin that a navigation commits with: the base origin, or in a sandboxed frame a new opaque one with its site.
#[tactic(auto, unfolding(history_rules::specs::Navigations::commit_origin))]
pub fn commit_origin(
    alloc: Global,
    facts: &PlainFacts<'_>,
    navigation: u64,
) -> Result<Option<Origin>, NoMemory>
    ensures { IfOk result (λ origin. origin ≡ navigations.commit_origin facts.now.script facts.now.entries navigation) }
{
    let base = base_origin(alloc, facts, navigation)?;
    if facts.is_sandboxed(facts.frame_of(navigation)) {
        opaque_like(alloc, facts.script(), navigation, base.as_ref())
    } else {
        Ok(base)
    }
}
