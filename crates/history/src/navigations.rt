//! What may follow of navigations: Hop, Order and NavEnd.

ghost use Rattle.std.specs.Prelude.{◌≡◌, IfOk};
ghost use Rattle.std.specs.Option.{option_map};
ghost use Rattle.history_rules.specs.Navigations.{chain_of};
ghost use Rattle.history_rules.specs.Redirects.{last_url};
ghost use Rattle.history_steps.specs.MayFollow as following;

use plain_choice::choice;
use plain_facts::PlainFacts;
use plain_facts::numbers::entry_number;
use request_facts::Chain;
use request_facts::navigations::{chain_of, commit_origin, last_text};
use request_facts::redirects::{hop_url, is_web, joined_url, response};
use script_model::{
    Entry, HopOf, NoMemory, Origin, PageUrl, Rule, Script, UrlClass, UrlText, site_of_origin,
};
use std::alloc::Global;

/// The redirect of an object to a URL.
pub fn hop_to(alloc: Global, of: HopOf, url: Option<PageUrl>) -> Result<Option<Entry>, NoMemory>
    ensures { IfOk result (λ next. next ≡ option_map (Entry.Hop of) url) }
{
    match url {
        Some(url) => Ok(Some(Entry::Hop(of, UrlText::of(alloc, &url)?))),
        None => Ok(None),
    }
}

/// A pending navigation follows a redirect.
#[tactic(auto, unfolding(history_steps::specs::MayFollow::navigation_hop))]
pub fn navigation_hop(
    alloc: Global,
    facts: &PlainFacts<'_>,
    navigation: u64,
) -> Result<Option<Entry>, NoMemory>
    ensures { IfOk result (λ next. next ≡ following.navigation_hop facts.now.script facts.now.entries navigation) }
{
    if !facts.is_pending(navigation) {
        return Ok(None);
    }
    let chain = chain_of(alloc, facts, navigation)?;
    if !is_web(alloc, chain.last())? {
        return Ok(None);
    }
    let url = hop_url(alloc, facts.script(), &chain)?;
    hop_to(alloc, HopOf::Nav(entry_number(navigation)?), url)
}

/// The order with an origin, its site and the chosen process, if there is one.
#[tactic(auto, unfolding(history_steps::specs::MayFollow::order_with))]
fn order_with(
    alloc: Global,
    facts: &PlainFacts<'_>,
    navigation: u64,
    origin: Origin,
    url: UrlText,
) -> Result<Option<Entry>, NoMemory>
    requires { url ≡ last_url (chain_of facts.now.script facts.now.entries navigation) }
    ensures { IfOk result (λ next. next ≡ following.order_with facts.now.script facts.now.entries navigation origin) }
{
    let site = site_of_origin(alloc, &facts.script().rules, &origin)?;
    match choice(facts, facts.frame_of(navigation), &site) {
        Some(process) => Ok(Some(Entry::Order(
            entry_number(navigation)?,
            entry_number(process)?,
            site,
            origin,
            url,
        ))),
        None => Ok(None),
    }
}

/// The order with the origin that the navigation commits with.
#[tactic(auto, unfolding(history_steps::specs::MayFollow::chosen_order))]
fn chosen_order(
    alloc: Global,
    facts: &PlainFacts<'_>,
    navigation: u64,
) -> Result<Option<Entry>, NoMemory>
    ensures { IfOk result (λ next. next ≡ following.chosen_order facts.now.script facts.now.entries navigation) }
{
    let Some(url) = last_text(alloc, facts, navigation)? else {
        return Ok(None);
    };
    match commit_origin(alloc, facts, navigation)? {
        Some(origin) => order_with(alloc, facts, navigation, origin, url),
        None => Ok(None),
    }
}

/// Whether a response commits: one that does not fail at once, is no redirect and has no status 204 or 205. Other classes
/// than Web need none.
fn does_commit(alloc: Global, script: &Script, chain: &Chain) -> Result<bool, NoMemory>
    ensures { IfOk result (λ commits. commits ≡ following.does_commit script.now chain.now) }
{
    if !is_web(alloc, chain.last())? {
        return Ok(true);
    }
    let response = response(script, chain);
    Ok(!response.fails_at_once() && !response.is_redirect() && !response.has_no_content())
}

/// A pending navigation is ordered.
#[tactic(auto, unfolding(history_steps::specs::MayFollow::order_next))]
pub fn order_next(
    alloc: Global,
    facts: &PlainFacts<'_>,
    navigation: u64,
) -> Result<Option<Entry>, NoMemory>
    ensures { IfOk result (λ next. next ≡ following.order_next facts.now.script facts.now.entries navigation) }
{
    if !facts.is_pending(navigation) {
        return Ok(None);
    }
    let chain = chain_of(alloc, facts, navigation)?;
    if !does_commit(alloc, facts.script(), &chain)? {
        return Ok(None);
    }
    chosen_order(alloc, facts, navigation)
}

/// Why a redirect is not followed by its `Location`, joined to the current URL.
fn redirect_rule(url: Option<PageUrl>) -> Option<Rule>
    ensures { result ≡ following.redirect_rule url }
{
    match url {
        Some(url) => match url.class() {
            UrlClass::Web => None,
            _ => Some(Rule::N3),
        },
        None => Some(Rule::N2),
    }
}

/// Why a response commits nothing.
fn response_rule(alloc: Global, script: &Script, chain: &Chain) -> Result<Option<Rule>, NoMemory>
    ensures { IfOk result (λ rule. rule ≡ following.response_rule script.now chain.now) }
{
    let response = response(script, chain);
    if response.fails_at_once() {
        Ok(Some(Rule::N7))
    } else if response.is_redirect() {
        if chain.is_spent() {
            Ok(Some(Rule::N5))
        } else {
            Ok(redirect_rule(joined_url(alloc, script, chain)?))
        }
    } else if response.has_no_content() {
        Ok(Some(Rule::N8))
    } else {
        Ok(None)
    }
}

/// Why a navigation ends.
#[tactic(auto, unfolding(history_steps::specs::MayFollow::end_rule))]
fn end_rule(
    alloc: Global,
    facts: &PlainFacts<'_>,
    navigation: u64,
) -> Result<Option<Rule>, NoMemory>
    ensures { IfOk result (λ rule. rule ≡ following.end_rule facts.now.script facts.now.entries navigation) }
{
    let chain = chain_of(alloc, facts, navigation)?;
    if !does_commit(alloc, facts.script(), &chain)? {
        return response_rule(alloc, facts.script(), &chain);
    }
    match chosen_order(alloc, facts, navigation)? {
        Some(_) => Ok(None),
        None => Ok(Some(Rule::N6)),
    }
}

/// A pending navigation ends without an order.
#[tactic(auto, unfolding(history_steps::specs::MayFollow::end_navigation_next))]
pub fn end_navigation_next(
    alloc: Global,
    facts: &PlainFacts<'_>,
    navigation: u64,
) -> Result<Option<Entry>, NoMemory>
    ensures { IfOk result (λ next. next ≡ following.end_navigation_next facts.now.script facts.now.entries navigation) }
{
    if !facts.is_pending(navigation) {
        return Ok(None);
    }
    match end_rule(alloc, facts, navigation)? {
        Some(rule) => Ok(Some(Entry::NavEnd(entry_number(navigation)?, rule))),
        None => Ok(None),
    }
}
