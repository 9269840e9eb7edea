//! Requests of documents: their URLs, and how far their responses were delivered.

ghost use Rattle.std.specs.Prelude.{◌≡◌, [], IfOk, unwrap_or};
ghost use Rattle.std.specs.Option.{option_copied, option_map_or};
ghost use Rattle.history_rules.specs.Requests as requests;

use crate::chain::Chain;
use crate::navigations::url_of_text;
use entry_facts::entries::{accepted, makes_request};
use entry_facts::requests::{fetched_mode, head_in, hop_of_request, is_end_of, is_piece_of};
use plain_facts::PlainFacts;
use plain_facts::documents::{origin_of, process_of};
use plain_facts::requests::requests_made;
use script_model::{Body, Entry, Message, Mode, NoMemory, Origin, Rule, UrlText};
use std::alloc::Global;

/// The message that began a request.
#[tactic(auto, unfolding(history_rules::specs::Requests::request_maker))]
pub fn request_maker(entries: &[Entry], request: u64) -> Option<&Message>
    ensures { option_copied result ≡ requests.request_maker entries.now request }
{
    let mut left = request;
    for entry in entries {
        if makes_request(entry) {
            if left == 0 {
                return accepted(entry);
            }
            left -= 1;
        }
    }
    None
}

/// The document of a request.
pub fn request_document(entries: &[Entry], request: u64) -> Option<u64>
    ensures { result ≡ requests.request_document entries.now request }
{
    match request_maker(entries, request) {
        Some(maker) => Some(u64::from(maker.document)),
        None => None,
    }
}

/// The process that hosts the document of a request.
pub fn request_process(entries: &[Entry], request: u64) -> Option<u64>
    ensures { result ≡ requests.request_process entries.now request }
{
    match request_document(entries, request) {
        Some(document) => process_of(entries, document),
        None => None,
    }
}

/// The origin of the document of a request.
#[tactic(auto, unfolding(history_rules::specs::Requests::request_origin))]
pub fn request_origin(entries: &[Entry], request: u64) -> Option<&Origin>
    ensures { option_copied result ≡ requests.request_origin entries.now request }
{
    match request_document(entries, request) {
        Some(document) => origin_of(entries, document),
        None => None,
    }
}

/// The mode of a request.
#[tactic(auto, unfolding(history_rules::specs::Requests::request_mode))]
pub fn request_mode(entries: &[Entry], request: u64) -> Mode
    ensures { result ≡ requests.request_mode entries.now request }
{
    match request_maker(entries, request) {
        Some(maker) => fetched_mode(&maker.body),
        None => Mode::NoCors,
    }
}

/// The URL that a fetch names.
fn fetched_url(alloc: Global, body: &Body) -> Result<Option<UrlText>, NoMemory>
    ensures { IfOk result (λ url. unwrap_or url [] ≡ requests.fetched_url body.now) }
{
    match body {
        Body::Fetch { url, .. } => url_of_text(alloc, url.as_str()),
        _ => Ok(None),
    }
}

/// The first URL of a request.
fn first_url(alloc: Global, entries: &[Entry], request: u64) -> Result<Option<UrlText>, NoMemory>
    ensures { IfOk result (λ url. unwrap_or url [] ≡ option_map_or (λ m. requests.fetched_url m.body) (requests.request_maker entries.now request) []) }
{
    match request_maker(entries, request) {
        Some(maker) => fetched_url(alloc, &maker.body),
        None => Ok(None),
    }
}

/// The URLs of a request: the first, and one for each redirect that was followed.
#[tactic(auto, unfolding(history_rules::specs::Requests::request_chain))]
pub fn request_chain(alloc: Global, entries: &[Entry], request: u64) -> Result<Chain, NoMemory>
    ensures { IfOk result (λ chain. chain ≡ requests.request_chain entries.now request) }
{
    let mut chain = Chain::new(alloc, first_url(alloc, entries, request)?)?;
    for entry in entries {
        chain.follow(alloc, hop_of_request(entry, request))?;
    }
    Ok(chain)
}

/// The rule of the head of a request.
#[tactic(auto, unfolding(history_rules::specs::Requests::head_of))]
pub fn head_of(entries: &[Entry], request: u64) -> Option<Rule>
    ensures { result ≡ requests.head_of entries.now request }
{
    let mut last = None;
    for entry in entries {
        last = head_in(entry, request).or(last);
    }
    last
}

/// Whether a request has its head.
#[tactic(auto, unfolding(history_rules::specs::Requests::has_head))]
pub fn has_head(entries: &[Entry], request: u64) -> bool
    ensures { result ≡ requests.has_head entries.now request }
{
    head_of(entries, request).is_some()
}

/// Whether a request ended.
#[tactic(auto, unfolding(history_rules::specs::Requests::has_end))]
pub fn has_end(entries: &[Entry], request: u64) -> bool
    ensures { result ≡ requests.has_end entries.now request }
{
    entries.iter().any(|entry| is_end_of(entry, request))
}

/// How many pieces of a request were delivered.
#[tactic(auto, unfolding(history_rules::specs::Requests::delivered))]
pub fn delivered(entries: &[Entry], request: u64) -> u64
    ensures { result ≡ requests.delivered entries.now request }
{
    let mut count = 0;
    for entry in entries {
        if is_piece_of(entry, request) {
            count += 1;
        }
    }
    count
}

/// Whether a request is live: its document is current, and it has no end.
#[tactic(auto, unfolding(history_rules::specs::Requests::is_live_request))]
pub fn is_live_request(facts: &PlainFacts<'_>, request: u64) -> bool
    ensures { result ≡ requests.is_live_request facts.now.script facts.now.entries request }
{
    match request_document(facts.entries(), request) {
        Some(document) => !has_end(facts.entries(), request) && facts.is_current(document),
        None => false,
    }
}

/// Whether a request is a live one of a document.
fn is_request_of(facts: &PlainFacts<'_>, document: u64, request: u64) -> bool
    ensures { result ≡ requests.is_request_of facts.now.script facts.now.entries document request }
{
    request_document(facts.entries(), request) == Some(document) && is_live_request(facts, request)
}

/// Whether a document has a live request.
#[tactic(auto, unfolding(history_rules::specs::Requests::has_live_request))]
pub fn has_live_request(facts: &PlainFacts<'_>, document: u64) -> bool
    ensures { result ≡ requests.has_live_request facts.now.script facts.now.entries document }
{
    (0..requests_made(facts.entries())).any(|request| is_request_of(facts, document, request))
}
