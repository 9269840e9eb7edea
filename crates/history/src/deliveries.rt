//! What may follow of requests: Hop, Head, Piece and End.

ghost use Rattle.std.specs.Prelude.{◌≡◌, ◌&&◌, IfOk, length, nat_le, option_and_then, slice_get};
ghost use Rattle.std.specs.Option.{option_map};
ghost use Rattle.history_rules.specs.Requests.{delivered, has_head, request_chain, request_verdict};
ghost use Rattle.script_model.specs.Pieces.{pieces};
ghost use Rattle.history_steps.specs.Deliveries as deliveries;
ghost use Rattle.request_facts.specs.Views.{response_view};

use crate::navigations::hop_to;
use plain_facts::PlainFacts;
use plain_facts::numbers::entry_number;
use request_facts::redirects::{hop_url, response};
use request_facts::requests::{delivered, has_head, is_live_request, request_chain};
use request_facts::verdicts::{cors_fails, request_verdict};
use request_facts::{Chain, Response};
use script_model::{EndHow, Entry, HopOf, NoMemory, Rule, Verdict};
use std::alloc::Global;

/// A live request without a head follows a redirect, in mode cors only where the CORS check has not failed.
#[tactic(auto, unfolding(history_steps::specs::Deliveries::request_hop))]
pub fn request_hop(
    alloc: Global,
    facts: &PlainFacts<'_>,
    request: u64,
) -> Result<Option<Entry>, NoMemory>
    ensures { IfOk result (λ next. next ≡ deliveries.request_hop facts.now.script facts.now.entries request) }
{
    if !is_live_request(facts, request) || has_head(facts.entries(), request) {
        return Ok(None);
    }
    if cors_fails(alloc, facts, request)? {
        return Ok(None);
    }
    let chain = request_chain(alloc, facts.entries(), request)?;
    let url = hop_url(alloc, facts.script(), &chain)?;
    hop_to(alloc, HopOf::Req(entry_number(request)?), url)
}

/// The head by a verdict that allows.
fn head_by(request: u64, verdict: Option<Verdict>) -> Result<Option<Entry>, NoMemory>
    ensures { IfOk result (λ next. next ≡ option_and_then (deliveries.head_by request) verdict) }
{
    match verdict {
        Some(Verdict::Allow(rule)) => Ok(Some(Entry::Head(entry_number(request)?, rule))),
        _ => Ok(None),
    }
}

/// A live request gets its head once the verdict allows it.
#[tactic(auto, unfolding(history_steps::specs::Deliveries::head_next))]
pub fn head_next(
    alloc: Global,
    facts: &PlainFacts<'_>,
    request: u64,
) -> Result<Option<Entry>, NoMemory>
    ensures { IfOk result (λ next. next ≡ deliveries.head_next facts.now.script facts.now.entries request) }
{
    if !is_live_request(facts, request) || has_head(facts.entries(), request) {
        return Ok(None);
    }
    let chain = request_chain(alloc, facts.entries(), request)?;
    let response = response(facts.script(), &chain);
    if response.fails_at_once() || response.is_redirect() {
        return Ok(None);
    }
    head_by(request, request_verdict(alloc, facts, request)?)
}

/// The piece with a number of a response, if there is one.
fn piece_at(
    alloc: Global,
    response: &Response<'_>,
    request: u64,
    index: u64,
) -> Result<Option<Entry>, NoMemory>
    ensures { IfOk result (λ next. next ≡ option_map (Entry.Piece request index) (slice_get (pieces (response_view response.now)) index)) }
{
    let pieces = response.pieces(alloc)?;
    match pieces.get(index as usize) {
        Some(bytes) => Ok(Some(Entry::Piece(
            entry_number(request)?,
            entry_number(index)?,
            bytes.copy(alloc)?,
        ))),
        None => Ok(None),
    }
}

/// After its head, the next piece of a live request.
#[tactic(auto, unfolding(history_steps::specs::Deliveries::piece_next))]
pub fn piece_next(
    alloc: Global,
    facts: &PlainFacts<'_>,
    request: u64,
) -> Result<Option<Entry>, NoMemory>
    ensures { IfOk result (λ next. next ≡ deliveries.piece_next facts.now.script facts.now.entries request) }
{
    let entries = facts.entries();
    if !is_live_request(facts, request) || !has_head(entries, request) {
        return Ok(None);
    }
    let chain = request_chain(alloc, entries, request)?;
    let response = response(facts.script(), &chain);
    piece_at(alloc, &response, request, delivered(entries, request))
}

/// How a wire ends.
fn wire_end(response: &Response<'_>) -> EndHow
    ensures { result ≡ deliveries.wire_end (response_view response.now) }
{
    if response.has_ended() {
        EndHow::Whole
    } else {
        EndHow::Failed(Rule::N7)
    }
}

/// The rows for a redirect.
#[tactic(auto, unfolding(history_steps::specs::Deliveries::redirect_end))]
fn redirect_end(
    alloc: Global,
    facts: &PlainFacts<'_>,
    request: u64,
    chain: &Chain,
) -> Result<Option<EndHow>, NoMemory>
    requires { chain.now ≡ request_chain facts.now.entries request }
    ensures { IfOk result (λ how. how ≡ deliveries.redirect_end facts.now.script facts.now.entries request) }
{
    if cors_fails(alloc, facts, request)? {
        Ok(Some(EndHow::Blocked(Rule::B1)))
    } else if chain.is_spent() {
        Ok(Some(EndHow::Failed(Rule::N5)))
    } else if hop_url(alloc, facts.script(), chain)?.is_none() {
        Ok(Some(EndHow::Failed(Rule::F1)))
    } else {
        Ok(None)
    }
}

/// Whether a request has its head and all pieces of its response.
fn has_all(
    alloc: Global,
    facts: &PlainFacts<'_>,
    request: u64,
    response: &Response<'_>,
) -> Result<bool, NoMemory>
    ensures { IfOk result (λ all. all ≡ (has_head facts.now.entries request
        && nat_le (length (pieces (response_view response.now))) (delivered facts.now.entries request))) }
{
    if !has_head(facts.entries(), request) {
        return Ok(false);
    }
    let count = response.pieces(alloc)?.len() as u64;
    Ok(count <= delivered(facts.entries(), request))
}

/// The rows for a body by its verdict: a block, a body that settles none, or after the head and all pieces.
#[tactic(auto, unfolding(history_steps::specs::Deliveries::body_end))]
fn body_end(
    alloc: Global,
    facts: &PlainFacts<'_>,
    request: u64,
    chain: &Chain,
) -> Result<Option<EndHow>, NoMemory>
    requires { chain.now ≡ request_chain facts.now.entries request }
    ensures { IfOk result (λ how. how ≡ deliveries.body_end facts.now.script facts.now.entries request (request_verdict facts.now.script facts.now.entries request)) }
{
    match request_verdict(alloc, facts, request)? {
        Some(Verdict::Block(rule)) => Ok(Some(EndHow::Blocked(rule))),
        None => Ok(Some(EndHow::Failed(Rule::N7))),
        Some(Verdict::Allow(_)) => {
            let response = response(facts.script(), chain);
            if has_all(alloc, facts, request, &response)? {
                Ok(Some(wire_end(&response)))
            } else {
                Ok(None)
            }
        }
    }
}

/// How a request ends.
#[tactic(auto, unfolding(history_steps::specs::Deliveries::end_how))]
fn end_how(alloc: Global, facts: &PlainFacts<'_>, request: u64) -> Result<Option<EndHow>, NoMemory>
    ensures { IfOk result (λ how. how ≡ deliveries.end_how facts.now.script facts.now.entries request) }
{
    let chain = request_chain(alloc, facts.entries(), request)?;
    let response = response(facts.script(), &chain);
    if response.fails_at_once() {
        Ok(Some(EndHow::Failed(Rule::N7)))
    } else if response.is_redirect() {
        redirect_end(alloc, facts, request, &chain)
    } else {
        body_end(alloc, facts, request, &chain)
    }
}

/// A live request ends.
#[tactic(auto, unfolding(history_steps::specs::Deliveries::end_next))]
pub fn end_next(
    alloc: Global,
    facts: &PlainFacts<'_>,
    request: u64,
) -> Result<Option<Entry>, NoMemory>
    ensures { IfOk result (λ next. next ≡ deliveries.end_next facts.now.script facts.now.entries request) }
{
    if !is_live_request(facts, request) {
        return Ok(None);
    }
    match end_how(alloc, facts, request)? {
        Some(how) => Ok(Some(Entry::End(entry_number(request)?, how))),
        None => Ok(None),
    }
}
