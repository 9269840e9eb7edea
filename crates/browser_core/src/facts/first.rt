//! The first candidate of a history, in the order of the next entries.

ghost use Rattle.std.specs.Prelude.{◌≡◌, IfOk, IfSome, filter_map, is_some, slice_get};
ghost use Rattle.std.specs.List.{range_with_len};
ghost use Rattle.history_rules.specs.Documents.{documents};
ghost use Rattle.history_rules.specs.Processes.{processes};
ghost use Rattle.history_rules.specs.Requests.{requests};
ghost use Rattle.history.specs.Kinds.{next_by};
ghost use Rattle.history_steps.specs.Nexts as listing;
ghost use Rattle.browser_core.specs.Candidates as candidates;
ghost use Rattle.browser_tasks.specs.Candidates.{IsQuiet, IsQuietCandidate};

use browser_tasks::Candidate;
use history::documents::{Saying, saying_next};
use history::kinds::{Listed, next_by};
use history::processes::{open_next, warm_next};
use plain_facts::PlainFacts;
use plain_facts::processes::started;
use plain_facts::requests::requests_made;
use script_model::{Entry, NoMemory, Script};
use std::alloc::Global;

/// The first entry of a list, of the objects with numbers below `count`.
#[tactic(auto, using(crate::proofs::Quiet::quiet_by))]
fn first_listed(
    alloc: Global,
    facts: &PlainFacts<'_>,
    listed: Listed,
    count: u64,
) -> Result<Option<Entry>, NoMemory>
    ensures first { IfOk result (λ first. first ≡ slice_get (filter_map (next_by facts.now.script facts.now.entries listed) (range_with_len 0 count)) 0) }
    ensures quiet { IfOk result IsQuiet }
{
    for number in 0..count {
        if let Some(entry) = next_by(alloc, facts, listed, number)? {
            return Ok(Some(entry));
        }
    }
    Ok(None)
}

/// The first entry of a list of navigations.
fn first_navigation(
    alloc: Global,
    facts: &PlainFacts<'_>,
    listed: Listed,
) -> Result<Option<Entry>, NoMemory>
    ensures first { IfOk result (λ first. first ≡ slice_get (filter_map (next_by facts.now.script facts.now.entries listed) (documents facts.now.script facts.now.entries)) 0) }
    ensures quiet { IfOk result IsQuiet }
{
    first_listed(alloc, facts, listed, facts.navigations_made())
}

/// The first entry of a list of requests.
fn first_request(
    alloc: Global,
    facts: &PlainFacts<'_>,
    listed: Listed,
) -> Result<Option<Entry>, NoMemory>
    ensures first { IfOk result (λ first. first ≡ slice_get (filter_map (next_by facts.now.script facts.now.entries listed) (requests facts.now.entries)) 0) }
    ensures quiet { IfOk result IsQuiet }
{
    first_listed(alloc, facts, listed, requests_made(facts.entries()))
}

/// The first entry of a list of processes.
fn first_process(
    alloc: Global,
    facts: &PlainFacts<'_>,
    listed: Listed,
) -> Result<Option<Entry>, NoMemory>
    ensures first { IfOk result (λ first. first ≡ slice_get (filter_map (next_by facts.now.script facts.now.entries listed) (processes facts.now.entries)) 0) }
    ensures quiet { IfOk result IsQuiet }
{
    first_listed(alloc, facts, listed, started(facts.entries()))
}

/// The first redirect: of navigations, then of requests.
#[tactic(auto, using(crate::proofs::Firsts::first_both), unfolding(history_steps::specs::Nexts::hop_nexts))]
fn first_hop(alloc: Global, facts: &PlainFacts<'_>) -> Result<Option<Entry>, NoMemory>
    ensures first { IfOk result (λ first. first ≡ slice_get (listing.hop_nexts facts.now.script facts.now.entries) 0) }
    ensures quiet { IfOk result IsQuiet }
{
    match first_navigation(alloc, facts, Listed::NavigationHops)? {
        Some(entry) => Ok(Some(entry)),
        None => first_request(alloc, facts, Listed::RequestHops),
    }
}

/// The first commit of a process, by navigation.
#[tactic(auto, unfolding(history_steps::specs::Nexts::process_commits))]
fn first_commit_in(
    alloc: Global,
    facts: &PlainFacts<'_>,
    process: u64,
) -> Result<Option<Entry>, NoMemory>
    ensures first { IfOk result (λ first. first ≡ slice_get (listing.process_commits facts.now.script facts.now.entries process) 0) }
    ensures quiet { IfOk result IsQuiet }
{
    first_navigation(alloc, facts, Listed::CommitsIn(process))
}

/// The first commit, by process and then by navigation.
#[tactic(auto, unfolding(history_steps::specs::Nexts::commit_nexts))]
fn first_commit(alloc: Global, facts: &PlainFacts<'_>) -> Result<Option<Entry>, NoMemory>
    ensures first { IfOk result (λ first. first ≡ slice_get (listing.commit_nexts facts.now.script facts.now.entries) 0) }
    ensures quiet { IfOk result IsQuiet }
{
    for process in 0..started(facts.entries()) {
        if let Some(entry) = first_commit_in(alloc, facts, process)? {
            return Ok(Some(entry));
        }
    }
    Ok(None)
}

/// What the first document says that says something.
#[tactic(auto, unfolding(crate::specs::Candidates::sayings))]
fn first_saying(alloc: Global, facts: &PlainFacts<'_>) -> Result<Option<Saying>, NoMemory>
    ensures { IfOk result (λ first. first ≡ slice_get (candidates.sayings facts.now.script facts.now.entries) 0) }
{
    for document in 0..facts.navigations_made() {
        if let Some(saying) = saying_next(alloc, facts, document)? {
            return Ok(Some(saying));
        }
    }
    Ok(None)
}

/// The first of the next entries before those of messages.
#[tactic(auto, using(crate::proofs::Firsts::first_before, crate::proofs::Quiet::quiet_open, crate::proofs::Quiet::quiet_warm), unfolding(history_steps::specs::Nexts::order_nexts, history_steps::specs::Nexts::end_navigation_nexts))]
fn first_before(alloc: Global, facts: &PlainFacts<'_>) -> Result<Option<Entry>, NoMemory>
    ensures first { IfOk result (λ first. first ≡ slice_get (candidates.before_messages facts.now.script facts.now.entries) 0) }
    ensures quiet { IfOk result IsQuiet }
{
    if let Some(entry) = open_next(facts)? {
        return Ok(Some(entry));
    }
    if let Some(entry) = warm_next(facts)? {
        return Ok(Some(entry));
    }
    if let Some(entry) = first_hop(alloc, facts)? {
        return Ok(Some(entry));
    }
    if let Some(entry) = first_navigation(alloc, facts, Listed::Orders)? {
        return Ok(Some(entry));
    }
    first_navigation(alloc, facts, Listed::NavigationEnds)
}

/// The first of the next entries of requests that have their response.
#[tactic(auto, using(crate::proofs::Firsts::first_three), unfolding(history_steps::specs::Nexts::head_nexts, history_steps::specs::Nexts::piece_nexts, history_steps::specs::Nexts::end_nexts))]
fn first_delivery(alloc: Global, facts: &PlainFacts<'_>) -> Result<Option<Entry>, NoMemory>
    ensures first { IfOk result (λ first. first ≡ slice_get (candidates.deliveries facts.now.script facts.now.entries) 0) }
    ensures quiet { IfOk result IsQuiet }
{
    if let Some(entry) = first_request(alloc, facts, Listed::Heads)? {
        return Ok(Some(entry));
    }
    if let Some(entry) = first_request(alloc, facts, Listed::Pieces)? {
        return Ok(Some(entry));
    }
    first_request(alloc, facts, Listed::Ends)
}

/// The first of the next entries behind those of messages.
#[tactic(auto, using(crate::proofs::Firsts::first_behind), unfolding(history_steps::specs::Nexts::crash_nexts, history_steps::specs::Nexts::local_nexts, history_steps::specs::Nexts::exit_nexts))]
fn first_behind(alloc: Global, facts: &PlainFacts<'_>) -> Result<Option<Entry>, NoMemory>
    ensures first { IfOk result (λ first. first ≡ slice_get (candidates.behind_messages facts.now.script facts.now.entries) 0) }
    ensures quiet { IfOk result IsQuiet }
{
    if let Some(entry) = first_process(alloc, facts, Listed::Crashes)? {
        return Ok(Some(entry));
    }
    if let Some(entry) = first_commit(alloc, facts)? {
        return Ok(Some(entry));
    }
    if let Some(entry) = first_navigation(alloc, facts, Listed::Locals)? {
        return Ok(Some(entry));
    }
    if let Some(entry) = first_delivery(alloc, facts)? {
        return Ok(Some(entry));
    }
    first_process(alloc, facts, Listed::Exits)
}

/// The first candidate.
#[tactic(auto, unfolding(crate::specs::Candidates::first_candidate))]
pub(crate) fn first_candidate(
    alloc: Global,
    facts: &PlainFacts<'_>,
) -> Result<Option<Candidate>, NoMemory>
    ensures first { IfOk result (λ first. first ≡ candidates.first_candidate facts.now.script facts.now.entries) }
    ensures quiet { IfOk result (λ first. IfSome first IsQuietCandidate) }
{
    if let Some(entry) = first_before(alloc, facts)? {
        return Ok(Some(Candidate::Entry(entry)));
    }
    if let Some(saying) = first_saying(alloc, facts)? {
        return Ok(Some(Candidate::Saying(saying)));
    }
    match first_behind(alloc, facts)? {
        Some(entry) => Ok(Some(Candidate::Entry(entry))),
        None => Ok(None),
    }
}

/// Whether some entry may follow.
pub(crate) fn has_next(alloc: Global, script: &Script, entries: &[Entry]) -> Result<bool, NoMemory>
    ensures { IfOk result (λ some. some ≡ is_some (candidates.first_candidate script.now entries.now)) }
{
    let facts = PlainFacts::new(alloc, script, entries)?;
    match first_candidate(alloc, &facts)? {
        Some(_) => Ok(true),
        None => Ok(false),
    }
}
