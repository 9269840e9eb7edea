//! Whether an entry may follow a history.

ghost use Rattle.std.specs.Prelude.{◌≡◌, ◌↔◌, IfOk, IsTrue};
ghost use Rattle.history_steps.specs.MayFollow as following;

use crate::deliveries::{end_next, head_next, piece_next, request_hop};
use crate::documents::{commit_next, local_next, said_next};
use crate::navigations::{end_navigation_next, navigation_hop, order_next};
use crate::processes::{crash_next, exit_next, open_next, warm_next};
use history_entries::History;
use plain_facts::PlainFacts;
use script_model::{Entry, HopOf, NoMemory, Script, ServiceRule, equal_entries};
use std::alloc::Global;

/// The entry of the same object that may follow.
#[tactic(auto, unfolding(history_steps::specs::MayFollow::next_of))]
fn next_of<R: ServiceRule>(
    alloc: Global,
    services: &R,
    facts: &PlainFacts<'_>,
    entry: &Entry,
) -> Result<Option<Entry>, NoMemory>
    ensures { IfOk result (λ next. next ≡ following.next_of R.rule facts.now.script facts.now.entries entry.now) }
{
    match entry {
        Entry::Opened(_) => open_next(facts),
        Entry::Warm(_) => warm_next(facts),
        Entry::Hop(HopOf::Nav(navigation), _) => navigation_hop(
            alloc,
            facts,
            u64::from(*navigation),
        ),
        Entry::Hop(HopOf::Req(request), _) => request_hop(alloc, facts, u64::from(*request)),
        Entry::Order(navigation, ..) => order_next(alloc, facts, u64::from(*navigation)),
        Entry::NavEnd(navigation, _) => end_navigation_next(alloc, facts, u64::from(*navigation)),
        Entry::Said(_, document, ..) => said_next(alloc, services, facts, u64::from(*document)),
        Entry::Crash(process) => crash_next(alloc, facts, u64::from(*process)),
        Entry::Commit(_, navigation, ..) => commit_next(alloc, facts, u64::from(*navigation)),
        Entry::Local(_, document, ..) => local_next(alloc, facts, u64::from(*document)),
        Entry::Head(request, _) => head_next(alloc, facts, u64::from(*request)),
        Entry::Piece(request, ..) => piece_next(alloc, facts, u64::from(*request)),
        Entry::End(request, _) => end_next(alloc, facts, u64::from(*request)),
        Entry::Exit(process) => exit_next(facts, u64::from(*process)),
    }
}

/// Whether an entry may follow a history.
pub fn may<R: ServiceRule>(
    alloc: Global,
    script: &Script,
    services: &R,
    history: &History,
    entry: &Entry,
) -> Result<bool, NoMemory>
    ensures { IfOk result (λ answer. IsTrue answer ↔ following.MayFollow R.rule script.now history.now entry.now) }
{
    let facts = PlainFacts::new(alloc, script, history.entries())?;
    match next_of(alloc, services, &facts, entry)? {
        Some(next) => Ok(equal_entries(&next, entry)),
        None => Ok(false),
    }
}
