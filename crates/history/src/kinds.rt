//! The lists of next entries that go by the numbers of their objects, but for that of the messages, which are judged.

ghost use Rattle.std.specs.Prelude.{◌≡◌, IfOk};
ghost use Rattle.history.specs.Kinds.{next_by};
ghost use Rattle.history_steps.specs.Nexts as listing;

use crate::deliveries::{end_next, head_next, piece_next, request_hop};
use crate::documents::{commit_next, local_next};
use crate::navigations::{end_navigation_next, navigation_hop, order_next};
use crate::processes::{crash_next, exit_next};
use plain_facts::PlainFacts;
use plain_facts::orders::had_order;
use script_model::{Entry, NoMemory};
use std::alloc::Global;

/// What the objects of a list are, and which entries of theirs it has.
#[derive(Clone, Copy, Debug)]
pub enum Listed {
    NavigationHops,
    Orders,
    NavigationEnds,
    /// The commits of the orders to a process, by navigation.
    CommitsIn(u64),
    Locals,
    RequestHops,
    Heads,
    Pieces,
    Ends,
    Crashes,
    Exits,
}

/// The commit of a navigation that was ordered to a process.
#[tactic(auto, unfolding(history_steps::specs::Nexts::commit_in_process))]
fn commit_in_process(
    alloc: Global,
    facts: &PlainFacts<'_>,
    process: u64,
    navigation: u64,
) -> Result<Option<Entry>, NoMemory>
    ensures { IfOk result (λ next. next ≡ listing.commit_in_process facts.now.script facts.now.entries process navigation) }
{
    if !had_order(facts.entries(), process, navigation) {
        return Ok(None);
    }
    commit_next(alloc, facts, navigation)
}

/// The entry of the object with a number that a list has, if it has one.
pub fn next_by(
    alloc: Global,
    facts: &PlainFacts<'_>,
    listed: Listed,
    number: u64,
) -> Result<Option<Entry>, NoMemory>
    ensures { IfOk result (λ next. next ≡ next_by facts.now.script facts.now.entries listed number) }
{
    match listed {
        Listed::NavigationHops => navigation_hop(alloc, facts, number),
        Listed::Orders => order_next(alloc, facts, number),
        Listed::NavigationEnds => end_navigation_next(alloc, facts, number),
        Listed::CommitsIn(process) => commit_in_process(alloc, facts, process, number),
        Listed::Locals => local_next(alloc, facts, number),
        Listed::RequestHops => request_hop(alloc, facts, number),
        Listed::Heads => head_next(alloc, facts, number),
        Listed::Pieces => piece_next(alloc, facts, number),
        Listed::Ends => end_next(alloc, facts, number),
        Listed::Crashes => crash_next(alloc, facts, number),
        Listed::Exits => exit_next(facts, number),
    }
}
