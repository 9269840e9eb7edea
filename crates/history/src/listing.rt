//! The entries that may follow, in order.

ghost use Rattle.std.specs.Prelude.{◌≡◌, ◌++◌, IfOk, OnOk, filter_map};
ghost use Rattle.std.specs.List.{range_with_len};
ghost use Rattle.std.specs.Option.{option_to_list};
ghost use Rattle.history.specs.Kinds.{next_by};
ghost use Rattle.history.specs.Parts.{before_commits, behind_commits};
ghost use Rattle.history_steps.specs.MayFollow.{said_next};
ghost use Rattle.history_steps.specs.Nexts as listing;

use crate::documents::said_next;
use crate::kinds::{Listed, next_by};
use crate::processes::{open_next, warm_next};
use history_entries::History;
use plain_facts::PlainFacts;
use plain_facts::processes::started;
use plain_facts::requests::requests_made;
use script_model::{Entry, NoMemory, Script, ServiceRule};
use std::alloc::Global;

fn push_some(found: &mut Vec<Entry>, next: Option<Entry>) -> Result<(), NoMemory>
    ensures { OnOk result (found.new.items ≡ found.old.items ++ option_to_list next) }
{
    if let Some(entry) = next {
        found.push(entry)?;
    }
    Ok(())
}

/// The entries of a list, of the objects with numbers below `count`.
fn push_listed(
    alloc: Global,
    facts: &PlainFacts<'_>,
    listed: Listed,
    count: u64,
    found: &mut Vec<Entry>,
) -> Result<(), NoMemory>
    ensures { OnOk result (found.new.items ≡ found.old.items ++ filter_map (next_by facts.now.script facts.now.entries listed) (range_with_len 0 count)) }
{
    for number in 0..count {
        push_some(found, next_by(alloc, facts, listed, number)?)?;
    }
    Ok(())
}

/// The messages of the documents with numbers below `count`, with their judgements.
fn push_messages<R: ServiceRule>(
    alloc: Global,
    services: &R,
    facts: &PlainFacts<'_>,
    count: u64,
    found: &mut Vec<Entry>,
) -> Result<(), NoMemory>
    ensures { OnOk result (found.new.items ≡ found.old.items ++ filter_map (said_next R.rule facts.now.script facts.now.entries) (range_with_len 0 count)) }
{
    for document in 0..count {
        push_some(found, said_next(alloc, services, facts, document)?)?;
    }
    Ok(())
}

/// The commits of a process, by navigation.
#[tactic(auto, unfolding(history_steps::specs::Nexts::process_commits))]
fn push_commits_in(
    alloc: Global,
    facts: &PlainFacts<'_>,
    process: u64,
    found: &mut Vec<Entry>,
) -> Result<(), NoMemory>
    ensures { OnOk result (found.new.items ≡ found.old.items ++ listing.process_commits facts.now.script facts.now.entries process) }
{
    let listed = Listed::CommitsIn(process);
    push_listed(alloc, facts, listed, facts.navigations_made(), found)
}

/// The commits, by process and then by navigation.
#[tactic(auto, unfolding(history_steps::specs::Nexts::commit_nexts))]
fn push_commits(
    alloc: Global,
    facts: &PlainFacts<'_>,
    found: &mut Vec<Entry>,
) -> Result<(), NoMemory>
    ensures { OnOk result (found.new.items ≡ found.old.items ++ listing.commit_nexts facts.now.script facts.now.entries) }
{
    for process in 0..started(facts.entries()) {
        push_commits_in(alloc, facts, process, found)?;
    }
    Ok(())
}

/// What stands before the commits: what is opened, warmed, followed, ordered, ended, said, and the crashes.
#[tactic(auto, unfolding(history_steps::specs::Nexts::hop_nexts, history_steps::specs::Nexts::order_nexts, history_steps::specs::Nexts::end_navigation_nexts, history_steps::specs::Nexts::said_nexts, history_steps::specs::Nexts::crash_nexts))]
fn push_before_commits<R: ServiceRule>(
    alloc: Global,
    services: &R,
    facts: &PlainFacts<'_>,
    found: &mut Vec<Entry>,
) -> Result<(), NoMemory>
    ensures { OnOk result (found.new.items ≡ found.old.items ++ before_commits R.rule facts.now.script facts.now.entries) }
{
    let navigations = facts.navigations_made();
    let requests = requests_made(facts.entries());
    let processes = started(facts.entries());
    push_some(found, open_next(facts)?)?;
    push_some(found, warm_next(facts)?)?;
    push_listed(alloc, facts, Listed::NavigationHops, navigations, found)?;
    push_listed(alloc, facts, Listed::RequestHops, requests, found)?;
    push_listed(alloc, facts, Listed::Orders, navigations, found)?;
    push_listed(alloc, facts, Listed::NavigationEnds, navigations, found)?;
    push_messages(alloc, services, facts, navigations, found)?;
    push_listed(alloc, facts, Listed::Crashes, processes, found)
}

/// What stands behind the commits: what documents do by themselves, what is delivered, and the exits.
#[tactic(auto, unfolding(history_steps::specs::Nexts::local_nexts, history_steps::specs::Nexts::head_nexts, history_steps::specs::Nexts::piece_nexts, history_steps::specs::Nexts::end_nexts, history_steps::specs::Nexts::exit_nexts))]
fn push_behind_commits(
    alloc: Global,
    facts: &PlainFacts<'_>,
    found: &mut Vec<Entry>,
) -> Result<(), NoMemory>
    ensures { OnOk result (found.new.items ≡ found.old.items ++ behind_commits facts.now.script facts.now.entries) }
{
    let navigations = facts.navigations_made();
    let requests = requests_made(facts.entries());
    let processes = started(facts.entries());
    push_listed(alloc, facts, Listed::Locals, navigations, found)?;
    push_listed(alloc, facts, Listed::Heads, requests, found)?;
    push_listed(alloc, facts, Listed::Pieces, requests, found)?;
    push_listed(alloc, facts, Listed::Ends, requests, found)?;
    push_listed(alloc, facts, Listed::Exits, processes, found)
}

/// The entries that may follow a history, in order: by kind, then by the number of the object.
#[tactic(auto, unfolding(history_steps::specs::Nexts::nexts))]
pub fn nexts<R: ServiceRule>(
    alloc: Global,
    script: &Script,
    services: &R,
    history: &History,
) -> Result<Vec<Entry>, NoMemory>
    ensures { IfOk result (λ found. found.items ≡ listing.nexts R.rule script.now history.now) }
{
    let facts = PlainFacts::new(alloc, script, history.entries())?;
    let mut found = Vec::new(alloc);
    push_before_commits(alloc, services, &facts, &mut found)?;
    push_commits(alloc, &facts, &mut found)?;
    push_behind_commits(alloc, &facts, &mut found)?;
    Ok(found)
}
