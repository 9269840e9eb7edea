//! The entries of an outcome that may follow a history, and the last place at which one could.

ghost use Rattle.std.specs.Prelude.{◌≡◌, ◌^◌, ◌<◌, IfOk, IfSome, Some, false, is_some, length};
ghost use Rattle.browser_core.specs.Walking.{IsLastWell, TellsFollowing, WasPossible};
ghost use Rattle.browser_tasks.specs.Candidates.{IsQuietCandidate};
ghost use Rattle.browser_tasks.specs.Outcomes.{AnswersWell};

use browser_tasks::{Candidate, Outcome, outcome_candidate};
use history::Entry;
use plain_facts::PlainFacts;
use script_model::{NoMemory, Script};
use std::alloc::Global;

/// The entry of an outcome that may follow, before services are asked.
pub(crate) fn candidate_of(
    alloc: Global,
    script: &Script,
    entries: &[Entry],
    outcome: &Outcome,
) -> Result<Option<Candidate>, NoMemory>
    ensures answers { IfOk result (AnswersWell script.now entries.now outcome.now) }
    ensures quiet { IfOk result (λ found. IfSome found IsQuietCandidate) }
{
    let facts = PlainFacts::new(alloc, script, entries)?;
    outcome_candidate(alloc, &facts, outcome)
}

fn is_there(found: &Option<Candidate>) -> bool
    ensures { result ≡ is_some found.now }
{
    found.is_some()
}

/// Whether one of an outcome's entries may follow.
pub(crate) fn may_follow(
    alloc: Global,
    script: &Script,
    entries: &[Entry],
    outcome: &Outcome,
) -> Result<bool, NoMemory>
    ensures { IfOk result (TellsFollowing script.now entries.now outcome.now) }
{
    let found = candidate_of(alloc, script, entries, outcome)?;
    Ok(is_there(&found))
}

/// How many entries stand before the last place at which one of an outcome's entries could follow, where none may now.
pub(crate) fn last_place(
    alloc: Global,
    script: &Script,
    entries: &[Entry],
    outcome: &Outcome,
) -> Result<Option<u32>, NoMemory>
    requires short { length entries.now < 2 ^ 32 }
    requires none { TellsFollowing script.now entries.now outcome.now false }
    ensures { IfOk result (IsLastWell script.now entries.now outcome.now) }
{
    let mut place = entries.len();
    while place > 0 {
        place -= 1;
        if may_follow(alloc, script, &entries[..place], outcome)? {
            return Ok(Some(place as u32));
        }
    }
    Ok(None)
}

/// The place at which an outcome that may be brought back could last be added, which it can't now.
pub(crate) fn stale_place(
    alloc: Global,
    script: &Script,
    entries: &[Entry],
    outcome: &Outcome,
) -> Result<u32, NoMemory>
    requires short { length entries.now < 2 ^ 32 }
    requires none { TellsFollowing script.now entries.now outcome.now false }
    requires possible { WasPossible script.now entries.now outcome.now }
    ensures { IfOk result (λ place. IsLastWell script.now entries.now outcome.now (Some place)) }
{
    match last_place(alloc, script, entries, outcome)? {
        Some(place) => Ok(place),
        None => unreachable!(),
    }
}
