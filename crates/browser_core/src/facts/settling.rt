//! What candidates become: the entry that a history gets, with the judgement of what a document says.

ghost use Rattle.std.specs.Prelude.{◌≡◌, ◌++◌, ◌∷◌, ◌^◌, ◌<◌, [], IfOk, OnErr, length};
ghost use Rattle.std.specs.Option.{option_to_list};
ghost use Rattle.history.specs.Sayings.{judged};
ghost use Rattle.history_steps.specs.Run.{first_next};
ghost use Rattle.history_steps.specs.ScriptLimits.{IsWithinLimits};
ghost use Rattle.browser_core.specs.Cores.{IsInStep, KeepAllAccepted};
ghost use Rattle.browser_core.specs.Walking.{Settles, added_by};
ghost use Rattle.browser_tasks.specs.Candidates.{IsQuietCandidate, entry_of};
ghost use Rattle.browser_tasks.specs.Outcomes.{IsOutcome};

use super::first::first_candidate;
use super::judgement::HistoryFacts;
use super::outcomes::{candidate_of, stale_place};
use browser_tasks::{Candidate, Outcome};
use history::Entry;
use history::documents::Saying;
use message_filter::judge;
use origin_service::Service;
use plain_facts::PlainFacts;
use script_model::{NoMemory, Script};
use std::alloc::Global;

/// What becomes of an outcome at a history.
#[derive(Drop)]
pub(crate) enum Settled {
    Entry(Entry),
    Stale(u32),
}

/// What a document says, with its judgement. The services are asked last, where nothing else can fail any more.
#[tactic(auto, using(crate::proofs::Orderly::orderly, crate::proofs::Accepting::may_ask, crate::proofs::Accepting::has_room, crate::proofs::Accepting::said_kept))]
fn judged<V: Service>(
    alloc: Global,
    facts: &PlainFacts<'_>,
    services: &mut V,
    saying: Saying,
) -> Result<Entry, NoMemory>
    requires limits { IsWithinLimits facts.now.script }
    requires kept { IsInStep V.rule (V.kept services.old) facts.now.script facts.now.entries }
    ensures entry { IfOk result (λ entry. entry ≡ judged V.rule facts.now.script facts.now.entries saying) }
    ensures kept { IfOk result (λ entry. KeepAllAccepted (V.kept services.new) (facts.now.entries ++ entry ∷ [])) }
    ensures err { OnErr result (KeepAllAccepted (V.kept services.new) facts.now.entries) }
{
    let facts = HistoryFacts::of(facts);
    let process = saying.place.process;
    let reply = judge(alloc, &facts, services, process, &saying.message)?;
    Ok(saying.answered(reply))
}

/// What a candidate becomes.
#[tactic(auto, using(crate::proofs::Accepting::quiet_kept))]
fn entry_of_candidate<V: Service>(
    alloc: Global,
    facts: &PlainFacts<'_>,
    services: &mut V,
    candidate: Candidate,
) -> Result<Entry, NoMemory>
    requires limits { IsWithinLimits facts.now.script }
    requires kept { IsInStep V.rule (V.kept services.old) facts.now.script facts.now.entries }
    requires quiet { IsQuietCandidate candidate }
    ensures entry { IfOk result (λ entry. entry ≡ entry_of V.rule facts.now.script facts.now.entries candidate) }
    ensures kept { IfOk result (λ entry. KeepAllAccepted (V.kept services.new) (facts.now.entries ++ entry ∷ [])) }
    ensures err { OnErr result (KeepAllAccepted (V.kept services.new) facts.now.entries) }
{
    match candidate {
        Candidate::Entry(entry) => Ok(entry),
        Candidate::Saying(saying) => judged(alloc, facts, services, saying),
    }
}

/// The first of the next entries; the services have kept what the history accepts with it.
#[tactic(auto, using(crate::proofs::FirstNext::first_settled))]
pub(crate) fn first_entry<V: Service>(
    alloc: Global,
    script: &Script,
    entries: &[Entry],
    services: &mut V,
) -> Result<Option<Entry>, NoMemory>
    requires limits { IsWithinLimits script.now }
    requires kept { IsInStep V.rule (V.kept services.old) script.now entries.now }
    ensures first { IfOk result (λ first. first ≡ first_next V.rule script.now entries.now) }
    ensures kept { IfOk result (λ first. KeepAllAccepted (V.kept services.new) (entries.now ++ option_to_list first)) }
    ensures err { OnErr result (KeepAllAccepted (V.kept services.new) entries.now) }
{
    let facts = PlainFacts::new(alloc, script, entries)?;
    match first_candidate(alloc, &facts)? {
        Some(candidate) => Ok(Some(entry_of_candidate(alloc, &facts, services, candidate)?)),
        None => Ok(None),
    }
}

/// What a candidate becomes; the services have kept what the history accepts with it.
fn settle<V: Service>(
    alloc: Global,
    script: &Script,
    entries: &[Entry],
    services: &mut V,
    candidate: Candidate,
) -> Result<Entry, NoMemory>
    requires limits { IsWithinLimits script.now }
    requires kept { IsInStep V.rule (V.kept services.old) script.now entries.now }
    requires quiet { IsQuietCandidate candidate }
    ensures entry { IfOk result (λ entry. entry ≡ entry_of V.rule script.now entries.now candidate) }
    ensures kept { IfOk result (λ entry. KeepAllAccepted (V.kept services.new) (entries.now ++ entry ∷ [])) }
    ensures err { OnErr result (KeepAllAccepted (V.kept services.new) entries.now) }
{
    let facts = PlainFacts::new(alloc, script, entries)?;
    entry_of_candidate(alloc, &facts, services, candidate)
}

/// What becomes of an outcome; the services have kept what the history accepts with it.
pub(crate) fn outcome_entry<V: Service>(
    alloc: Global,
    script: &Script,
    entries: &[Entry],
    services: &mut V,
    outcome: &Outcome,
) -> Result<Settled, NoMemory>
    requires limits { IsWithinLimits script.now }
    requires short { length entries.now < 2 ^ 32 }
    requires kept { IsInStep V.rule (V.kept services.old) script.now entries.now }
    requires possible { IsOutcome V.rule script.now entries.now outcome.now }
    ensures settles { IfOk result (Settles V.rule script.now entries.now outcome.now) }
    ensures kept { IfOk result (λ settled. KeepAllAccepted (V.kept services.new) (entries.now ++ added_by settled)) }
    ensures err { OnErr result (KeepAllAccepted (V.kept services.new) entries.now) }
{
    match candidate_of(alloc, script, entries, outcome)? {
        Some(candidate) => {
            let entry = settle(alloc, script, entries, services, candidate)?;
            Ok(Settled::Entry(entry))
        }
        None => {
            let place = stale_place(alloc, script, entries, outcome)?;
            Ok(Settled::Stale(place))
        }
    }
}
