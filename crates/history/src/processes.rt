//! What may follow of start pages and of processes: Opened, Warm, Crash and Exit.

ghost use Rattle.std.specs.Prelude.{◌≡◌, ◌&&◌, ◌∷◌, [], IfOk, count_by, filter_map};
ghost use Rattle.std.specs.List.{list_all, list_any};
ghost use Rattle.history_rules.specs.Documents.{documents, is_current_in};
ghost use Rattle.history_rules.specs.Entries.{is_opened, ordered_to};
ghost use Rattle.history_rules.specs.Sights.{next_act};
ghost use Rattle.history_steps.specs.MayFollow as following;
ghost use Rattle.history_rules.specs.Orders.{was_answered};

use crate::acts::next_act;
use entry_facts::entries::ordered_to;
use entry_facts::orders::is_opened;
use history_rules::Act;
use plain_choice::{next_process, warm_process};
use plain_facts::PlainFacts;
use plain_facts::numbers::entry_number;
use plain_facts::orders::was_answered;
use plain_facts::processes::is_locked;
use script_model::{Entry, NoMemory};
use std::alloc::Global;

fn opened_count(entries: &[Entry]) -> usize
    ensures { result ≡ count_by is_opened entries.now }
{
    let mut count = 0;
    for entry in entries {
        if is_opened(entry) {
            count += 1;
        }
    }
    count
}

/// The next start page is opened.
#[tactic(auto, unfolding(history_steps::specs::MayFollow::open_next))]
pub fn open_next(facts: &PlainFacts<'_>) -> Result<Option<Entry>, NoMemory>
    ensures { IfOk result (λ next. next ≡ following.open_next facts.now.script facts.now.entries) }
{
    let opened = opened_count(facts.entries()) as u64;
    if opened < facts.start_count() {
        Ok(Some(Entry::Opened(entry_number(opened)?)))
    } else {
        Ok(None)
    }
}

/// Where a spare process is kept and none is warm, the next one is started.
#[tactic(auto, unfolding(history_steps::specs::MayFollow::warm_next))]
pub fn warm_next(facts: &PlainFacts<'_>) -> Result<Option<Entry>, NoMemory>
    ensures { IfOk result (λ next. next ≡ following.warm_next facts.now.script facts.now.entries) }
{
    if !facts.script().spare || warm_process(facts.entries()).is_some() {
        return Ok(None);
    }
    match next_process(facts.entries()) {
        Some(process) => Ok(Some(Entry::Warm(entry_number(process)?))),
        None => Ok(None),
    }
}

/// Whether an act is `crash`.
pub fn is_crash(act: &Act) -> bool
    ensures { result ≡ following.is_crash act.now }
{
    matches!(act, Act::Crash)
}

/// Whether a document is current in a process, with `crash` as its next action.
fn crashes_in(
    alloc: Global,
    facts: &PlainFacts<'_>,
    process: u64,
    document: u64,
) -> Result<bool, NoMemory>
    ensures { IfOk result (λ crashes. crashes ≡ (is_current_in facts.now.script facts.now.entries process document
        && following.is_crash (next_act facts.now.script facts.now.entries document))) }
{
    if !facts.is_current_in(process, document) {
        return Ok(false);
    }
    Ok(is_crash(&next_act(alloc, facts, document)?))
}

#[tactic(auto, using(crate::proofs::Crashes::none_more))]
fn has_crash(alloc: Global, facts: &PlainFacts<'_>, process: u64) -> Result<bool, NoMemory>
    ensures { IfOk result (λ crashes. crashes ≡ list_any (λ d. is_current_in facts.now.script facts.now.entries process d
        && following.is_crash (next_act facts.now.script facts.now.entries d)) (documents facts.now.script facts.now.entries)) }
{
    for document in 0..facts.navigations_made() {
        if crashes_in(alloc, facts, process, document)? {
            return Ok(true);
        }
    }
    Ok(false)
}

/// A process crashes, one of whose current documents has `crash` as its next action.
#[tactic(auto, unfolding(history_steps::specs::MayFollow::crash_next))]
pub fn crash_next(
    alloc: Global,
    facts: &PlainFacts<'_>,
    process: u64,
) -> Result<Option<Entry>, NoMemory>
    ensures { IfOk result (λ next. next ≡ following.crash_next facts.now.script facts.now.entries process) }
{
    if has_crash(alloc, facts, process)? {
        Ok(Some(Entry::Crash(entry_number(process)?)))
    } else {
        Ok(None)
    }
}

fn has_document(facts: &PlainFacts<'_>, process: u64) -> bool
    ensures { result ≡ list_any (is_current_in facts.now.script facts.now.entries process) (documents facts.now.script facts.now.entries) }
{
    (0..facts.navigations_made()).any(|document| facts.is_current_in(process, document))
}

/// Whether an entry orders nothing to a process that is not answered.
fn is_settled(entries: &[Entry], process: u64, entry: &Entry) -> bool
    ensures { result ≡ list_all (was_answered entries.now) (filter_map (ordered_to process) (entry.now ∷ [])) }
{
    match ordered_to(entry, process) {
        Some(navigation) => was_answered(entries, navigation),
        None => true,
    }
}

/// Whether no entry orders to a process what is not answered.
fn are_settled(entries: &[Entry], process: u64) -> bool
    ensures { result ≡ list_all (λ entry. list_all (was_answered entries.now) (filter_map (ordered_to process) (entry ∷ []))) entries.now }
{
    entries
        .iter()
        .all(|entry| is_settled(entries, process, entry))
}

fn has_answered(entries: &[Entry], process: u64) -> bool
    ensures { result ≡ list_all (was_answered entries.now) (filter_map (ordered_to process) entries.now) }
{
    are_settled(entries, process)
}

/// A locked process exits that has no current document and has answered each of its orders.
#[tactic(auto, unfolding(history_steps::specs::MayFollow::exit_next))]
pub fn exit_next(facts: &PlainFacts<'_>, process: u64) -> Result<Option<Entry>, NoMemory>
    ensures { IfOk result (λ next. next ≡ following.exit_next facts.now.script facts.now.entries process) }
{
    let entries = facts.entries();
    if is_locked(entries, process)
        && !has_document(facts, process)
        && has_answered(entries, process)
    {
        Ok(Some(Entry::Exit(entry_number(process)?)))
    } else {
        Ok(None)
    }
}
