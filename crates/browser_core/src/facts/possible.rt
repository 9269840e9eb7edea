//! Whether an outcome may be brought back.

ghost use Rattle.std.specs.Prelude.{◌≡◌, ◌↔◌, ◌^◌, ◌<◌, IfOk, IsTrue, length, option_and_then};
ghost use Rattle.history_rules.specs.Documents.{process_of};
ghost use Rattle.history_rules.specs.Requests.{request_document};
ghost use Rattle.browser_core.specs.Hosts.{host_dead, was_host_dead};
ghost use Rattle.browser_core.specs.Walking.{TellsPossible};
ghost use Rattle.browser_tasks.specs.Outcomes.{IsCleared, IsGoneFor, IsVouched};

use super::outcomes::{last_place, may_follow};
use browser_tasks::{Outcome, Step};
use history::Entry;
use plain_facts::documents::process_of;
use plain_facts::processes::is_dead;
use request_facts::requests::request_document;
use script_model::{NoMemory, Script};
use std::alloc::Global;

/// Whether one of an outcome's entries could follow some beginning of a history.
#[tactic(auto, using(crate::proofs::Possibles::possible_now, crate::proofs::Possibles::possible_before))]
pub(crate) fn could_follow(
    alloc: Global,
    script: &Script,
    entries: &[Entry],
    outcome: &Outcome,
) -> Result<bool, NoMemory>
    requires { length entries.now < 2 ^ 32 }
    ensures { IfOk result (TellsPossible script.now entries.now outcome.now) }
{
    if may_follow(alloc, script, entries, outcome)? {
        return Ok(true);
    }
    Ok(last_place(alloc, script, entries, outcome)?.is_some())
}

/// The process of the document of a request.
fn host_of(entries: &[Entry], request: u64) -> Option<u64>
    ensures { result ≡ option_and_then (process_of entries.now) (request_document entries.now request) }
{
    match request_document(entries, request) {
        Some(document) => process_of(entries, document),
        None => None,
    }
}

/// Whether the process of a request's document is dead.
#[tactic(auto, unfolding(crate::specs::Hosts::host_dead))]
fn is_host_dead(entries: &[Entry], request: u64) -> bool
    ensures { result ≡ host_dead entries.now request }
{
    match host_of(entries, request) {
        Some(process) => is_dead(entries, process),
        None => false,
    }
}

/// Whether the process of a request's document was dead after some of the entries.
#[tactic(auto, using(history::proofs::Crashes::none_more), unfolding(crate::specs::Hosts::was_host_dead))]
fn was_host_dead(entries: &[Entry], request: u64) -> bool
    ensures { result ≡ was_host_dead entries.now request }
{
    for count in 0..entries.len() {
        if is_host_dead(&entries[..count], request) {
            return true;
        }
    }
    is_host_dead(entries, request)
}

/// Whether a step of the load of a request comes with what it needs.
#[tactic(auto, using(crate::proofs::Possibles::gone))]
fn is_step_vouched(entries: &[Entry], request: u32, step: &Step) -> bool
    ensures { IsTrue result ↔ (IsCleared request step.now × IsGoneFor entries.now request step.now) }
{
    match step {
        Step::Head(cleared) => cleared.request() == request,
        Step::Piece(part) => part.cleared().request() == request,
        Step::Gone => was_host_dead(entries, u64::from(request)),
        _ => true,
    }
}

/// Whether an outcome comes with what it needs.
pub(crate) fn is_vouched(entries: &[Entry], outcome: &Outcome) -> bool
    ensures { IsTrue result ↔ IsVouched entries.now outcome.now }
{
    match outcome {
        Outcome::Load(done) => is_step_vouched(entries, done.request, &done.step),
        _ => true,
    }
}
