//! The rows of a message that asks a service.

ghost use Rattle.std.specs.Prelude.{◌≡◌, IfOk};
ghost use Rattle.history_rules.specs.Documents as documents;
ghost use Rattle.history_rules.specs.Judgement as judgement;

use crate::rows::lock_admits;
use crate::services::accepted_requests;
use entry_facts::messages::reply_of_answer;
use history_entry::{Reply, RequestText, Rule, ServiceName};
use page_origin::{NoMemory, Origin, TupleOrigin};
use plain_facts::PlainFacts;
use plain_facts::numbers::entry_number;
use script_model::ServiceRule;
use std::alloc::Global;

/// The numbers of the current documents, in order, as entries hold them.
fn current_numbers(alloc: Global, facts: &PlainFacts<'_>) -> Result<Vec<u32>, NoMemory>
    ensures { IfOk result (λ numbers. numbers.items ≡ documents.current_documents facts.now.script facts.now.entries) }
{
    let current = facts.current_documents(alloc)?;
    let mut numbers = Vec::new(alloc);
    for document in &current {
        numbers.push(entry_number(*document)?)?;
    }
    Ok(numbers)
}

/// The reply to a request of a tuple origin, by the service's own rule.
fn ask_tuple<R: ServiceRule>(
    alloc: Global,
    services: &R,
    facts: &PlainFacts<'_>,
    service: &ServiceName,
    request: &RequestText,
    tuple: &TupleOrigin,
) -> Result<Reply, NoMemory>
    ensures { IfOk result (λ reply. reply ≡ judgement.ask_origin R.rule facts.now.script facts.now.entries service.now request.now (Origin.Tuple tuple.now)) }
{
    let earlier = accepted_requests(alloc, facts.entries(), service.as_str(), tuple)?;
    let current = current_numbers(alloc, facts)?;
    let answer = services.answer(
        alloc,
        service.as_str(),
        earlier.as_slice(),
        current.as_slice(),
        request.as_str(),
    )?;
    Ok(reply_of_answer(answer))
}

/// The reply to a request of an origin: a service answers a tuple origin alone.
fn ask_origin<R: ServiceRule>(
    alloc: Global,
    services: &R,
    facts: &PlainFacts<'_>,
    service: &ServiceName,
    request: &RequestText,
    origin: &Origin,
) -> Result<Reply, NoMemory>
    ensures { IfOk result (λ reply. reply ≡ judgement.ask_origin R.rule facts.now.script facts.now.entries service.now request.now origin.now) }
{
    match origin {
        Origin::Opaque(_) => Ok(Reply::Deny(Rule::S1)),
        Origin::Tuple(tuple) => ask_tuple(alloc, services, facts, service, request, tuple),
    }
}

/// The reply to a message that asks a service in the name of an origin.
#[tactic(auto, unfolding(history_rules::specs::Judgement::judge_ask))]
pub(crate) fn judge_ask<R: ServiceRule>(
    alloc: Global,
    services: &R,
    facts: &PlainFacts<'_>,
    process: u64,
    service: &ServiceName,
    origin: &Origin,
    request: &RequestText,
) -> Result<Reply, NoMemory>
    ensures { IfOk result (λ reply. reply ≡ judgement.judge_ask R.rule facts.now.script facts.now.entries process service.now origin.now request.now) }
{
    if lock_admits(alloc, facts, process, origin)? {
        ask_origin(alloc, services, facts, service, request, origin)
    } else {
        Ok(Reply::Kill(Rule::K7))
    }
}
