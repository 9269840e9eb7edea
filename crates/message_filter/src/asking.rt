//! The rows of a message that asks a service.

ghost use Rattle.std.specs.Prelude.{◌≡◌, ◌<◌, ◌-◌, ◌^◌, ◌++◌, IfOk, List, length, ℕ};
ghost use Rattle.page_origin.specs.declared.origin.TupleOrigin.{TupleOrigin};
ghost use Rattle.history_rules.specs.Documents as documents;
ghost use Rattle.history_rules.specs.Judgement as judgement;
ghost use Rattle.history_rules.specs.Services.{accepted_requests};
ghost use Rattle.message_filter.specs.Asking.{HaveRoom, KeepAccepted, gained_by};

use crate::facts::Facts;
use crate::rows::lock_admits;
use entry_facts::messages::reply_of_answer;
use history_entry::{Body, Reply, RequestText, Rule, ServiceName};
use origin_service::Service;
use page_origin::{NoMemory, Origin, TupleOrigin};
use std::alloc::Global;

// The current documents by rising number.
fn current_documents<F: Facts>(alloc: Global, facts: &F) -> Result<Vec<u32>, NoMemory>
    ensures { IfOk result (λ numbers. numbers.items ≡ documents.current_documents (F.script facts.now) (F.entries facts.now)) }
{
    let mut numbers = Vec::new(alloc);
    for index in 0..facts.navs_made() {
        let Some(document) = facts.nth_current(index) else {
            return Ok(numbers);
        };
        numbers.push(document)?;
    }
    Ok(numbers)
}

// The reply to a request of a tuple origin, by the service's own rule.
fn ask_tuple<F: Facts, V: Service>(
    alloc: Global,
    facts: &F,
    services: &mut V,
    document: u32,
    service: &ServiceName,
    tuple: &TupleOrigin,
    request: &RequestText,
) -> Result<Reply, NoMemory>
    requires kept { V.kept services.old service.now tuple.now ≡ accepted_requests (F.entries facts.now) service.now tuple.now }
    requires room { length (V.kept services.old service.now tuple.now) < 2 ^ 32 - 1 }
    ensures reply { IfOk result (λ reply. reply ≡ judgement.ask_origin V.rule (F.script facts.now) (F.entries facts.now) service.now request.now (Origin.Tuple tuple.now)) }
    ensures kept { (name : List ℕ) (origin : TupleOrigin) → V.kept services.new name origin ≡ V.kept services.old name origin ++ gained_by result document (Body.Ask service.now (Origin.Tuple tuple.now) request.now) name origin }
{
    let live = current_documents(alloc, facts)?;
    let answer = services.ask(
        alloc,
        service.as_str(),
        tuple,
        document,
        live.as_slice(),
        request.as_str(),
    )?;
    Ok(reply_of_answer(answer))
}

// The reply to a request of an origin: a service answers a tuple origin alone.
#[tactic(auto, using(crate::proofs::Gains::gains_nothing))]
fn ask_origin<F: Facts, V: Service>(
    alloc: Global,
    facts: &F,
    services: &mut V,
    document: u32,
    service: &ServiceName,
    origin: &Origin,
    request: &RequestText,
) -> Result<Reply, NoMemory>
    requires kept { KeepAccepted (V.kept services.old) (F.entries facts.now) (Body.Ask service.now origin.now request.now) }
    requires room { HaveRoom (V.kept services.old) (Body.Ask service.now origin.now request.now) }
    ensures reply { IfOk result (λ reply. reply ≡ judgement.ask_origin V.rule (F.script facts.now) (F.entries facts.now) service.now request.now origin.now) }
    ensures kept { (name : List ℕ) (tuple : TupleOrigin) → V.kept services.new name tuple ≡ V.kept services.old name tuple ++ gained_by result document (Body.Ask service.now origin.now request.now) name tuple }
{
    match origin {
        Origin::Opaque(_) => Ok(Reply::Deny(Rule::S1)),
        Origin::Tuple(tuple) => ask_tuple(
            alloc, facts, services, document, service, tuple, request,
        ),
    }
}

/// The reply to a message that asks a service in the name of an origin.
#[tactic(auto, unfolding(history_rules::specs::Judgement::judge_ask), using(crate::proofs::Gains::gains_nothing))]
pub(crate) fn judge_ask<F: Facts, V: Service>(
    alloc: Global,
    facts: &F,
    services: &mut V,
    process: u32,
    document: u32,
    service: &ServiceName,
    origin: &Origin,
    request: &RequestText,
) -> Result<Reply, NoMemory>
    requires kept { KeepAccepted (V.kept services.old) (F.entries facts.now) (Body.Ask service.now origin.now request.now) }
    requires room { HaveRoom (V.kept services.old) (Body.Ask service.now origin.now request.now) }
    ensures reply { IfOk result (λ reply. reply ≡ judgement.judge_ask V.rule (F.script facts.now) (F.entries facts.now) process service.now origin.now request.now) }
    ensures kept { (name : List ℕ) (tuple : TupleOrigin) → V.kept services.new name tuple ≡ V.kept services.old name tuple ++ gained_by result document (Body.Ask service.now origin.now request.now) name tuple }
{
    if lock_admits(alloc, facts, process, origin)? {
        ask_origin(alloc, facts, services, document, service, origin, request)
    } else {
        Ok(Reply::Kill(Rule::K7))
    }
}
