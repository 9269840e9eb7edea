//! What a task holds.

ghost use Rattle.std.specs.Prelude.{◌≡◌, [], IfOk, IfSome, Some, is_some, option_and_then, true};
ghost use Rattle.std.specs.Option.{option_map};
ghost use Rattle.cors_check.specs.Chains.{IsWebChain};
ghost use Rattle.history_rules.specs.Documents.{process_of};
ghost use Rattle.history_rules.specs.Requests.{is_read_chain, request_chain, request_document, request_origin};
ghost use Rattle.history_rules.specs.Sights.{sight_of};
ghost use Rattle.work_queue.specs.Keys.{key_of};
ghost use Rattle.browser_tasks.specs.Readiness.{ChoosesWell};
ghost use Rattle.browser_tasks.specs.TaskData.{CanHold, CanLoad, HoldsAct, HoldsFacts, HoldsLoad, IsLegal};

use crate::kept::facts_are_kept;
use crate::ready::ready_key;
use plain_facts::PlainFacts;
use plain_facts::documents::{actions_done, process_of};
use plain_facts::numbers::entry_number;
use request_facts::requests::{request_chain, request_document, request_mode, request_origin};
use request_facts::sights::sight_of;
use request_facts::verdicts::read_chain;
use script_model::{Entry, NoMemory, Origin};
use std::alloc::Global;
use work_queue::{ActTask, Chain, Kind, LoadTask, Task, TaskKey, Tasks};

/// The next action of a document, with what the document sees.
#[tactic(auto, using(crate::proofs::Holding::holds_act, crate::proofs::Holding::sight_document))]
fn act_task(alloc: Global, facts: &PlainFacts<'_>, document: u32) -> Result<ActTask, NoMemory>
    requires { is_some (sight_of facts.now.script facts.now.entries document) ≡ true }
    ensures holds { IfOk result (HoldsAct facts.now.script facts.now.entries) }
    ensures document { IfOk result (λ act. act.sight.document ≡ document) }
{
    let action = entry_number(actions_done(facts.entries(), u64::from(document)))?;
    match sight_of(alloc, facts, u64::from(document))? {
        Some(sight) => Ok(ActTask { sight, action }),
        None => unreachable!(),
    }
}

/// The process of the document of a request.
fn host_of(entries: &[Entry], request: u64) -> Option<u64>
    ensures { result ≡ option_and_then (process_of entries.now) (request_document entries.now request) }
{
    match request_document(entries, request) {
        Some(document) => process_of(entries, document),
        None => None,
    }
}

/// The process of the document of a request, which there is.
fn host(entries: &[Entry], request: u64) -> Result<u32, NoMemory>
    requires { is_some (option_and_then (process_of entries.now) (request_document entries.now request)) ≡ true }
    ensures { IfOk result (λ process. option_and_then (process_of entries.now) (request_document entries.now request) ≡ Some process) }
{
    match host_of(entries, request) {
        Some(process) => entry_number(process),
        None => unreachable!(),
    }
}

/// The origin of the document of a request, which there is.
fn asking_origin(alloc: Global, entries: &[Entry], request: u64) -> Result<Origin, NoMemory>
    requires { is_some (request_origin entries.now request) ≡ true }
    ensures { IfOk result (λ origin. request_origin entries.now request ≡ Some origin) }
{
    match request_origin(entries, request) {
        Some(origin) => origin.copy(alloc),
        None => unreachable!(),
    }
}

/// The URLs of a request, which name themselves and are of class Web.
fn web_chain(alloc: Global, entries: &[Entry], request: u64) -> Result<Chain, NoMemory>
    requires { is_read_chain (request_chain entries.now request) ≡ true }
    ensures chain { IfOk result (λ chain. request_chain entries.now request ≡ chain) }
    ensures web { IfOk result IsWebChain }
{
    let chain = request_chain(alloc, entries, request)?;
    match read_chain(alloc, &chain)? {
        Some(urls) => Ok(Chain::from_vec(urls)),
        None => unreachable!(),
    }
}

/// The load of a request.
fn load_task(alloc: Global, entries: &[Entry], request: u32) -> Result<LoadTask, NoMemory>
    requires { CanLoad entries.now request }
    ensures holds { IfOk result (HoldsLoad entries.now) }
    ensures request { IfOk result (λ load. load.request ≡ request) }
{
    let number = u64::from(request);
    let process = host(entries, number)?;
    let mode = request_mode(entries, number);
    let chain = web_chain(alloc, entries, number)?;
    let origin = asking_origin(alloc, entries, number)?;
    Ok(LoadTask {
        request,
        process,
        origin,
        chain,
        mode,
    })
}

/// The task of an object, with the facts that it holds.
fn task_of(alloc: Global, facts: &PlainFacts<'_>, key: TaskKey) -> Result<Task, NoMemory>
    requires { CanHold facts.now.script facts.now.entries key }
    ensures key { IfOk result (λ task. key_of task ≡ key) }
    ensures holds { IfOk result (HoldsFacts facts.now.script facts.now.entries) }
{
    match key {
        TaskKey::Browser(job) => Ok(Task::Browser(job)),
        TaskKey::Act(document) => Ok(Task::Act(act_task(alloc, facts, document)?)),
        TaskKey::Load(request) => Ok(Task::Load(load_task(alloc, facts.entries(), request)?)),
    }
}

/// A ready task for a worker of a kind, with the facts that it holds: one of its own kind where one is ready, and none exactly where none
/// of any kind is. The history is legal, and nothing waits in the queue.
#[tactic(auto, using(crate::proofs::Holding::can_hold))]
pub fn next_task(
    alloc: Global,
    facts: &PlainFacts<'_>,
    tasks: &Tasks,
    kind: Kind,
) -> Result<Option<Task>, NoMemory>
    requires none { tasks.now.ready ≡ [] }
    requires legal { IsLegal facts.now.script facts.now.entries }
    ensures chosen { IfOk result (λ task. ChoosesWell facts.now.script facts.now.entries tasks.now.out kind (option_map key_of task)) }
    ensures holds { IfOk result (λ task. IfSome task (HoldsFacts facts.now.script facts.now.entries)) }
{
    facts_are_kept(facts);
    match ready_key(alloc, facts, tasks, kind)? {
        Some(key) => Ok(Some(task_of(alloc, facts, key)?)),
        None => Ok(None),
    }
}
