//! The first task that is ready.

ghost use Rattle.std.specs.Prelude.{◌≡◌, [], IfOk, filter_map, slice_get};
ghost use Rattle.std.specs.List.{range_with_len};
ghost use Rattle.browser_tasks.specs.Readiness as readiness;
ghost use Rattle.browser_tasks.specs.Readiness.{ChoosesWell, family_size, first_job, first_of_kind, first_ready, ready_in};

use crate::objects::has_next;
use plain_facts::PlainFacts;
use plain_facts::numbers::entry_number;
use plain_facts::processes::started;
use plain_facts::requests::requests_made;
use script_model::NoMemory;
use std::alloc::Global;
use work_queue::{BrowserJob, Kind, TaskKey, Tasks};

/// The objects of one kind, by their numbers.
#[derive(Clone, Copy, Debug)]
pub(crate) enum Family {
    Opens,
    /// The one process that may be warmed up next.
    Warms,
    Navs,
    Commits,
    Requests,
    Exits,
    Acts,
    Loads,
}

/// The task with a number of a family.
fn key_in(family: Family, number: u32) -> TaskKey
    ensures { result ≡ readiness.key_in family number }
{
    match family {
        Family::Opens => TaskKey::Browser(BrowserJob::Open(number)),
        Family::Warms => TaskKey::Browser(BrowserJob::Warm),
        Family::Navs => TaskKey::Browser(BrowserJob::Nav(number)),
        Family::Commits => TaskKey::Browser(BrowserJob::Commit(number)),
        Family::Requests => TaskKey::Browser(BrowserJob::Request(number)),
        Family::Exits => TaskKey::Browser(BrowserJob::Exit(number)),
        Family::Acts => TaskKey::Act(number),
        Family::Loads => TaskKey::Load(number),
    }
}

/// How many objects a family has.
fn family_size(facts: &PlainFacts<'_>, family: Family) -> u64
    ensures { result ≡ family_size facts.now.script facts.now.entries family }
{
    match family {
        Family::Opens => facts.start_count(),
        Family::Warms => 1,
        Family::Navs | Family::Commits | Family::Acts => facts.navigations_made(),
        Family::Requests | Family::Loads => requests_made(facts.entries()),
        Family::Exits => started(facts.entries()),
    }
}

/// Whether a task is ready, which is asked before it is known to be the one.
#[tactic(auto, unfolding(crate::specs::Readiness::is_ready))]
fn is_ready(
    alloc: Global,
    facts: &PlainFacts<'_>,
    tasks: &Tasks,
    key: TaskKey,
) -> Result<bool, NoMemory>
    requires none { tasks.now.ready ≡ [] }
    ensures { IfOk result (λ ready. ready ≡ readiness.is_ready facts.now.script facts.now.entries tasks.now.out key) }
{
    if tasks.has(key) {
        return Ok(false);
    }
    has_next(alloc, facts, key)
}

/// The task with this number of a family, if it is ready.
fn ready_in(
    alloc: Global,
    facts: &PlainFacts<'_>,
    tasks: &Tasks,
    family: Family,
    number: u64,
) -> Result<Option<TaskKey>, NoMemory>
    requires none { tasks.now.ready ≡ [] }
    ensures { IfOk result (λ key. key ≡ ready_in facts.now.script facts.now.entries tasks.now.out family number) }
{
    let key = key_in(family, entry_number(number)?);
    if is_ready(alloc, facts, tasks, key)? {
        Ok(Some(key))
    } else {
        Ok(None)
    }
}

/// The first ready task of those of a family with numbers below `count`.
fn first_below(
    alloc: Global,
    facts: &PlainFacts<'_>,
    tasks: &Tasks,
    family: Family,
    count: u64,
) -> Result<Option<TaskKey>, NoMemory>
    requires none { tasks.now.ready ≡ [] }
    ensures { IfOk result (λ first. first ≡ slice_get (filter_map (ready_in facts.now.script facts.now.entries tasks.now.out family) (range_with_len 0 count)) 0) }
{
    for number in 0..count {
        if let Some(key) = ready_in(alloc, facts, tasks, family, number)? {
            return Ok(Some(key));
        }
    }
    Ok(None)
}

/// The first ready task of a family.
#[tactic(auto, unfolding(crate::specs::Readiness::first_in))]
fn first_in(
    alloc: Global,
    facts: &PlainFacts<'_>,
    tasks: &Tasks,
    family: Family,
) -> Result<Option<TaskKey>, NoMemory>
    requires none { tasks.now.ready ≡ [] }
    ensures { IfOk result (λ first. first ≡ readiness.first_in facts.now.script facts.now.entries tasks.now.out family) }
{
    first_below(alloc, facts, tasks, family, family_size(facts, family))
}

/// The first ready job.
#[tactic(auto, unfolding(crate::specs::Readiness::first_job))]
fn first_job(
    alloc: Global,
    facts: &PlainFacts<'_>,
    tasks: &Tasks,
) -> Result<Option<TaskKey>, NoMemory>
    requires none { tasks.now.ready ≡ [] }
    ensures { IfOk result (λ first. first ≡ first_job facts.now.script facts.now.entries tasks.now.out) }
{
    if let Some(key) = first_in(alloc, facts, tasks, Family::Opens)? {
        return Ok(Some(key));
    }
    if let Some(key) = first_in(alloc, facts, tasks, Family::Warms)? {
        return Ok(Some(key));
    }
    if let Some(key) = first_in(alloc, facts, tasks, Family::Navs)? {
        return Ok(Some(key));
    }
    if let Some(key) = first_in(alloc, facts, tasks, Family::Commits)? {
        return Ok(Some(key));
    }
    if let Some(key) = first_in(alloc, facts, tasks, Family::Requests)? {
        return Ok(Some(key));
    }
    first_in(alloc, facts, tasks, Family::Exits)
}

/// The first ready task for workers of a kind.
fn first_of_kind(
    alloc: Global,
    facts: &PlainFacts<'_>,
    tasks: &Tasks,
    kind: Kind,
) -> Result<Option<TaskKey>, NoMemory>
    requires none { tasks.now.ready ≡ [] }
    ensures { IfOk result (λ first. first ≡ first_of_kind facts.now.script facts.now.entries tasks.now.out kind) }
{
    match kind {
        Kind::Browser => first_job(alloc, facts, tasks),
        Kind::Renderer => first_in(alloc, facts, tasks, Family::Acts),
        Kind::Loader => first_in(alloc, facts, tasks, Family::Loads),
    }
}

/// The first ready task for workers of a kind, or else the first of any kind.
#[tactic(auto, unfolding(crate::specs::Readiness::first_ready))]
fn first_ready(
    alloc: Global,
    facts: &PlainFacts<'_>,
    tasks: &Tasks,
    kind: Kind,
) -> Result<Option<TaskKey>, NoMemory>
    requires none { tasks.now.ready ≡ [] }
    ensures { IfOk result (λ first. first ≡ first_ready facts.now.script facts.now.entries tasks.now.out kind) }
{
    if let Some(key) = first_of_kind(alloc, facts, tasks, kind)? {
        return Ok(Some(key));
    }
    if let Some(key) = first_job(alloc, facts, tasks)? {
        return Ok(Some(key));
    }
    if let Some(key) = first_in(alloc, facts, tasks, Family::Acts)? {
        return Ok(Some(key));
    }
    first_in(alloc, facts, tasks, Family::Loads)
}

/// A ready task for a worker of a kind: one of its own kind where one is ready, and none exactly where none of any kind is. The
/// history is legal, and nothing waits in the queue.
#[tactic(auto, using(crate::proofs::Choosing::chooses))]
pub(crate) fn ready_key(
    alloc: Global,
    facts: &PlainFacts<'_>,
    tasks: &Tasks,
    kind: Kind,
) -> Result<Option<TaskKey>, NoMemory>
    requires none { tasks.now.ready ≡ [] }
    ensures { IfOk result (ChoosesWell facts.now.script facts.now.entries tasks.now.out kind) }
{
    first_ready(alloc, facts, tasks, kind)
}
