//! What may follow of the object of a task.

ghost use Rattle.std.specs.Prelude.{◌≡◌, ◌&&◌, ◌||◌, IfOk, is_some, not};
ghost use Rattle.std.specs.Option.{option_map};
ghost use Rattle.history_entry.specs.declared.entry.Entry.TheVariants as entries;
ghost use Rattle.history.specs.Sayings.{saying_next};
ghost use Rattle.history_rules.specs.Documents.{is_current};
ghost use Rattle.history_rules.specs.Entries.{opens};
ghost use Rattle.history_rules.specs.Sights.{next_act};
ghost use Rattle.history_steps.specs.MayFollow.{is_crash, local_next};
ghost use Rattle.browser_tasks.specs.Objects as objects;

use history::acts::next_act;
use history::deliveries::{end_next, head_next, piece_next, request_hop};
use history::documents::{commit_next, local_next, saying_next};
use history::navigations::{end_navigation_next, navigation_hop, order_next};
use history::processes::{exit_next, open_next, warm_next};
use history_rules::Act;
use plain_facts::PlainFacts;
use plain_facts::documents::process_of;
use plain_facts::numbers::entry_number;
use request_facts::redirects::response;
use request_facts::requests::request_chain;
use script_model::{Entry, NoMemory};
use std::alloc::Global;
use work_queue::{BrowserJob, TaskKey};

/// Whether the response of a request's last URL fails before its first byte or redirects, so that no load takes it.
#[tactic(auto, unfolding(crate::specs::Objects::is_taken_at_once))]
pub(crate) fn is_taken_at_once(
    alloc: Global,
    facts: &PlainFacts<'_>,
    request: u64,
) -> Result<bool, NoMemory>
    ensures { IfOk result (λ taken. taken ≡ objects.is_taken_at_once facts.now.script facts.now.entries request) }
{
    let chain = request_chain(alloc, facts.entries(), request)?;
    let response = response(facts.script(), &chain);
    Ok(response.fails_at_once() || response.is_redirect())
}

/// Whether an entry opens a page.
fn opens(page: u32, entry: &Entry) -> bool
    ensures { result ≡ opens page entry.now }
{
    match entry {
        Entry::Opened(opened) => *opened == page,
        _ => false,
    }
}

/// The opening of a page, if it is this one.
fn opening_of(page: u32, next: Option<Entry>) -> Option<Entry>
    ensures { result ≡ objects.opening_of page next }
{
    let entry = next?;
    if opens(page, &entry) {
        Some(entry)
    } else {
        None
    }
}

/// What may follow of a navigation.
#[tactic(auto, unfolding(crate::specs::Objects::navigation_next))]
fn navigation_next(
    alloc: Global,
    facts: &PlainFacts<'_>,
    navigation: u64,
) -> Result<Option<Entry>, NoMemory>
    ensures { IfOk result (λ next. next ≡ objects.navigation_next facts.now.script facts.now.entries navigation) }
{
    if let Some(entry) = navigation_hop(alloc, facts, navigation)? {
        return Ok(Some(entry));
    }
    if let Some(entry) = order_next(alloc, facts, navigation)? {
        return Ok(Some(entry));
    }
    end_navigation_next(alloc, facts, navigation)
}

/// The end of a request that is taken at once.
#[tactic(auto, unfolding(crate::specs::Objects::end_at_once))]
fn end_at_once(
    alloc: Global,
    facts: &PlainFacts<'_>,
    request: u64,
) -> Result<Option<Entry>, NoMemory>
    ensures { IfOk result (λ next. next ≡ objects.end_at_once facts.now.script facts.now.entries request) }
{
    if is_taken_at_once(alloc, facts, request)? {
        end_next(alloc, facts, request)
    } else {
        Ok(None)
    }
}

/// What may follow of a request, but what a load delivers.
#[tactic(auto, unfolding(crate::specs::Objects::request_next))]
fn request_next(
    alloc: Global,
    facts: &PlainFacts<'_>,
    request: u64,
) -> Result<Option<Entry>, NoMemory>
    ensures { IfOk result (λ next. next ≡ objects.request_next facts.now.script facts.now.entries request) }
{
    match request_hop(alloc, facts, request)? {
        Some(entry) => Ok(Some(entry)),
        None => end_at_once(alloc, facts, request),
    }
}

/// What may follow of a job's object.
pub(crate) fn job_next(
    alloc: Global,
    facts: &PlainFacts<'_>,
    job: BrowserJob,
) -> Result<Option<Entry>, NoMemory>
    ensures { IfOk result (λ next. next ≡ objects.job_next facts.now.script facts.now.entries job) }
{
    match job {
        BrowserJob::Open(page) => Ok(opening_of(page, open_next(facts)?)),
        BrowserJob::Warm => warm_next(facts),
        BrowserJob::Nav(navigation) => navigation_next(alloc, facts, u64::from(navigation)),
        BrowserJob::Commit(navigation) => commit_next(alloc, facts, u64::from(navigation)),
        BrowserJob::Request(request) => request_next(alloc, facts, u64::from(request)),
        BrowserJob::Exit(process) => exit_next(facts, u64::from(process)),
    }
}

fn is_crash(act: &Act) -> bool
    ensures { result ≡ is_crash act.now }
{
    matches!(act, Act::Crash)
}

/// Whether a document is current, with `crash` as its next action.
fn crashes(alloc: Global, facts: &PlainFacts<'_>, document: u64) -> Result<bool, NoMemory>
    ensures { IfOk result (λ crashes. crashes ≡ (is_current facts.now.script facts.now.entries document
        && is_crash (next_act facts.now.script facts.now.entries document))) }
{
    if !facts.is_current(document) {
        return Ok(false);
    }
    let act = next_act(alloc, facts, document)?;
    Ok(is_crash(&act))
}

/// The crash of a process.
fn crash_of(process: Option<u64>) -> Result<Option<Entry>, NoMemory>
    ensures { IfOk result (λ crash. crash ≡ option_map entries.Crash process) }
{
    match process {
        Some(process) => Ok(Some(Entry::Crash(entry_number(process)?))),
        None => Ok(None),
    }
}

/// The crash of the process of a document.
#[tactic(auto, unfolding(crate::specs::Objects::document_crash))]
pub(crate) fn document_crash(
    alloc: Global,
    facts: &PlainFacts<'_>,
    document: u64,
) -> Result<Option<Entry>, NoMemory>
    ensures { IfOk result (λ next. next ≡ objects.document_crash facts.now.script facts.now.entries document) }
{
    if crashes(alloc, facts, document)? {
        crash_of(process_of(facts.entries(), document))
    } else {
        Ok(None)
    }
}

/// What a request is delivered next.
#[tactic(auto, unfolding(crate::specs::Objects::delivery_next))]
pub(crate) fn delivery_next(
    alloc: Global,
    facts: &PlainFacts<'_>,
    request: u64,
) -> Result<Option<Entry>, NoMemory>
    ensures { IfOk result (λ next. next ≡ objects.delivery_next facts.now.script facts.now.entries request) }
{
    if let Some(entry) = head_next(alloc, facts, request)? {
        return Ok(Some(entry));
    }
    if let Some(entry) = piece_next(alloc, facts, request)? {
        return Ok(Some(entry));
    }
    end_next(alloc, facts, request)
}

/// Whether a document says or does something next.
fn acts(alloc: Global, facts: &PlainFacts<'_>, document: u64) -> Result<bool, NoMemory>
    ensures { IfOk result (λ some. some ≡ (is_some (saying_next facts.now.script facts.now.entries document)
        || is_some (local_next facts.now.script facts.now.entries document)
        || is_some (objects.document_crash facts.now.script facts.now.entries document))) }
{
    if saying_next(alloc, facts, document)?.is_some() {
        return Ok(true);
    }
    if local_next(alloc, facts, document)?.is_some() {
        return Ok(true);
    }
    Ok(document_crash(alloc, facts, document)?.is_some())
}

/// Whether a load delivers something next.
fn delivers(alloc: Global, facts: &PlainFacts<'_>, request: u64) -> Result<bool, NoMemory>
    ensures { IfOk result (λ some. some ≡ (not (objects.is_taken_at_once facts.now.script facts.now.entries request)
        && is_some (objects.delivery_next facts.now.script facts.now.entries request))) }
{
    if is_taken_at_once(alloc, facts, request)? {
        return Ok(false);
    }
    Ok(delivery_next(alloc, facts, request)?.is_some())
}

/// Whether something may follow of the object of a task.
#[tactic(auto, unfolding(crate::specs::Objects::has_next))]
pub(crate) fn has_next(
    alloc: Global,
    facts: &PlainFacts<'_>,
    key: TaskKey,
) -> Result<bool, NoMemory>
    ensures { IfOk result (λ some. some ≡ objects.has_next facts.now.script facts.now.entries key) }
{
    match key {
        TaskKey::Browser(job) => Ok(job_next(alloc, facts, job)?.is_some()),
        TaskKey::Act(document) => acts(alloc, facts, u64::from(document)),
        TaskKey::Load(request) => delivers(alloc, facts, u64::from(request)),
    }
}
