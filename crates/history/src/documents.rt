//! What may follow of documents and of the processes' answers: Said, Local and Commit.

ghost use Rattle.std.specs.Prelude.{◌≡◌, IfOk, Some};
ghost use Rattle.std.specs.Option.{option_map};
ghost use Rattle.entry_facts.specs.Orders.{order_view};
ghost use Rattle.history_rules.specs.Documents.{actions_done};
ghost use Rattle.history_rules.specs.Sights.{next_act};
ghost use Rattle.history.specs.Sayings as sayings;
ghost use Rattle.history.specs.Sayings.{answered};
ghost use Rattle.history_steps.specs.MayFollow as following;

use crate::acts::next_act;
use entry_facts::Ordered;
use history_rules::Act;
use plain_facts::PlainFacts;
use plain_facts::documents::{actions_done, process_of};
use plain_facts::numbers::entry_number;
use plain_facts::orders::{order_of, was_answered};
use plain_facts::processes::is_locked;
use plain_judgement::{judge_commit, reply_of};
use request_facts::inboxes::first_post;
use request_facts::requests::has_live_request;
use script_model::{Entry, LocalWhat, Message, NoMemory, RawUrl, Reply, ServiceRule};
use std::alloc::Global;

/// Where a document acts: its process, its number and that of its action, as an entry holds them.
#[derive(Clone, Copy, Debug)]
pub struct Place {
    pub process: u32,
    pub document: u32,
    pub action: u32,
}

/// What a document says next, before it is judged.
#[derive(Drop)]
pub struct Saying {
    pub place: Place,
    pub message: Message,
}

impl Saying {
    /// The message with its reply, as an entry.
    pub fn answered(self, reply: Reply) -> Entry
        ensures { result ≡ answered self reply }
    {
        Entry::Said(
            self.place.process,
            self.place.document,
            self.place.action,
            self.message,
            reply,
        )
    }
}

/// Where a document acts next, in a process.
fn next_place(entries: &[Entry], process: u64, document: u64) -> Result<Place, NoMemory>
    ensures { IfOk result (λ place. place ≡ record { process = process; document = document; action = actions_done entries.now document }) }
{
    Ok(Place {
        process: entry_number(process)?,
        document: entry_number(document)?,
        action: entry_number(actions_done(entries, document))?,
    })
}

/// What the next action of a document says in a process.
fn saying_of(
    facts: &PlainFacts<'_>,
    process: u64,
    document: u64,
    act: Act,
) -> Result<Option<Saying>, NoMemory>
    ensures { IfOk result (λ next. next ≡ sayings.saying_of facts.now.entries process document act) }
{
    match act {
        Act::Message(message) => {
            let place = next_place(facts.entries(), process, document)?;
            Ok(Some(Saying { place, message }))
        }
        _ => Ok(None),
    }
}

/// What a document says next in its process, which is locked.
#[tactic(auto, unfolding(crate::specs::Sayings::saying_in))]
fn saying_in(
    alloc: Global,
    facts: &PlainFacts<'_>,
    document: u64,
    process: u64,
) -> Result<Option<Saying>, NoMemory>
    ensures { IfOk result (λ next. next ≡ sayings.saying_in facts.now.script facts.now.entries document process) }
{
    if !is_locked(facts.entries(), process) {
        return Ok(None);
    }
    let act = next_act(alloc, facts, document)?;
    saying_of(facts, process, document, act)
}

/// What a current document says next.
#[tactic(auto, unfolding(crate::specs::Sayings::saying_next))]
pub fn saying_next(
    alloc: Global,
    facts: &PlainFacts<'_>,
    document: u64,
) -> Result<Option<Saying>, NoMemory>
    ensures { IfOk result (λ next. next ≡ sayings.saying_next facts.now.script facts.now.entries document) }
{
    if !facts.is_current(document) {
        return Ok(None);
    }
    match process_of(facts.entries(), document) {
        Some(process) => saying_in(alloc, facts, document, process),
        None => Ok(None),
    }
}

/// What a document says, with its judgement.
fn judged<R: ServiceRule>(
    alloc: Global,
    services: &R,
    facts: &PlainFacts<'_>,
    saying: Saying,
) -> Result<Entry, NoMemory>
    ensures { IfOk result (λ entry. entry ≡ sayings.judged R.rule facts.now.script facts.now.entries saying) }
{
    let process = u64::from(saying.place.process);
    let reply = reply_of(alloc, services, facts, process, &saying.message)?;
    Ok(saying.answered(reply))
}

/// A current document sends its next message.
#[tactic(auto, using(crate::proofs::Sayings::said_is_judged))]
pub fn said_next<R: ServiceRule>(
    alloc: Global,
    services: &R,
    facts: &PlainFacts<'_>,
    document: u64,
) -> Result<Option<Entry>, NoMemory>
    ensures { IfOk result (λ next. next ≡ following.said_next R.rule facts.now.script facts.now.entries document) }
{
    match saying_next(alloc, facts, document)? {
        Some(saying) => Ok(Some(judged(alloc, services, facts, saying)?)),
        None => Ok(None),
    }
}

/// A locked process answers an order that it has not answered.
#[tactic(auto, unfolding(history_steps::specs::MayFollow::commit_by))]
fn commit_by(
    alloc: Global,
    facts: &PlainFacts<'_>,
    navigation: u64,
    order: Ordered<'_>,
) -> Result<Option<Entry>, NoMemory>
    ensures { IfOk result (λ next. next ≡ following.commit_by facts.now.script facts.now.entries navigation (order_view order.entry)) }
{
    let process = u64::from(order.process);
    if !is_locked(facts.entries(), process) || was_answered(facts.entries(), navigation) {
        return Ok(None);
    }
    let url = RawUrl::of(alloc, order.url.as_str())?;
    let reply = judge_commit(facts, process, navigation, &url, order.origin);
    let origin = order.origin.copy(alloc)?;
    Ok(Some(Entry::Commit(order.process, entry_number(navigation)?, origin, url, reply)))
}

/// The answer to the order of a navigation.
#[tactic(auto, unfolding(history_steps::specs::MayFollow::commit_next))]
pub fn commit_next(
    alloc: Global,
    facts: &PlainFacts<'_>,
    navigation: u64,
) -> Result<Option<Entry>, NoMemory>
    ensures { IfOk result (λ next. next ≡ following.commit_next facts.now.script facts.now.entries navigation) }
{
    match order_of(facts.entries(), navigation) {
        Some(order) => commit_by(alloc, facts, navigation, order),
        None => Ok(None),
    }
}

/// An enabled wait.
#[tactic(auto, unfolding(history_steps::specs::MayFollow::local_what))]
fn waited(facts: &PlainFacts<'_>, document: u64) -> Option<LocalWhat>
    ensures { result ≡ following.local_what facts.now.script facts.now.entries document Act.Wait }
{
    if has_live_request(facts, document) {
        None
    } else {
        Some(LocalWhat::Waited)
    }
}

/// An enabled take, of the first post of the inbox.
#[tactic(auto, unfolding(history_steps::specs::MayFollow::local_what))]
fn took(alloc: Global, facts: &PlainFacts<'_>, document: u64) -> Result<Option<LocalWhat>, NoMemory>
    ensures { IfOk result (λ what. what ≡ following.local_what facts.now.script facts.now.entries document Act.Recv) }
{
    match first_post(alloc, facts, document)? {
        Some(post) => Ok(Some(LocalWhat::Took {
            source: post.source.copy(alloc)?,
            text: post.text.copy(alloc)?,
        })),
        None => Ok(None),
    }
}

/// What a document does by itself, if it does.
#[tactic(auto, unfolding(history_steps::specs::MayFollow::local_what))]
fn local_what(
    alloc: Global,
    facts: &PlainFacts<'_>,
    document: u64,
    act: &Act,
) -> Result<Option<LocalWhat>, NoMemory>
    ensures { IfOk result (λ what. what ≡ following.local_what facts.now.script facts.now.entries document act.now) }
{
    match act {
        Act::Wait => Ok(waited(facts, document)),
        Act::Recv => took(alloc, facts, document),
        Act::Skip => Ok(Some(LocalWhat::Skipped)),
        _ => Ok(None),
    }
}

/// What a document does by itself next, if it does.
fn next_what(
    alloc: Global,
    facts: &PlainFacts<'_>,
    document: u64,
) -> Result<Option<LocalWhat>, NoMemory>
    ensures { IfOk result (λ what. what ≡ following.local_what facts.now.script facts.now.entries document (next_act facts.now.script facts.now.entries document)) }
{
    let act = next_act(alloc, facts, document)?;
    local_what(alloc, facts, document, &act)
}

/// What a document does by itself in its process, which is locked.
#[tactic(auto, unfolding(history_steps::specs::MayFollow::local_in))]
fn local_in(
    alloc: Global,
    facts: &PlainFacts<'_>,
    document: u64,
    process: u64,
) -> Result<Option<Entry>, NoMemory>
    ensures { IfOk result (λ next. next ≡ following.local_in facts.now.script facts.now.entries document process) }
{
    if !is_locked(facts.entries(), process) {
        return Ok(None);
    }
    let place = next_place(facts.entries(), process, document)?;
    match next_what(alloc, facts, document)? {
        Some(what) => Ok(Some(Entry::Local(place.process, place.document, place.action, what))),
        None => Ok(None),
    }
}

/// A current document does its next action by itself.
#[tactic(auto, unfolding(history_steps::specs::MayFollow::local_next))]
pub fn local_next(
    alloc: Global,
    facts: &PlainFacts<'_>,
    document: u64,
) -> Result<Option<Entry>, NoMemory>
    ensures { IfOk result (λ next. next ≡ following.local_next facts.now.script facts.now.entries document) }
{
    if !facts.is_current(document) {
        return Ok(None);
    }
    match process_of(facts.entries(), document) {
        Some(process) => local_in(alloc, facts, document, process),
        None => Ok(None),
    }
}
