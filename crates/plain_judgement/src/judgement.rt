//! The reply to a message: the first row that holds decides.

ghost use Rattle.std.specs.Prelude.{◌≡◌, IfOk};
ghost use Rattle.entry_facts.specs.Orders.{order_view};
ghost use Rattle.history_rules.specs.Judgement as judgement;

use crate::asking::judge_ask;
use crate::rows::{are_frames_full, in_group, is_own_origin, lock_admits, src_rows, url_rows};
use entry_facts::Ordered;
use entry_facts::messages::{is_did_commit, is_equal, is_web_text};
use history_entry::{Body, Message, RawUrl, Reply, Rule, Src, Target};
use page_origin::{NoMemory, Origin, same_origin};
use plain_facts::PlainFacts;
use plain_facts::documents::{hosted, origin_of};
use plain_facts::orders::{had_order, order_of};
use plain_facts::requests::requests_made;
use script_model::limits::MAX_REQUESTS;
use script_model::{Entry, ServiceRule};
use std::alloc::Global;

/// The reply to a message that navigates a frame.
#[tactic(auto, unfolding(history_rules::specs::Judgement::judge_navigate))]
fn judge_navigate(
    alloc: Global,
    facts: &PlainFacts<'_>,
    process: u64,
    document: u64,
    frame: u64,
    url: &RawUrl,
    initiator: &Origin,
) -> Result<Reply, NoMemory>
    ensures { IfOk result (λ reply. reply ≡ judgement.judge_navigate facts.now.script facts.now.entries process document frame url.now initiator.now) }
{
    if !lock_admits(alloc, facts, process, initiator)? {
        Ok(Reply::Kill(Rule::K2))
    } else if !in_group(facts, document, frame) {
        Ok(Reply::Kill(Rule::K4))
    } else if !facts.is_present(frame) {
        Ok(Reply::Drop(Rule::G2))
    } else if !facts.may_navigate(document, frame) {
        Ok(Reply::Deny(Rule::N1))
    } else {
        url_rows(alloc, facts, url)
    }
}

/// The reply to a message that adds a frame.
#[tactic(auto, unfolding(history_rules::specs::Judgement::judge_add_frame))]
fn judge_add_frame(alloc: Global, facts: &PlainFacts<'_>, src: &Src) -> Result<Reply, NoMemory>
    ensures { IfOk result (λ reply. reply ≡ judgement.judge_add_frame facts.now.script facts.now.entries src.now) }
{
    if are_frames_full(facts) {
        Ok(Reply::Deny(Rule::L1))
    } else {
        src_rows(alloc, facts, src)
    }
}

/// The reply to a message that removes a frame.
#[tactic(auto, unfolding(history_rules::specs::Judgement::judge_remove_frame))]
fn judge_remove_frame(facts: &PlainFacts<'_>, document: u64, frame: u64) -> Reply
    ensures { result ≡ judgement.judge_remove_frame facts.now.script facts.now.entries document frame }
{
    if !facts.is_child(frame, facts.frame_of(document)) {
        Reply::Kill(Rule::K5)
    } else if !facts.is_present(frame) {
        Reply::Drop(Rule::G2)
    } else {
        Reply::Ok
    }
}

/// The reply to a message that opens a page.
#[tactic(auto, unfolding(history_rules::specs::Judgement::judge_open_page))]
fn judge_open_page(
    alloc: Global,
    facts: &PlainFacts<'_>,
    document: u64,
    url: &RawUrl,
) -> Result<Reply, NoMemory>
    ensures { IfOk result (λ reply. reply ≡ judgement.judge_open_page facts.now.script facts.now.entries document url.now) }
{
    if facts.is_sandboxed(facts.frame_of(document)) {
        Ok(Reply::Deny(Rule::N9))
    } else if are_frames_full(facts) {
        Ok(Reply::Deny(Rule::L1))
    } else {
        url_rows(alloc, facts, url)
    }
}

/// The reply to a message that fetches a URL.
#[tactic(auto, unfolding(history_rules::specs::Judgement::judge_fetch))]
fn judge_fetch(
    alloc: Global,
    entries: &[Entry],
    document: u64,
    url: &RawUrl,
    initiator: &Origin,
) -> Result<Reply, NoMemory>
    ensures { IfOk result (λ reply. reply ≡ judgement.judge_fetch entries.now document url.now initiator.now) }
{
    if !is_own_origin(entries, document, initiator) {
        Ok(Reply::Kill(Rule::K3))
    } else if !is_web_text(alloc, url)? {
        Ok(Reply::Deny(Rule::F1))
    } else if u64::from(MAX_REQUESTS) <= requests_made(entries) {
        Ok(Reply::Deny(Rule::L2))
    } else {
        Ok(Reply::Ok)
    }
}

/// Whether a target takes a receiver with this origin.
fn takes_origin(entries: &[Entry], document: u64, target: &Target, receiver: &Origin) -> bool
    ensures { result ≡ judgement.takes_origin entries.now document target.now receiver.now }
{
    match target {
        Target::Any => true,
        Target::Own => is_own_origin(entries, document, receiver),
        Target::Of(origin) => same_origin(origin, receiver),
    }
}

/// The reply by the document that is to get a post, if there is one.
fn judge_receiver(entries: &[Entry], document: u64, target: &Target, receiver: Option<u64>) -> Reply
    ensures { result ≡ judgement.judge_receiver entries.now document target.now receiver }
{
    let Some(receiver) = receiver else {
        return Reply::Drop(Rule::M1);
    };
    match origin_of(entries, receiver) {
        Some(origin) => {
            if takes_origin(entries, document, target, origin) {
                Reply::Ok
            } else {
                Reply::Drop(Rule::M2)
            }
        }
        None => Reply::Drop(Rule::M2),
    }
}

/// The reply to a message that posts to a frame.
#[tactic(auto, unfolding(history_rules::specs::Judgement::judge_post))]
fn judge_post(
    facts: &PlainFacts<'_>,
    document: u64,
    frame: u64,
    target: &Target,
    source: &Origin,
) -> Reply
    ensures { result ≡ judgement.judge_post facts.now.script facts.now.entries document frame target.now source.now }
{
    if !is_own_origin(facts.entries(), document, source) {
        Reply::Kill(Rule::K6)
    } else if !in_group(facts, document, frame) {
        Reply::Kill(Rule::K4)
    } else if !facts.is_present(frame) {
        Reply::Drop(Rule::G2)
    } else {
        judge_receiver(facts.entries(), document, target, facts.document_in(frame))
    }
}

/// The reply to a commit by its order: both are compared as whole values.
fn compare_order(url: &RawUrl, origin: &Origin, order: Ordered<'_>) -> Reply
    ensures { result ≡ judgement.compare_order url.now origin.now (order_view order.entry) }
{
    if url.as_str() != order.url.as_str() {
        Reply::Kill(Rule::K9)
    } else if !is_equal(origin, order.origin) {
        Reply::Kill(Rule::K10)
    } else {
        Reply::Ok
    }
}

/// The reply to a message that tells a commit. An order that is waiting is there.
#[tactic(auto, unfolding(history_rules::specs::Judgement::judge_commit))]
pub fn judge_commit(
    facts: &PlainFacts<'_>,
    process: u64,
    navigation: u64,
    url: &RawUrl,
    origin: &Origin,
) -> Reply
    ensures { result ≡ judgement.judge_commit facts.now.script facts.now.entries process navigation url.now origin.now }
{
    if !had_order(facts.entries(), process, navigation) {
        return Reply::Kill(Rule::K8);
    }
    if !facts.is_waiting(navigation) {
        return Reply::Drop(Rule::G3);
    }
    match order_of(facts.entries(), navigation) {
        Some(order) => compare_order(url, origin, order),
        None => Reply::Kill(Rule::K8),
    }
}

/// The reply to a message of a document, by the rows of its kind.
fn judge_body<R: ServiceRule>(
    alloc: Global,
    services: &R,
    facts: &PlainFacts<'_>,
    process: u64,
    document: u64,
    body: &Body,
) -> Result<Reply, NoMemory>
    ensures { IfOk result (λ reply. reply ≡ judgement.judge_body R.rule facts.now.script facts.now.entries process document body.now) }
{
    match body {
        Body::Navigate {
            frame,
            url,
            initiator,
        } => {
            let frame = u64::from(*frame);
            judge_navigate(alloc, facts, process, document, frame, url, initiator)
        }
        Body::AddFrame { src, .. } => judge_add_frame(alloc, facts, src),
        Body::RemoveFrame { frame } => {
            Ok(judge_remove_frame(facts, document, u64::from(*frame)))
        }
        Body::OpenPage { url } => judge_open_page(alloc, facts, document, url),
        Body::Fetch { url, initiator, .. } => {
            judge_fetch(alloc, facts.entries(), document, url, initiator)
        }
        Body::Post {
            frame,
            target,
            source,
            ..
        } => Ok(judge_post(facts, document, u64::from(*frame), target, source)),
        Body::Ask {
            service,
            origin,
            request,
        } => judge_ask(alloc, services, facts, process, service, origin, request),
        Body::DidCommit { nav, url, origin } => {
            Ok(judge_commit(facts, process, u64::from(*nav), url, origin))
        }
    }
}

/// The reply to a message of a process: the process is killed where the document was never one of it, and the message is
/// dropped where the document is not current any more; neither is asked of a commit. Else the rows of the message's kind
/// decide.
#[tactic(auto, unfolding(history_rules::specs::Judgement::judge))]
pub fn reply_of<R: ServiceRule>(
    alloc: Global,
    services: &R,
    facts: &PlainFacts<'_>,
    process: u64,
    message: &Message,
) -> Result<Reply, NoMemory>
    ensures { IfOk result (λ reply. reply ≡ judgement.judge R.rule facts.now.script facts.now.entries process message.now) }
{
    let document = u64::from(message.document);
    let tells_commit = is_did_commit(&message.body);
    if !(tells_commit || hosted(facts.entries(), process, document)) {
        Ok(Reply::Kill(Rule::K1))
    } else if !(tells_commit || facts.is_current(document)) {
        Ok(Reply::Drop(Rule::G1))
    } else {
        judge_body(alloc, services, facts, process, document, &message.body)
    }
}
