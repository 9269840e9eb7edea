//! The reply to a message: the first row that holds decides.

ghost use Rattle.std.specs.Prelude.{◌≡◌, ◌++◌, IfOk, IsOk, IsTrue, List, false, ℕ};
ghost use Rattle.std.specs.Option.{option_map_or};
ghost use Rattle.page_origin.specs.declared.origin.TupleOrigin.{TupleOrigin};
ghost use Rattle.history_rules.specs.Documents as documents;
ghost use Rattle.history_rules.specs.Frames as frames;
ghost use Rattle.history_rules.specs.Judgement as judgement;
ghost use Rattle.message_filter.specs.Asking.{HaveRoom, KeepAccepted, gained_by, takes_no_memory};

use crate::asking::judge_ask;
use crate::commit::judge_commit;
use crate::facts::Facts;
use crate::rows::{
    are_frames_full, in_group, is_child, is_own_origin, lock_admits, own_frame, receiver_in,
    src_rows, url_rows,
};
use entry_facts::messages::{is_did_commit, is_web_text};
use history_entry::{Body, Message, RawUrl, Reply, Rule, Src, Target};
use origin_service::Service;
use page_origin::{NoMemory, Origin, same_origin};
use script_model::limits::MAX_REQUESTS;
use std::alloc::Global;

// The reply to a message that navigates a frame.
#[tactic(auto, unfolding(history_rules::specs::Judgement::judge_navigate))]
fn judge_navigate<F: Facts>(
    alloc: Global,
    facts: &F,
    process: u32,
    document: u32,
    frame: u32,
    url: &RawUrl,
    initiator: &Origin,
) -> Result<Reply, NoMemory>
    requires { IsTrue (documents.is_current (F.script facts.now) (F.entries facts.now) document) }
    ensures { IfOk result (λ reply. reply ≡ judgement.judge_navigate (F.script facts.now) (F.entries facts.now) process document frame url.now initiator.now) }
{
    if !lock_admits(alloc, facts, process, initiator)? {
        Ok(Reply::Kill(Rule::K2))
    } else if !in_group(facts, document, frame) {
        Ok(Reply::Kill(Rule::K4))
    } else if !facts.is_present(frame) {
        Ok(Reply::Drop(Rule::G2))
    } else if !facts.may_navigate(document, frame) {
        Ok(Reply::Deny(Rule::N1))
    } else {
        url_rows(alloc, facts, url)
    }
}

// The reply to a message that adds a frame.
#[tactic(auto, unfolding(history_rules::specs::Judgement::judge_add_frame))]
fn judge_add_frame<F: Facts>(alloc: Global, facts: &F, src: &Src) -> Result<Reply, NoMemory>
    ensures { IfOk result (λ reply. reply ≡ judgement.judge_add_frame (F.script facts.now) (F.entries facts.now) src.now) }
{
    if are_frames_full(facts) {
        Ok(Reply::Deny(Rule::L1))
    } else {
        src_rows(alloc, facts, src)
    }
}

// The reply to a message that removes a frame.
#[tactic(auto, unfolding(history_rules::specs::Judgement::judge_remove_frame))]
fn judge_remove_frame<F: Facts>(facts: &F, document: u32, frame: u32) -> Reply
    requires { IsTrue (documents.is_current (F.script facts.now) (F.entries facts.now) document) }
    ensures { result ≡ judgement.judge_remove_frame (F.script facts.now) (F.entries facts.now) document frame }
{
    if !is_child(facts, frame, facts.frame_of(document)) {
        Reply::Kill(Rule::K5)
    } else if !facts.is_present(frame) {
        Reply::Drop(Rule::G2)
    } else {
        Reply::Ok
    }
}

// The reply to a message that opens a page.
#[tactic(auto, unfolding(history_rules::specs::Judgement::judge_open_page))]
fn judge_open_page<F: Facts>(
    alloc: Global,
    facts: &F,
    document: u32,
    url: &RawUrl,
) -> Result<Reply, NoMemory>
    requires { IsTrue (documents.is_current (F.script facts.now) (F.entries facts.now) document) }
    ensures { IfOk result (λ reply. reply ≡ judgement.judge_open_page (F.script facts.now) (F.entries facts.now) document url.now) }
{
    if facts.is_sandboxed(own_frame(facts, document)) {
        Ok(Reply::Deny(Rule::N9))
    } else if are_frames_full(facts) {
        Ok(Reply::Deny(Rule::L1))
    } else {
        url_rows(alloc, facts, url)
    }
}

// The reply to a message that fetches a URL.
#[tactic(auto, unfolding(history_rules::specs::Judgement::judge_fetch))]
fn judge_fetch<F: Facts>(
    alloc: Global,
    facts: &F,
    document: u32,
    url: &RawUrl,
    initiator: &Origin,
) -> Result<Reply, NoMemory>
    requires { IsTrue (documents.is_current (F.script facts.now) (F.entries facts.now) document) }
    ensures { IfOk result (λ reply. reply ≡ judgement.judge_fetch (F.entries facts.now) document url.now initiator.now) }
{
    if !is_own_origin(facts, document, initiator) {
        Ok(Reply::Kill(Rule::K3))
    } else if !is_web_text(alloc, url)? {
        Ok(Reply::Deny(Rule::F1))
    } else if MAX_REQUESTS <= facts.requests_made() {
        Ok(Reply::Deny(Rule::L2))
    } else {
        Ok(Reply::Ok)
    }
}

// Whether a target takes a receiver with this origin.
fn takes_origin<F: Facts>(facts: &F, document: u32, target: &Target, receiver: &Origin) -> bool
    requires { IsTrue (documents.is_current (F.script facts.now) (F.entries facts.now) document) }
    ensures { result ≡ judgement.takes_origin (F.entries facts.now) document target.now receiver.now }
{
    match target {
        Target::Any => true,
        Target::Own => is_own_origin(facts, document, receiver),
        Target::Of(origin) => same_origin(origin, receiver),
    }
}

// Whether a target takes this receiver.
fn takes<F: Facts>(facts: &F, document: u32, target: &Target, receiver: u32) -> bool
    requires sender { IsTrue (documents.is_current (F.script facts.now) (F.entries facts.now) document) }
    requires receiver { IsTrue (documents.is_current (F.script facts.now) (F.entries facts.now) receiver) }
    ensures { result ≡ option_map_or (judgement.takes_origin (F.entries facts.now) document target.now) (documents.origin_of (F.entries facts.now) receiver) false }
{
    takes_origin(facts, document, target, facts.origin_of(receiver))
}

// The reply by the document that is to get a post, if there is one.
fn judge_receiver<F: Facts>(facts: &F, document: u32, frame: u32, target: &Target) -> Reply
    requires sender { IsTrue (documents.is_current (F.script facts.now) (F.entries facts.now) document) }
    requires frame { IsTrue (frames.was_made (F.script facts.now) (F.entries facts.now) frame) }
    ensures { result ≡ judgement.judge_receiver (F.entries facts.now) document target.now (documents.document_in (F.script facts.now) (F.entries facts.now) frame) }
{
    match receiver_in(facts, frame) {
        Some(receiver) => {
            if takes(facts, document, target, receiver) {
                Reply::Ok
            } else {
                Reply::Drop(Rule::M2)
            }
        }
        None => Reply::Drop(Rule::M1),
    }
}

// The reply to a message that posts to a frame.
#[tactic(auto, unfolding(history_rules::specs::Judgement::judge_post))]
fn judge_post<F: Facts>(
    facts: &F,
    document: u32,
    frame: u32,
    target: &Target,
    source: &Origin,
) -> Reply
    requires { IsTrue (documents.is_current (F.script facts.now) (F.entries facts.now) document) }
    ensures { result ≡ judgement.judge_post (F.script facts.now) (F.entries facts.now) document frame target.now source.now }
{
    if !is_own_origin(facts, document, source) {
        Reply::Kill(Rule::K6)
    } else if !in_group(facts, document, frame) {
        Reply::Kill(Rule::K4)
    } else if !facts.is_present(frame) {
        Reply::Drop(Rule::G2)
    } else {
        judge_receiver(facts, document, frame, target)
    }
}

// The reply to a message of a current document, by the rows of its kind.
#[tactic(auto, using(crate::proofs::Gains::gains_nothing))]
fn judge_body<F: Facts, V: Service>(
    alloc: Global,
    facts: &F,
    services: &mut V,
    process: u32,
    document: u32,
    body: &Body,
) -> Result<Reply, NoMemory>
    requires current { judgement.is_did_commit body.now ≡ false → IsTrue (documents.is_current (F.script facts.now) (F.entries facts.now) document) }
    requires kept { KeepAccepted (V.kept services.old) (F.entries facts.now) body.now }
    requires room { HaveRoom (V.kept services.old) body.now }
    ensures reply { IfOk result (λ reply. reply ≡ judgement.judge_body V.rule (F.script facts.now) (F.entries facts.now) process document body.now) }
    ensures kept { (name : List ℕ) (tuple : TupleOrigin) → V.kept services.new name tuple ≡ V.kept services.old name tuple ++ gained_by result document body.now name tuple }
    ensures sure { IsTrue (takes_no_memory body.now) → IsOk result }
{
    match body {
        Body::Navigate {
            frame,
            url,
            initiator,
        } => judge_navigate(alloc, facts, process, document, *frame, url, initiator),
        Body::AddFrame { src, .. } => judge_add_frame(alloc, facts, src),
        Body::RemoveFrame { frame } => Ok(judge_remove_frame(facts, document, *frame)),
        Body::OpenPage { url } => judge_open_page(alloc, facts, document, url),
        Body::Fetch { url, initiator, .. } => judge_fetch(alloc, facts, document, url, initiator),
        Body::Post {
            frame,
            target,
            source,
            ..
        } => Ok(judge_post(facts, document, *frame, target, source)),
        Body::Ask {
            service,
            origin,
            request,
        } => judge_ask(
            alloc, facts, services, process, document, service, origin, request,
        ),
        Body::DidCommit { nav, url, origin } => Ok(judge_commit(facts, process, *nav, url, origin)),
    }
}

/// The reply to a message of a process: the process is killed where the document was never one of it, and the message is
/// dropped where the document is not current any more; neither is asked of a commit. Else the rows of the message's kind
/// decide.
///
/// A message that asks a service in the name of a tuple origin needs services that keep of that origin what the history accepted
/// of it. Where a service answers, it keeps the request, and nothing else that is kept ever changes: not after another reply, nor
/// where memory runs out. Memory never runs out over a commit, a post or the removal of a frame.
#[tactic(auto, unfolding(history_rules::specs::Judgement::judge), using(crate::proofs::Gains::gains_nothing))]
pub fn judge<F: Facts, V: Service>(
    alloc: Global,
    facts: &F,
    services: &mut V,
    process: u32,
    message: &Message,
) -> Result<Reply, NoMemory>
    requires kept { KeepAccepted (V.kept services.old) (F.entries facts.now) message.now.body }
    requires room { HaveRoom (V.kept services.old) message.now.body }
    ensures reply { IfOk result (λ reply. reply ≡ judgement.judge V.rule (F.script facts.now) (F.entries facts.now) process message.now) }
    ensures kept { (name : List ℕ) (tuple : TupleOrigin) → V.kept services.new name tuple ≡ V.kept services.old name tuple ++ gained_by result message.now.document message.now.body name tuple }
    ensures sure { IsTrue (takes_no_memory message.now.body) → IsOk result }
{
    let document = message.document;
    let tells_commit = is_did_commit(&message.body);
    if !(tells_commit || facts.hosted(process, document)) {
        Ok(Reply::Kill(Rule::K1))
    } else if !(tells_commit || facts.is_current(document)) {
        Ok(Reply::Drop(Rule::G1))
    } else {
        judge_body(alloc, facts, services, process, document, &message.body)
    }
}
