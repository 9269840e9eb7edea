//! The entry of an outcome that may follow.

ghost use Rattle.std.specs.Prelude.{◌≡◌, ◌↔◌, IfOk, IfSome, IsTrue};
ghost use Rattle.history_rules.specs.Documents.{actions_done};
ghost use Rattle.history_rules.specs.declared.act.Act.TheVariants as acts;
ghost use Rattle.browser_tasks.specs.Objects.{document_crash};
ghost use Rattle.browser_tasks.specs.Candidates.{IsQuietCandidate};
ghost use Rattle.browser_tasks.specs.Kept.{IsLocalOf, IsSayingOf, Keeps};
ghost use Rattle.browser_tasks.specs.Outcomes.{AnswersAct, AnswersJob, AnswersLoad, AnswersWell, EndsSo, Fits, HeadsSo, IsDoneAlone, IsOfStep, IsPieceOf, MayDeliver};

use crate::candidate::Candidate;
use crate::objects::{delivery_next, document_crash, is_taken_at_once, job_next};
use crate::outcome::{ActDone, LoadDone, Outcome};
use history::documents::{Saying, local_next, saying_next};
use history_entry::equal_messages;
use history_rules::Act;
use plain_facts::PlainFacts;
use plain_facts::documents::actions_done;
use read_verdict::Step;
use script_model::{EndHow, Entry, LocalWhat, Message, NoMemory, PieceBytes, Rule};
use std::alloc::Global;
use work_queue::BrowserJob;

/// What a document says, if it is this message, as the action with this number.
fn keep_saying(given: Option<Saying>, action: u32, message: &Message) -> Option<Saying>
    ensures { Keeps (IsSayingOf action message.now) given result }
{
    let saying = given?;
    if saying.place.action == action && equal_messages(&saying.message, message) {
        Some(saying)
    } else {
        None
    }
}

/// Whether what a document did by itself fits its act.
fn fits(act: &Act, what: &LocalWhat) -> bool
    ensures { IsTrue result ↔ Fits act.now what.now }
{
    matches!(
        (act, what),
        (Act::Wait, LocalWhat::Waited)
            | (Act::Recv, LocalWhat::Took { .. })
            | (Act::Skip, LocalWhat::Skipped)
    )
}

/// Whether an entry is what a document does by itself by this act, as the action with this number.
fn is_local_of(action: u32, act: &Act, entry: &Entry) -> bool
    ensures { IsTrue result ↔ IsLocalOf action act.now entry.now }
{
    match entry {
        Entry::Local(_, _, number, what) => *number == action && fits(act, what),
        _ => false,
    }
}

/// What a document does by itself, if it is this act, as the action with this number.
fn keep_local(given: Option<Entry>, action: u32, act: &Act) -> Option<Entry>
    ensures { Keeps (IsLocalOf action act.now) given result }
{
    let entry = given?;
    if is_local_of(action, act, &entry) {
        Some(entry)
    } else {
        None
    }
}

fn same_rule(a: &Rule, b: &Rule) -> bool
    ensures { IsTrue result ↔ (a.now ≡ b.now) }
{
    a == b
}

/// Whether a head is by the rule of a step.
fn heads_so(step: &Step, why: &Rule) -> bool
    ensures { IsTrue result ↔ HeadsSo step.now why.now }
{
    match step {
        Step::Head(cleared) => same_rule(why, &cleared.rule()),
        Step::Gone => true,
        _ => false,
    }
}

/// Whether a piece is that of a step.
fn is_piece_of(step: &Step, index: u32, bytes: &PieceBytes) -> bool
    ensures { IsTrue result ↔ IsPieceOf step.now index bytes.now }
{
    match step {
        Step::Piece(part) => index == part.index() && bytes.as_bytes() == part.as_bytes(),
        Step::Gone => true,
        _ => false,
    }
}

/// Whether a load ends as a step says.
fn ends_so(step: &Step, how: &EndHow) -> bool
    ensures { IsTrue result ↔ EndsSo step.now how.now }
{
    match (step, how) {
        (Step::Whole, EndHow::Whole) => true,
        (Step::Blocked(rule), EndHow::Blocked(why)) => same_rule(why, rule),
        (Step::Fault, EndHow::Failed(why)) => same_rule(why, &Rule::N7),
        (Step::Gone, _) => true,
        _ => false,
    }
}

/// Whether an entry is that of a step of the load of a request.
fn is_of_step(request: u32, step: &Step, entry: &Entry) -> bool
    ensures { IsTrue result ↔ IsOfStep request step.now entry.now }
{
    match entry {
        Entry::Head(of, why) => *of == request && heads_so(step, why),
        Entry::Piece(of, index, bytes) => *of == request && is_piece_of(step, *index, bytes),
        Entry::End(of, how) => *of == request && ends_so(step, how),
        _ => false,
    }
}

/// What a request is delivered, if it is that of a step of its load.
fn keep_delivery(given: Option<Entry>, request: u32, step: &Step) -> Option<Entry>
    ensures { Keeps (IsOfStep request step.now) given result }
{
    let entry = given?;
    if is_of_step(request, step, &entry) {
        Some(entry)
    } else {
        None
    }
}

/// What a document says next, if it is this message, as the action with this number.
#[tactic(auto, using(crate::proofs::Acts::said_some, crate::proofs::Acts::said_none))]
fn said_candidate(
    alloc: Global,
    facts: &PlainFacts<'_>,
    document: u32,
    action: u32,
    message: &Message,
) -> Result<Option<Candidate>, NoMemory>
    ensures answers { IfOk result (AnswersAct facts.now.script facts.now.entries document action (acts.Message message.now)) }
    ensures quiet { IfOk result (λ found. IfSome found IsQuietCandidate) }
{
    let given = saying_next(alloc, facts, u64::from(document))?;
    match keep_saying(given, action, message) {
        Some(saying) => Ok(Some(Candidate::Saying(saying))),
        None => Ok(None),
    }
}

/// What a document does by itself next, if it is this act, as the action with this number.
#[tactic(auto, using(crate::proofs::Acts::local_some, crate::proofs::Acts::local_none))]
fn local_candidate(
    alloc: Global,
    facts: &PlainFacts<'_>,
    document: u32,
    action: u32,
    act: &Act,
) -> Result<Option<Candidate>, NoMemory>
    requires alone { IsDoneAlone act.now }
    ensures answers { IfOk result (AnswersAct facts.now.script facts.now.entries document action act.now) }
    ensures quiet { IfOk result (λ found. IfSome found IsQuietCandidate) }
{
    let given = local_next(alloc, facts, u64::from(document))?;
    match keep_local(given, action, act) {
        Some(entry) => Ok(Some(Candidate::Entry(entry))),
        None => Ok(None),
    }
}

/// Whether a document has done so many actions.
fn has_done(entries: &[Entry], document: u32, count: u32) -> bool
    ensures { IsTrue result ↔ (actions_done entries.now document ≡ count) }
{
    actions_done(entries, u64::from(document)) == u64::from(count)
}

/// The crash of a document's process.
fn crash_of(alloc: Global, facts: &PlainFacts<'_>, document: u32) -> Result<Option<Entry>, NoMemory>
    ensures { IfOk result (λ next. next ≡ document_crash facts.now.script facts.now.entries document) }
{
    document_crash(alloc, facts, u64::from(document))
}

/// The crash of a document's process, if that is its action with this number.
#[tactic(auto, using(crate::proofs::Acts::crash_some, crate::proofs::Acts::crash_quiet, crate::proofs::Acts::crash_none, crate::proofs::Acts::crash_other))]
fn crash_candidate(
    alloc: Global,
    facts: &PlainFacts<'_>,
    document: u32,
    action: u32,
) -> Result<Option<Candidate>, NoMemory>
    ensures answers { IfOk result (AnswersAct facts.now.script facts.now.entries document action acts.Crash) }
    ensures quiet { IfOk result (λ found. IfSome found IsQuietCandidate) }
{
    if !has_done(facts.entries(), document, action) {
        return Ok(None);
    }
    match crash_of(alloc, facts, document)? {
        Some(entry) => Ok(Some(Candidate::Entry(entry))),
        None => Ok(None),
    }
}

/// The entry of an act that may follow.
#[tactic(auto, using(crate::proofs::Acts::done_answers))]
fn act_candidate(
    alloc: Global,
    facts: &PlainFacts<'_>,
    done: &ActDone,
) -> Result<Option<Candidate>, NoMemory>
    ensures answers { IfOk result (AnswersAct facts.now.script facts.now.entries done.now.document done.now.action done.now.act) }
    ensures quiet { IfOk result (λ found. IfSome found IsQuietCandidate) }
{
    match &done.act {
        Act::Message(message) => said_candidate(alloc, facts, done.document, done.action, message),
        Act::Crash => crash_candidate(alloc, facts, done.document, done.action),
        Act::Done => Ok(None),
        act => local_candidate(alloc, facts, done.document, done.action, act),
    }
}

/// Whether a step may deliver what its request is delivered.
fn may_deliver(
    alloc: Global,
    facts: &PlainFacts<'_>,
    request: u32,
    step: &Step,
) -> Result<bool, NoMemory>
    ensures { IfOk result (λ may. IsTrue may ↔ MayDeliver facts.now.script facts.now.entries request step.now) }
{
    match step {
        Step::Gone => Ok(true),
        _ => {
            let is_taken = is_taken_at_once(alloc, facts, u64::from(request))?;
            Ok(!is_taken)
        }
    }
}

/// The entry of a step of a load that may follow.
#[tactic(auto, using(crate::proofs::Loads::load_some, crate::proofs::Loads::load_none, crate::proofs::Loads::no_load))]
fn load_candidate(
    alloc: Global,
    facts: &PlainFacts<'_>,
    done: &LoadDone,
) -> Result<Option<Candidate>, NoMemory>
    ensures answers { IfOk result (AnswersLoad facts.now.script facts.now.entries done.now.request done.now.step) }
    ensures quiet { IfOk result (λ found. IfSome found IsQuietCandidate) }
{
    if !may_deliver(alloc, facts, done.request, &done.step)? {
        return Ok(None);
    }
    let given = delivery_next(alloc, facts, u64::from(done.request))?;
    match keep_delivery(given, done.request, &done.step) {
        Some(entry) => Ok(Some(Candidate::Entry(entry))),
        None => Ok(None),
    }
}

/// The entry of a job that may follow.
#[tactic(auto, using(crate::proofs::Jobs::job_some, crate::proofs::Jobs::no_job, crate::proofs::Jobs::job_quiet))]
fn job_candidate(
    alloc: Global,
    facts: &PlainFacts<'_>,
    job: BrowserJob,
) -> Result<Option<Candidate>, NoMemory>
    ensures answers { IfOk result (AnswersJob facts.now.script facts.now.entries job) }
    ensures quiet { IfOk result (λ found. IfSome found IsQuietCandidate) }
{
    match job_next(alloc, facts, job)? {
        Some(entry) => Ok(Some(Candidate::Entry(entry))),
        None => Ok(None),
    }
}

/// The entry of an outcome that may follow a legal history, before services are asked; none exactly where none of its entries may.
pub fn outcome_candidate(
    alloc: Global,
    facts: &PlainFacts<'_>,
    outcome: &Outcome,
) -> Result<Option<Candidate>, NoMemory>
    ensures answers { IfOk result (AnswersWell facts.now.script facts.now.entries outcome.now) }
    ensures quiet { IfOk result (λ found. IfSome found IsQuietCandidate) }
{
    match outcome {
        Outcome::Browser(job) => job_candidate(alloc, facts, *job),
        Outcome::Act(done) => act_candidate(alloc, facts, done),
        Outcome::Load(done) => load_candidate(alloc, facts, done),
    }
}
