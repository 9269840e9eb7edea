//! The facts of a script at a moment of its history.

ghost use Rattle.std.specs.Prelude.{◌≡◌, [], IfOk, List, None, false, ℕ};
ghost use Rattle.page_origin.specs.declared.origin.TupleOrigin.{TupleOrigin};
ghost use Rattle.history_rules.specs.Documents.{current_documents};
ghost use Rattle.history_rules.specs.Services.{accepted_requests, asked_in};

use entry_facts::services::is_answer;
use entry_reading::{read_entry, read_message};
use entry_text::reply_text;
use history_entry::{Entry, Message, Reply};
use message_filter::{Facts, judge};
use origin_service::Store;
use page_origin::{Origin, Site};
use plain_facts::PlainFacts;
use plain_facts::documents::{hosted, origin_of};
use plain_facts::orders::{had_order, order_of};
use plain_facts::processes::lock_of;
use plain_facts::requests::requests_made;
use public_suffix::Rules;
use script_model::{PageUrls, Script};
use site_url::SiteRules;
use std::alloc::Global;
use std::process::Abort;
use std::test::Fail;
use test_support::web_url;

/// The facts of a history, found by going through it at each question. A fact that is not there, or no number of 32 bits, ends
/// the test.
#[derive(Drop)]
struct Moment<'a, A: Abort> {
    rt: &'a A,
    facts: PlainFacts<'a>,
    current: Vec<u64>,
    ghost listed: { current.items ≡ current_documents facts.script facts.entries },
}

impl<'a, A: Abort> Moment<'a, A> {
    fn new(rt: &'a A, alloc: Global, script: &'a Script, entries: &'a [Entry]) -> Result<Self, Fail>
        ensures { IfOk result (λ moment. moment.facts.entries ≡ entries.now) }
    {
        let facts = PlainFacts::new(alloc, script, entries)?;
        let current = facts.current_documents(alloc)?;
        Ok(Moment { rt, facts, current })
    }

    fn small(&self, number: u64) -> u32
        ensures { result ≡ number }
    {
        match u32::try_from(number) {
            Ok(small) => small,
            Err(_) => panic!(self.rt; "{number} is too large"),
        }
    }
}

impl<'a, A: Abort> Facts for Moment<'a, A> {
    ghost script = { λ moment. moment.facts.script };

    ghost entries = { λ moment. moment.facts.entries };

    fn rules(&self) -> &SiteRules {
        &self.facts.script().rules
    }

    fn lock_of(&self, process: u32) -> Option<&Site> {
        lock_of(self.facts.entries(), u64::from(process))
    }

    fn hosted(&self, process: u32, document: u32) -> bool {
        let entries = self.facts.entries();
        hosted(entries, u64::from(process), u64::from(document))
    }

    fn is_current(&self, document: u32) -> bool {
        self.facts.is_current(u64::from(document))
    }

    fn nth_current(&self, index: u32) -> Option<u32> {
        match self.current.get(index as usize) {
            Some(document) => Some(self.small(*document)),
            None => None,
        }
    }

    fn origin_of(&self, document: u32) -> &Origin {
        match origin_of(self.facts.entries(), u64::from(document)) {
            Some(origin) => origin,
            None => panic!(self.rt; "document {document} has no origin"),
        }
    }

    fn frame_of(&self, document: u32) -> u32 {
        self.small(self.facts.frame_of(u64::from(document)))
    }

    fn in_group(&self, document: u32, frame: u32) -> bool {
        let own = self.facts.frame_of(u64::from(document));
        self.facts.share_group(own, u64::from(frame))
    }

    fn may_navigate(&self, document: u32, frame: u32) -> bool {
        self.facts
            .may_navigate(u64::from(document), u64::from(frame))
    }

    fn is_present(&self, frame: u32) -> bool {
        self.facts.is_present(u64::from(frame))
    }

    fn is_child(&self, frame: u32, parent: u32) -> bool {
        self.facts.is_child(u64::from(frame), u64::from(parent))
    }

    fn is_sandboxed(&self, frame: u32) -> bool {
        self.facts.is_sandboxed(u64::from(frame))
    }

    fn document_in(&self, frame: u32) -> Option<u32> {
        match self.facts.document_in(u64::from(frame)) {
            Some(document) => Some(self.small(document)),
            None => None,
        }
    }

    fn frames_made(&self) -> u32 {
        self.small(self.facts.frames_made())
    }

    fn navs_made(&self) -> u32 {
        self.small(self.facts.navigations_made())
    }

    fn requests_made(&self) -> u32 {
        self.small(requests_made(self.facts.entries()))
    }

    fn had_order(&self, process: u32, nav: u32) -> bool {
        let entries = self.facts.entries();
        had_order(entries, u64::from(process), u64::from(nav))
    }

    fn is_waiting(&self, nav: u32) -> bool {
        self.facts.is_waiting(u64::from(nav))
    }

    fn order_url(&self, nav: u32) -> &str {
        match order_of(self.facts.entries(), u64::from(nav)) {
            Some(order) => order.url.as_str(),
            None => panic!(self.rt; "navigation {nav} has no order"),
        }
    }

    fn order_origin(&self, nav: u32) -> &Origin {
        match order_of(self.facts.entries(), u64::from(nav)) {
            Some(order) => order.origin,
            None => panic!(self.rt; "navigation {nav} has no order"),
        }
    }
}

/// A script with two start pages.
fn two_pages(alloc: Global) -> Result<Script, Fail> {
    let rules = SiteRules::new(Rules::read(alloc, b"")?, Vec::new(alloc));
    let first = web_url(alloc, "https://a.com/")?;
    let second = web_url(alloc, "https://b.com/")?;
    let start = vec![in alloc; first, second]?;
    Ok(Script::new(alloc, rules, PageUrls::from_vec(start)))
}

/// The entries of these lines.
pub fn entries_of(alloc: Global, lines: &str) -> Result<Vec<Entry>, Fail> {
    let mut entries = Vec::new(alloc);
    for line in lines.lines() {
        entries.push(read_entry(alloc, line.as_bytes())?)?;
    }
    Ok(entries)
}

fn is_answered(entry: &Entry) -> bool
    ensures { result ≡ false → (name : List ℕ) (tuple : TupleOrigin) → asked_in name tuple entry.now ≡ None }
{
    match entry {
        Entry::Said(_, _, _, _, reply) => is_answer(reply),
        _ => false,
    }
}

/// Whether the history has a request that a service answered.
#[tactic(auto, using(crate::proofs::Unasked::none_asked, crate::proofs::Unasked::one_more))]
fn has_answers(entries: &[Entry]) -> bool
    ensures { result ≡ false → (name : List ℕ) (tuple : TupleOrigin) → accepted_requests entries.now name tuple ≡ [] }
{
    for entry in entries {
        if is_answered(entry) {
            return true;
        }
    }
    false
}

/// The reply to a message at a moment at which no service was asked.
#[tactic(auto, using(crate::proofs::Unasked::nothing_kept, crate::proofs::Unasked::all_room))]
fn judged(
    rt: &impl Abort,
    alloc: Global,
    entries: &[Entry],
    process: u32,
    message: &Message,
) -> Result<Reply, Fail> {
    if has_answers(entries) {
        return Err(Fail::new("a service was asked"));
    }
    let script = two_pages(alloc)?;
    let moment = Moment::new(rt, alloc, &script, entries)?;
    let mut store = Store::new(alloc);
    Ok(judge(alloc, &moment, &mut store, process, message)?)
}

/// The text of the reply to a message of a process.
pub fn reply_to(
    rt: &impl Abort,
    alloc: Global,
    entries: &[Entry],
    process: u32,
    message: &str,
) -> Result<String, Fail> {
    let message = read_message(alloc, message.as_bytes())?;
    let reply = judged(rt, alloc, entries, process, &message)?;
    let text = reply_text(alloc, &reply)?;
    Ok(String::from_utf8_lossy(alloc, text.as_slice())?)
}
