//! Documents: which are current, and what they are.

ghost use Rattle.std.specs.Prelude.{◌==◌, ◌&&◌, ◌||◌, ◌≡◌, IfOk, false, not, option_and_then};
ghost use Rattle.std.specs.List.{list_all};
ghost use Rattle.std.specs.Option.{option_copied, option_map, option_map_or};
ghost use Rattle.history_rules.specs.Documents as documents;
ghost use Rattle.history_rules.specs.Frames.{is_sandboxed, lineage, opener_of, top_of};
ghost use Rattle.entry_facts.specs.Views.{commit_view};
ghost use Rattle.plain_facts.specs.Climbs.{lineage_from};

use crate::climb::Climb;
use crate::facts::PlainFacts;
use crate::orders::order_of;
use crate::processes::is_dead;
use entry_facts::Committed;
use entry_facts::documents::process_in;
use entry_facts::entries::{commit_in, hosts, is_done_by, removes};
use script_model::{Entry, NoMemory, Origin, UrlText};
use std::alloc::Global;

/// The document of a commit unless its process is dead.
pub fn living(entries: &[Entry], commit: Committed) -> Option<u64>
    ensures { result ≡ documents.living entries.now (commit_view commit) }
{
    if is_dead(entries, u64::from(commit.process)) {
        None
    } else {
        Some(u64::from(commit.document))
    }
}

/// Whether a message removed a frame.
#[tactic(auto, unfolding(history_rules::specs::Documents::was_removed))]
pub fn was_removed(entries: &[Entry], frame: u64) -> bool
    ensures { result ≡ documents.was_removed entries.now frame }
{
    entries.iter().any(|entry| removes(entry, frame))
}

/// Whether a document was ever a committed document of a process.
#[tactic(auto, unfolding(history_rules::specs::Documents::hosted))]
pub fn hosted(entries: &[Entry], process: u64, document: u64) -> bool
    ensures { result ≡ documents.hosted entries.now process document }
{
    entries.iter().any(|entry| hosts(entry, process, document))
}

/// The process that committed a document.
#[tactic(auto, unfolding(history_rules::specs::Documents::process_of))]
pub fn process_of(entries: &[Entry], document: u64) -> Option<u64>
    ensures { result ≡ documents.process_of entries.now document }
{
    let mut last = None;
    for entry in entries {
        last = process_in(entry, document).or(last);
    }
    last
}

/// The origin of a document: that of its order.
#[tactic(auto, unfolding(history_rules::specs::Documents::origin_of))]
pub fn origin_of(entries: &[Entry], document: u64) -> Option<&Origin>
    ensures { option_copied result ≡ documents.origin_of entries.now document }
{
    match order_of(entries, document) {
        Some(order) => Some(order.origin),
        None => None,
    }
}

/// The URL of a document: that of its order.
#[tactic(auto, unfolding(history_rules::specs::Documents::document_url))]
pub fn document_url(entries: &[Entry], document: u64) -> Option<&UrlText>
    ensures { option_copied result ≡ documents.document_url entries.now document }
{
    match order_of(entries, document) {
        Some(order) => Some(order.url),
        None => None,
    }
}

/// How many actions a document has done.
#[tactic(auto, unfolding(history_rules::specs::Documents::actions_done))]
pub fn actions_done(entries: &[Entry], document: u64) -> u64
    ensures { result ≡ documents.actions_done entries.now document }
{
    let mut count = 0;
    for entry in entries {
        if is_done_by(entry, document) {
            count += 1;
        }
    }
    count
}

impl<'a> PlainFacts<'a> {
    // An accepted commit in a frame.
    fn commit_at(&self, frame: u64, entry: &Entry) -> Option<Committed>
        ensures { option_map commit_view result ≡ documents.commit_at self.now.script self.now.entries frame entry.now }
    {
        let commit = commit_in(entry)?;
        if self.frame_of(u64::from(commit.document)) == frame {
            Some(commit)
        } else {
            None
        }
    }

    /// The last commit in a frame.
    #[tactic(auto, unfolding(history_rules::specs::Documents::last_in))]
    pub fn last_in(&self, frame: u64) -> Option<Committed>
        ensures { option_map commit_view result ≡ documents.last_in self.now.script self.now.entries frame }
    {
        let entries = self.entries();
        let mut last = None;
        for entry in entries {
            last = self.commit_at(frame, entry).or(last);
        }
        last
    }

    // The document of the last commit in a frame unless its process is dead.
    fn last_living(&self, frame: u64) -> Option<u64>
        ensures { result ≡ option_and_then (documents.living self.now.entries) (documents.last_in self.now.script self.now.entries frame) }
    {
        living(self.entries(), self.last_in(frame)?)
    }

    /// Whether a document is the last of its frame, and its process is not dead.
    pub fn is_last_living(&self, document: u64) -> bool
        ensures { result ≡ documents.is_last_living self.now.script self.now.entries document }
    {
        match self.last_living(self.frame_of(document)) {
            Some(last) => last == document,
            None => false,
        }
    }

    /// Whether a frame was not removed, and the document that added it is neither replaced nor lost.
    #[tactic(auto, unfolding(history_rules::specs::Documents::is_kept))]
    pub fn is_kept(&self, frame: u64) -> bool
        ensures { result ≡ documents.is_kept self.now.script self.now.entries frame }
    {
        if was_removed(self.entries(), frame) {
            return false;
        }
        match self.adder_of(frame) {
            Some(adder) => self.is_last_living(adder),
            None => true,
        }
    }

    // Whether a frame and its ancestors are kept.
    #[tactic(auto, unfolding(history_rules::specs::Frames::lineage))]
    fn is_lineage_kept(&self, frame: u64) -> bool
        ensures { result ≡ list_all (documents.is_kept self.now.script self.now.entries) (lineage self.now.script self.now.entries frame) }
    {
        let mut next = Some(Climb { frame, left: frame });
        while let Some(climb) = next {
            if !self.is_kept(climb.frame) {
                return false;
            }
            next = self.above(climb);
        }
        true
    }

    /// Whether a frame was made, and it and its ancestors are kept.
    #[tactic(auto, unfolding(history_rules::specs::Documents::is_present))]
    pub fn is_present(&self, frame: u64) -> bool
        ensures { result ≡ documents.is_present self.now.script self.now.entries frame }
    {
        self.was_made(frame) && self.is_lineage_kept(frame)
    }

    /// The current document of a frame.
    #[tactic(auto, unfolding(history_rules::specs::Documents::document_in))]
    pub fn document_in(&self, frame: u64) -> Option<u64>
        ensures { result ≡ documents.document_in self.now.script self.now.entries frame }
    {
        if self.is_present(frame) {
            self.last_living(frame)
        } else {
            None
        }
    }

    /// Whether a document is the current one of its frame.
    #[tactic(auto, unfolding(history_rules::specs::Documents::is_current))]
    pub fn is_current(&self, document: u64) -> bool
        ensures { result ≡ documents.is_current self.now.script self.now.entries document }
    {
        match self.document_in(self.frame_of(document)) {
            Some(current) => current == document,
            None => false,
        }
    }

    /// The current documents by rising number.
    pub fn current_documents(&self, alloc: Global) -> Result<Vec<u64>, NoMemory>
        ensures { IfOk result (λ current. current.items ≡ documents.current_documents self.now.script self.now.entries) }
    {
        let mut current = Vec::new(alloc);
        for document in 0..self.navigations_made() {
            if self.is_current(document) {
                current.push(document)?;
            }
        }
        Ok(current)
    }

    /// Whether a document is current, in this process.
    pub fn is_current_in(&self, process: u64, document: u64) -> bool
        ensures { result ≡ documents.is_current_in self.now.script self.now.entries process document }
    {
        hosted(self.entries(), process, document) && self.is_current(document)
    }

    // Whether a frame is the top frame or the opener of another frame's page, outside a sandbox.
    fn is_page_or_opener(&self, own: u64, frame: u64) -> bool
        ensures { result ≡ (not (is_sandboxed self.now.script self.now.entries own) && (frame == top_of self.now.script self.now.entries own || option_map_or (λ g. g == frame) (opener_of self.now.script self.now.entries own) false)) }
    {
        if self.is_sandboxed(own) {
            return false;
        }
        frame == self.top_of(own) || self.opener_of(own) == Some(frame)
    }

    /// Whether a document may navigate a frame: its own, a descendant of it, its page's top frame and its page's opener; in a
    /// sandboxed frame the first two alone.
    #[tactic(auto, unfolding(history_rules::specs::Documents::may_navigate))]
    pub fn may_navigate(&self, document: u64, frame: u64) -> bool
        ensures { result ≡ documents.may_navigate self.now.script self.now.entries document frame }
    {
        let own = self.frame_of(document);
        frame == own || self.is_descendant(frame, own) || self.is_page_or_opener(own, frame)
    }
}
