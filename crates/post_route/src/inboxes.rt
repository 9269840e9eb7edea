ghost use Rattle.std.specs.Prelude.{◌≡◌, ◌↔◌, ◌++◌, ◌∷◌, [], IfErr, IsTrue, OnOk, drop, slice_get, ℕ};
ghost use Rattle.post_route.specs.Inbox.{ChangesOnly, SameInboxes, inbox};

use call_answers::NoMemory;
use script_model::Posted;
use std::alloc::Global;
use std::collections::{BTreeMap, VecDeque};

/// The inboxes of all documents. An inbox that never got a post is empty, whatever its document's number.
#[derive(Drop)]
pub struct Inboxes {
    queues: BTreeMap<u32, VecDeque<Posted>>,
}

impl Inboxes {
    /// All inboxes are empty. This takes no memory.
    pub fn new(alloc: Global) -> Inboxes
        ensures { (document : ℕ) → inbox result document ≡ [] }
    {
        Inboxes {
            queues: BTreeMap::new(alloc),
        }
    }

    /// Puts a post at the end of a document's inbox. Where memory runs out the post comes back, and no inbox has changed.
    pub fn route(&mut self, document: u32, post: Posted) -> Result<(), (Posted, NoMemory)>
        ensures ok { OnOk result (ChangesOnly self.old self.new document (inbox self.old document ++ post ∷ [])) }
        ensures back { IfErr result (λ refused. refused.0 ≡ post) }
        ensures err { IfErr result (λ _. SameInboxes self.old self.new) }
    {
        let Ok(entry) = self.queues.entry(document) else {
            return Err((post, NoMemory));
        };
        match entry.or_default().push_back(post) {
            Ok(()) => Ok(()),
            Err(refused) => Err((refused.value, NoMemory)),
        }
    }

    /// Takes the first post out of a document's inbox; none exactly where that is empty. This takes no memory.
    pub fn take(&mut self, document: u32) -> Option<Posted>
        ensures first { result ≡ slice_get (inbox self.old document) 0 }
        ensures rest { ChangesOnly self.old self.new document (drop 1 (inbox self.old document)) }
    {
        self.queues.get_mut(&document)?.pop_front()
    }

    /// Whether a document's inbox is empty. This takes no memory.
    pub fn empty(&self, document: u32) -> bool
        ensures { IsTrue result ↔ (inbox self.now document ≡ []) }
    {
        match self.queues.get(&document) {
            None => true,
            Some(queue) => queue.is_empty(),
        }
    }

    /// Empties a document's inbox, as where the document is gone. This takes no memory.
    pub fn forget(&mut self, document: u32)
        ensures { ChangesOnly self.old self.new document [] }
    {
        self.queues.remove(&document);
    }
}
