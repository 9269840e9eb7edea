ghost use Rattle.std.specs.Prelude.{◌≡◌, ◌++◌, ◌∷◌, [], IfErr, IfOk, OnOk, OnErr};

use history_entry::Entry;
use page_origin::NoMemory;
use std::alloc::Global;
use std::marker::Model;

/// The entries that came, the oldest first.
#[derive(Drop)]
pub struct History {
    entries: Vec<Entry>,
}

impl Model for History {
    ghost use Rattle.std.specs.Prelude.{List};
    ghost use Rattle.history_entry.specs.declared.entry.Entry.{Entry as EntryData};

    ghost Value = { List EntryData };

    ghost view = { λ h. h.entries.items };
}

impl History {
    /// A history without entries.
    pub fn new(alloc: Global) -> Self
        ensures { result ≡ [] }
    {
        History {
            entries: Vec::new(alloc),
        }
    }

    /// Adds an entry. Where memory runs out the entry is dropped, and the history is as before.
    pub fn push(&mut self, entry: Entry) -> Result<(), NoMemory>
        ensures ok { OnOk result (self.new ≡ self.old ++ entry ∷ []) }
        ensures err { OnErr result (self.new ≡ self.old) }
    {
        self.entries.push(entry)?;
        Ok(())
    }

    /// The entries, in order.
    pub fn entries(&self) -> &[Entry]
        ensures { result.now ≡ self.now }
    {
        self.entries.as_slice()
    }

    /// The same history with room for one more entry. Where memory runs out it comes back as it was.
    pub fn with_room(self) -> Result<Roomy, (History, NoMemory)>
        ensures ok { IfOk result (λ roomy. roomy ≡ self) }
        ensures err { IfErr result (λ stop. stop.0 ≡ self) }
    {
        let mut entries = self.entries;
        match entries.reserve(1) {
            Ok(()) => Ok(Roomy { entries }),
            Err(_) => Err((History { entries }, NoMemory)),
        }
    }

    /// The entries by themselves, the oldest first.
    pub fn into_entries(self) -> Vec<Entry>
        ensures { result.items ≡ self }
    {
        self.entries
    }
}

/// A history with room for one more entry, so that one can be added without memory.
#[derive(Drop)]
pub struct Roomy {
    entries: Vec<Entry>,
}

impl Model for Roomy {
    ghost use Rattle.std.specs.Prelude.{◌<◌, List, vec_capacity, vec_len};
    ghost use Rattle.history_entry.specs.declared.entry.Entry.{Entry as EntryData};

    ghost Value = { List EntryData };

    ghost view = { λ h. h.entries.items };

    ghost invariant = { λ h. vec_len h.entries < vec_capacity h.entries };
}

impl Roomy {
    /// The entries, in order.
    pub fn entries(&self) -> &[Entry]
        ensures { result.now ≡ self.now }
    {
        self.entries.as_slice()
    }

    /// The history with an entry behind its others.
    pub fn push(self, entry: Entry) -> History
        ensures { result ≡ self ++ entry ∷ [] }
    {
        let mut entries = self.entries;
        // There is room, so it can't fail.
        let _ = entries.push(entry);
        History { entries }
    }

    /// The history by itself.
    pub fn release(self) -> History
        ensures { result ≡ self }
    {
        History {
            entries: self.entries,
        }
    }
}
