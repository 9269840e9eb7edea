//! What an audit tells.

use history::EntryKind;

/// What an audit tells of a text.
#[derive(Clone, Copy, Debug, PartialEq, Eq)]
pub enum Audit {
    /// It is the text of a finished legal history of so many entries.
    Legal(u32),
    /// The first line that is no spelling of an entry, numbered from 1; the version line counts. A line past 2^32 - 1 is
    /// told as 2^32 - 1.
    BadLine(u32),
    /// The line, numbered so, of the first entry that may not follow those before it.
    Entry(u32),
    /// The history is legal and not finished: the kind of the first of the entries that may follow.
    Unfinished(EntryKind),
}
