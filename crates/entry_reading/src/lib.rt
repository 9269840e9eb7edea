//! Reading the lines of a history's text back: entries, messages and replies from their spellings.
//!
//! The format is that of `entry_text`: each entry, message and reply has one spelling, and exactly the spellings are
//! read. A reader goes from field to field, and each field's reader takes its spellings alone, so nothing is printed again.
#![tactic(auto)]

mod bodies;
mod fields;
mod kept;
mod laws;
mod lines;
mod origins;
mod reading;
mod replies;
mod rules;
mod stop;

pub use kept::{entries_are_kept, entry_is_kept, source_is_kept, target_is_kept};
pub use laws::{entries_have_one_spelling, no_line_begins_another};
pub use reading::{read_entry, read_line, read_message, read_reply};
pub use stop::{EntryStop, MessageStop, ReplyStop};
