//! The text of a history, read back.
//!
//! `read_text` answers exactly the policy and the history whose text the bytes are, and else the first line that is no
//! spelling of an entry. A text of the second policy begins with the line `history 2`, and one of the first does not have
//! the rule B8. Each history has one text under a policy, and no line begins another, so the answer is the only one. The
//! readers and printers of single entries, messages and replies are given out again.
#![tactic(auto)]

mod kept;
mod laws;
mod reading;
mod stop;

pub use entry_reading::{EntryStop, MessageStop, ReplyStop, read_entry, read_message, read_reply};
pub use entry_text::{message_text, reply_text};
pub use kept::history_is_kept;
pub use laws::{histories_have_one_text, texts_have_one_policy};
pub use reading::{line_number, read_text};
pub use stop::TextStop;

#[cfg(test)]
mod tests;
