//! A history as a list of entries, and its text.
//!
//! Under the second policy the text begins with the line `history 2`; then each entry has its line. Both are the project's
//! own format. What a history may be is said by the crates above.
#![tactic(auto)]

mod history;
mod text;

pub use history::{History, Roomy};
pub use history_entry::{
    Body, EndHow, Entry, EntryKind, HopOf, LocalWhat, Message, Mode, PieceBytes, Policy, RawUrl,
    Reply, RequestText, Rule, ServiceName, Src, Target,
};
pub use text::{VERSION_LINE, text_of};

#[cfg(test)]
mod tests;
