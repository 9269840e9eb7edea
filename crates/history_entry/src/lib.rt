//! The entries of a history, and the messages and replies that they carry.
//!
//! A history is a list of entries of thirteen kinds. A renderer speaks to the browser by eight messages, each of which
//! gets a reply, and each refusal carries the code of its rule. All of this is the project's own format. Here are the
//! types, their copies and their equality.
#![tactic(auto)]

mod body;
mod entry;
mod equal;
pub mod laws;
mod piece;
mod plain_text;
mod policy;
mod reply;
mod rule;
mod text;

pub use body::{Body, Message, Mode, Src, Target};
pub use entry::{EndHow, Entry, EntryKind, HopOf, LocalWhat};
pub use equal::{equal_entries, equal_messages};
pub use piece::PieceBytes;
pub use policy::Policy;
pub use reply::Reply;
pub use rule::Rule;
pub use text::{RawUrl, RequestText, ServiceName};
