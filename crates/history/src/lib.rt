//! Histories: which entries may follow one, the judgement of a message, and the run of one thread.
//!
//! A history is legal where each entry may follow those before it, and finished where none may follow. The run of one
//! thread starts with nothing and appends the first entry that may follow until there is none. `may`, `nexts`, `run1` and
//! `reply_of` are the plain, slow browser, the yardstick for the quick one. What they answer is defined in `history_steps`
//! and `history_rules`; the rules are the project's own, after Chromium's process model.
#![tactic(auto)]

pub mod acts;
pub mod deliveries;
pub mod documents;
mod following;
mod judging;
pub mod kinds;
mod listing;
pub mod navigations;
pub mod processes;
mod run;

pub use following::may;
pub use history_entries::{
    Body, EndHow, Entry, EntryKind, History, HopOf, LocalWhat, Message, Mode, PieceBytes, Policy,
    RawUrl, Reply, RequestText, Roomy, Rule, ServiceName, Src, Target, text_of,
};
pub use judging::reply_of;
pub use listing::nexts;
pub use run::run1;
