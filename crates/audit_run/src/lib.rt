//! Audits of histories: whether a text is that of a finished legal history of a script, and if not, why.
//!
//! `audit` passes exactly the texts of finished legal histories, of either version: whatever order the browser's threads took,
//! its history must be one that the rules allow. Of any other text it tells the first bad line, or else the first entry that may
//! not follow those before it, or else what is missing. What may follow is defined in `history_steps`, the text of a history in
//! `history_entries`; that audits ask these is the project's own.
#![tactic(auto)]

mod answer;
mod auditing;
mod laws;
mod lines;

pub use answer::Audit;
pub use auditing::audit;
pub use history::EntryKind;
pub use laws::{audits_are_unique, histories_pass, lines_begin_with_words, runs_pass};
pub use lines::{audit_line, kind_word};
