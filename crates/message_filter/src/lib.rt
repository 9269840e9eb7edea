//! What the browser answers to a message of a process, over any facts of a history.
//!
//! A message may be forged in every part, so nothing that it says is believed. [`judge`] asks [`Facts`], which a browser may
//! keep as indexes, and a [`Service`] that answers requests. Its reply is exactly that of the table in `history_rules`, after
//! Chromium's `ChildProcessSecurityPolicy`: the first row that holds decides.
#![tactic(auto)]

mod asking;
mod commit;
mod facts;
mod judgement;
mod rows;

pub use facts::Facts;
pub use judgement::judge;
pub use origin_service::Service;
