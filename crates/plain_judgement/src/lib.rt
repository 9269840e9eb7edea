//! What the browser answers to a message of a process.
//!
//! A message is judged by the history before it alone: the first row of its kind that holds decides. The answer is exactly
//! the definition of its name in `history_rules`, found over [`PlainFacts`](plain_facts::PlainFacts).
#![tactic(auto)]

mod asking;
mod judgement;
mod rows;
mod services;

pub use judgement::{judge_commit, reply_of};
pub use services::accepted_requests;
