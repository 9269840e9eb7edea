//! The choice of a process for a frame and a site.
//!
//! The answer is exactly the definition of its name in `history_rules`, found over
//! [`PlainFacts`](plain_facts::PlainFacts): the process of the frame's group, one of the site for a subframe or past the soft
//! limit, the spare one, or a new one.
#![tactic(auto)]

mod choices;

pub use choices::{choice, next_process, warm_process};
