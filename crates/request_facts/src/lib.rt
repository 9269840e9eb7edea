//! Responses, redirects, chains of URLs, requests, inboxes, and what a document sees.
//!
//! Each function answers exactly the definition of its name in `history_rules`, for a history whatever its texts are: a
//! text that should be a URL is read at each call. These are the plain, slow programs, over the facts of `plain_facts`.
#![tactic(auto)]

mod chain;
pub mod inboxes;
pub mod navigations;
pub mod redirects;
pub mod requests;
mod response;
pub mod sights;
pub mod verdicts;

pub use chain::Chain;
pub use response::{Response, resource_at};
