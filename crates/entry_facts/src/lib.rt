//! What one entry of a history says, and what its message and its reply say.
//!
//! Each function answers exactly the definition of its name in `history_rules`, in a module of the same subject.
//! Numbers that are asked for are `u64`, since a history of a clause may be of any length.
#![tactic(auto)]

mod asking;
mod committed;
pub mod documents;
pub mod entries;
pub mod frames;
pub mod inboxes;
pub mod messages;
pub mod navigations;
mod ordered;
pub mod orders;
mod post;
pub mod processes;
pub mod requests;
pub mod services;
pub mod sights;

pub use asking::Asking;
pub use committed::Committed;
pub use ordered::Ordered;
pub use post::Post;
