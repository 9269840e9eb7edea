//! The lines of a history's text: what an entry, a message's body and a reply look like.
//!
//! One entry is one line that ends with a line feed. Fields are separated by one space, numbers are decimal, texts are
//! lower-case hexadecimal, and a URL stands last. All of this is the project's own format.
#![tactic(auto, using(crate::proofs::Growing::grows_by_none, crate::proofs::Growing::grows_on))]

mod bodies;
mod fields;
mod lines;
mod origins;
mod replies;

pub use bodies::message_text;
pub use lines::{put_entry, put_line};
pub use replies::reply_text;
