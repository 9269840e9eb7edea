//! Values that the tests of several crates are made of: URLs of pages, origins and heads of responses, from their texts.
//!
//! No program stands on this crate. Each call fails the test that made it, with the text, where that is not what is asked.
#![tactic(auto)]

mod heads;
mod origins;
mod urls;

pub use heads::head;
pub use origins::{opaque_origin, origin, tuple_origin};
pub use urls::{web_chain, web_url};

#[cfg(test)]
mod tests;
