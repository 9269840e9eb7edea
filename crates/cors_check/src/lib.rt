//! The CORS check of the Fetch Standard, of requests without credentials.
//!
//! A request has an origin, and a chain of URLs: its first one and those that it was redirected to. [`check`] answers
//! exactly as the definitions of `specs/Cors` say, and takes no memory; [`compared_text`] is made once a chain.
#![tactic(auto)]

mod answer;
mod chain;
mod compared;

pub use answer::{Cors, check};
pub use chain::is_same_origin_chain;
pub use compared::compared_text;

#[cfg(test)]
mod tests;
