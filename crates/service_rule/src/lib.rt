//! The rule by which a service answers, and the service `store`.
//!
//! A service's answer depends on its name, on the requests that it accepted of the same origin before, on the current
//! documents and on the request: it is a pure function of these. The program's own service is `store`, which keeps keys
//! with values for each origin, after the local storage of the HTML Standard. The rules are the project's own.
#![tactic(auto)]

pub mod limits;
pub mod request;
mod service;
mod store;

pub use service::{Asked, ServiceAnswer, ServiceRule};
pub use store::PlainStore;

#[cfg(test)]
mod tests;
