//! Services that answer the requests of tuple origins.
//!
//! A [`Service`] keeps, of each origin by itself, the requests that it accepted, and answers by a rule over these alone: what
//! one origin asks shows in no answer to another one, also of the same site. [`Store`] is the service `store`: it finds an origin
//! among those that asked and its key in a map, and goes through no earlier requests.
#![tactic(auto)]

mod service;
mod shelf;
mod store;

pub use service::Service;
pub use store::Store;

#[cfg(test)]
mod tests;
