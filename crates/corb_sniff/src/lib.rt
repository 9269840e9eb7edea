//! Tells from the first 1,024 bytes of a body, which come in pieces, whether it is HTML, XML or JSON, or begins with a
//! prefix that keeps it from running as a script: what read blocking asks of a response that no page of another site
//! is to read.
//!
//! The rules are our own, after Chromium's explainer of Cross-Origin Read Blocking (CORB); each file of `specs/` that
//! states one says so. They are grammars over whole lists of bytes. [`Sniffer`] reads byte by byte and keeps a state
//! of constant size, and its answer after any pieces is that on all their bytes. No call takes memory.
#![tactic(auto)]

mod front;
mod html;
mod json;
mod kind;
pub mod laws;
mod prefix;
mod sniffer;
mod tag;
#[cfg(test)]
mod tests;
mod whole;
mod xml;

pub use kind::{Answer, SniffKind, Sniffed};
pub use sniffer::Sniffer;
pub use whole::sniff;
