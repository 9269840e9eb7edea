//! Window messages on their way to documents: an inbox for each document, known by the document's number.
//!
//! A post that the browser accepted waits in its document's inbox until the document takes it, as messages of
//! `window.postMessage` do by the HTML Standard. Each inbox is first in, first out, and no call touches another document's.
#![tactic(auto)]

mod inboxes;

pub use call_answers::NoMemory;
pub use inboxes::Inboxes;
pub use script_model::Posted;

#[cfg(test)]
mod tests;
