//! Reads scripts: JSON texts that say which pages a browser opens, which resources there are, and what their documents do.
//!
//! [`read_script`] answers the script that bytes are, or why they are none. It goes by JSON (RFC 8259) as the crate
//! `serde_json` reads it; by the tables of `docs/FORMATS.md`, which are this project's own; and for what stands in them by
//! the URL Standard, the names of header fields of RFC 9110, and the Public Suffix List's format.
//!
//! Every text is a script or is refused at the first of its faults, in the order of those tables, with a code, a path and a
//! line; else memory ran out. A script that is answered is exactly the one that `specs/ScriptReading.antt` reads, and keeps
//! the limits of the format. A refusal has one spelling, which `specs/Refusals.antt` defines and which its `Display` writes.
#![tactic(auto)]

mod action;
mod body;
mod frame;
mod header;
mod list;
mod object;
mod raw_message;
mod refusal;
mod resource;
mod script;
mod text;
mod urls;
mod value;
mod word;

pub use refusal::{PathText, Refusal, ScriptStop};
pub use script::read_script;
