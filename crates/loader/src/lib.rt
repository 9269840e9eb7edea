//! Loads of responses: takes the body of a response from its wire piece by piece, and hands out nothing of it before a
//! judge has settled that it may be read.
//!
//! A [`Load`] is one load, and [`Load::step`] its next step. Until the verdict is settled it holds the pieces that it
//! takes; then it answers the head, and hands out the pieces in order, first those that it holds and then one a read. It
//! never holds more than the pieces by which the verdict was settled, and the one that it hands out.
#![tactic(auto)]

pub mod laws;
mod load;
mod progress;
mod read;
mod wires;

pub use browser_io::{Failed, ScriptWire, Wire};
pub use load::Load;
pub use read_verdict::{Cleared, Judge, Part, Step};
pub use wires::{empty_wire, wire_of};

#[cfg(test)]
mod tests;
