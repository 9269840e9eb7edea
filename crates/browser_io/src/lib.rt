//! Where bytes come from and where they go to: sources, sinks and wires, each with a count of its faults.
//!
//! A [`Source`] and a [`Sink`] are byte streams after `std::io`'s `Read` and `Write`, with what
//! those leave open said: a call that fails moves no byte, and shows in a count of faults that
//! never falls. [`MemSource`] and [`MemSink`] are streams in memory that fail where they are told
//! to, and [`NeverSource`] and [`NeverSink`] never fail; [`InputSource`] and [`OutputSink`] take any reader or writer. [`read_all`] and
//! [`write_all`] move everything, and say exactly what was moved when they stop early. A [`Wire`]
//! brings the body of a response piece by piece, and a [`ScriptWire`] does so with a body in memory.
#![tactic(auto)]

mod cursor;
mod failed;
mod input_source;
mod memory_sink;
mod memory_source;
mod never_sink;
mod never_source;
mod output_sink;
mod reading;
mod script_wire;
mod sink;
mod source;
#[cfg(test)]
mod stream_tests;
#[cfg(test)]
mod tests;
mod wire;
#[cfg(test)]
mod wire_tests;
mod writing;

pub use call_answers::NoMemory;
pub use failed::Failed;
pub use input_source::InputSource;
pub use memory_sink::MemSink;
pub use memory_source::MemSource;
pub use never_sink::NeverSink;
pub use never_source::NeverSource;
pub use output_sink::OutputSink;
pub use reading::{ReadStop, read_all};
pub use script_wire::ScriptWire;
pub use sink::Sink;
pub use source::Source;
pub use wire::{MAX_PIECE, Wire};
pub use writing::{WriteStop, write_all};
