//! What calls answer beside their results: the want of memory, of one type and with one text in every crate, and words by
//! which contracts say what a call gives but for that.
#![tactic(auto)]

mod memory;

pub use memory::NoMemory;

#[cfg(test)]
mod tests;
