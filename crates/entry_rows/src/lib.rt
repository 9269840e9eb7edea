//! Lines of histories, as they are printed and read.
//!
//! What no clause says of `history_entry`, `entry_text` and `entry_reading`: the code of each rule, literal lines of each kind of
//! entry, and lines that are none. All of this crate is tests.
#![tactic(auto)]

#[cfg(test)]
mod tests;
