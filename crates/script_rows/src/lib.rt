//! Generated scripts and summaries of histories, by rows that are worked out by hand.
//!
//! What the script of 7 is, and what scripts of other numbers have: its pages, frames' documents and responses, by its draws, of which the
//! first two are 15,648 and 59,866. All of this crate is tests.
#![tactic(auto)]

#[cfg(test)]
mod tests;
