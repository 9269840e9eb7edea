//! The judgement of messages, by rows.
//!
//! What no clause says of `message_filter`: each row of the judgement over the facts of a small history, for each standing of a process. All of this crate is tests.
#![tactic(auto)]

#[cfg(test)]
mod tests;
