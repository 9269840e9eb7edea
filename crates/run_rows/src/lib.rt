//! Scripts with the whole histories of their one-thread runs.
//!
//! The histories are written by hand from the rules, and not by a program: so they hold the definitions of what may follow, on
//! which all proofs stand, to what they are meant to say. All of this crate is tests: a module is a subject, and each of its
//! rows has what it shows, a script, and the text of the script's run.
#![tactic(auto)]

#[cfg(test)]
mod tests;
