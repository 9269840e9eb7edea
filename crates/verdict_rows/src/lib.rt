//! The format of scripts and the table of verdicts, by rows.
//!
//! What no clause says of `script_model`: each limit as a number, and the verdict of each row of the tables of CORS and read blocking. All of this crate is tests.
#![tactic(auto)]

#[cfg(test)]
mod tests;
