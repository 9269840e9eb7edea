//! Scripts in JSON, as they are read and refused.
//!
//! What no clause says of `script_input`: each row of the format with the value that it stands for, and each refusal with its text. All of this crate is tests.
#![tactic(auto)]

#[cfg(test)]
mod tests;
