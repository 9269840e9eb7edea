//! The facts of a history of all thirteen kinds of entries, found by going through its entries at each call.
//!
//! Each function answers exactly the definition of its name in `history_rules`. These are the plain, slow
//! programs, the yardstick for the indexes that a browser keeps. What asks the entries alone is a function of a module of its
//! subject; what asks the script too is a method of [`PlainFacts`], which keeps the frame of each navigation.
#![tactic(auto)]

mod climb;
pub mod documents;
mod facts;
pub mod frames;
pub mod navigations;
pub mod numbers;
pub mod orders;
pub mod processes;
pub mod requests;

pub use facts::PlainFacts;
