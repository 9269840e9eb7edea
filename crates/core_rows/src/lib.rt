//! Cores that are driven by hand: tasks are claimed, and what came of them is brought back in any order and any number of times.
//! Tests alone.
#![tactic(auto)]

#[cfg(test)]
mod tests;
