//! Runs by several workers, whose points a gate counts and whose histories are audited, the work of single tasks, and how
//! processes stand after each kind of entry. Tests alone.
#![tactic(auto)]

#[cfg(test)]
mod tests;
