//! Numbers as texts write them: decimal, below 2^32 or 2^64, without sign and without leading zeros.
#![tactic(auto)]

mod number;

pub use number::{decimal_number, long_decimal_number};

#[cfg(test)]
mod tests;
