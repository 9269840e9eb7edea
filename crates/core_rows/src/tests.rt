//! Rows that drive a core, step by step.

mod driver;
mod forged;
mod loads;
mod orders;
mod tasks;
