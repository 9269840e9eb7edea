//! Scripts by number, and summaries of histories.
//!
//! A number stands for one script of 48 resources, on every machine, so that a run is named by a number. A summary tells of a history
//! how many entries it has, how many bytes it delivered, and which rules it met how often. Both are the project's own format.
#![tactic(auto)]

mod actions;
mod draws;
mod fields;
mod generator;
mod responses;
mod summary;
mod urls;

pub use generator::generate;
pub use summary::summary_of;
