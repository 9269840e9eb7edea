//! How each process stands in a history of the browser, as the policy table keeps it.
//!
//! The table has a row for each process: absent, warm, locked to the site of a number, or dead. `specs/Standings.antt` says what
//! a row is by the history: sites have numbers in the order of their first orders. [`standing_of`] finds it, and
//! [`last_change`] the one row that the last entry of a legal history changes. Both go through the entries at each call, and take
//! no memory. The laws say that a number stands for one site, and what a death tells of all later histories.
#![tactic(auto)]

mod changes;
pub mod laws;
mod sites;
mod standings;

pub use changes::last_change;
pub use standings::standing_of;
