//! One object that several threads share, as one history, with a row for the standing of each process.
//!
//! It has the place of the process table in Chromium's `ChildProcessSecurityPolicyImpl`, and knows nothing
//! of the browser: `Booked` is its one view of the object. It follows no public standard.
//!
//! A `Desk` has the object, and a `Pass` is the right to call it. Contracts see a pass as the desk, the
//! beginning of the desk's one history that it has `seen`, the places there of its own entries (`mine`)
//! and its `weight`; the weights of all passes add up to 16.
//!
//! - `act` waits for the turn. It makes its call at a history that begins with all that the pass had seen,
//!   and adds one entry or none, as the object of one thread does. It finds no memory only where the
//!   object's call at that history found none.
//! - `standing` and `can_access` are one atomic load each. Their answer is that of a history that begins
//!   with all that the pass had seen, and which the pass has seen afterwards. They take no runtime, so
//!   they can't wait.
//! - `split` and `note` give a pass that has seen as much, `meet` takes in what another has seen, and
//!   `close` gives the object back, with just the history that the last pass has seen.
//!
//! `docs/POLICY_TABLE.md` tells the rule of the table, and `specs/TableRule.antt` states it.
#![tactic(auto)]

mod booked;
mod desk;
mod handle;
mod pass;
mod plays;
mod row_words;
mod standing;
mod steps;
mod view;

pub use booked::Booked;
pub use call_answers::NoMemory;
pub use desk::Desk;
pub use handle::Handle;
pub use pass::Pass;
pub use standing::{PROCESSES, Standing};

#[cfg(test)]
mod tests;
