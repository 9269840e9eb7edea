//! What a worker does with a task that it claimed, away from the history: the act of a document, and the load of a response.
//!
//! A worker claims a task of a browser's core, does it while others add entries, and brings back what came of it. Here is the part in
//! the middle. The contracts speak of histories that the worker does not see: what was made may be brought back to every history that
//! goes on from the one of the claim. [`act_done`] makes the outcome of an act, and a [`TaskLoad`] steps through a response. A job of
//! the browser needs no work: its outcome names its object.
//!
//! Contracts say by `IsTaskOf` that a task was claimed at a history, and by `StandsWithin` that a load stands at some beginning of a
//! history: that the request has got there exactly what the load has handed out.
#![tactic(auto)]

mod act;
mod claims;
pub mod laws;
mod load;

pub use act::act_done;
pub use browser_tasks::{ActDone, LoadDone, Outcome, Step, Task};
pub use claims::claim_is_read;
pub use load::TaskLoad;
