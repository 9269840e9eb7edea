//! The tasks of a history: which are ready, what each holds, and what its outcome adds.
//!
//! A task is for one object of the browser: a start page, a navigation, an order, a request, a process or a document. It is
//! ready where an entry of its object may follow the history and it is not out. What a worker brings back is an [`Outcome`],
//! and the entries of an outcome are those of its object that it may add. All answers are exact for a legal history, whatever
//! its services' rule is, since services are asked by nobody here: what a document says comes back as a [`Candidate`], whose
//! reply is still to be found.
#![tactic(auto)]

mod candidate;
mod kept;
pub mod laws;
mod objects;
mod outcome;
mod outcomes;
mod ready;
mod task_data;

pub use candidate::Candidate;
pub use history::Entry;
pub use outcome::{ActDone, LoadDone, Outcome};
pub use outcomes::outcome_candidate;
pub use read_verdict::Step;
pub use task_data::next_task;
pub use work_queue::{BrowserJob, Kind, Task, TaskKey, Tasks};
