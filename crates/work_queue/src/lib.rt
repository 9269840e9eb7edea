//! The tasks of the browser's workers: which are ready, and which are out.
//!
//! A task is something that a worker can do for one object of the browser: a job of the browser itself, the next action of a
//! document, or the next step of a load. The browser offers a task, a worker claims it, and then the task is out until it
//! is done or given back. Of one object at most one task is ready or out, so no two workers do the same.
#![tactic(auto)]

mod lists;
mod task;
mod tasks;

pub use call_answers::NoMemory;
pub use history_entry::Mode;
pub use history_rules::{FrameList, Sight};
pub use page_origin::{Origin, PageUrl};
pub use task::{ActTask, BrowserJob, Chain, Kind, LoadTask, Task, TaskKey};
pub use tasks::{Claim, Tasks};

#[cfg(test)]
mod tests;
