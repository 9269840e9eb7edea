//! The browser's state: a core whose every call keeps a legal history.
//!
//! A [`Core`] holds a script, a history of it, and the services that its documents ask. Whatever is called, the history is legal
//! under the services' rule, and the services keep exactly what it accepted. [`Core::first`] adds the first of the entries that
//! may follow, so a core that is driven by it alone makes the run of one thread, as [`run`] does. Workers ask for tasks by
//! [`Core::claim`] and bring back what came of them by [`Core::apply`], in any order. All that the core asks of its history it asks
//! in the module `facts`, and nothing else of it looks at the list of entries.
#![tactic(auto)]

mod applying;
mod claiming;
mod facts;
mod running;
mod state;
mod steps;

pub use applying::Applied;
pub use browser_tasks::{ActDone, BrowserJob, Kind, LoadDone, Outcome, Step, Task, TaskKey};
pub use history::{Entry, History};
pub use origin_service::{Service, Store};
pub use running::run;
pub use state::Core;
pub use work_queue::Claim;
