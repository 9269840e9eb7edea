//! Workers that share one core, each in a thread of its own.
//!
//! A worker claims a task while it has the turn of the shared table, does the task without the turn, and brings each outcome back
//! under the turn again. So at any moment at most one worker has the core, and the history stays legal whatever order they come in.
//! Before each step of a load the worker asks the table, without a turn, how the process of the request stands. [`run_workers`] goes
//! on until each worker has seen the finished history, or one of them found no memory. A [`Gate`] is told what the workers do.
#![tactic(auto)]

mod asking;
mod bench;
mod claims;
mod core_book;
mod gate;
mod load_work;
mod named;
mod run;
mod seats;
mod standings;
mod worker;

pub use browser_core::{Core, Kind, Service, Store, TaskKey};
pub use gate::{Gate, NoGate, Point};
pub use policy_table::{NoMemory, Standing};
pub use run::run_workers;
