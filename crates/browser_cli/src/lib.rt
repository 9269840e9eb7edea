//! The top call of the browser: words, a source and a sink in, a status out.
//!
//! `browse` does all that the program does. The command `one` reads a script, makes its one-thread run and writes the text of
//! that history; `run` lets browser, renderers and loaders act on it in threads, and writes the text of the history that they
//! made; `audit` reads a script with a text and says whether it is that of a finished legal history; `gen` writes the summary of a
//! generated script's run. `browse_one` is the same without `run`, and waits for nobody. `status_line` and `Status::exit_code`
//! are how a status shows outside.
//!
//! The headline is a row of clauses of `browse`, from `history` to `honest`: `specs/Headline.antt` and `docs/CLAIMS.md`.
#![tactic(auto)]

mod answers;
mod command;
mod framing;
mod laws;
mod one_thread;
mod reading;
mod status;
mod top_call;
mod workers;

pub use browser_workers::{Gate, NoGate, Point};
pub use command::{Command, command_of};
pub use laws::statuses_are_unique;
pub use one_thread::browse_one;
pub use script_input::{PathText, Refusal, ScriptStop, read_script};
pub use status::{Finding, LineText, Status, status_line};
pub use top_call::browse;

#[cfg(test)]
mod tests;
