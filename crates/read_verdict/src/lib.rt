//! Read blocking: judges, while a response comes in pieces, whether the document that made the request may read it.
//!
//! A [`Judge`] answers after each piece the verdict on all bytes so far, by the one table of verdicts
//! (`script_model`, `specs/Verdicts.antt`), and settles as early as these bytes allow. A verdict that is settled stays
//! whatever follows. Only a judge that settled on an Allow makes a [`Cleared`], without which no byte of a response is
//! handed out. `feed`, `finish` and `cleared` take no memory. A [`Step`] is what a load answers, and a [`Part`] a piece that it
//! hands out.
#![tactic(auto)]

mod cleared;
mod judge;
pub mod laws;
mod part;
mod ruling;
mod step;

pub use cleared::Cleared;
pub use judge::Judge;
pub use part::Part;
pub use ruling::Ruling;
pub use step::Step;

#[cfg(test)]
mod tests;
