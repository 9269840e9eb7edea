//! What a core asks of its history: the one module that looks at the list of entries.
//!
//! The calls below are all that the rest of the core knows of a history: how many entries it has, the first entry that may
//! follow, what becomes of an outcome, whether one may be brought back, and which task is ready. Behind them the facts are found
//! by going through the list at each question, by the plain programs of `plain_facts`, `history` and `browser_tasks`; an index
//! of the history has its place here.

ghost use Rattle.std.specs.Prelude.{◌≡◌, length};

use history::Entry;

mod first;
mod judgement;
mod outcomes;
mod possible;
mod ready;
mod settling;

pub(crate) use first::has_next;
pub(crate) use possible::{could_follow, is_vouched};
pub(crate) use ready::ready_task;
pub(crate) use settling::{Settled, first_entry, outcome_entry};

/// How many entries a history has.
pub(crate) fn entry_count(entries: &[Entry]) -> usize
    ensures { result ≡ length entries.now }
{
    entries.len()
}
