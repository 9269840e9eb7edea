//! The run of one thread.

ghost use Rattle.std.specs.Prelude.{◌≡◌, IfOk};
ghost use Rattle.history_steps.specs.Run.{IsRun, first_next};

use crate::listing::nexts;
use history_entries::History;
use history_laws::script_is_within_limits;
use script_model::{Entry, NoMemory, Script, ServiceRule};
use std::alloc::Global;

/// The first entry that may follow a history.
fn first_next<R: ServiceRule>(
    alloc: Global,
    script: &Script,
    services: &R,
    history: &History,
) -> Result<Option<Entry>, NoMemory>
    ensures { IfOk result (λ first. first ≡ first_next R.rule script.now history.now) }
{
    let mut found = nexts(alloc, script, services, history)?;
    if found.is_empty() {
        return Ok(None);
    }
    Ok(Some(found.remove(0)))
}

/// The run of one thread: it starts with nothing, and appends the first entry that may follow until there is none.
pub fn run1<R: ServiceRule>(
    alloc: Global,
    script: &Script,
    services: &R,
) -> Result<History, NoMemory>
    ensures { IfOk result (λ history. IsRun R.rule script.now history) }
{
    script_is_within_limits(script);
    let mut history = History::new(alloc);
    loop {
        match first_next(alloc, script, services, &history)? {
            Some(entry) => history.push(entry)?,
            None => return Ok(history),
        }
    }
}
