//! The history with what becomes of an outcome, and the tasks that are out afterwards.

ghost use Rattle.std.specs.Prelude.{◌≡◌, IfOk, OnErr};
ghost use Rattle.history_steps.specs.ScriptLimits.{IsWithinLimits};
ghost use Rattle.browser_core.specs.Applying.{Extends, out_after, stays_out};
ghost use Rattle.browser_core.specs.Cores.{IsInStep};
ghost use Rattle.browser_tasks.specs.Outcomes.{IsOutcome};

use crate::facts::{Settled, entry_count, outcome_entry};
use browser_tasks::{Outcome, Tasks};
use history::{History, Roomy};
use history_laws::script_is_within_limits;
use origin_service::Service;
use script_model::{NoMemory, Script};
use std::alloc::Global;

/// What became of an outcome.
#[derive(Clone, Copy, Debug, PartialEq, Eq)]
pub enum Applied {
    /// Its entry stands at this place.
    Entry(u32),
    /// It came too late: one of its entries could follow so many entries, and none one more.
    Stale(u32),
}

impl Applied {
    /// Whether the outcome's task goes on: its entry was added, and it has more behind it.
    pub(crate) fn stays_out(self, outcome: &Outcome) -> bool
        ensures { result ≡ stays_out outcome.now self }
    {
        match self {
            Applied::Entry(_) => outcome.goes_on(),
            Applied::Stale(_) => false,
        }
    }
}

/// Ends the task of an outcome that was applied, unless it goes on.
pub(crate) fn end_task(tasks: &mut Tasks, outcome: &Outcome, applied: Applied)
    ensures out { tasks.new.out ≡ out_after outcome.now applied tasks.old.out }
    ensures ready { tasks.new.ready ≡ tasks.old.ready }
{
    if !applied.stays_out(outcome) {
        tasks.done(outcome.key());
    }
}

/// Fills the room behind a history with what an outcome adds, if it adds anything.
fn fill_outcome<V: Service>(
    alloc: Global,
    script: &Script,
    roomy: Roomy,
    services: &mut V,
    outcome: &Outcome,
) -> (History, Result<Applied, NoMemory>)
    requires limits { IsWithinLimits script.now }
    requires kept { IsInStep V.rule (V.kept services.old) script.now roomy }
    requires possible { IsOutcome V.rule script.now roomy outcome.now }
    ensures applied { IfOk result.1 (Extends V.rule script.now outcome.now roomy result.0) }
    ensures err { OnErr result.1 (result.0 ≡ roomy) }
    ensures kept { IsInStep V.rule (V.kept services.new) script.now result.0 }
{
    let place = entry_count(roomy.entries());
    match outcome_entry(alloc, script, roomy.entries(), services, outcome) {
        Ok(Settled::Entry(entry)) => (roomy.push(entry), Ok(Applied::Entry(place as u32))),
        Ok(Settled::Stale(last)) => (roomy.release(), Ok(Applied::Stale(last))),
        Err(stop) => (roomy.release(), Err(stop)),
    }
}

/// The history with what an outcome adds. Where memory runs out it is as before.
pub(crate) fn append_outcome<V: Service>(
    alloc: Global,
    script: &Script,
    history: History,
    services: &mut V,
    outcome: &Outcome,
) -> (History, Result<Applied, NoMemory>)
    requires kept { IsInStep V.rule (V.kept services.old) script.now history }
    requires possible { IsOutcome V.rule script.now history outcome.now }
    ensures applied { IfOk result.1 (Extends V.rule script.now outcome.now history result.0) }
    ensures err { OnErr result.1 (result.0 ≡ history) }
    ensures kept { IsInStep V.rule (V.kept services.new) script.now result.0 }
{
    script_is_within_limits(script);
    match history.with_room() {
        Ok(roomy) => fill_outcome(alloc, script, roomy, services, outcome),
        Err((history, stop)) => (history, Err(stop)),
    }
}
