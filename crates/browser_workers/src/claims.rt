//! What is known of a task that a core handed out.

ghost use Rattle.browser_workers.specs.Booking.{IsKnown};

use browser_core::{Claim, Entry};
use script_model::Script;
use task_work::claim_is_read;

/// Says that a task that a core handed out is one of its history. It only looks at the script and the entries.
pub(crate) fn claim_is_known(script: &Script, entries: &[Entry], claim: &Claim)
    ensures { IsKnown script.now entries.now claim.now }
{
    match claim {
        Claim::Task(task) => claim_is_read(script, entries, task),
        Claim::None(_) => {}
    }
}
