//! The act of a document.

ghost use Rattle.std.specs.Prelude.{◌≡◌, IfOk, List};
ghost use Rattle.history_entry.specs.declared.entry.Entry.{Entry};
ghost use Rattle.history_rules.specs.Actions.{act_in};
ghost use Rattle.service_rule.specs.Services.{ServiceRule};
ghost use Rattle.work_queue.specs.declared.task.Task.TheVariants.{Act as ActTaskOf};
ghost use Rattle.browser_tasks.specs.Outcomes.{CanFollow};
ghost use Rattle.browser_tasks.specs.declared.outcome.Outcome.TheVariants.{Act as OutcomeOf};
ghost use Rattle.task_work.specs.Claimed.{IsTaskOf};

use browser_tasks::ActDone;
use renderer_run::message_of;
use script_model::{NoMemory, Script};
use std::alloc::Global;
use work_queue::ActTask;

/// What the action of a task comes to, in the sight of its document. It may be brought back to the history of the claim.
#[tactic(auto, using(crate::proofs::Acting::act_follows))]
pub fn act_done(alloc: Global, script: &Script, task: &ActTask) -> Result<ActDone, NoMemory>
    ensures document { IfOk result (λ done. done.document ≡ task.now.sight.document) }
    ensures action { IfOk result (λ done. done.action ≡ task.now.action) }
    ensures act { IfOk result (λ done. done.act ≡ act_in script.now task.now.sight task.now.action) }
    ensures could { IfOk result (λ done. (rule : ServiceRule) (h : List Entry) →
        IsTaskOf rule script.now h (ActTaskOf task.now) → CanFollow rule script.now h (OutcomeOf done)) }
{
    let act = message_of(alloc, script, &task.sight, u64::from(task.action))?;
    Ok(ActDone {
        document: task.sight.document,
        action: task.action,
        act,
    })
}
