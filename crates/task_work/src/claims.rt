//! What is known of a task that a core handed out.

ghost use Rattle.std.specs.Prelude.{List};
ghost use Rattle.history_steps.specs.Run.{Legal};
ghost use Rattle.service_rule.specs.Services.{ServiceRule};
ghost use Rattle.work_queue.specs.Keys.{key_of};
ghost use Rattle.work_queue.specs.declared.task.TaskKey.{TaskKey};
ghost use Rattle.browser_tasks.specs.Readiness.{IsReady};
ghost use Rattle.browser_tasks.specs.TaskData.{HoldsFacts};
ghost use Rattle.task_work.specs.Claimed.{IsTaskOf};

use entry_reading::entries_are_kept;
use kept_entries::script_is_kept;
use script_model::{Entry, Script};
use work_queue::Task;

/// Says that a task that was ready at a legal history, and holds its facts, is one of the history: the URLs of a load name themselves.
/// It only looks at the script and the entries.
pub fn claim_is_read(script: &Script, entries: &[Entry], _task: &Task)
    ensures { (rule : ServiceRule) (out : List TaskKey) → Legal rule script.now entries.now → HoldsFacts script.now entries.now _task.now
        → IsReady rule script.now entries.now out (key_of _task.now) → IsTaskOf rule script.now entries.now _task.now }
{
    script_is_kept(script);
    entries_are_kept(entries);
}
