//! The task that is ready for a worker.

ghost use Rattle.std.specs.Prelude.{◌≡◌, [], IfOk, IfSome};
ghost use Rattle.std.specs.Option.{option_map};
ghost use Rattle.browser_tasks.specs.Readiness.{ChoosesWell};
ghost use Rattle.browser_tasks.specs.TaskData.{HoldsFacts, IsLegal};
ghost use Rattle.work_queue.specs.Keys.{key_of};

use browser_tasks::{Entry, Kind, Task, Tasks, next_task};
use plain_facts::PlainFacts;
use script_model::{NoMemory, Script};
use std::alloc::Global;

/// A ready task for a worker of a kind.
pub(crate) fn ready_task(
    alloc: Global,
    script: &Script,
    entries: &[Entry],
    tasks: &Tasks,
    kind: Kind,
) -> Result<Option<Task>, NoMemory>
    requires none { tasks.now.ready ≡ [] }
    requires legal { IsLegal script.now entries.now }
    ensures chosen { IfOk result (λ task. ChoosesWell script.now entries.now tasks.now.out kind (option_map key_of task)) }
    ensures holds { IfOk result (λ task. IfSome task (HoldsFacts script.now entries.now)) }
{
    let facts = PlainFacts::new(alloc, script, entries)?;
    next_task(alloc, &facts, tasks, kind)
}
