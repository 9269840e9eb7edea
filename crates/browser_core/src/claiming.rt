//! What a worker gets that asks for a task.

ghost use Rattle.std.specs.Prelude.{◌≡◌, ◌-◌, ◌<◌, ◌^◌, [], IfOk, OnErr, false, length};
ghost use Rattle.std.specs.Bool.{OnFalse};
ghost use Rattle.browser_core.specs.Handing.{ClaimsWell, HandsOver};
ghost use Rattle.browser_tasks.specs.TaskData.{IsLegal};
ghost use Rattle.work_queue.specs.Keys.{key_of};
ghost use Rattle.work_queue.specs.Work.{SameTasks, is_out};

use crate::facts::ready_task;
use browser_tasks::{Entry, Kind, Task, Tasks};
use script_model::{NoMemory, Script};
use std::alloc::Global;
use work_queue::Claim;

/// Whether no more tasks can be counted.
fn is_full(tasks: &mut Tasks, kind: Kind) -> bool
    requires none { tasks.old.ready ≡ [] }
    ensures same { SameTasks tasks.old tasks.new }
    ensures few { OnFalse result (length tasks.new.out < 2 ^ 32 - 1) }
{
    match tasks.claim(kind) {
        Claim::None(count) => count == u32::MAX,
        Claim::Task(_) => unreachable!(),
    }
}

/// Hands out a task that is not out. It passes through the queue, where nothing else waits.
fn hand_out(tasks: &mut Tasks, kind: Kind, task: Task) -> Result<Claim, NoMemory>
    requires none { tasks.old.ready ≡ [] }
    requires free { is_out (key_of task) tasks.old.out ≡ false }
    ensures handed { IfOk result (HandsOver task tasks.old tasks.new) }
    ensures err { OnErr result (SameTasks tasks.old tasks.new) }
{
    if is_full(tasks, kind) {
        return Err(NoMemory);
    }
    tasks.offer(task)?;
    Ok(tasks.claim(kind))
}

/// What a worker of a kind gets. Where memory runs out nothing is handed out.
pub(crate) fn claim_task(
    alloc: Global,
    script: &Script,
    entries: &[Entry],
    tasks: &mut Tasks,
    kind: Kind,
) -> Result<Claim, NoMemory>
    requires none { tasks.old.ready ≡ [] }
    requires legal { IsLegal script.now entries.now }
    ensures claims { IfOk result (ClaimsWell script.now entries.now kind tasks.old.out tasks.new.out) }
    ensures none { tasks.new.ready ≡ [] }
    ensures err { OnErr result (tasks.new.out ≡ tasks.old.out) }
{
    match ready_task(alloc, script, entries, tasks, kind)? {
        Some(task) => hand_out(tasks, kind, task),
        None => Ok(tasks.claim(kind)),
    }
}
