//! The list of ready tasks, and that of the keys of the tasks out.

ghost use Rattle.std.specs.Prelude.{◌≡◌, ◌+◌, ◌^◌, ◌<◌, ◌≤◌, IfNone, OnErr, OnOk, OnSome, cond, count_by, min, position, unwrap_or, vec_capacity, vec_len};
ghost use Rattle.std.specs.Bool.{OnFalse};
ghost use Rattle.std.specs.VecDeque.{deque_capacity, deque_len};
ghost use Rattle.work_queue.specs.Claims.{Takes};
ghost use Rattle.work_queue.specs.Keys.{is_of, same_key};
ghost use Rattle.work_queue.specs.Work.{has_key, is_out, is_ready, without_key};
ghost use Rattle.work_queue.specs.declared.task.TaskKey.{TaskKey};

use crate::task::{Kind, Task, TaskKey, same_key};
use call_answers::NoMemory;
use std::collections::VecDeque;

fn first_of(ready: &VecDeque<Task>, kind: Kind) -> Option<usize>
    ensures { result ≡ position (is_of kind) ready.now.items }
{
    ready.iter().position(|task| task.is_of(kind))
}

/// The place of the task for a kind, where any task is ready.
fn place_for(ready: &VecDeque<Task>, kind: Kind) -> usize
    ensures { result ≡ unwrap_or (position (is_of kind) ready.now.items) 0 }
{
    first_of(ready, kind).unwrap_or(0)
}

/// Makes room in both lists for all tasks, and so many more.
pub(crate) fn make_room(
    ready: &mut VecDeque<Task>,
    out: &mut Vec<TaskKey>,
    more: u32,
) -> Result<(), NoMemory>
    requires { deque_len ready.old + vec_len out.old < 2 ^ 32 }
    ensures ready { ready.new.items ≡ ready.old.items }
    ensures ready_len { deque_len ready.new ≡ deque_len ready.old }
    ensures ready_room { deque_capacity ready.old ≤ deque_capacity ready.new }
    ensures out { out.new.items ≡ out.old.items }
    ensures out_len { vec_len out.new ≡ vec_len out.old }
    ensures out_room { vec_capacity out.old ≤ vec_capacity out.new }
    ensures room { OnOk result (deque_len ready.new + vec_len out.new + more ≤ min (deque_capacity ready.new) (vec_capacity out.new)) }
    ensures lacking { OnErr result (min (deque_capacity ready.old) (vec_capacity out.old) < deque_len ready.old + vec_len out.old + more) }
{
    ready.reserve(out.len() + more as usize)?;
    out.reserve(ready.len() + more as usize)?;
    Ok(())
}

/// Takes the task for a kind out of the ready ones, if there is any.
pub(crate) fn take_for(ready: &mut VecDeque<Task>, kind: Kind) -> Option<Task>
    requires { (key : TaskKey) → count_by (has_key key) ready.old.items ≤ 1 }
    ensures takes { Takes kind ready.old.items ready.new.items result }
    ensures len { OnSome result (deque_len ready.new + 1 ≡ deque_len ready.old) }
    ensures none { IfNone result (ready.new ≡ ready.old) }
    ensures capacity { deque_capacity ready.new ≡ deque_capacity ready.old }
{
    let place = place_for(ready, kind);
    ready.remove(place)
}

fn place_of(out: &[TaskKey], key: TaskKey) -> Option<usize>
    ensures { result ≡ position (same_key key) out.now }
{
    out.iter().position(|other| same_key(key, *other))
}

/// Takes a key out of those of the tasks out, and says whether it was there.
pub(crate) fn take_key(out: &mut Vec<TaskKey>, key: TaskKey) -> bool
    requires { (other : TaskKey) → count_by (same_key other) out.old.items ≤ 1 }
    ensures found { result ≡ is_out key out.old.items }
    ensures rest { out.new.items ≡ without_key key out.old.items }
    ensures counts { (other : TaskKey) → count_by (same_key other) out.new.items + cond result (cond (same_key other key) 1 0) 0 ≡ count_by (same_key other) out.old.items }
    ensures absent { OnFalse result (out.new.items ≡ out.old.items) }
    ensures len { vec_len out.new + cond result 1 0 ≡ vec_len out.old }
    ensures capacity { vec_capacity out.new ≡ vec_capacity out.old }
{
    match place_of(out.as_slice(), key) {
        Some(place) => {
            out.remove(place);
            true
        }
        None => false,
    }
}

pub(crate) fn has_ready(ready: &VecDeque<Task>, key: TaskKey) -> bool
    ensures { result ≡ is_ready key ready.now.items }
{
    ready.iter().any(|task| same_key(key, task.key()))
}

pub(crate) fn has_out(out: &[TaskKey], key: TaskKey) -> bool
    ensures { result ≡ is_out key out.now }
{
    out.iter().any(|other| same_key(key, *other))
}
