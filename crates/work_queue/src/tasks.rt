ghost use Rattle.std.specs.Prelude.{◌≡◌, ◌+◌, ◌-◌, ◌^◌, ◌<◌, ◌≤◌, ◌++◌, ◌∷◌, [], OnErr, OnOk, false, if◌then◌else◌, true};
ghost use Rattle.std.specs.Bool.{OnFalse};
ghost use Rattle.work_queue.specs.Claims.{Answers};
ghost use Rattle.work_queue.specs.Keys.{key_of};
ghost use Rattle.work_queue.specs.Work.{AreApart, SameTasks, has_task, is_out, task_count, without_key};

use crate::lists::{has_out, has_ready, make_room, take_for, take_key};
use crate::task::{Kind, Task, TaskKey};
use call_answers::NoMemory;
use std::alloc::Global;
use std::collections::VecDeque;
use std::marker::Model;

/// The tasks that are ready, and the keys of those that are out.
///
/// Of one key at most one task is ready or out, and there are at most 2^32 - 1 tasks. There is always room for claiming each
/// task that is ready, and for giving back each that is out.
#[derive(Drop)]
pub struct Tasks {
    ready: VecDeque<Task>,
    out: Vec<TaskKey>,
}

impl Model for Tasks {
    ghost use Rattle.std.specs.Prelude.{◌+◌, ◌-◌, ◌^◌, ◌<◌, ◌≤◌, min, vec_capacity, vec_len};
    ghost use Rattle.std.specs.VecDeque.{deque_capacity, deque_len};
    ghost use Rattle.work_queue.specs.Work.{AreApart, Work};

    ghost Value = { Work };

    ghost view = { λ t. record { ready = t.ready.items; out = t.out.items; spare = min (deque_capacity t.ready) (vec_capacity t.out) - (deque_len t.ready + vec_len t.out) } };

    ghost invariant = { λ t. AreApart t.ready.items t.out.items × (deque_len t.ready + vec_len t.out < 2 ^ 32) × (deque_len t.ready + vec_len t.out ≤ deque_capacity t.ready) × (deque_len t.ready + vec_len t.out ≤ vec_capacity t.out) };
}

/// What a worker gets that asks for a task.
#[derive(Drop)]
pub enum Claim {
    Task(Task),
    /// Nothing is ready, and so many tasks are out.
    None(u32),
}

impl Tasks {
    /// Nothing is ready or out. This takes no memory.
    pub fn new(alloc: Global) -> Tasks
        ensures ready { result.ready ≡ [] }
        ensures out { result.out ≡ [] }
    {
        Tasks {
            ready: VecDeque::new(alloc),
            out: Vec::new(alloc),
        }
    }

    /// Makes room for offering so many tasks more, unless memory runs out.
    pub fn reserve(&mut self, more: u32) -> Result<(), NoMemory>
        ensures same { SameTasks self.old self.new }
        ensures room { OnOk result (more ≤ self.new.spare) }
        ensures lacking { OnErr result (self.old.spare < more) }
        ensures spare { self.old.spare ≤ self.new.spare }
    {
        make_room(&mut self.ready, &mut self.out, more)
    }

    /// Hands out the first ready task of a kind, or, where none of that kind is ready, the first ready task. This takes no
    /// memory.
    pub fn claim(&mut self, kind: Kind) -> Claim
        ensures answer { Answers kind self.old self.new result }
        ensures count { task_count self.new ≡ task_count self.old }
        ensures spare { self.old.spare ≤ self.new.spare }
    {
        match take_for(&mut self.ready, kind) {
            Some(task) => {
                self.out.push_reserved(task.key());
                Claim::Task(task)
            }
            None => Claim::None(self.out.len() as u32),
        }
    }

    /// Makes a task ready, behind the others. Where memory runs out the task is dropped, and nothing has changed.
    pub fn offer(&mut self, task: Task) -> Result<(), NoMemory>
        requires new { has_task (key_of task) self.old ≡ false }
        requires few { task_count self.old < 2 ^ 32 - 1 }
        ensures ready { OnOk result (self.new.ready ≡ self.old.ready ++ task ∷ []) }
        ensures out { OnOk result (self.new.out ≡ self.old.out) }
        ensures err { OnErr result (SameTasks self.old self.new) }
        ensures full { OnErr result (self.old.spare ≡ 0) }
        ensures spare { self.old.spare ≤ self.new.spare + 1 }
    {
        make_room(&mut self.ready, &mut self.out, 1)?;
        self.ready.push_back_reserved(task);
        Ok(())
    }

    /// Makes a task ready again that is out, behind the others. This takes no memory.
    pub fn give_back(&mut self, task: Task)
        requires { is_out (key_of task) self.old.out ≡ true }
        ensures ready { self.new.ready ≡ self.old.ready ++ task ∷ [] }
        ensures out { self.new.out ≡ without_key (key_of task) self.old.out }
        ensures count { task_count self.new ≡ task_count self.old }
        ensures spare { self.old.spare ≤ self.new.spare }
    {
        take_key(&mut self.out, task.key());
        self.ready.push_back_reserved(task);
    }

    /// Ends the task of a key that is out, so that it is neither ready nor out; false where none is out. This takes no memory.
    pub fn done(&mut self, key: TaskKey) -> bool
        ensures found { result ≡ is_out key self.old.out }
        ensures ready { self.new.ready ≡ self.old.ready }
        ensures out { self.new.out ≡ without_key key self.old.out }
        ensures absent { OnFalse result (SameTasks self.old self.new) }
        ensures count { task_count self.new + (if result then 1 else 0) ≡ task_count self.old }
        ensures spare { self.old.spare ≤ self.new.spare }
    {
        take_key(&mut self.out, key)
    }

    /// Whether a task of a key is ready or out. This takes no memory.
    pub fn has(&self, key: TaskKey) -> bool
        ensures here { result ≡ has_task key self.now }
        ensures apart { AreApart self.now.ready self.now.out }
    {
        has_ready(&self.ready, key) || has_out(self.out.as_slice(), key)
    }
}
