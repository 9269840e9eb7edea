//! Rows of claims, in the order of offers and of tasks given back.

ghost use Rattle.std.specs.Prelude.{◌≡◌, ◌+◌, ◌-◌, ◌^◌, ◌<◌, ◌≤◌, IfOk, length};
ghost use Rattle.work_queue.specs.Keys.{key_of};
ghost use Rattle.work_queue.specs.Work.{task_count};

use crate::{
    ActTask, BrowserJob, Chain, Claim, FrameList, Kind, LoadTask, Mode, Sight, Task, TaskKey, Tasks,
};
use std::alloc::Global;
use std::test::Fail;
use test_support::{origin, web_chain};

/// What happens to the tasks.
enum Step {
    Offer(TaskKey),
    /// The key of the task that a worker of this kind gets.
    Claim(Kind, TaskKey),
    /// A worker of this kind gets none, and so many tasks are out.
    None(Kind, u32),
    /// A worker of this kind gives back what it gets.
    GiveBack(Kind),
    Done(TaskKey, bool),
    Has(TaskKey, bool),
}

const LAST: u32 = u32::MAX;

const WARM: TaskKey = TaskKey::Browser(BrowserJob::Warm);

const COMMIT: TaskKey = TaskKey::Browser(BrowserJob::Commit(3));

const EXIT: TaskKey = TaskKey::Browser(BrowserJob::Exit(LAST));

const REQUEST: TaskKey = TaskKey::Browser(BrowserJob::Request(3));

/// Each step follows those before it.
const STEPS: &[Step] = &[
    Step::None(Kind::Renderer, 0),
    Step::Offer(TaskKey::Browser(BrowserJob::Open(0))),
    Step::Offer(TaskKey::Act(0)),
    Step::Offer(TaskKey::Load(LAST)),
    Step::Offer(TaskKey::Browser(BrowserJob::Nav(0))),
    Step::Offer(TaskKey::Act(LAST)),
    Step::Offer(WARM),
    Step::Has(TaskKey::Load(LAST), true),
    Step::Has(TaskKey::Browser(BrowserJob::Nav(1)), false),
    Step::Done(TaskKey::Load(LAST), false),
    Step::Claim(Kind::Loader, TaskKey::Load(LAST)),
    Step::Has(TaskKey::Load(LAST), true),
    Step::Claim(Kind::Loader, TaskKey::Browser(BrowserJob::Open(0))),
    Step::Claim(Kind::Renderer, TaskKey::Act(0)),
    Step::GiveBack(Kind::Browser),
    Step::Claim(Kind::Browser, WARM),
    Step::Claim(Kind::Loader, TaskKey::Act(LAST)),
    Step::Claim(Kind::Renderer, TaskKey::Browser(BrowserJob::Nav(0))),
    Step::None(Kind::Browser, 6),
    Step::Done(TaskKey::Load(LAST), true),
    Step::Done(TaskKey::Load(LAST), false),
    Step::Has(TaskKey::Load(LAST), false),
    Step::Done(TaskKey::Act(1), false),
    Step::None(Kind::Loader, 5),
    Step::Offer(COMMIT),
    Step::Offer(REQUEST),
    Step::Offer(EXIT),
    Step::Offer(TaskKey::Load(LAST)),
    Step::GiveBack(Kind::Renderer),
    Step::Claim(Kind::Renderer, REQUEST),
    Step::Claim(Kind::Browser, EXIT),
    Step::Claim(Kind::Browser, COMMIT),
    Step::Claim(Kind::Browser, TaskKey::Load(LAST)),
    Step::None(Kind::Loader, 9),
];

fn task_of(alloc: Global, key: TaskKey) -> Result<Task, Fail>
    ensures { IfOk result (λ task. key_of task ≡ key) }
{
    match key {
        TaskKey::Browser(job) => Ok(Task::Browser(job)),
        TaskKey::Act(document) => {
            let sight = Sight {
                document,
                resource: Some(0),
                origin: origin(alloc, "https://a.com/")?,
                frame: 0,
                parent: None,
                top: 0,
                opener: None,
                added: FrameList::from_vec(Vec::new(alloc)),
            };
            Ok(Task::Act(ActTask { sight, action: 0 }))
        }
        TaskKey::Load(request) => Ok(Task::Load(LoadTask {
            request,
            process: 0,
            origin: origin(alloc, "https://a.com/")?,
            chain: Chain::from_vec(web_chain(alloc, &["https://a.com/", "https://b.com/"])?),
            mode: Mode::Cors,
        })),
    }
}

fn offer_new(alloc: Global, tasks: &mut Tasks, key: TaskKey) -> Result<bool, Fail>
    requires { task_count tasks.old < 2 ^ 32 - 1 }
    ensures { task_count tasks.new ≤ task_count tasks.old + 1 }
{
    let task = task_of(alloc, key)?;
    if tasks.has(task.key()) {
        return Ok(false);
    }
    Ok(tasks.offer(task).is_ok())
}

fn give_one_back(tasks: &mut Tasks, kind: Kind) -> bool
    ensures { task_count tasks.new ≤ task_count tasks.old + 1 }
{
    match tasks.claim(kind) {
        Claim::Task(task) => {
            tasks.give_back(task);
            true
        }
        Claim::None(_) => false,
    }
}

fn is_as_told(alloc: Global, tasks: &mut Tasks, step: &Step) -> Result<bool, Fail>
    requires { task_count tasks.old < 2 ^ 32 - 1 }
    ensures { task_count tasks.new ≤ task_count tasks.old + 1 }
{
    match step {
        Step::Offer(key) => offer_new(alloc, tasks, *key),
        Step::Claim(kind, key) => match tasks.claim(*kind) {
            Claim::Task(task) => Ok(task.key() == *key),
            Claim::None(_) => Ok(false),
        },
        Step::None(kind, out) => match tasks.claim(*kind) {
            Claim::Task(_) => Ok(false),
            Claim::None(count) => Ok(count == *out),
        },
        Step::GiveBack(kind) => Ok(give_one_back(tasks, *kind)),
        Step::Done(key, was_out) => Ok(tasks.done(*key) == *was_out),
        Step::Has(key, here) => Ok(tasks.has(*key) == *here),
    }
}

/// The number of the first step that is not as told.
fn first_wrong(alloc: Global, tasks: &mut Tasks, steps: &[Step]) -> Result<Option<usize>, Fail>
    requires { task_count tasks.old + length steps.now < 2 ^ 32 - 1 }
{
    for (index, step) in steps.iter().enumerate() {
        if !is_as_told(alloc, tasks, step)? {
            return Ok(Some(index));
        }
    }
    Ok(None)
}

#[test]
fn each_task_is_handed_out_once(rt: HostRuntime) -> Result<(), Fail> {
    let mut tasks = Tasks::new(rt.alloc());
    assert!(rt; STEPS.len() < 100);
    assert_eq!(rt; first_wrong(rt.alloc(), &mut tasks, STEPS)?, None);
    Ok(())
}

#[test]
fn room_is_made_before(rt: HostRuntime) -> Result<(), Fail> {
    let mut tasks = Tasks::new(rt.alloc());
    tasks.reserve(1000)?;
    assert!(rt; offer_new(rt.alloc(), &mut tasks, WARM)?);
    Ok(())
}
