//! The loop of one worker.

ghost use Rattle.std.specs.Prelude.{◌≡◌, IfOk, true};
ghost use Rattle.history_steps.specs.Run.{Finished};
ghost use Rattle.work_queue.specs.declared.task.Task.TheVariants as tasks;
ghost use Rattle.browser_tasks.specs.declared.outcome.Outcome.TheVariants as outcomes;
ghost use Rattle.task_work.specs.Claimed.{IsTaskOf};
ghost use Rattle.browser_workers.specs.Asking.{BringsAct, Claims, IsBrought, MayBring};
ghost use Rattle.browser_workers.specs.Kinds.{kind_of};
ghost use Rattle.browser_workers.specs.Passes.{HasGoneOn};
ghost use Rattle.browser_workers.specs.declared.worker.Turn.TheVariants as turns;

use crate::asking::{Ask, Told};
use crate::bench::Bench;
use crate::gate::{Gate, Point};
use crate::load_work::do_load;
use browser_core::{Applied, BrowserJob, Claim, Entry, Kind, Outcome, Task};
use policy_table::{NoMemory, Pass};
use std::alloc::Global;
use std::sync::Wait;
use std::thread::yield_now;
use task_work::act_done;
use task_work::laws::{jobs_can_follow, outcomes_may_come_back_later};
use work_queue::ActTask;

/// What came of asking for a task.
#[derive(Clone, Copy, Debug, PartialEq, Eq)]
pub(crate) enum Turn {
    /// The history is finished.
    Over,
    /// Nothing was ready, and tasks are out.
    Idle,
    /// A task was done.
    Done,
}

/// The kind of tasks that a worker asks for.
pub(crate) fn kind_of(worker: u32) -> Kind
    ensures { result ≡ kind_of worker }
{
    match worker % 3 {
        0 => Kind::Browser,
        1 => Kind::Renderer,
        _ => Kind::Loader,
    }
}

/// Works until the history is finished or memory runs out, and says whether it saw the finished history.
pub(crate) fn work<B: Bench, G: Gate, R: Wait>(
    rt: &R,
    alloc: Global,
    bench: &B,
    gate: &G,
    worker: u32,
    pass: &mut Pass<Entry>,
) -> bool
    requires { pass.old.desk ≡ B.desk bench.now }
    ensures on { HasGoneOn pass.old pass.new }
    ensures over { result ≡ true → Finished B.rule B.pages pass.new.seen }
{
    for _ in rt.forever() {
        if bench.is_short() {
            return false;
        }
        match take_turn(rt, alloc, bench, gate, worker, pass) {
            Ok(Turn::Over) => return true,
            Ok(Turn::Idle) => yield_now(),
            Ok(Turn::Done) => {}
            Err(NoMemory) => {
                bench.run_short();
                return false;
            }
        }
    }
    unreachable!()
}

/// Asks for a task, and does it.
fn take_turn<B: Bench, G: Gate, R: Wait>(
    rt: &R,
    alloc: Global,
    bench: &B,
    gate: &G,
    worker: u32,
    pass: &mut Pass<Entry>,
) -> Result<Turn, NoMemory>
    requires { pass.old.desk ≡ B.desk bench.now }
    ensures on { HasGoneOn pass.old pass.new }
    ensures over { IfOk result (λ turn. turn ≡ turns.Over → Finished B.rule B.pages pass.new.seen) }
{
    match claim(rt, bench, kind_of(worker), pass)? {
        Claim::Task(task) => {
            do_task(rt, alloc, bench, gate, worker, pass, task)?;
            Ok(Turn::Done)
        }
        Claim::None(0) => Ok(Turn::Over),
        Claim::None(_) => Ok(Turn::Idle),
    }
}

/// Asks for a task of a kind.
fn claim<B: Bench, R: Wait>(
    rt: &R,
    bench: &B,
    kind: Kind,
    pass: &mut Pass<Entry>,
) -> Result<Claim, NoMemory>
    requires { pass.old.desk ≡ B.desk bench.now }
    ensures on { HasGoneOn pass.old pass.new }
    ensures claims { IfOk result (Claims B.rule B.pages pass.new.seen) }
{
    match bench.ask(rt, pass, Ask::Claim(kind))? {
        Told::Claim(claim) => Ok(claim),
        Told::Applied(_) => unreachable!(),
    }
}

/// Brings an outcome back.
pub(crate) fn bring_back<B: Bench, R: Wait>(
    rt: &R,
    bench: &B,
    pass: &mut Pass<Entry>,
    outcome: Outcome,
) -> Result<Applied, NoMemory>
    requires desk { pass.old.desk ≡ B.desk bench.now }
    requires may { MayBring B.rule B.pages pass.old.seen outcome }
    ensures on { HasGoneOn pass.old pass.new }
    ensures brought { IfOk result (IsBrought B.rule B.pages outcome pass.old.seen pass.new.seen) }
{
    match bench.ask(rt, pass, Ask::Apply(outcome))? {
        Told::Applied(applied) => Ok(applied),
        Told::Claim(_) => unreachable!(),
    }
}

/// Does a task, and brings each of its outcomes back. The gate is told of its claim, and of its last outcome.
fn do_task<B: Bench, G: Gate, R: Wait>(
    rt: &R,
    alloc: Global,
    bench: &B,
    gate: &G,
    worker: u32,
    pass: &mut Pass<Entry>,
    task: Task,
) -> Result<(), NoMemory>
    requires desk { pass.old.desk ≡ B.desk bench.now }
    requires task { IsTaskOf B.rule B.pages pass.old.seen task }
    ensures on { HasGoneOn pass.old pass.new }
{
    let key = task.key();
    gate.at(worker, Point::Claimed(key));
    match task {
        Task::Browser(job) => {
            do_job(rt, bench, pass, job)?;
        }
        Task::Act(act) => {
            do_act(rt, alloc, bench, pass, &act)?;
        }
        Task::Load(load) => do_load(rt, alloc, bench, gate, worker, pass, load)?,
    }
    gate.at(worker, Point::Returned(key));
    Ok(())
}

/// A job is done as it is brought back.
fn do_job<B: Bench, R: Wait>(
    rt: &R,
    bench: &B,
    pass: &mut Pass<Entry>,
    job: BrowserJob,
) -> Result<Applied, NoMemory>
    requires desk { pass.old.desk ≡ B.desk bench.now }
    requires task { IsTaskOf B.rule B.pages pass.old.seen (tasks.Browser job) }
    ensures on { HasGoneOn pass.old pass.new }
    ensures brought { IfOk result (IsBrought B.rule B.pages (outcomes.Browser job) pass.old.seen pass.new.seen) }
{
    jobs_can_follow();
    outcomes_may_come_back_later();
    bring_back(rt, bench, pass, Outcome::Browser(job))
}

/// Finds what the next action of a document comes to, and brings it back.
fn do_act<B: Bench, R: Wait>(
    rt: &R,
    alloc: Global,
    bench: &B,
    pass: &mut Pass<Entry>,
    act: &ActTask,
) -> Result<Applied, NoMemory>
    requires desk { pass.old.desk ≡ B.desk bench.now }
    requires task { IsTaskOf B.rule B.pages pass.old.seen (tasks.Act act.now) }
    ensures on { HasGoneOn pass.old pass.new }
    ensures brought { IfOk result (BringsAct B.rule B.pages act.now pass.old.seen pass.new.seen) }
{
    outcomes_may_come_back_later();
    let done = act_done(alloc, bench.script(), act)?;
    bring_back(rt, bench, pass, Outcome::Act(done))
}
