//! The load of a response, step by step.

ghost use Rattle.std.specs.Prelude.{◌≡◌, ◌↔◌, IfOk, IsTrue, is_some, true};
ghost use Rattle.policy_table.specs.declared.standing.Standing.TheVariants as standings;
ghost use Rattle.process_standings.specs.Standings.{table_standing};
ghost use Rattle.work_queue.specs.declared.task.Task.TheVariants as tasks;
ghost use Rattle.browser_tasks.specs.declared.outcome.Outcome.TheVariants as outcomes;
ghost use Rattle.task_work.specs.Claimed.{IsTaskOf};
ghost use Rattle.task_work.specs.Stands.{StandsWithin, script_of};
ghost use Rattle.browser_workers.specs.Asking.{MayBring};
ghost use Rattle.browser_workers.specs.Loads.{GoesOnBehind, is_held};
ghost use Rattle.browser_workers.specs.Passes.{HasGoneOn};

use crate::bench::Bench;
use crate::gate::{Gate, Point};
use crate::worker::bring_back;
use browser_core::{Applied, Entry, LoadDone, Outcome, Step};
use policy_table::{NoMemory, Pass, Standing};
use std::alloc::Global;
use std::sync::Wait;
use task_work::TaskLoad;
use task_work::laws::{
    dead_hosts_make_steps_gone, loads_stand_within_later_histories, steps_may_come_back,
};
use work_queue::LoadTask;

fn is_dead(standing: Standing) -> bool
    ensures { IsTrue result ↔ (standing ≡ standings.Dead) }
{
    matches!(standing, Standing::Dead)
}

fn is_held(step: &Step) -> bool
    ensures { result ≡ is_held step.now }
{
    matches!(step, Step::Held)
}

/// Loads a response, and brings back each step but those that hold a piece, until the load has ended or a step came too late.
/// Before each step the gate is told how the process of the request stands.
pub(crate) fn do_load<B: Bench, G: Gate, R: Wait>(
    rt: &R,
    alloc: Global,
    bench: &B,
    gate: &G,
    worker: u32,
    pass: &mut Pass<Entry>,
    task: LoadTask,
) -> Result<(), NoMemory>
    requires desk { pass.old.desk ≡ B.desk bench.now }
    requires task { IsTaskOf B.rule B.pages pass.old.seen (tasks.Load task) }
    ensures on { HasGoneOn pass.old pass.new }
{
    let mut load = TaskLoad::new(alloc, bench.script(), task)?;
    for _ in rt.forever() {
        if !go_on(rt, alloc, bench, gate, worker, pass, &mut load)? {
            return Ok(());
        }
    }
    unreachable!()
}

/// Asks how the process of a load stands, takes the step, and says whether the load goes on.
fn go_on<B: Bench, G: Gate, R: Wait>(
    rt: &R,
    alloc: Global,
    bench: &B,
    gate: &G,
    worker: u32,
    pass: &mut Pass<Entry>,
    load: &mut TaskLoad<'_>,
) -> Result<bool, NoMemory>
    requires desk { pass.old.desk ≡ B.desk bench.now }
    requires script { script_of load.old ≡ B.pages }
    requires stands { StandsWithin B.rule pass.old.seen load.old }
    ensures on { HasGoneOn pass.old pass.new }
    ensures script { script_of load.new ≡ B.pages }
    ensures stands { IfOk result (λ more. more ≡ true → StandsWithin B.rule pass.new.seen load.new) }
{
    loads_stand_within_later_histories();
    let standing = bench.standing(pass, load.process());
    gate.at(worker, Point::Step(load.request(), standing));
    take_step(rt, alloc, bench, pass, load, standing)
}

/// Takes a step of a load whose process stands so, brings it back unless it holds a piece, and says whether the load goes on.
fn take_step<B: Bench, R: Wait>(
    rt: &R,
    alloc: Global,
    bench: &B,
    pass: &mut Pass<Entry>,
    load: &mut TaskLoad<'_>,
    standing: Standing,
) -> Result<bool, NoMemory>
    requires desk { pass.old.desk ≡ B.desk bench.now }
    requires script { script_of load.old ≡ B.pages }
    requires stands { StandsWithin B.rule pass.old.seen load.old }
    requires standing { standing ≡ table_standing pass.old.seen load.old.task.process }
    ensures on { HasGoneOn pass.old pass.new }
    ensures script { script_of load.new ≡ B.pages }
    ensures stands { IfOk result (λ more. more ≡ true → StandsWithin B.rule pass.new.seen load.new) }
{
    loads_stand_within_later_histories();
    steps_may_come_back();
    dead_hosts_make_steps_gone();
    let step = load.step(alloc, is_dead(standing))?;
    if is_held(&step) {
        return Ok(true);
    }
    bring_step(rt, bench, pass, load.request(), step)
}

/// Brings a step of a load back, and says whether the load goes on behind it.
fn bring_step<B: Bench, R: Wait>(
    rt: &R,
    bench: &B,
    pass: &mut Pass<Entry>,
    request: u32,
    step: Step,
) -> Result<bool, NoMemory>
    requires desk { pass.old.desk ≡ B.desk bench.now }
    requires may { MayBring B.rule B.pages pass.old.seen (outcomes.Load (record { request = request; step = step })) }
    ensures on { HasGoneOn pass.old pass.new }
    ensures more { IfOk result (λ more. more ≡ true →
        GoesOnBehind B.rule B.pages (outcomes.Load (record { request = request; step = step })) pass.old.seen pass.new.seen) }
{
    let outcome = Outcome::Load(LoadDone { request, step });
    let goes_on = outcome.goes_on();
    let applied = bring_back(rt, bench, pass, outcome)?;
    Ok(goes_on && matches!(applied, Applied::Entry(_)))
}
