//! A run by several workers.

ghost use Rattle.std.specs.Prelude.{◌≡◌, ◌≤◌, IfOk, true};
ghost use Rattle.history_steps.specs.Run.{Finished};
ghost use Rattle.policy_table.specs.Histories.{StartsWith};
ghost use Rattle.browser_workers.specs.Seats.{BeginsFinished};

use crate::bench::Table;
use crate::core_book::CoreBook;
use crate::gate::Gate;
use crate::named::Named;
use crate::seats::work_all;
use browser_core::{Core, Service};
use policy_table::{Desk, NoMemory};
use script_model::Script;
use std::alloc::Global;
use std::marker::{Brand, PhantomData};
use std::sync::Wait;
use std::sync::atomic::AtomicBool;
use std::thread::Threads;

/// The core after so many workers have driven it until its history was finished, each in a thread of its own where one can be made.
/// The history goes on from that of the given core. A want of memory of one worker ends them all, and the core is dropped.
///
/// It may wait for ever where a task is out that nobody brings back, as it is in a core that was handed in with a task out, or
/// with a request whose load has begun.
pub fn run_workers<'a, V: Service + Drop + Send, G: Gate + Sync, R: Threads + Wait + Sync>(
    rt: &R,
    alloc: Global,
    script: &'a Script,
    core: Core<'a, V>,
    workers: u32,
    gate: &G,
) -> Result<Core<'a, V>, NoMemory>
    requires workers { (1 ≤ workers) × (workers ≤ 16) }
    requires script { core.script ≡ script.now }
    ensures script { IfOk result (λ done. done.script ≡ script.entry.now) }
    ensures extends { IfOk result (λ done. StartsWith done.entries core.entry.entries) }
    ensures finished { IfOk result (λ done. Finished V.rule script.entry.now done.entries) }
{
    run_named::<V, Brand, G, R>(rt, alloc, script, core, workers, gate)
}

/// The same, for a script that a type names.
fn run_named<
    'a,
    V: Service + Drop + Send,
    J: Named + Send + Sync,
    G: Gate + Sync,
    R: Threads + Wait + Sync,
>(
    rt: &R,
    alloc: Global,
    script: &'a Script,
    core: Core<'a, V>,
    workers: u32,
    gate: &G,
) -> Result<Core<'a, V>, NoMemory>
    requires named { script.now ≡ J.script }
    requires workers { (1 ≤ workers) × (workers ≤ 16) }
    requires script { core.script ≡ script.now }
    ensures script { IfOk result (λ done. done.script ≡ J.script) }
    ensures extends { IfOk result (λ done. StartsWith done.entries core.entry.entries) }
    ensures finished { IfOk result (λ done. Finished V.rule J.script done.entries) }
{
    let seats = Vec::with_capacity(alloc, workers as usize)?;
    let book: CoreBook<V, J> = CoreBook {
        core,
        script,
        alloc,
        change: None,
        of: PhantomData,
    };
    match Desk::new(alloc, book) {
        Ok((desk, pass)) => {
            let table = Table {
                desk: &desk,
                script,
                short: AtomicBool::new(false),
            };
            let (pass, finished) = work_all(rt, alloc, &table, gate, workers, seats, pass);
            let Table {
                desk: _,
                script: _,
                short: _,
            } = table;
            let core = desk.close(pass).into_core();
            finished_core(core, finished)
        }
        Err((book, NoMemory)) => {
            let _core = book.into_core();
            Err(NoMemory)
        }
    }
}

/// The core, where each worker saw its finished history.
#[tactic(auto, using(crate::proofs::Over::is_over))]
fn finished_core<'a, V: Service + Drop>(
    core: Core<'a, V>,
    finished: bool,
) -> Result<Core<'a, V>, NoMemory>
    requires { finished ≡ true → BeginsFinished V.rule core.script core.entries }
    ensures same { IfOk result (λ done. done ≡ core.entry) }
    ensures finished { IfOk result (λ done. Finished V.rule done.script done.entries) }
{
    if !finished {
        return Err(NoMemory);
    }
    let _legal = core.history();
    Ok(core)
}
