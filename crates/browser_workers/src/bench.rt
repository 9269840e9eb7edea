//! Where workers work: a desk with its core, in a type that hides what the core borrows.

ghost use Rattle.std.specs.Prelude.{◌≡◌, ◌+◌, ◌-◌, ◌<◌, ◌≤◌, [], IfOk};
ghost use Rattle.atomic_table.specs.Seated.{TableId};
ghost use Rattle.script_model.specs.ScriptData.{ScriptData};
ghost use Rattle.service_rule.specs.Services.{ServiceRule};
ghost use Rattle.policy_table.specs.Histories.{StartsWith};
ghost use Rattle.policy_table.specs.Known.{known, weighing};
ghost use Rattle.policy_table.specs.declared.standing.TheConstants.{PROCESSES};
ghost use Rattle.process_standings.specs.Standings.{table_standing};
ghost use Rattle.browser_workers.specs.Asking.{IsTold, MayAsk};
ghost use Rattle.browser_workers.specs.Passes.{HasGoneOn};

use crate::asking::{Ask, Told};
use crate::core_book::CoreBook;
use crate::named::Named;
use browser_core::{Entry, Service};
use policy_table::{Desk, NoMemory, Pass, Standing};
use script_model::Script;
use std::sync::Wait;
use std::sync::atomic::{AtomicBool, Ordering};

/// A desk with a core of a script, and whether one of its workers found no memory.
pub(crate) trait Bench {
    // The identity of the desk, the rule of the core's services, and the script.
    ghost desk: { Self → TableId };

    ghost rule: { ServiceRule };

    ghost pages: { ScriptData };

    fn script(&self) -> &Script
        ensures { result.now ≡ pages };

    /// Waits for the turn, and asks the core at the history that it finds.
    fn ask<R: Wait>(&self, rt: &R, pass: &mut Pass<Entry>, ask: Ask) -> Result<Told, NoMemory>
        requires desk { pass.old.desk ≡ desk self.now }
        requires may { MayAsk rule pages pass.old.seen ask }
        ensures on { HasGoneOn pass.old pass.new }
        ensures told { IfOk result (λ told. IsTold rule pages pass.old.seen ask told pass.new.seen) };

    /// How a process stands. It waits for nobody.
    fn standing(&self, pass: &mut Pass<Entry>, process: u32) -> Standing
        requires desk { pass.old.desk ≡ desk self.now }
        requires small { process < PROCESSES }
        ensures on { HasGoneOn pass.old pass.new }
        ensures standing { result ≡ table_standing pass.new.seen process };

    /// A pass for one more worker, with one unit of weight.
    fn split(&self, pass: &mut Pass<Entry>) -> Pass<Entry>
        requires desk { pass.old.desk ≡ desk self.now }
        requires weight { 2 ≤ pass.old.weight }
        ensures left { pass.new ≡ weighing pass.old (pass.old.weight - 1) }
        ensures unit { result ≡ known (desk self.now) pass.old.seen [] 1 };

    /// Takes in what another pass has seen, and its weight.
    fn meet(&self, pass: &mut Pass<Entry>, other: Pass<Entry>)
        requires desk { (pass.old.desk ≡ desk self.now) × (other.desk ≡ desk self.now) }
        ensures desk { pass.new.desk ≡ pass.old.desk }
        ensures weight { pass.new.weight ≡ pass.old.weight + other.weight }
        ensures this { StartsWith pass.new.seen pass.old.seen }
        ensures that { StartsWith pass.new.seen other.seen };

    /// Whether a worker found no memory. It is true for good once one has said so.
    fn is_short(&self) -> bool;

    fn run_short(&self);
}

/// A desk, with the script of its core.
pub(crate) struct Table<'d, 'a, V: Service, J: Named> {
    pub(crate) desk: &'d Desk<CoreBook<'a, V, J>>,
    pub(crate) script: &'a Script,
    pub(crate) short: AtomicBool,
    ghost is: { script.now ≡ J.script },
}

impl<'d, 'a, V: Service, J: Named> Bench for Table<'d, 'a, V, J> {
    ghost desk = { λ t. t.desk.now };

    ghost rule = { V.rule };

    ghost pages = { J.script };

    fn script(&self) -> &Script {
        self.script
    }

    fn ask<R: Wait>(&self, rt: &R, pass: &mut Pass<Entry>, ask: Ask) -> Result<Told, NoMemory> {
        self.desk.act(rt, pass, ask)
    }

    #[tactic(auto, using(crate::proofs::Passes::looked))]
    fn standing(&self, pass: &mut Pass<Entry>, process: u32) -> Standing {
        self.desk.standing(pass, &self.desk.handle(process))
    }

    fn split(&self, pass: &mut Pass<Entry>) -> Pass<Entry> {
        self.desk.split(pass)
    }

    fn meet(&self, pass: &mut Pass<Entry>, other: Pass<Entry>) {
        self.desk.meet(pass, other);
    }

    fn is_short(&self) -> bool {
        self.short.load(Ordering::SeqCst)
    }

    fn run_short(&self) {
        self.short.store(true, Ordering::SeqCst);
    }
}
