//! The core.

ghost use Rattle.std.specs.Prelude.{◌≡◌, ◌↔◌, ◌++◌, [], IfOk, IsTrue, List, OnErr, OnOk, length, ℕ};
ghost use Rattle.std.specs.Option.{option_map, option_to_list};
ghost use Rattle.page_origin.specs.declared.origin.TupleOrigin.{TupleOrigin};
ghost use Rattle.history_laws.specs.Laws.{Laws};
ghost use Rattle.history_steps.specs.Run.{Finished, Legal, first_next};
ghost use Rattle.browser_core.specs.Applying.{Applies};
ghost use Rattle.browser_core.specs.Claiming.{Claims};
ghost use Rattle.browser_tasks.specs.Outcomes.{IsOutcome};

use crate::applying::{Applied, append_outcome, end_task};
use crate::claiming::claim_task;
use crate::facts::{could_follow, has_next, is_vouched};
use crate::steps::append_first;
use browser_tasks::{Kind, Outcome, Tasks};
use history::History;
use history_laws::laws::laws_hold;
use history_laws::script_is_within_limits;
use origin_service::Service;
use script_model::{NoMemory, Script};
use std::alloc::Global;
use std::marker::Model;
use std::mem;
use work_queue::Claim;

/// The browser's state for one script: the history so far, the services that were asked, and the tasks that are out.
///
/// Contracts see the script, the history and the keys of the tasks out. The history is always legal, and the services keep of
/// each origin exactly what the history accepted of it. A task is ready where an entry of its object may follow the history and
/// it is not out; which ones are is found when a worker asks.
#[derive(Drop)]
pub struct Core<'a, V: Service> {
    script: &'a Script,
    services: V,
    history: History,
    tasks: Tasks,
}

impl<'a, V: Service> Model for Core<'a, V> {
    ghost use Rattle.std.specs.Prelude.{◌≡◌, []};
    ghost use Rattle.browser_core.specs.Cores.{CoreData, IsInStep};

    ghost Value = { CoreData };

    ghost view = { λ c. record { script = c.script.now; entries = c.history; out = c.tasks.out } };

    ghost invariant = { λ c. IsInStep V.rule (V.kept c.services) c.script.now c.history × (c.tasks.ready ≡ []) };
}

impl<'a, V: Service> Core<'a, V> {
    /// A core with an empty history, services that have kept no request, and no task out.
    #[tactic(auto, using(crate::proofs::InStep::none_in_step))]
    pub fn new(alloc: Global, script: &'a Script, services: V) -> Result<Core<'a, V>, NoMemory>
        requires { (name : List ℕ) (tuple : TupleOrigin) → V.kept services name tuple ≡ [] }
        ensures script { IfOk result (λ core. core.script ≡ script.now) }
        ensures empty { IfOk result (λ core. core.entries ≡ []) }
        ensures out { IfOk result (λ core. core.out ≡ []) }
    {
        Ok(Core {
            script,
            services,
            history: History::new(alloc),
            tasks: Tasks::new(alloc),
        })
    }

    /// Adds the first of the entries that may follow, and gives its place; none exactly where the history is finished. Where
    /// memory runs out the core is as before.
    pub fn first(&mut self, alloc: Global) -> Result<Option<u32>, NoMemory>
        ensures first { OnOk result (self.new.entries ≡ self.old.entries ++ option_to_list (first_next V.rule self.old.script self.old.entries)) }
        ensures place { IfOk result (λ place. place ≡ option_map (λ _. length self.old.entries) (first_next V.rule self.old.script self.old.entries)) }
        ensures err { OnErr result (self.new.entries ≡ self.old.entries) }
        ensures script { self.new.script ≡ self.old.script }
        ensures out { self.new.out ≡ self.old.out }
    {
        let history = mem::replace(&mut self.history, History::new(alloc));
        let (history, place) = append_first(alloc, self.script, history, &mut self.services);
        self.history = history;
        place
    }

    /// Hands out a ready task for a worker of a kind, with the facts that it holds of the history: one of its own kind where one is
    /// ready. Where none of any kind is ready it tells how many are out, and where none is out either the history is finished.
    /// Where memory runs out nothing was handed out.
    pub fn claim(&mut self, alloc: Global, kind: Kind) -> Result<Claim, NoMemory>
        ensures claims { IfOk result (Claims V.rule kind self.old self.new) }
        ensures err { OnErr result (self.new ≡ self.old) }
        ensures script { self.new.script ≡ self.old.script }
    {
        claim_task(
            alloc,
            self.script,
            self.history.entries(),
            &mut self.tasks,
            kind,
        )
    }

    /// Adds the entry of an outcome that may follow, or tells where one last could. The outcome's task ends, unless it has more
    /// behind the entry that was added. Where memory runs out the core is as before, and the outcome is dropped.
    ///
    /// One of the outcome's entries may follow some beginning of the history: that of the claim of its task, or a longer one.
    pub fn apply(&mut self, alloc: Global, outcome: Outcome) -> Result<Applied, NoMemory>
        requires possible { IsOutcome V.rule self.old.script self.old.entries outcome }
        ensures applies { IfOk result (Applies V.rule outcome self.old self.new) }
        ensures err { OnErr result (self.new ≡ self.old) }
        ensures script { self.new.script ≡ self.old.script }
    {
        let history = mem::replace(&mut self.history, History::new(alloc));
        let (history, applied) = append_outcome(
            alloc,
            self.script,
            history,
            &mut self.services,
            &outcome,
        );
        self.history = history;
        let applied = applied?;
        end_task(&mut self.tasks, &outcome, applied);
        Ok(applied)
    }

    /// Whether an outcome may be brought back: one of its entries could follow some beginning of the history, the leave of a head or
    /// a piece names the request, and where a step says that the process is gone, it was dead after some of the entries.
    #[tactic(auto, using(crate::proofs::Possibles::decided, crate::proofs::Possibles::not_vouched))]
    pub fn may_apply(&self, alloc: Global, outcome: &Outcome) -> Result<bool, NoMemory>
        ensures { IfOk result (λ may. IsTrue may ↔ IsOutcome V.rule self.now.script self.now.entries outcome.now) }
    {
        script_is_within_limits(self.script);
        if !is_vouched(self.history.entries(), outcome) {
            return Ok(false);
        }
        could_follow(alloc, self.script, self.history.entries(), outcome)
    }

    /// Whether no entry may follow.
    #[tactic(auto, using(crate::proofs::FirstNext::finishing))]
    pub fn finished(&self, alloc: Global) -> Result<bool, NoMemory>
        ensures { IfOk result (λ answer. IsTrue answer ↔ Finished V.rule self.now.script self.now.entries) }
    {
        let goes_on = has_next(alloc, self.script, self.history.entries())?;
        Ok(!goes_on)
    }

    /// The history so far, which is legal.
    pub fn history(&self) -> &History
        ensures history { result.now ≡ self.now.entries }
        ensures legal { Legal V.rule self.now.script self.now.entries }
    {
        &self.history
    }
}

impl<'a, V: Service + Drop> Core<'a, V> {
    /// The history, of which all laws hold.
    pub fn close(self) -> History
        ensures history { result ≡ self.entry.entries }
        ensures laws { Laws V.rule self.entry.script self.entry.entries }
    {
        laws_hold();
        self.history
    }
}
