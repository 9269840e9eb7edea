//! The core, as the shared table sees it.

ghost use Rattle.std.specs.Prelude.{◌≡◌, None, ⊤};
ghost use Rattle.process_standings.specs.Standings.{table_standing};
ghost use Rattle.browser_workers.specs.Asking.{Does, MayAsk};
ghost use Rattle.browser_workers.specs.Growing.{ask_grows};

use crate::asking::{Ask, Told};
use crate::claims::claim_is_known;
use crate::named::Named;
use crate::standings::{change_in, standing_in};
use browser_core::{Applied, Claim, Core, Entry, Kind, Outcome, Service};
use policy_table::{Booked, NoMemory, Standing};
use script_model::Script;
use std::alloc::Global;
use std::marker::PhantomData;

/// A core with its script, and the process whose standing its last call changed.
pub struct CoreBook<'a, V: Service, J: Named> {
    pub(crate) core: Core<'a, V>,
    pub(crate) script: &'a Script,
    pub(crate) alloc: Global,
    pub(crate) change: Option<(u32, Standing)>,
    pub(crate) of: PhantomData<J>,
    ghost core_is: { core.script ≡ J.script },
    ghost script_is: { script.now ≡ J.script },
}

impl<'a, V: Service, J: Named> CoreBook<'a, V, J> {
    ghost use Rattle.std.specs.Prelude.{IfOk, OnErr};
    ghost use Rattle.policy_table.specs.Changes.{Changes};
    ghost use Rattle.history_steps.specs.Run.{Legal};
    ghost use Rattle.browser_workers.specs.Asking.{BringsBack, Claims, MayBring};
    ghost use Rattle.browser_workers.specs.Booking.{IsChangeOf};

    /// A task for a worker of a kind.
    fn claim(&mut self, kind: Kind) -> Result<Claim, NoMemory>
        ensures claims { IfOk result (Claims V.rule J.script self.old.core.entries) }
        ensures same { self.new.core.entries ≡ self.old.core.entries }
        ensures change { self.new.change ≡ None }
    {
        self.change = None;
        let claim = self.core.claim(self.alloc, kind)?;
        claim_is_known(self.script, self.core.history().entries(), &claim);
        Ok(claim)
    }

    /// Adds what an outcome may add.
    fn apply(&mut self, outcome: Outcome) -> Result<Applied, NoMemory>
        requires may { MayBring V.rule J.script self.old.core.entries outcome }
        ensures brings { IfOk result (BringsBack V.rule J.script outcome self.old.core.entries self.new.core.entries) }
        ensures err { OnErr result (self.new.core.entries ≡ self.old.core.entries) }
        ensures changes { Changes (table_standing self.old.core.entries) (table_standing self.new.core.entries) self.new.change }
    {
        self.change = None;
        let _legal = self.core.history();
        let applied = self.core.apply(self.alloc, outcome)?;
        self.change = self.change_by(applied);
        Ok(applied)
    }

    /// The process whose standing an outcome has changed that was applied last.
    fn change_by(&self, applied: Applied) -> Option<(u32, Standing)>
        ensures change { IsChangeOf self.now.core.entries applied result }
        ensures legal { Legal V.rule J.script self.now.core.entries }
    {
        let entries = self.core.history().entries();
        match applied {
            Applied::Entry(_) => change_in(self.script, entries),
            Applied::Stale(_) => None,
        }
    }

    /// The core, with the history that it has now.
    pub(crate) fn into_core(self) -> Core<'a, V>
        ensures script { result.script ≡ J.script }
        ensures entries { result.entries ≡ self.entry.core.entries }
    {
        let CoreBook {
            core,
            script: _,
            alloc: _,
            change: _,
            of: _,
        } = self;
        core
    }
}

impl<'a, V: Service, J: Named> Booked for CoreBook<'a, V, J> {
    type Call = Ask;

    type Reply = Told;

    type Entry = Entry;

    ghost history = { λ book. book.core.entries };

    ghost does = { λ before ask told after. Does V.rule J.script before ask told after };

    ghost short = { λ before ask. ⊤ };

    ghost may = { λ seen ask. MayAsk V.rule J.script seen ask };

    ghost standing = { table_standing };

    ghost changed = { λ book. book.change };

    ghost grows = { λ seen later ask may. ask_grows V.rule J.script seen later ask may };

    fn act(&mut self, ask: Ask) -> Result<Told, NoMemory> {
        match ask {
            Ask::Claim(kind) => Ok(Told::Claim(self.claim(kind)?)),
            Ask::Apply(outcome) => Ok(Told::Applied(self.apply(outcome)?)),
        }
    }

    fn change(&self) -> Option<(u32, Standing)> {
        self.change
    }

    fn standing_of(&self, process: u32) -> Standing {
        standing_in(self.script, self.core.history().entries(), process)
    }
}
