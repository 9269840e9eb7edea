ghost use Rattle.std.specs.Prelude.{◌≡◌, ◌≢◌, ◌↔◌, ◌≤◌, ◌<◌, ◌+◌, ◌-◌, ◌^◌, ◌++◌, ◌∷◌, [], true, false, ℕ, List, Ok, None, Some, IfOk, IsTrue, OnOk};
ghost use Rattle.read_verdict.specs.Cases.{Case, verdict_on};
ghost use Rattle.read_verdict.specs.HasJudged.{HasJudged};
ghost use Rattle.loader.specs.Loads.{HasLoaded, IsFresh, bytes_of, taken_count};
ghost use Rattle.loader.specs.Reads.{came};
ghost use Rattle.loader.specs.Steps.{IsReady, IsStep, IsWaiting, Tells, out_after};

use crate::read::Read;
use history_entry::PieceBytes;
use read_verdict::{Cleared, Judge, Part, Ruling, Step};
use script_model::{NoMemory, Verdict};
use std::alloc::Global;
use std::collections::VecDeque;

/// How far a load is.
#[derive(Drop)]
pub(crate) struct Progress {
    judge: Judge,
    // The pieces that were taken and not yet handed out.
    held: VecDeque<PieceBytes>,
    // How many were handed out.
    handed: u32,
    // The leave to hand them out, from the head on.
    cleared: Option<Cleared>,
    // Whether the wire has answered 0.
    ended: bool,
}

impl Progress {
    /// A load that has taken nothing so far.
    pub(crate) fn new(alloc: Global, judge: Judge) -> Progress
        ensures fresh { IsFresh result }
        ensures loaded { (case : Case) → HasJudged judge case [] false → HasLoaded result case [] }
    {
        Progress {
            judge,
            held: VecDeque::new(alloc),
            handed: 0,
            cleared: None,
            ended: false,
        }
    }

    /// Whether one more piece can be taken and numbered.
    pub(crate) fn has_room(&self) -> bool
        ensures { IsTrue result ↔ (taken_count self.now < 2 ^ 32 - 1) }
    {
        u64::from(self.handed) + (self.held.len() as u64) < u64::from(u32::MAX)
    }

    /// Whether the next step needs a read of the wire.
    pub(crate) fn is_waiting(&self) -> bool
        ensures waiting { result ≡ true → IsWaiting self.now }
        ensures ready { result ≡ false → IsReady self.now }
    {
        match self.cleared {
            Some(_) => !self.ended && self.held.is_empty(),
            None => !self.ended && matches!(self.judge.ruling(), Ruling::More),
        }
    }

    /// Holds one more piece, and lets the judge see it.
    fn take(&mut self, piece: PieceBytes) -> Result<(), NoMemory>
        ensures held { OnOk result (self.new.held.items ≡ self.old.held.items ++ piece ∷ []) }
        ensures judged { (case : Case) (bytes : List ℕ) →
            HasJudged self.old.judge case bytes false → HasJudged self.new.judge case (bytes ++ piece) false }
        ensures handed { self.new.handed ≡ self.old.handed }
        ensures cleared { self.new.cleared ≡ self.old.cleared }
        ensures ended { self.new.ended ≡ self.old.ended }
    {
        self.judge.feed(piece.as_bytes());
        self.held.push_back(piece)?;
        Ok(())
    }

    /// Ends the body.
    fn end(&mut self)
        ensures ended { self.new.ended ≡ true }
        ensures judged { (case : Case) (bytes : List ℕ) →
            HasJudged self.old.judge case bytes false → HasJudged self.new.judge case bytes true }
        ensures settled { (case : Case) (bytes : List ℕ) →
            HasJudged self.old.judge case bytes false → verdict_on case bytes true ≢ None }
        ensures held { self.new.held.items ≡ self.old.held.items }
        ensures handed { self.new.handed ≡ self.old.handed }
        ensures cleared { self.new.cleared ≡ self.old.cleared }
    {
        self.judge.finish();
        self.ended = true;
    }

    /// Tells the ruling on all pieces that are held.
    fn tell(&mut self) -> Step
        ensures tells { (case : Case) → HasJudged self.old.judge case (bytes_of self.old.held.items) self.old.ended →
            Tells case self.old self.new result }
        ensures nothing_out { (out : List (List ℕ)) → out_after out result ≡ out }
        ensures alive { result ≢ Step.Gone }
        ensures no_fault { result ≢ Step.Fault }
        ensures held { self.new.held.items ≡ self.old.held.items }
        ensures handed { self.new.handed ≡ self.old.handed }
        ensures ended { self.new.ended ≡ self.old.ended }
        ensures judge { self.new.judge ≡ self.old.judge }
    {
        if let Some(cleared) = self.judge.cleared() {
            self.cleared = Some(cleared);
            return Step::Head(cleared);
        }
        match self.judge.ruling() {
            Ruling::Settled(Verdict::Block(rule)) => Step::Blocked(rule),
            Ruling::Settled(Verdict::Allow(_)) | Ruling::More => Step::Held,
        }
    }

    /// The piece of these bytes, as the next one that is handed out.
    fn number(&mut self, bytes: PieceBytes, cleared: Cleared) -> Part
        requires { self.old.handed < 2 ^ 32 - 1 }
        ensures part { result ≡ record { index = self.old.handed; bytes = bytes; cleared = cleared } }
        ensures handed { self.new.handed ≡ self.old.handed + 1 }
        ensures held { self.new.held.items ≡ self.old.held.items }
        ensures cleared { self.new.cleared ≡ self.old.cleared }
        ensures ended { self.new.ended ≡ self.old.ended }
        ensures judge { self.new.judge ≡ self.old.judge }
    {
        let index = self.handed;
        self.handed += 1;
        Part::new(index, bytes, cleared)
    }

    /// The step of a load that needs no read: before the head it tells the ruling, and afterwards it hands out the first
    /// piece that is held.
    pub(crate) fn next(&mut self) -> Step
        requires ready { IsReady self.old }
        requires few { taken_count self.old < 2 ^ 32 - 1 }
        ensures step { IsStep self.old self.new [] result }
        ensures ended { self.new.ended ≡ self.old.ended }
        ensures no_fault { result ≢ Step.Fault }
    {
        let Some(cleared) = self.cleared else {
            return self.tell();
        };
        match self.held.pop_front() {
            Some(piece) => Step::Piece(self.number(piece, cleared)),
            None => Step::Whole,
        }
    }

    /// The step before the head of a load that needed a read, by what it gave.
    fn rule_by(&mut self, read: Read) -> Result<Step, NoMemory>
        requires waiting { IsWaiting self.old }
        requires unheaded { self.old.cleared ≡ None }
        ensures step { IfOk result (IsStep self.old self.new (came read)) }
        ensures ended { OnOk result (self.new.ended ≡ true → read ≡ Read.End) }
        ensures fault { result ≡ Ok Step.Fault ↔ read ≡ Read.Fault }
    {
        match read {
            Read::Piece(piece) => {
                self.take(piece)?;
                Ok(self.tell())
            }
            Read::End => {
                self.end();
                Ok(self.tell())
            }
            Read::Fault => Ok(Step::Fault),
        }
    }

    /// The step after the head of a load that needed a read, by what it gave.
    fn pass_on(&mut self, read: Read, cleared: Cleared) -> Step
        requires waiting { IsWaiting self.old }
        requires headed { self.old.cleared ≡ Some cleared }
        requires few { taken_count self.old < 2 ^ 32 - 1 }
        ensures step { IsStep self.old self.new (came read) result }
        ensures ended { self.new.ended ≡ true → read ≡ Read.End }
        ensures fault { result ≡ Step.Fault ↔ read ≡ Read.Fault }
    {
        match read {
            Read::Piece(piece) => Step::Piece(self.number(piece, cleared)),
            Read::End => {
                self.ended = true;
                Step::Whole
            }
            Read::Fault => Step::Fault,
        }
    }

    /// The step of a load that needed a read, by what it gave.
    pub(crate) fn next_by(&mut self, read: Read) -> Result<Step, NoMemory>
        requires waiting { IsWaiting self.old }
        requires few { taken_count self.old < 2 ^ 32 - 1 }
        ensures step { IfOk result (IsStep self.old self.new (came read)) }
        ensures ended { OnOk result (self.new.ended ≡ true → read ≡ Read.End) }
        ensures fault { result ≡ Ok Step.Fault ↔ read ≡ Read.Fault }
    {
        match self.cleared {
            Some(cleared) => Ok(self.pass_on(read, cleared)),
            None => self.rule_by(read),
        }
    }
}
