//! A small object to try the table with: a list of marks, of which the last one of a process counts.
ghost use Rattle.std.specs.Prelude.{◌≡◌, ◌≤◌, ◌<◌, ◌↔◌, ◌++◌, ◌==◌, [], IsTrue, IsSome, IfOk, IfSome, None, length, fold, vec_capacity, if◌then◌else◌};
ghost use Rattle.std.specs.Option.{option_to_list};
ghost use Rattle.policy_table.specs.declared.standing.Standing.TheVariants.{Absent};
ghost use Rattle.policy_table.specs.declared.standing.TheConstants.{PROCESSES};

use crate::{Booked, NoMemory, Standing};
use std::alloc::{AllocError, Global};

/// An entry of a toy's history: a process has had this standing since then.
#[derive(Clone, Copy, Debug, PartialEq, Eq)]
pub struct Mark {
    pub process: u32,
    pub standing: Standing,
}

/// An object with the standings that it was told. It has room for so many marks, and no memory for more.
#[derive(Drop)]
pub struct Toy<const ROOM: usize> {
    /// Its history.
    pub marks: Vec<Mark>,
    /// The process whose standing the last call changed, with its standing since then.
    pub change: Option<(u32, Standing)>,
    ghost room: { ROOM ≤ vec_capacity marks },
}

impl<const ROOM: usize> Toy<ROOM> {
    /// A toy with no mark yet.
    pub fn new(alloc: Global) -> Result<Toy<ROOM>, AllocError>
        ensures { IfOk result (λ toy. (toy.marks.items ≡ []) × (toy.change ≡ None)) }
    {
        Ok(Toy {
            marks: Vec::with_capacity(alloc, ROOM)?,
            change: None,
        })
    }
}

/// A call adds a mark, or none.
impl<const ROOM: usize> Booked for Toy<ROOM> {
    type Call = Option<Mark>;

    type Reply = ();

    type Entry = Mark;

    ghost history = { λ toy. toy.marks.items };

    ghost does = { λ before call reply after. after ≡ before ++ option_to_list call };

    ghost short = { λ marks call. (ROOM ≤ length marks) × IsSome call };

    ghost may = { λ marks call. IfSome call (λ mark. mark.process < PROCESSES) };

    ghost standing = { λ marks process.
        fold (λ standing mark. if mark.process == process then mark.standing else standing) Absent marks };

    ghost changed = { λ toy. toy.change };

    ghost grows = { λ seen later call may. may };

    fn act(&mut self, call: Option<Mark>) -> Result<(), NoMemory> {
        self.change = None;
        let Some(mark) = call else {
            return Ok(());
        };
        if self.marks.len() >= ROOM {
            return Err(NoMemory);
        }
        let before = self.standing_of(mark.process);
        if self.marks.push(mark).is_err() {
            return Err(NoMemory);
        }
        if !is_same(before, mark.standing) {
            self.change = Some((mark.process, mark.standing));
        }
        Ok(())
    }

    fn change(&self) -> Option<(u32, Standing)> {
        self.change
    }

    fn standing_of(&self, process: u32) -> Standing {
        let mut standing = Standing::Absent;
        for mark in &self.marks {
            if mark.process == process {
                standing = mark.standing;
            }
        }
        standing
    }
}

fn is_same(a: Standing, b: Standing) -> bool
    ensures { IsTrue result ↔ (a ≡ b) }
{
    a == b
}
