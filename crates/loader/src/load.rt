ghost use Rattle.std.specs.Prelude.{◌≤◌, vec_len};
ghost use Rattle.browser_io.specs.declared.wire.TheConstants.{MAX_PIECE};

use crate::progress::Progress;
use crate::read::read_piece;
use browser_io::{MAX_PIECE, Wire};
use read_verdict::{Judge, Step};
use script_model::NoMemory;
use std::alloc::Global;

/// The load of one response.
///
/// Contracts see by `HasLoaded` what it stands for: the data that its judge was made for, and the pieces that it has handed
/// out. A load that answered an end, or that no memory was left, is not stepped again.
#[derive(Drop)]
pub struct Load {
    progress: Progress,
    buffer: Vec<u8>,
    ghost room: { MAX_PIECE ≤ vec_len buffer },
}

impl Load {
    ghost use Rattle.std.specs.Prelude.{◌≡◌, ◌≢◌, ◌↔◌, ◌≤◌, ◌<◌, ◌+◌, ◌-◌, ◌^◌, [], true, false, ℕ, List, Ok, IfOk, IsTrue};
    ghost use Rattle.browser_io.specs.Faults.{Rose};
    ghost use Rattle.browser_io.specs.Wires.{IsUsedUp, KeepsTellingPieces};
    ghost use Rattle.read_verdict.specs.Cases.{Case};
    ghost use Rattle.read_verdict.specs.HasJudged.{HasJudged};
    ghost use Rattle.loader.specs.Loads.{HasLoaded, IsFresh, IsWireOf, taken_count};
    ghost use Rattle.loader.specs.Steps.{GoesOn, Says, out_after};

    /// A load whose response is judged by this judge, which was fed nothing and not finished.
    pub fn new(alloc: Global, judge: Judge) -> Result<Load, NoMemory>
        ensures fresh { IfOk result (λ load. IsFresh load.progress) }
        ensures loaded { IfOk result (λ load. (case : Case) → HasJudged judge case [] false → HasLoaded load.progress case []) }
    {
        let buffer = vec![in alloc; 0; MAX_PIECE]?;
        Ok(Load {
            progress: Progress::new(alloc, judge),
            buffer,
        })
    }

    /// Whether one more piece can be taken and numbered.
    pub fn has_room(&self) -> bool
        ensures { IsTrue result ↔ (taken_count self.now.progress < 2 ^ 32 - 1) }
    {
        self.progress.has_room()
    }

    /// The next step of the load, from this wire. `Step::Gone` exactly where the process that asked is dead; then the
    /// wire is not read.
    ///
    /// No step comes after one that answered `Whole`, `Blocked`, `Fault` or `Gone`, or that no memory was left.
    pub fn step<W: Wire>(
        &mut self,
        alloc: Global,
        wire: &mut W,
        host_dead: bool,
    ) -> Result<Step, NoMemory>
        requires { taken_count self.old.progress < 2 ^ 32 - 1 }
        ensures gone { result ≡ Ok Step.Gone ↔ host_dead ≡ true }
        ensures untouched { host_dead ≡ true → wire.new ≡ wire.old }

        // What each answer says, and that the load goes on after Held, Head and Piece.
        ensures says { (case : Case) (out : List (List ℕ)) → HasLoaded self.old.progress case out →
            IfOk result (Says case out self.old.progress self.new.progress) }
        ensures goes_on { (case : Case) (out : List (List ℕ)) → HasLoaded self.old.progress case out →
            IfOk result (λ step. GoesOn step → HasLoaded self.new.progress case (out_after out step)) }

        // The pieces taken are those of the wire, whole and in order, at most one a step.
        ensures wire { (out : List (List ℕ)) (all : List (List ℕ)) → IsWireOf self.old.progress out (W.left wire.old) (W.fails wire.old) all →
            IfOk result (λ step. IsWireOf self.new.progress (out_after out step) (W.left wire.new) (W.fails wire.new) all) }
        ensures few { IfOk result (λ _. taken_count self.new.progress ≤ taken_count self.old.progress + 1) }

        // A fault is one of the wire in this step, with none of its pieces left, and nothing else is counted.
        ensures used_up { result ≡ Ok Step.Fault → IsUsedUp (W.left wire.old) (W.fails wire.old) true }
        ensures unmoved { result ≡ Ok Step.Fault → W.left wire.new ≡ W.left wire.old }
        ensures rose { result ≡ Ok Step.Fault → Rose (W.faults wire.old) (W.faults wire.new) }
        ensures calm { result ≢ Ok Step.Fault → W.faults wire.new ≡ W.faults wire.old }
        ensures later { W.faults wire.old ≤ W.faults wire.new }
        ensures telling { KeepsTellingPieces (W.left wire.old) (W.left wire.new) }
        ensures steady { W.fails wire.new ≡ W.fails wire.old }
    {
        if host_dead {
            return Ok(Step::Gone);
        }
        if self.progress.is_waiting() {
            let read = read_piece(alloc, wire, self.buffer.as_mut_slice())?;
            return self.progress.next_by(read);
        }
        Ok(self.progress.next())
    }
}
