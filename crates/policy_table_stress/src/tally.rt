ghost use Rattle.std.specs.Prelude.{◌≡◌, ◌-◌, ◌^◌, ℕ, List, ◌∷◌, ◌++◌, [], length};
ghost use Rattle.policy_table_stress.specs.Tallies.{calls_before, standing_after};

use policy_table::{Booked, NoMemory, Standing};

/// An object that counts its calls. Each call adds one entry, which is the number of calls before it, and
/// replies that number. Process 0 is locked to the site of half the number of calls, so that every second
/// call changes its standing. It says that it has no memory once the number of calls is the largest that it can count.
#[derive(Drop)]
pub struct Tally {
    /// The number of calls.
    pub calls: u32,
    /// The process whose standing the last call changed, with its standing since then.
    pub change: Option<(u32, Standing)>,
}

impl Booked for Tally {
    type Call = ();

    type Reply = u32;

    type Entry = u32;

    ghost history = { λ tally. calls_before tally.calls };

    ghost does = { λ before call reply after. (reply ≡ length before) × (after ≡ before ++ reply ∷ []) };

    ghost short = { λ before call. length before ≡ 2 ^ 32 - 1 };

    ghost may = { λ before call. Unit {0} };

    ghost standing = { standing_after };

    ghost changed = { λ tally. tally.change };

    ghost grows = { λ seen later call may. tt };

    #[tactic(auto, using(crate::proofs::Tallies::length_of_calls, crate::proofs::Tallies::one_more_call, crate::proofs::Tallies::even_changes_none, crate::proofs::Tallies::odd_changes_one))]
    fn act(&mut self, _: ()) -> Result<u32, NoMemory> {
        let number = self.calls;
        if number == u32::MAX {
            self.change = None;
            return Err(NoMemory);
        }
        self.calls = number + 1;
        self.change = if number % 2 == 0 {
            None
        } else {
            Some((0, Standing::Locked(self.calls / 2)))
        };
        Ok(number)
    }

    fn change(&self) -> Option<(u32, Standing)> {
        self.change
    }

    #[tactic(auto, using(crate::proofs::Tallies::length_of_calls))]
    fn standing_of(&self, process: u32) -> Standing {
        if process == 0 {
            Standing::Locked(self.calls / 2)
        } else {
            Standing::Absent
        }
    }
}
