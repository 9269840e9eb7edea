ghost use Rattle.std.specs.Prelude.{◌≡◌, ◌<◌, ◌+◌, ◌^◌, ℕ, IfOk, length, slice_index};
ghost use Rattle.policy_table.specs.TableRule.{code, Shows};
ghost use Rattle.policy_table.specs.declared.standing.Standing.{Standing};
ghost use Rattle.policy_table.specs.declared.standing.TheConstants.{PROCESSES};

use crate::booked::Booked;
use crate::standing::{PROCESSES, Standing};
use crate::steps::OPENING;
use std::alloc::{AllocError, Global};

/// The word of a row that shows this standing.
pub(crate) fn encode(standing: Standing) -> u64
    ensures { Shows result standing }
{
    match standing {
        Standing::Absent => 0,
        Standing::Warm => 1,
        Standing::Dead => 2,
        Standing::Locked(site) => u64::from(site) + 3,
    }
}

/// The standing that a row's word shows.
pub(crate) fn decode(word: u64) -> Standing
    requires { word < 2 ^ 32 + 3 }
    ensures { (standing : Standing) → word ≡ code standing → result ≡ standing }
{
    match word {
        0 => Standing::Absent,
        1 => Standing::Warm,
        2 => Standing::Dead,
        locked => Standing::Locked((locked - 3) as u32),
    }
}

/// The words of a new table: the turn word is held by the opening, and each row shows its process.
pub(crate) fn first_words<O: Booked>(alloc: Global, core: &O) -> Result<Vec<u64>, AllocError>
    ensures wide { IfOk result (λ words. (length words.items ≡ PROCESSES + 1) × (slice_index words.items 0 ≡ 2)) }
    ensures rows { IfOk result (λ words. (p : ℕ) → p < PROCESSES
        → Shows (slice_index words.items (p + 1)) (O.standing (O.history core.now) p)) }
{
    let mut words = Vec::new(alloc);
    words.push(OPENING)?;
    for process in 0..PROCESSES {
        words.push(encode(core.standing_of(process)))?;
    }
    Ok(words)
}
