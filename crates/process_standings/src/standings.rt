//! The standing of one process.

ghost use Rattle.std.specs.Prelude.{◌≡◌, ◌<◌, ◌^◌, length};
ghost use Rattle.process_standings.specs.Standings.{table_standing};

use crate::sites::site_number;
use plain_facts::processes::{is_dead, is_warm, lock_of};
use policy_table::Standing;
use script_model::Entry;

/// How a process stands in a history.
#[tactic(auto, unfolding(crate::specs::Standings::table_standing, history_rules::specs::Processes::standing))]
pub fn standing_of(entries: &[Entry], process: u32) -> Standing
    requires { length entries.now < 2 ^ 32 }
    ensures { result ≡ table_standing entries.now process }
{
    let number = u64::from(process);
    if is_dead(entries, number) {
        return Standing::Dead;
    }
    if is_warm(entries, number) {
        return Standing::Warm;
    }
    match lock_of(entries, number) {
        Some(site) => Standing::Locked(site_number(entries, site)),
        None => Standing::Absent,
    }
}
