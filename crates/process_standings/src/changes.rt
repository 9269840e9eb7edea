//! What the last entry of a history changes.

ghost use Rattle.std.specs.Prelude.{◌≡◌, ◌≢◌, ◌<◌, ◌^◌, ◌↔◌, [], IsTrue, MatchOption, None, if◌then◌else◌, length};
ghost use Rattle.history_rules.specs.Entries.{kills};
ghost use Rattle.history_steps.specs.Run.{Legal};
ghost use Rattle.script_model.specs.ScriptData.{ScriptData};
ghost use Rattle.service_rule.specs.Services.{ServiceRule};
ghost use Rattle.process_standings.specs.Changing.{LastChanges, process_about};
ghost use Rattle.process_standings.specs.Standings.{table_standing};

use crate::standings::standing_of;
use entry_facts::entries::kills;
use policy_table::Standing;
use script_model::{Entry, Reply};

// The process, where the reply kills it.
fn killed(process: u32, reply: &Reply) -> Option<u32>
    ensures { result ≡ (if kills reply.now then Some process else None) }
{
    if kills(reply) { Some(process) } else { None }
}

// The process whose standing an entry may change: one that it starts, orders, kills, or that crashes or exits.
fn process_about(entry: &Entry) -> Option<u32>
    ensures { result ≡ process_about entry.now }
{
    match entry {
        Entry::Warm(process)
        | Entry::Order(_, process, ..)
        | Entry::Crash(process)
        | Entry::Exit(process) => Some(*process),
        Entry::Said(process, .., reply) | Entry::Commit(process, .., reply) => {
            killed(*process, reply)
        }
        _ => None,
    }
}

// Whether two standings are the same.
fn is_same(a: Standing, b: Standing) -> bool
    ensures { IsTrue result ↔ (a ≡ b) }
{
    a == b
}

// The standing of a process now, where it is another than before.
fn changed(before: &[Entry], entries: &[Entry], process: u32) -> Option<Standing>
    requires few_before { length before.now < 2 ^ 32 }
    requires few { length entries.now < 2 ^ 32 }
    ensures { MatchOption result
        (table_standing entries.now process ≡ table_standing before.now process)
        (λ now. (now ≡ table_standing entries.now process) × (table_standing before.now process ≢ now)) }
{
    let now = standing_of(entries, process);
    if is_same(standing_of(before, process), now) {
        None
    } else {
        Some(now)
    }
}

/// The process whose standing the last entry of a history changed, with its standing now; none where it changed none.
pub fn last_change(entries: &[Entry]) -> Option<(u32, Standing)>
    requires { length entries.now < 2 ^ 32 }
    ensures change { (rule : ServiceRule) (s : ScriptData) → Legal rule s entries.now → LastChanges entries.now result }
    ensures none { entries.now ≡ [] → result ≡ None }
{
    let (last, before) = entries.split_last()?;
    let process = process_about(last)?;
    let now = changed(before, entries, process)?;
    Some((process, now))
}
