//! The standing of processes: warm, locked to a site, or dead.

ghost use Rattle.std.specs.Prelude.{◌≡◌, ◌≤◌, ◌^◌, fold, max};
ghost use Rattle.std.specs.List.{list_any};
ghost use Rattle.std.specs.Option.{option_copied, option_to_list};
ghost use Rattle.page_origin.specs.Origins.{equal_sites};
ghost use Rattle.history_rules.specs.Entries.{last_match};
ghost use Rattle.history_rules.specs.Orders.{lock_in};
ghost use Rattle.history_rules.specs.Processes as processes;

use entry_facts::{entries as said, orders, processes as starts};
use script_model::{Entry, Site};

/// Whether an entry made a process dead.
#[tactic(auto, unfolding(history_rules::specs::Processes::is_dead))]
pub fn is_dead(entries: &[Entry], process: u64) -> bool
    ensures { result ≡ processes.is_dead entries.now process }
{
    entries
        .iter()
        .any(|entry| said::ends_process(entry, process))
}

// The site of the orders to a process.
fn ordered_site(entries: &[Entry], process: u64) -> Option<&Site>
    ensures { option_copied result ≡ last_match (lock_in process) entries.now }
{
    let mut last = None;
    for entry in entries {
        last = orders::lock_in(entry, process).or(last);
    }
    last
}

/// The site to which a process is locked; a dead process has none.
#[tactic(auto, unfolding(history_rules::specs::Processes::lock_of))]
pub fn lock_of(entries: &[Entry], process: u64) -> Option<&Site>
    ensures { option_copied result ≡ processes.lock_of entries.now process }
{
    if is_dead(entries, process) {
        None
    } else {
        ordered_site(entries, process)
    }
}

/// Whether a process is locked to some site.
#[tactic(auto, unfolding(history_rules::specs::Processes::is_locked))]
pub fn is_locked(entries: &[Entry], process: u64) -> bool
    ensures { result ≡ processes.is_locked entries.now process }
{
    lock_of(entries, process).is_some()
}

// Whether two sites are equal.
fn is_same(a: &Site, b: &Site) -> bool
    ensures { result ≡ equal_sites a.now b.now }
{
    a == b
}

/// Whether a process is locked to this site.
#[tactic(auto, unfolding(history_rules::specs::Processes::is_locked_to))]
pub fn is_locked_to(entries: &[Entry], site: &Site, process: u64) -> bool
    ensures { result ≡ processes.is_locked_to entries.now site.now process }
{
    match lock_of(entries, process) {
        Some(lock) => is_same(site, lock),
        None => false,
    }
}

// Whether a process was started without a lock.
fn was_warmed(entries: &[Entry], process: u64) -> bool
    ensures { result ≡ list_any (processes.warms process) entries.now }
{
    entries.iter().any(|entry| starts::warms(entry, process))
}

/// Whether a process is started and not locked.
#[tactic(auto, unfolding(history_rules::specs::Processes::is_warm))]
pub fn is_warm(entries: &[Entry], process: u64) -> bool
    ensures { result ≡ processes.is_warm entries.now process }
{
    was_warmed(entries, process) && !is_dead(entries, process) && !is_locked(entries, process)
}

/// Whether a process is warm or locked.
#[tactic(auto, unfolding(history_rules::specs::Processes::is_live))]
pub fn is_live(entries: &[Entry], process: u64) -> bool
    ensures { result ≡ processes.is_live entries.now process }
{
    is_warm(entries, process) || is_locked(entries, process)
}

// The greater of a number and the next, if there is a next.
fn greatest(most: u64, next: Option<u64>) -> u64
    ensures { result ≡ fold max most (option_to_list next) }
{
    match next {
        Some(count) => most.max(count),
        None => most,
    }
}

/// How many processes were started.
#[tactic(auto, unfolding(history_rules::specs::Processes::started))]
pub fn started(entries: &[Entry]) -> u64
    ensures count { result ≡ processes.started entries.now }
    ensures few { processes.started entries.now ≤ 2 ^ 32 }
{
    let mut most = 0;
    for entry in entries {
        most = greatest(most, starts::started_by(entry));
    }
    most
}

/// How many processes are live.
#[tactic(auto, unfolding(history_rules::specs::Processes::live_count), using(crate::proofs::Counts::count_range_more))]
pub fn live_count(entries: &[Entry]) -> u64
    ensures { result ≡ processes.live_count entries.now }
{
    let mut count = 0;
    for process in 0..started(entries) {
        if is_live(entries, process) {
            count += 1;
        }
    }
    count
}
