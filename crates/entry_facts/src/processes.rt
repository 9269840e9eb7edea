//! Processes that an entry starts.

ghost use Rattle.std.specs.Prelude.{◌≡◌, ◌≤◌, ◌^◌, IfSome};
ghost use Rattle.history_rules.specs.Processes as processes;

use script_model::Entry;

/// Whether a process is started without a lock.
pub fn warms(entry: &Entry, process: u64) -> bool
    ensures { result ≡ processes.warms process entry.now }
{
    match entry {
        Entry::Warm(started) => u64::from(*started) == process,
        _ => false,
    }
}

/// One more than the process that an entry warms or orders.
pub fn started_by(entry: &Entry) -> Option<u64>
    ensures number { result ≡ processes.started_by entry.now }
    ensures few { IfSome result (λ n. n ≤ 2 ^ 32) }
{
    match entry {
        Entry::Warm(process) => Some(u64::from(*process) + 1),
        Entry::Order(_, process, ..) => Some(u64::from(*process) + 1),
        _ => None,
    }
}
