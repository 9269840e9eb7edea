//! How many requests began.

ghost use Rattle.std.specs.Prelude.{◌≡◌};
ghost use Rattle.history_rules.specs.Requests as requests;

use entry_facts::entries::makes_request;
use script_model::Entry;

/// How many requests began.
pub fn requests_made(entries: &[Entry]) -> u64
    ensures { result ≡ requests.requests_made entries.now }
{
    let mut count = 0;
    for entry in entries {
        if makes_request(entry) {
            count += 1;
        }
    }
    count
}
