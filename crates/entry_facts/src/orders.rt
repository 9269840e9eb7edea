//! Start pages that are opened, and orders.

ghost use Rattle.std.specs.Prelude.{◌≡◌};
ghost use Rattle.std.specs.Option.{option_copied, option_map};
ghost use Rattle.history_rules.specs.Entries as entries;
ghost use Rattle.history_rules.specs.Orders as order_rules;
ghost use Rattle.entry_facts.specs.Orders.{order_view};

use crate::ordered::Ordered;
use script_model::{Entry, Site};

/// Whether a start page is opened.
pub fn is_opened(entry: &Entry) -> bool
    ensures { result ≡ entries.is_opened entry.now }
{
    matches!(entry, Entry::Opened(_))
}

/// Whether this start page is opened.
pub fn opens(entry: &Entry, page: u64) -> bool
    ensures { result ≡ entries.opens page entry.now }
{
    match entry {
        Entry::Opened(opened) => u64::from(*opened) == page,
        _ => false,
    }
}

/// The order of a navigation.
pub fn order_in(entry: &Entry, navigation: u64) -> Option<Ordered<'_>>
    ensures { option_map order_view result ≡ order_rules.order_in navigation entry.now }
{
    match entry {
        Entry::Order(ordered, process, site, origin, url) => {
            if u64::from(*ordered) == navigation {
                Some(Ordered {
                    process: *process,
                    site,
                    origin,
                    url,
                })
            } else {
                None
            }
        }
        _ => None,
    }
}

/// Whether a navigation is ordered to a process.
pub fn orders_to(entry: &Entry, process: u64, navigation: u64) -> bool
    ensures { result ≡ order_rules.orders_to process navigation entry.now }
{
    match entry {
        Entry::Order(ordered, to, ..) => {
            u64::from(*to) == process && u64::from(*ordered) == navigation
        }
        _ => false,
    }
}

/// Whether the entry answers the order of a navigation, whatever its reply.
pub fn answers(entry: &Entry, navigation: u64) -> bool
    ensures { result ≡ order_rules.answers navigation entry.now }
{
    match entry {
        Entry::Commit(_, answered, ..) => u64::from(*answered) == navigation,
        _ => false,
    }
}

/// The site of an order to a process.
pub fn lock_in(entry: &Entry, process: u64) -> Option<&Site>
    ensures { option_copied result ≡ order_rules.lock_in process entry.now }
{
    match entry {
        Entry::Order(_, to, site, ..) => {
            if u64::from(*to) == process {
                Some(site)
            } else {
                None
            }
        }
        _ => None,
    }
}
