//! The numbers of sites: each has that of the sites that were ordered before its first order.

ghost use Rattle.std.specs.Prelude.{◌≡◌, ◌≤◌, ◌<◌, ◌^◌, length};
ghost use Rattle.std.specs.List.{list_any, position};
ghost use Rattle.std.specs.Option.{option_copied};
ghost use Rattle.page_origin.specs.Origins.{equal_sites};
ghost use Rattle.history_rules.specs.Processes as processes;
ghost use Rattle.process_standings.specs.Changing.{is_new_site, is_order_of, site_count};

use script_model::{Entry, Site};

// The site of an order.
fn site_in(entry: &Entry) -> Option<&Site>
    ensures { option_copied result ≡ processes.site_in entry.now }
{
    match entry {
        Entry::Order(_, _, site, ..) => Some(site),
        _ => None,
    }
}

// Whether two sites are equal.
fn is_same(a: &Site, b: &Site) -> bool
    ensures { result ≡ equal_sites a.now b.now }
{
    a == b
}

// Whether an entry is an order of this site.
fn is_order_of(entry: &Entry, site: &Site) -> bool
    ensures { result ≡ is_order_of site.now entry.now }
{
    match site_in(entry) {
        Some(ordered) => is_same(site, ordered),
        None => false,
    }
}

// Whether one of these entries is an order of this site.
fn was_ordered(entries: &[Entry], site: &Site) -> bool
    ensures { result ≡ list_any (is_order_of site.now) entries.now }
{
    entries.iter().any(|entry| is_order_of(entry, site))
}

// Whether an entry is an order of a site that none before it is of.
fn is_new_site(before: &[Entry], entry: &Entry) -> bool
    ensures { result ≡ is_new_site before.now entry.now }
{
    match site_in(entry) {
        Some(site) => !was_ordered(before, site),
        None => false,
    }
}

// How many sites the orders are of.
fn site_count(entries: &[Entry]) -> u32
    requires { length entries.now < 2 ^ 32 }
    ensures { result ≡ site_count entries.now }
{
    let mut count = 0;
    for (place, entry) in entries.iter().enumerate() {
        let (before, _) = entries.split_at(place);
        if is_new_site(before, entry) {
            count += 1;
        }
    }
    count
}

// The place of the first order of a site.
fn first_order(entries: &[Entry], site: &Site) -> Option<usize>
    ensures { result ≡ position (is_order_of site.now) entries.now }
{
    entries.iter().position(|entry| is_order_of(entry, site))
}

/// The number of a site: how many others stand in orders before its own first one.
#[tactic(auto, using(crate::proofs::SiteCounts::number_found, crate::proofs::SiteCounts::number_none))]
pub(crate) fn site_number(entries: &[Entry], site: &Site) -> u32
    requires { length entries.now < 2 ^ 32 }
    ensures { result ≡ processes.site_number entries.now site.now }
{
    match first_order(entries, site) {
        Some(place) => site_count(entries.split_at(place).0),
        None => site_count(entries),
    }
}
