//! Orders of navigations, and the answers to them.

ghost use Rattle.std.specs.Prelude.{◌≡◌};
ghost use Rattle.std.specs.Option.{option_map};
ghost use Rattle.history_rules.specs.Orders as order_rules;
ghost use Rattle.entry_facts.specs.Orders.{order_view};

use entry_facts::{Ordered, orders};
use script_model::Entry;

/// The order of a navigation.
#[tactic(auto, unfolding(history_rules::specs::Orders::order_of))]
pub fn order_of(entries: &[Entry], navigation: u64) -> Option<Ordered<'_>>
    ensures { option_map order_view result ≡ order_rules.order_of entries.now navigation }
{
    let mut last = None;
    for entry in entries {
        last = orders::order_in(entry, navigation).or(last);
    }
    last
}

/// Whether a navigation has an order.
#[tactic(auto, unfolding(history_rules::specs::Orders::was_ordered))]
pub fn was_ordered(entries: &[Entry], navigation: u64) -> bool
    ensures { result ≡ order_rules.was_ordered entries.now navigation }
{
    order_of(entries, navigation).is_some()
}

/// Whether a navigation was ever ordered to a process.
#[tactic(auto, unfolding(history_rules::specs::Orders::had_order))]
pub fn had_order(entries: &[Entry], process: u64, navigation: u64) -> bool
    ensures { result ≡ order_rules.had_order entries.now process navigation }
{
    entries
        .iter()
        .any(|entry| orders::orders_to(entry, process, navigation))
}

/// Whether the order of a navigation was answered.
#[tactic(auto, unfolding(history_rules::specs::Orders::was_answered))]
pub fn was_answered(entries: &[Entry], navigation: u64) -> bool
    ensures { result ≡ order_rules.was_answered entries.now navigation }
{
    entries
        .iter()
        .any(|entry| orders::answers(entry, navigation))
}
