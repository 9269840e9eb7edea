//! Navigations: whether they are pending or waiting, and their initiators.

ghost use Rattle.std.specs.Prelude.{◌≡◌, false, not};
ghost use Rattle.std.specs.Option.{option_copied, option_map_or};
ghost use Rattle.history_rules.specs.Navigations as navigations;
ghost use Rattle.std.specs.List.{list_any};
ghost use Rattle.history_rules.specs.Orders.{order_of};
ghost use Rattle.history_rules.specs.Entries.{ends_navigation};
ghost use Rattle.history_rules.specs.Processes.{is_dead};

use crate::documents::origin_of;
use crate::facts::PlainFacts;
use crate::frames::was_opened;
use crate::orders::{order_of, was_ordered};
use crate::processes::is_dead;
use entry_facts::entries::{commits, ends_navigation};
use entry_facts::navigations::body_initiator;
use script_model::{Entry, Message, Origin};

/// Whether a navigation has an accepted commit.
#[tactic(auto, unfolding(history_rules::specs::Navigations::is_committed))]
pub fn is_committed(entries: &[Entry], navigation: u64) -> bool
    ensures { result ≡ navigations.is_committed entries.now navigation }
{
    entries.iter().any(|entry| commits(entry, navigation))
}

// Whether a navigation ended without a commit.
fn has_ended(entries: &[Entry], navigation: u64) -> bool
    ensures { result ≡ list_any (ends_navigation navigation) entries.now }
{
    entries
        .iter()
        .any(|entry| ends_navigation(entry, navigation))
}

// The initiator that a message tells.
fn initiator_in<'a>(entries: &'a [Entry], message: &'a Message) -> Option<&'a Origin>
    ensures { option_copied result ≡ navigations.initiator_in entries.now message.now }
{
    body_initiator(
        &message.body,
        origin_of(entries, u64::from(message.document)),
    )
}

// Whether the order of a navigation is to a process that is not dead.
fn is_order_living(entries: &[Entry], navigation: u64) -> bool
    ensures { result ≡ option_map_or (λ order. not (is_dead entries.now order.process)) (order_of entries.now navigation) false }
{
    match order_of(entries, navigation) {
        Some(order) => !is_dead(entries, u64::from(order.process)),
        None => false,
    }
}

impl<'a> PlainFacts<'a> {
    /// Whether a navigation began: a start page's when it is opened.
    #[tactic(auto, unfolding(history_rules::specs::Navigations::began))]
    pub fn began(&self, navigation: u64) -> bool
        ensures { result ≡ navigations.began self.now.script self.now.entries navigation }
    {
        if navigation < self.start_count() {
            was_opened(self.entries(), navigation)
        } else {
            navigation < self.navigations_made()
        }
    }

    /// Whether a later navigation of its frame began.
    #[tactic(auto, unfolding(history_rules::specs::Navigations::is_replaced))]
    pub fn is_replaced(&self, navigation: u64) -> bool
        ensures { result ≡ navigations.is_replaced self.now.script self.now.entries navigation }
    {
        let frame = self.frame_of(navigation);
        (0..self.navigations_made()).any(|later| navigation < later
            && self.frame_of(later) == frame)
    }

    /// Whether a navigation began, its frame is present, and no later navigation of that frame began.
    #[tactic(auto, unfolding(history_rules::specs::Navigations::is_newest))]
    pub fn is_newest(&self, navigation: u64) -> bool
        ensures { result ≡ navigations.is_newest self.now.script self.now.entries navigation }
    {
        self.began(navigation)
            && !self.is_replaced(navigation)
            && self.is_present(self.frame_of(navigation))
    }

    /// Whether a navigation is the newest of its frame, and neither ended nor ordered.
    #[tactic(auto, unfolding(history_rules::specs::Navigations::is_pending))]
    pub fn is_pending(&self, navigation: u64) -> bool
        ensures { result ≡ navigations.is_pending self.now.script self.now.entries navigation }
    {
        !was_ordered(self.entries(), navigation)
            && !has_ended(self.entries(), navigation)
            && self.is_newest(navigation)
    }

    /// Whether a navigation is the newest of its frame, ordered to a process that is not dead, and not committed.
    #[tactic(auto, unfolding(history_rules::specs::Navigations::is_waiting))]
    pub fn is_waiting(&self, navigation: u64) -> bool
        ensures { result ≡ navigations.is_waiting self.now.script self.now.entries navigation }
    {
        is_order_living(self.entries(), navigation)
            && !is_committed(self.entries(), navigation)
            && self.is_newest(navigation)
    }

    /// The initiator of a navigation: the claimed one, or the origin of the document that made its frame; a start page's has
    /// none.
    #[tactic(auto, unfolding(history_rules::specs::Navigations::initiator_of))]
    pub fn initiator_of(&self, navigation: u64) -> Option<&'a Origin>
        ensures { option_copied result ≡ navigations.initiator_of self.now.script self.now.entries navigation }
    {
        match self.navigation_maker(navigation) {
            Some(maker) => initiator_in(self.entries(), maker),
            None => None,
        }
    }
}
