ghost use Rattle.std.specs.Prelude.{◌≡◌, ◌≤◌, ◌<◌, [], ◌∷◌, length};
ghost use Rattle.policy_table.specs.Histories.{ArePlaces};
ghost use Rattle.policy_table.specs.Known.{view_in};

use crate::view::View;
use atomic_table::{Badge, Seat};
use std::marker::Model;
use std::mem;

/// The right to call one desk, with what its holder knows of the desk's history. It carries no data but
/// its weight, and may go from thread to thread.
#[derive(Drop)]
pub struct Pass<E> {
    pub(crate) badge: Badge<View<E>>,
    pub(crate) weight: u32,
}

impl<E> Model for Pass<E> {
    ghost use Rattle.std.specs.Prelude.{◌≡◌, ◌<◌, ◌≤◌, [], ◌∷◌, length};
    ghost use Rattle.policy_table.specs.Histories.{ArePlaces};
    ghost use Rattle.policy_table.specs.Known.{Known, known_of, view_in};

    ghost Value = { Known E };

    ghost view = { λ p. known_of p.badge.table_id (view_in p.badge.views) };

    // Its one view hasn't the turn, has the weight that the field says, and knows increasing places.
    ghost invariant = { λ p. (p.badge.views ≡ view_in p.badge.views ∷ [])
        × ((view_in p.badge.views).turn ≡ 0)
        × ((view_in p.badge.views).weight ≡ p.weight) × (0 < p.weight) × (p.weight ≤ 16)
        × ArePlaces (view_in p.badge.views).mine (length (view_in p.badge.views).seen) };
}

impl<E> Pass<E> {
    /// Its part of the desk's 16 units of weight. The places of its own entries increase within what it has seen.
    pub fn weight(&self) -> u32
        ensures weight { result ≡ self.now.weight }
        ensures range { (0 < result) × (result ≤ 16) }
        ensures places { ArePlaces self.now.mine (length self.now.seen) }
    {
        self.weight
    }
}

// The seat that a badge stands for.
pub(crate) fn seat_of<S, E>(badge: Badge<View<E>>) -> Seat<S, View<E>>
    requires { badge.views ≡ view_in badge.views ∷ [] }
    ensures { (result.table_id ≡ badge.table_id) × (result.id ≡ badge.id) × (result.me.1 ≡ []) × (result.me.0 ≡ view_in badge.views) }
{
    badge.into_seat()
}

// The seat of a pass, in whose place a blank badge is left until the seat goes back.
pub(crate) fn sit<S, E>(badge: &mut Badge<View<E>>) -> Seat<S, View<E>>
    requires { badge.old.views ≡ view_in badge.old.views ∷ [] }
    ensures { (result.table_id ≡ badge.old.table_id) × (result.id ≡ badge.old.id) × (result.me.1 ≡ []) × (result.me.0 ≡ view_in badge.old.views) }
{
    seat_of(mem::replace(badge, Badge::blank()))
}
