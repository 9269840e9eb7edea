ghost use Rattle.policy_table.specs.TableRule.{IsKept};
ghost use Rattle.policy_table.specs.Views.{opener, less_one, one_unit, joined, spent};
ghost use Rattle.policy_table.specs.Steps.{taken, opened, entered, released, row_read};

use crate::booked::Booked;
use crate::view::View;
use atomic_table::{Join, Play, Split, TableRule};

/// The rule of the table. Its key is the object at the opening, for the first pass has seen its whole history.
pub struct OneHistory;

impl<O: Booked> TableRule<Option<O>, View<O::Entry>, O> for OneHistory {
    ghost holds = { λ opening. IsKept O.history O.standing };

    ghost first = { λ opening. opener (O.history opening) };
}

/// A unit of weight goes to a new pass.
pub(crate) struct OneUnit;

impl<E> Split<View<E>> for OneUnit {
    ghost left = { less_one };

    ghost right = { one_unit };
}

/// A pass takes in what another has seen, and its weight.
pub(crate) struct Meeting;

impl<E> Join<View<E>> for Meeting {
    ghost both = { joined };

    ghost spent = { spent };
}

/// The turn is taken, if it was free.
pub(crate) struct Take;

impl<O: Booked> Play<Option<O>, View<O::Entry>> for Take {
    ghost then = { taken O.history };
}

/// The slot of a new table is taken, which is empty.
pub(crate) struct Open;

impl<O: Booked> Play<Option<O>, View<O::Entry>> for Open {
    ghost then = { opened O.history };
}

/// What the object's last call added joins the history.
pub(crate) struct Enter;

impl<O: Booked> Play<Option<O>, View<O::Entry>> for Enter {
    ghost then = { entered O.history };
}

/// The slot goes home, and the turn is free.
pub(crate) struct Release;

impl<O: Booked> Play<Option<O>, View<O::Entry>> for Release {
    ghost then = { released O.history };
}

/// A row is looked at.
pub(crate) struct Look;

impl<O: Booked> Play<Option<O>, View<O::Entry>> for Look {
    ghost then = { row_read O.history O.standing };
}
