// The steps on the table, one function for each kind.
ghost use Rattle.std.specs.Prelude.{◌≡◌, ◌<◌, ◌≤◌, [], ◌∷◌, Some, None, MatchBool, length};
ghost use Rattle.policy_table.specs.Histories.{ArePlaces};
ghost use Rattle.policy_table.specs.Views.{less_one, one_unit, joined, seeing, Follows};
ghost use Rattle.policy_table.specs.Steps.{SitsAt, TakesTurn, HasCalled, RowRead};
ghost use Rattle.policy_table.specs.declared.standing.TheConstants.{PROCESSES};

use crate::booked::Booked;
use crate::plays::{Enter, Look, Meeting, OneHistory, OneUnit, Open, Release, Take};
use crate::row_words::encode;
use crate::standing::Standing;
use crate::view::View;
use atomic_table::{Seat, Shared, Table};
use std::alloc::Global;

/// The turn word.
const TURN: usize = 0;

/// The turn word while the object is at home.
const FREE: u64 = 0;

/// The turn word while a holder has the object.
const HELD: u64 = 1;

/// The turn word of a new table, whose slot is empty.
pub(crate) const OPENING: u64 = 2;

/// The one slot, which holds the object.
const SLOT: usize = 0;

/// The words and the slot, as all passes share them.
pub(crate) type Rows<O> = Shared<Option<O>, View<<O as Booked>::Entry>, O, OneHistory>;

/// Where a pass makes its steps from.
pub(crate) type Place<O> = Seat<Option<O>, View<<O as Booked>::Entry>>;

/// Seat split: one unit of weight goes to a new seat, which has seen as much.
pub(crate) fn split_seat<O: Booked>(rows: &Rows<O>, seat: &mut Place<O>) -> Place<O>
    requires desk { SitsAt rows.now.table_id seat.old.table_id }
    requires weight { 2 ≤ seat.old.me.0.weight }
    ensures desk { (seat.new.table_id ≡ seat.old.table_id) × (result.table_id ≡ seat.old.table_id) }
    ensures left { seat.new.me ≡ (less_one seat.old.me.0, seat.old.me.1) }
    ensures unit { result.me ≡ (one_unit seat.old.me.0, []) }
{
    rows.split_seat::<OneUnit>(seat)
}

/// Seat join: the other seat's weight comes over, and of the two histories seen the longer one.
pub(crate) fn join_seat<O: Booked>(rows: &Rows<O>, seat: &mut Place<O>, other: Place<O>)
    requires desk { SitsAt rows.now.table_id seat.old.table_id × SitsAt rows.now.table_id other.table_id }
    requires weight { 0 < seat.old.me.0.weight }
    requires idle { (seat.old.me.0.turn ≡ 0) × (other.me.0.turn ≡ 0) × (other.me.1 ≡ []) }
    ensures desk { seat.new.table_id ≡ seat.old.table_id }
    ensures both { seat.new.me ≡ (joined seat.old.me.0 other.me.0, seat.old.me.1) }
{
    rows.join_seat::<Meeting>(seat, other);
}

/// Take: the turn word goes from free to held by one compare and exchange. With the turn comes the slot.
pub(crate) fn take_turn<O: Booked>(rows: &Rows<O>, seat: &mut Place<O>) -> bool
    requires desk { SitsAt rows.now.table_id seat.old.table_id }
    requires weight { 0 < seat.old.me.0.weight }
    ensures desk { seat.new.table_id ≡ seat.old.table_id }
    ensures taken { MatchBool result (TakesTurn O.history seat.old.me seat.new.me) (seat.new.me ≡ seat.old.me) }
{
    rows.compare_exchange::<Take>(seat, TURN, FREE, HELD) == FREE
}

/// Opening: the maker of the table takes the turn and the empty slot.
pub(crate) fn open_table<O: Booked>(rows: &Rows<O>, seat: &mut Place<O>)
    requires desk { SitsAt rows.now.table_id seat.old.table_id }
    requires opener { (seat.old.me.0.turn ≡ 2) × (0 < seat.old.me.0.weight) }
    ensures desk { seat.new.table_id ≡ seat.old.table_id }
    ensures open { seat.new.me ≡ (seeing seat.old.me.0 seat.old.me.0.seen 1, (0, None) ∷ seat.old.me.1) }
{
    rows.store::<Open>(seat, TURN, HELD);
}

/// Slot out: the holder takes the object out of its slot.
pub(crate) fn slot_out<O: Booked>(rows: &Rows<O>, seat: &mut Place<O>) -> O
    requires desk { SitsAt rows.now.table_id seat.old.table_id }
    requires full { (core : O) × (seat.old.me.1 ≡ (0, Some core) ∷ []) }
    ensures desk { seat.new.table_id ≡ seat.old.table_id }
    ensures core { seat.old.me.1 ≡ (0, Some result) ∷ [] }
    ensures empty { seat.new.me ≡ (seat.old.me.0, (0, None) ∷ []) }
{
    let Some(core) = rows.exchange(seat, SLOT, None) else {
        unreachable!()
    };
    core
}

/// Slot in: the holder puts the object back into its slot, which stays out until the release.
pub(crate) fn slot_in<O: Booked>(rows: &Rows<O>, seat: &mut Place<O>, core: O)
    requires desk { SitsAt rows.now.table_id seat.old.table_id }
    requires empty { seat.old.me.1 ≡ (0, None) ∷ [] }
    ensures desk { seat.new.table_id ≡ seat.old.table_id }
    ensures full { seat.new.me ≡ (seat.old.me.0, (0, Some core) ∷ []) }
{
    let empty = rows.exchange(seat, SLOT, Some(core));
    let None = empty else { unreachable!() };
}

/// Entry store: an entry that changes no standing joins the history, and the turn stays held.
pub(crate) fn entry_store<O: Booked>(rows: &Rows<O>, seat: &mut Place<O>)
    requires desk { SitsAt rows.now.table_id seat.old.table_id }
    requires call { HasCalled O.history O.standing None seat.old.me }
    ensures desk { (seat.new.table_id ≡ seat.old.table_id) × (seat.new.me.1 ≡ seat.old.me.1) }
    ensures joins { (core : O) → seat.old.me.1 ≡ (0, Some core) ∷ [] → Follows seat.old.me.0 (O.history core) seat.new.me.0 }
{
    rows.store::<Enter>(seat, TURN, HELD);
}

/// Row store: the entry that changes the standing of a process joins the history as the row of the process is written.
pub(crate) fn row_store<O: Booked>(
    rows: &Rows<O>,
    seat: &mut Place<O>,
    process: u32,
    standing: Standing,
)
    requires desk { SitsAt rows.now.table_id seat.old.table_id }
    requires call { HasCalled O.history O.standing (Some (process, standing)) seat.old.me }
    ensures desk { (seat.new.table_id ≡ seat.old.table_id) × (seat.new.me.1 ≡ seat.old.me.1) }
    ensures joins { (core : O) → seat.old.me.1 ≡ (0, Some core) ∷ [] → Follows seat.old.me.0 (O.history core) seat.new.me.0 }
{
    rows.store::<Enter>(seat, process as usize + 1, encode(standing));
}

/// Release store: the slot goes home with the object, and the turn is free.
pub(crate) fn release_store<O: Booked>(rows: &Rows<O>, seat: &mut Place<O>)
    requires desk { SitsAt rows.now.table_id seat.old.table_id }
    requires turn { (seat.old.me.0.turn ≡ 1) × (0 < seat.old.me.0.weight) }
    requires home { (core : O) × (seat.old.me.1 ≡ (0, Some core) ∷ []) × (O.history core ≡ seat.old.me.0.seen) }
    ensures desk { seat.new.table_id ≡ seat.old.table_id }
    ensures free { seat.new.me ≡ (seeing seat.old.me.0 seat.old.me.0.seen 0, []) }
    ensures places { ArePlaces seat.new.me.0.mine (length seat.new.me.0.seen) }
{
    rows.store::<Release>(seat, TURN, FREE);
}

/// Row load: the word of a process's row, in a history that the seat has then seen.
pub(crate) fn row_load<O: Booked>(rows: &Rows<O>, seat: &mut Place<O>, process: u32) -> u64
    requires desk { SitsAt rows.now.table_id seat.old.table_id }
    requires small { process < PROCESSES }
    ensures desk { seat.new.table_id ≡ seat.old.table_id }
    ensures read { RowRead O.history O.standing process seat.old.me result seat.new.me }
{
    rows.load::<Look>(seat, process as usize + 1)
}

/// The end: what lies in the slot of a table whose last seat has the whole weight.
pub(crate) fn close_table<O: Booked>(
    table: Table<Option<O>, View<O::Entry>, O, OneHistory, Global>,
    seat: Place<O>,
) -> Option<O>
    requires desk { SitsAt table.shared.table_id seat.table_id }
    requires last { (seat.me.0.weight ≡ 16) × (seat.me.0.turn ≡ 0) × (seat.me.1 ≡ []) }
    ensures { (core : O) × (result ≡ Some core) × (O.history core ≡ seat.me.0.seen) }
{
    let mut closed = table.close_with(seat);
    let slot = closed.take(SLOT);
    closed.free();
    slot
}
