ghost use Rattle.std.specs.Prelude.{◌≡◌, ◌+◌, ◌-◌, ◌<◌, ◌≤◌, ◌↔◌, [], ◌∷◌, List, Some, None, IsTrue, IfOk, IfErr, length};
ghost use Rattle.policy_table.specs.Histories.{StartsWith, ArePlaces};
ghost use Rattle.policy_table.specs.Changes.{OneCall};
ghost use Rattle.policy_table.specs.Known.{known, seeing, weighing, Finds, Looks, CallsAt};
ghost use Rattle.policy_table.specs.Views.{opener, Follows};
ghost use Rattle.policy_table.specs.Views.{seeing as view_seeing};
ghost use Rattle.policy_table.specs.Steps.{SitsAt, HoldsTurn};
ghost use Rattle.policy_table.specs.declared.standing.Standing.{Standing};
ghost use Rattle.policy_table.specs.declared.standing.TheConstants.{PROCESSES};

use crate::booked::Booked;
use crate::handle::Handle;
use crate::pass::{Pass, seat_of, sit};
use crate::plays::OneHistory;
use crate::row_words::{decode, first_words};
use crate::standing::Standing;
use crate::steps::{
    Place, Rows, close_table, entry_store, join_seat, open_table, release_store, row_load,
    row_store, slot_in, slot_out, split_seat, take_turn,
};
use crate::view::View;
use atomic_table::Table;
use call_answers::NoMemory;
use std::alloc::Global;
use std::marker::Model;
use std::sync::Wait;
use std::thread::yield_now;

/// An object that several threads share as one history, with a row for each of 1,024 processes.
/// Contracts see it as the identity of its table, by which its passes name it.
/// It has no `Drop`: it ends in `close`.
pub struct Desk<O: Booked> {
    table: Table<Option<O>, View<O::Entry>, O, OneHistory, Global>,
}

impl<O: Booked> Model for Desk<O> {
    ghost use Rattle.std.specs.Prelude.{◌≡◌, ◌+◌};
    ghost use Rattle.atomic_table.specs.Seated.{TableId, table_id_coded};
    ghost use Rattle.policy_table.specs.declared.standing.TheConstants.{PROCESSES};

    ghost Value = { TableId };

    ghost coded = { table_id_coded };

    ghost view = { λ desk. desk.table.shared.table_id };

    ghost invariant = { λ desk. (desk.table.shared.table_id.words ≡ PROCESSES + 1) × (desk.table.shared.table_id.slots ≡ 1) };
}

impl<O: Booked> Desk<O> {
    /// A desk for the object, with its first pass. Without memory the object comes back as it was.
    pub fn new(alloc: Global, core: O) -> Result<(Desk<O>, Pass<O::Entry>), (O, NoMemory)>
        ensures ok { IfOk result (λ made. made.1 ≡ known made.0 (O.history core) [] 16) }
        ensures err { IfErr result (λ error. error.0 ≡ core) }
    {
        let Ok(words) = first_words(alloc, &core) else {
            return Err((core, NoMemory));
        };
        let Ok((table, mut seat)) = Table::vacant(alloc, words.as_slice(), 1, &core) else {
            return Err((core, NoMemory));
        };
        fill(&table.shared, &mut seat, core);
        let pass = Pass {
            badge: seat.into_badge(),
            weight: 16,
        };
        Ok((Desk { table }, pass))
    }

    /// A pass for one more caller. It has one unit of weight and has seen as much.
    pub fn split(&self, pass: &mut Pass<O::Entry>) -> Pass<O::Entry>
        requires desk { pass.old.desk ≡ self.now }
        requires weight { 2 ≤ pass.old.weight }
        ensures left { pass.new ≡ weighing pass.old (pass.old.weight - 1) }
        ensures unit { result ≡ known self.now pass.old.seen [] 1 }
    {
        let mut seat = sit(&mut pass.badge);
        let other = split_seat(&self.table.shared, &mut seat);
        pass.badge = seat.into_badge();
        pass.weight -= 1;
        Pass {
            badge: other.into_badge(),
            weight: 1,
        }
    }

    /// A pass to be handed to somebody who is to see as much. It is what `split` gives.
    pub fn note(&self, pass: &mut Pass<O::Entry>) -> Pass<O::Entry>
        requires desk { pass.old.desk ≡ self.now }
        requires weight { 2 ≤ pass.old.weight }
        ensures left { pass.new ≡ weighing pass.old (pass.old.weight - 1) }
        ensures unit { result ≡ known self.now pass.old.seen [] 1 }
    {
        self.split(pass)
    }

    /// Takes in what another pass has seen, and its weight.
    pub fn meet(&self, pass: &mut Pass<O::Entry>, other: Pass<O::Entry>)
        requires desk { (pass.old.desk ≡ self.now) × (other.desk ≡ self.now) }
        ensures this { StartsWith pass.new.seen pass.old.seen }
        ensures that { StartsWith pass.new.seen other.seen }
        ensures rest { pass.new ≡ weighing (seeing pass.old pass.new.seen) (pass.old.weight + other.weight) }
    {
        let Pass { badge, weight } = other;
        let mut seat = sit(&mut pass.badge);
        join_seat(&self.table.shared, &mut seat, seat_of(badge));
        row_load(&self.table.shared, &mut seat, 0);
        pass.badge = seat.into_badge();
        pass.weight += weight;
    }

    /// Waits for the turn, and makes a call of the object at the history that it finds.
    /// `NoMemory` is the object's own answer to that call, and then nothing was added.
    pub fn act<R: Wait>(
        &self,
        rt: &R,
        pass: &mut Pass<O::Entry>,
        call: O::Call,
    ) -> Result<O::Reply, NoMemory>
        requires desk { pass.old.desk ≡ self.now }
        requires may { O.may pass.old.seen call }
        ensures done { IfOk result (λ reply. (found : List O.Entry) × Finds pass.old found
            × CallsAt found pass.old pass.new × O.does found call reply pass.new.seen) }
        ensures none { IfErr result (λ error. Looks pass.old pass.new) }
        ensures short { IfErr result (λ error. O.short pass.new.seen call) }
        ensures kept { (pass.new.desk ≡ pass.old.desk) × (pass.new.weight ≡ pass.old.weight) }
        ensures places { ArePlaces pass.new.mine (length pass.new.seen) }
    {
        let mut seat = sit(&mut pass.badge);
        let mut core = self.take(rt, &mut seat);
        let answer = core.act(call);
        self.put(&mut seat, core);
        pass.badge = seat.into_badge();
        answer
    }

    /// The row of a process.
    pub fn handle(&self, process: u32) -> Handle
        requires { process < PROCESSES }
        ensures { result ≡ process }
    {
        Handle { process }
    }

    /// How a process stands. It is one atomic load, and waits for nobody.
    pub fn standing(&self, pass: &mut Pass<O::Entry>, handle: &Handle) -> Standing
        requires desk { pass.old.desk ≡ self.now }
        ensures seen { Looks pass.old pass.new }
        ensures standing { result ≡ O.standing pass.new.seen handle.now }
    {
        let mut seat = sit(&mut pass.badge);
        let word = row_load(&self.table.shared, &mut seat, handle.process);
        pass.badge = seat.into_badge();
        decode(word)
    }

    /// Whether a process is locked to the site of this number. It is one atomic load, and waits for nobody.
    pub fn can_access(&self, pass: &mut Pass<O::Entry>, handle: &Handle, site: u32) -> bool
        requires desk { pass.old.desk ≡ self.now }
        ensures seen { Looks pass.old pass.new }
        ensures access { IsTrue result ↔ (O.standing pass.new.seen handle.now ≡ Standing.Locked site) }
    {
        self.standing(pass, handle) == Standing::Locked(site)
    }

    /// The object, whose history is all that the last pass has seen.
    pub fn close(self, pass: Pass<O::Entry>) -> O
        requires desk { pass.desk ≡ self }
        requires all { pass.weight ≡ 16 }
        ensures { O.history result ≡ pass.seen }
    {
        let Pass { badge, weight: _ } = pass;
        let Desk { table } = self;
        let slot = close_table(table, seat_of(badge));
        let Some(core) = slot else { unreachable!() };
        core
    }

    // Waits for the turn, and takes the object out.
    pub(crate) fn take<R: Wait>(&self, rt: &R, seat: &mut Place<O>) -> O
        requires desk { seat.old.table_id ≡ self.now }
        requires idle { (seat.old.me.1 ≡ []) × (0 < seat.old.me.0.weight) }
        ensures desk { seat.new.table_id ≡ seat.old.table_id }
        ensures object { HoldsTurn O.history seat.old.me.0 (O.history result) seat.new.me }
    {
        let rows = &self.table.shared;
        for _ in rt.forever() {
            if take_turn(rows, seat) {
                return slot_out(rows, seat);
            }
            yield_now();
        }
        unreachable!()
    }

    // Puts the object back after one call: what it added joins the history, and the turn is free.
    pub(crate) fn put(&self, seat: &mut Place<O>, core: O)
        requires desk { seat.old.table_id ≡ self.now }
        requires empty { seat.old.me.1 ≡ (0, None) ∷ [] }
        requires turn { (seat.old.me.0.turn ≡ 1) × (0 < seat.old.me.0.weight) }
        requires call { OneCall O.standing seat.old.me.0.seen (O.history core) (O.changed core) }
        ensures desk { seat.new.table_id ≡ seat.old.table_id }
        ensures joins { (w : View O.Entry) × Follows seat.old.me.0 (O.history core) w
            × (seat.new.me ≡ (view_seeing w w.seen 0, [])) }
        ensures places { ArePlaces seat.new.me.0.mine (length seat.new.me.0.seen) }
    {
        let rows = &self.table.shared;
        let change = core.change();
        slot_in(rows, seat, core);
        match change {
            None => entry_store(rows, seat),
            Some((process, standing)) => row_store(rows, seat, process, standing),
        }
        release_store(rows, seat);
    }
}

// Puts the object into a new table, and gives up the turn that the table begins with.
fn fill<O: Booked>(rows: &Rows<O>, seat: &mut Place<O>, core: O)
    requires desk { SitsAt rows.now.table_id seat.old.table_id }
    requires opener { seat.old.me ≡ (opener (O.history core), []) }
    ensures desk { seat.new.table_id ≡ seat.old.table_id }
    ensures seat { seat.new.me ≡ (view_seeing (opener (O.history core)) (O.history core) 0, []) }
{
    open_table(rows, seat);
    slot_in(rows, seat, core);
    release_store(rows, seat);
}
