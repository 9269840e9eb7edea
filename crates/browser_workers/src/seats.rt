//! The workers' places: how they are staffed, how the workers work side by side, and how their passes meet again.

ghost use Rattle.std.specs.Prelude.{◌≡◌, ◌+◌, ◌<◌, ◌≤◌, [], All, List, false, true, vec_capacity};
ghost use Rattle.history_entry.specs.declared.entry.Entry.{Entry as EntryData};
ghost use Rattle.policy_table.specs.Histories.{StartsWith};
ghost use Rattle.browser_workers.specs.Seats.{AreSeats, BeginsFinished, HasWorked, HaveSeen, HaveWorked, weights};

use crate::bench::Bench;
use crate::gate::Gate;
use crate::worker::work;
use browser_core::Entry;
use policy_table::Pass;
use std::alloc::Global;
use std::sync::Wait;
use std::thread::{Threads, for_each_mut};

/// A worker's place: its number, its pass, and whether it has seen the finished history.
#[derive(Drop)]
pub(crate) struct Seat {
    pub(crate) worker: u32,
    pub(crate) pass: Pass<Entry>,
    pub(crate) finished: bool,
}

impl Seat {
    /// The place of a worker that has not worked.
    fn new(worker: u32, pass: Pass<Entry>) -> Seat
        ensures pass { result.pass ≡ pass }
        ensures finished { result.finished ≡ false }
    {
        Seat {
            worker,
            pass,
            finished: false,
        }
    }
}

/// The pass that so many workers at a bench have met in after they worked side by side, and whether each of them saw the finished
/// history. There is room for their places.
pub(crate) fn work_all<B: Bench + Sync, G: Gate + Sync, R: Threads + Wait + Sync>(
    rt: &R,
    alloc: Global,
    bench: &B,
    gate: &G,
    workers: u32,
    mut seats: Vec<Seat>,
    pass: Pass<Entry>,
) -> (Pass<Entry>, bool)
    requires none { seats.items ≡ [] }
    requires room { workers ≤ vec_capacity seats }
    requires desk { pass.desk ≡ B.desk bench.now }
    requires workers { (1 ≤ workers) × (workers ≤ pass.weight) }
    ensures desk { result.0.desk ≡ pass.desk }
    ensures weight { result.0.weight ≡ pass.weight }
    ensures seen { StartsWith result.0.seen pass.seen }
    ensures over { result.1 ≡ true → BeginsFinished B.rule B.pages result.0.seen }
{
    staff(bench, workers, &mut seats, pass);
    serve_all(rt, alloc, bench, gate, seats.as_mut_slice());
    gather(bench, seats)
}

/// A place for each worker. The pass that the others are split from is that of worker 0.
fn staff<B: Bench>(bench: &B, workers: u32, seats: &mut Vec<Seat>, mut pass: Pass<Entry>)
    requires none { seats.old.items ≡ [] }
    requires room { workers ≤ vec_capacity seats.old }
    requires desk { pass.desk ≡ B.desk bench.now }
    requires workers { (1 ≤ workers) × (workers ≤ pass.weight) }
    ensures seats { AreSeats B.rule B.pages (B.desk bench.now) seats.new.items }
    ensures seen { HaveSeen pass.seen seats.new.items }
    ensures weight { weights seats.new.items ≡ pass.weight }
{
    for worker in 1..workers {
        let other = bench.split(&mut pass);
        seats.push_reserved(Seat::new(worker, other));
    }
    seats.push_reserved(Seat::new(0, pass));
}

/// Lets a worker work in its place.
fn serve<B: Bench, G: Gate, R: Wait>(rt: &R, alloc: Global, bench: &B, gate: &G, seat: &mut Seat)
    requires { seat.old.pass.desk ≡ B.desk bench.now }
    ensures { HasWorked B.rule B.pages seat.old seat.new }
{
    seat.finished = work(rt, alloc, bench, gate, seat.worker, &mut seat.pass);
}

/// Lets all workers work side by side, each in a thread of its own where one can be made, until each of them has ended.
fn serve_all<B: Bench + Sync, G: Gate + Sync, R: Threads + Wait + Sync>(
    rt: &R,
    alloc: Global,
    bench: &B,
    gate: &G,
    seats: &mut [Seat],
)
    requires { All (λ seat. seat.pass.desk ≡ B.desk bench.now) seats.old }
    ensures { HaveWorked B.rule B.pages seats.old seats.new }
{
    let part = |_: usize, seat: &mut Seat|
        requires { seat.old.pass.desk ≡ B.desk bench.now }
        ensures { HasWorked B.rule B.pages seat.old seat.new }
    { serve(rt, alloc, bench, gate, seat) };
    let threads = seats.len();
    if threads == 0 {
        return;
    }
    for_each_mut(rt, seats, threads, &part);
}

/// The one pass that all have met in, and whether each worker has seen the finished history.
fn gather<B: Bench>(bench: &B, mut seats: Vec<Seat>) -> (Pass<Entry>, bool)
    requires seats { AreSeats B.rule B.pages (B.desk bench.now) seats.items }
    requires some { 0 < weights seats.items }
    ensures desk { result.0.desk ≡ B.desk bench.now }
    ensures weight { result.0.weight ≡ weights seats.items }
    ensures seen { (h : List EntryData) → HaveSeen h seats.items → StartsWith result.0.seen h }
    ensures over { result.1 ≡ true → BeginsFinished B.rule B.pages result.0.seen }
{
    let Some(last) = seats.pop() else {
        unreachable!()
    };
    let Seat {
        worker: _,
        mut pass,
        mut finished,
    } = last;
    while let Some(seat) = seats.pop() {
        finished = take_in(bench, &mut pass, finished, seat);
    }
    (pass, finished)
}

/// Takes in the pass of one more place, and says whether all so far have seen the finished history.
fn take_in<B: Bench>(bench: &B, pass: &mut Pass<Entry>, finished: bool, seat: Seat) -> bool
    requires desk { (pass.old.desk ≡ B.desk bench.now) × (seat.pass.desk ≡ B.desk bench.now) }
    ensures desk { pass.new.desk ≡ pass.old.desk }
    ensures weight { pass.new.weight ≡ pass.old.weight + seat.pass.weight }
    ensures seen { StartsWith pass.new.seen pass.old.seen }
    ensures finished { result ≡ true → finished ≡ true }
{
    let Seat {
        worker: _,
        pass: other,
        finished: also,
    } = seat;
    bench.meet(pass, other);
    finished && also
}
