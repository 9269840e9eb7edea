ghost use Rattle.std.specs.Prelude.{◌≡◌, ◌+◌, ◌<◌, ◌≤◌};
ghost use Rattle.std.specs.Thread.{IsSync};

use crate::findings::Findings;
use crate::tally::Tally;
use policy_table::{Desk, Pass, Standing};
use std::alloc::Global;
use std::sync::Wait;
use std::sync::atomic::{AtomicU64, Ordering};
use std::thread::{Threads, join};

/// What each thread does in a round.
#[derive(Clone, Copy, Debug, PartialEq, Eq)]
pub enum Work {
    /// It makes a call.
    Act,
    /// It makes a call, and looks at a row.
    ActAndLook,
}

/// A run on a new table: the entries of its history at the end, and what the threads found. `None` without memory.
pub fn run<R: Threads + Wait + Sync>(
    rt: &R,
    alloc: Global,
    threads: u32,
    rounds: u32,
    work: Work,
) -> Option<(u32, Findings)>
    requires { (0 < threads) × (threads ≤ 16) }
{
    let tally = Tally {
        calls: 0,
        change: None,
    };
    let Ok((desk, pass)) = Desk::new(alloc, tally) else {
        return None;
    };
    let (pass, found) = run_threads(rt, &desk, pass, threads, rounds, work);
    Some((desk.close(pass).calls, found))
}

// Each of so many threads does its rounds, with a pass of its own.
fn run_threads<R: Threads + Wait + Sync>(
    rt: &R,
    desk: &Desk<Tally>,
    mut pass: Pass<u32>,
    threads: u32,
    rounds: u32,
    work: Work,
) -> (Pass<u32>, Findings)
    requires desk { pass.desk ≡ desk.now }
    requires threads { (0 < threads) × (threads ≤ pass.weight) }
    ensures kept { (result.0.desk ≡ pass.desk) × (result.0.weight ≡ pass.weight) }
{
    if threads == 1 {
        return do_rounds(rt, desk, pass, rounds, work);
    }
    let one = desk.split(&mut pass);
    let ((mut pass, theirs), (one, own)) = join(
        rt,
        move || -> (Pass<u32>, Findings)
            requires { IsSync R.row × (pass.desk ≡ desk.now) × (1 < threads) × (threads ≤ pass.weight + 1) }
            ensures { (result.0.desk ≡ pass.desk) × (result.0.weight ≡ pass.weight) }
        { run_threads(rt, desk, pass, threads - 1, rounds, work) },
        move || -> (Pass<u32>, Findings)
            requires { one.desk ≡ desk.now }
            ensures { (result.0.desk ≡ one.desk) × (result.0.weight ≡ one.weight) }
        { do_rounds(rt, desk, one, rounds, work) },
    );
    desk.meet(&mut pass, one);
    (pass, theirs.and(own))
}

// The rounds of one thread.
fn do_rounds<R: Wait>(
    rt: &R,
    desk: &Desk<Tally>,
    mut pass: Pass<u32>,
    rounds: u32,
    work: Work,
) -> (Pass<u32>, Findings)
    requires desk { pass.desk ≡ desk.now }
    ensures kept { (result.0.desk ≡ pass.desk) × (result.0.weight ≡ pass.weight) }
{
    let row = desk.handle(0);
    let mut found = Findings::NONE;
    let mut next = 0;
    for _ in 0..rounds {
        if let Ok(place) = desk.act(rt, &mut pass, ()) {
            found = found.and(call_at(place, next));
            next = place.saturating_add(1);
        }
        if work == Work::ActAndLook {
            let standing = desk.standing(&mut pass, &row);
            found = found.and(look_at(standing, next));
        }
    }
    (pass, found)
}

// A call at a place of the history, where the thread had seen those below `next`.
fn call_at(place: u32, next: u32) -> Findings {
    Findings {
        calls: 1,
        places: u64::from(place),
        looks: 0,
        steps_back: u64::from(place < next),
    }
}

// A look at the row, whose site is half of the number of calls, at least `next`.
fn look_at(standing: Standing, next: u32) -> Findings {
    let back = match standing {
        Standing::Locked(site) => site < next / 2,
        _ => true,
    };
    Findings {
        calls: 0,
        places: 0,
        looks: 1,
        steps_back: u64::from(back),
    }
}

/// Looks at a row so many times, and counts the looks that found it as it is. `None` without memory.
pub fn look_at_row(alloc: Global, rounds: u32) -> Option<u32> {
    let tally = Tally {
        calls: 0,
        change: None,
    };
    let Ok((desk, mut pass)) = Desk::new(alloc, tally) else {
        return None;
    };
    let row = desk.handle(0);
    let mut count = 0u32;
    for _ in 0..rounds {
        if desk.can_access(&mut pass, &row, 0) {
            count = count.saturating_add(1);
        }
    }
    desk.close(pass);
    Some(count)
}

/// Loads a plain atomic word so many times, and counts the loads that found it as it is.
pub fn load_word(rounds: u32) -> u32 {
    let word = AtomicU64::new(7);
    let mut count = 0u32;
    for _ in 0..rounds {
        if word.load(Ordering::SeqCst) == 7 {
            count = count.saturating_add(1);
        }
    }
    count
}
