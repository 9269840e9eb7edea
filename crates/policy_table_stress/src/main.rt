//! A stress run of the shared policy table, and its measurements.
//!
//! Each line of the input has one line of output, the same whatever the schedule:
//!
//! - `act_and_look ROUNDS THREADS`: each thread makes so many calls, and looks at a row after each;
//! - `act ROUNDS THREADS`: each thread makes so many calls;
//! - `look ROUNDS`: one thread looks at a row so many times;
//! - `word ROUNDS`: one thread loads a plain atomic word so many times, for comparison.
//!
//! `bench/policy-table.sh` runs it with large numbers.
#![tactic(auto)]

ghost use Rattle.std.specs.Prelude.{◌<◌, ◌≤◌, IfSome};

mod findings;
mod outcome;
mod run;
mod tally;

use crate::outcome::Outcome;
use crate::run::{Work, load_word, look_at_row, run};
use std::alloc::Global;
use std::io;
use std::sync::Wait;
use std::thread::Threads;

// Does what a line says. `None` where it isn't in form.
fn outcome_of<R: Threads + Wait + Sync>(rt: &R, alloc: Global, line: &str) -> Option<Outcome> {
    let mut words = line.split_whitespace();
    let name = words.next()?;
    let rounds = words.next()?.parse::<u32>().ok()?;
    let work = match name {
        "look" => return Some(Outcome::looked(look_at_row(alloc, rounds))),
        "word" => return Some(Outcome::Looked(load_word(rounds))),
        "act" => Work::Act,
        "act_and_look" => Work::ActAndLook,
        _ => return None,
    };
    let threads = threads_of(words.next()?)?;
    Some(Outcome::ran(run(rt, alloc, threads, rounds, work)))
}

// A number of threads that the passes of a table are enough for.
fn threads_of(word: &str) -> Option<u32>
    ensures { IfSome result (λ threads. (0 < threads) × (threads ≤ 16)) }
{
    let threads = word.parse::<u32>().ok()?;
    if threads == 0 || threads > 16 {
        return None;
    }
    Some(threads)
}

fn main(rt: HostRuntime) -> io::Result<()> {
    for line in rt.lines(rt.alloc()) {
        let line = line?;
        match outcome_of(&rt, rt.alloc(), line.as_str()) {
            Some(outcome) => println!(rt; "{line}: {outcome}")?,
            None => println!(rt; "{line}: not in form")?,
        }
    }
    Ok(())
}
