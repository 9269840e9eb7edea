//! Reads the text of a history with lines of every kind, and prints it again, so that `bench/history` can time both.
//!
//! Words: how many lines the text has, how often it is read, and how often it is printed.
#![tactic(auto)]

mod lines;
mod plan;

use history_entries::{History, Policy, text_of};
use history_text::{TextStop, read_text};
use lines::text_of_lines;
use plan::Plan;
use std::alloc::Global;
use std::{env, io};

/// How many of so many readings gave so many entries.
fn readings(alloc: Global, text: &[u8], plan: Plan) -> Result<u32, TextStop> {
    let mut whole = 0u32;
    for _ in 0..plan.readings {
        let (_policy, history) = read_text(alloc, text)?;
        if history.entries().len() == plan.lines {
            whole = whole.saturating_add(1);
        }
    }
    Ok(whole)
}

/// How many of so many printings gave the text again.
fn printings(alloc: Global, text: &[u8], plan: Plan) -> Result<u32, TextStop> {
    if plan.printings == 0 {
        return Ok(0);
    }
    let (policy, history) = read_text(alloc, text)?;
    let mut same = 0u32;
    for _ in 0..plan.printings {
        let printed = text_of(alloc, policy, &history)?;
        if printed.as_slice() == text {
            same = same.saturating_add(1);
        }
    }
    Ok(same)
}

fn main(rt: HostRuntime) -> io::Result<()> {
    let mut words = env::args(&rt)?;
    let _program = words.next();
    let Some(plan) = Plan::of(words.next(), words.next(), words.next()) else {
        return println!(rt; "usage: history_bench LINES READINGS PRINTINGS");
    };
    let text = text_of_lines(rt.alloc(), plan.lines)?;
    println!(rt; "{} lines, {} bytes", plan.lines, text.len())?;
    match readings(rt.alloc(), &text, plan) {
        Ok(whole) => println!(rt; "read whole {whole} times")?,
        Err(stop) => println!(rt; "not read: {stop}")?,
    }
    match printings(rt.alloc(), &text, plan) {
        Ok(same) => println!(rt; "printed the same {same} times")?,
        Err(stop) => println!(rt; "not printed: {stop}")?,
    }
    Ok(())
}
