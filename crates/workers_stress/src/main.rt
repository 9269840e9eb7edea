//! A stress run of many workers: each line of the input is a script, which sixteen workers run, delayed by a gate that draws from a
//! seed; each text is audited. The one word is the first seed, and each run has the next one.
//!
//! `tests/workers.sh --stress` runs it on scripts that are made by number.
#![tactic(auto)]

mod delays;
mod runs;

use anyhow::{Context, Result};
use delays::Delays;
use runs::{is_audited, run_text};
use std::alloc::Global;
use std::env;
use std::sync::Wait;
use std::thread::Threads;

/// How many workers run each script.
const WORKERS: &str = "16";

/// Whether workers that are delayed by a seed make a finished legal history of a script.
fn is_legal_run<R: Threads + Wait + Sync>(
    rt: &R,
    alloc: Global,
    script: &str,
    seed: u64,
) -> Result<bool> {
    match run_text(rt, alloc, WORKERS, script, &Delays::new(seed))? {
        Some(text) => Ok(is_audited(alloc, script, text.as_str())?),
        None => Ok(false),
    }
}

fn main(rt: HostRuntime) -> Result<()> {
    let mut words = env::args(&rt)?;
    let _program = words.next();
    let seed = words.next().context("usage: workers_stress SEED")?;
    let mut seed = seed.as_str().parse::<u64>()?;
    let (mut runs, mut legal) = (0u32, 0u32);
    for line in rt.lines(rt.alloc()) {
        let line = line?;
        runs = runs.saturating_add(1);
        if is_legal_run(&rt, rt.alloc(), line.as_str(), seed)? {
            legal = legal.saturating_add(1);
        } else {
            println!(rt; "run {runs} made no finished legal history")?;
        }
        seed = seed.wrapping_add(1);
    }
    println!(rt; "{runs} runs, {legal} legal")?;
    Ok(())
}
