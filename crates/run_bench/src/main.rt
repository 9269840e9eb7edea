//! Makes the one-thread run of a script that standard input gives, and prints how many entries its history has, so that
//! `bench/one` can time it.
//!
//! `run_bench core` makes it by a core, as the browser does, and `run_bench plain` by the plain run.
#![tactic(auto)]

use anyhow::{Result, bail};
use browser_core::{Store, run};
use history::{History, run1};
use script_input::read_script;
use script_model::{PlainStore, Script};
use std::alloc::Global;
use std::rt::Runtime;
use std::{env, io};

fn history_by(alloc: Global, way: &str, script: &Script) -> Result<History> {
    match way {
        "core" => Ok(run(alloc, script, Store::new(alloc))?),
        "plain" => Ok(run1(alloc, script, &PlainStore)?),
        _ => bail!("neither `core` nor `plain`"),
    }
}

fn time<R: Runtime + AllocGlobal>(rt: &R) -> Result<()> {
    let mut words = env::args(rt)?;
    let _program = words.next();
    let Some(way) = words.next() else {
        bail!("usage: run_bench core|plain");
    };
    let text = io::read_to_string(rt.alloc(), rt.reader())?;
    let script = read_script(rt.alloc(), text.as_bytes())?;
    let history = history_by(rt.alloc(), way.as_str(), &script)?;
    println!(rt; "{} entries", history.entries().len())?;
    Ok(())
}

fn main(rt: HostRuntime) -> Result<()> {
    time(&rt)
}
