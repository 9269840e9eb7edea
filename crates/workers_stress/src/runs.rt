//! Runs of scripts by workers, and audits of their texts, both over memory by the top call of the browser.

use browser_cli::{Status, browse, browse_one};
use browser_io::{MemSink, MemSource};
use browser_workers::Gate;
use script_model::NoMemory;
use std::alloc::Global;
use std::sync::Wait;
use std::thread::Threads;

/// The most bytes of a text.
const ROOM: usize = 4_194_304;

const STEP: usize = 4096;

fn source_of(alloc: Global, input: &str) -> Result<MemSource, NoMemory> {
    let bytes = input.as_bytes().to_vec(alloc)?;
    Ok(MemSource::new(bytes, STEP, Vec::new(alloc)))
}

/// The text that `run` writes with so many workers; none where it does not end with Ran.
pub fn run_text<R: Threads + Wait + Sync, G: Gate + Sync>(
    rt: &R,
    alloc: Global,
    workers: &str,
    script: &str,
    gate: &G,
) -> Result<Option<String>, NoMemory> {
    let mut source = source_of(alloc, script)?;
    let mut sink = MemSink::new(alloc, ROOM, STEP, Vec::new(alloc))?;
    let words = ["run", workers];
    match browse(rt, alloc, &words, &mut source, &mut sink, gate) {
        Status::Ran => Ok(Some(String::from_utf8_lossy(alloc, sink.written())?)),
        _ => Ok(None),
    }
}

/// Whether a text is that of a finished legal history of a script, as `audit` tells.
pub fn is_audited(alloc: Global, script: &str, text: &str) -> Result<bool, NoMemory> {
    let input = format!(in alloc; "script {}\n{script}{text}", script.len())?;
    let mut source = source_of(alloc, input.as_str())?;
    let mut sink = MemSink::new(alloc, ROOM, STEP, Vec::new(alloc))?;
    let status = browse_one(alloc, &["audit"], &mut source, &mut sink);
    Ok(matches!(status, Status::Ran))
}
