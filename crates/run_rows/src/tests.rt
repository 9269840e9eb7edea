//! Each script runs as its row says, by the plain run and by the core.

mod bodies;
mod counts;
mod cross_origin;
mod delivering;
mod denials;
mod documents;
mod following;
mod frames;
mod groups;
mod heads;
mod isolated;
mod judging;
mod kills;
mod lengths;
mod limits;
mod long_runs;
mod moments;
mod numbered;
mod pages;
mod pieces;
mod posts;
mod processes;
mod redirects;
mod request_redirects;
mod secrets;
mod sniffing;
mod store;
mod whole;

use browser_core::{Core, Store};
use history::{History, run1, text_of};
use script_input::read_script;
use script_model::{PlainStore, Policy};
use std::alloc::Global;
use std::process::Abort;
use std::test::Fail;

/// What a row shows, its script, and the whole text of the script's run.
type Row = (&'static str, &'static str, &'static str);

fn history_text(alloc: Global, history: &History) -> Result<String, Fail> {
    let text = text_of(alloc, Policy::Two, history)?;
    Ok(String::from_utf8_lossy(alloc, text.as_slice())?)
}

/// The text of the one-thread run of a script.
fn run_text(alloc: Global, script: &str) -> Result<String, Fail> {
    let script = read_script(alloc, script.as_bytes())?;
    let history = run1(alloc, &script, &PlainStore)?;
    history_text(alloc, &history)
}

/// Drives a core to its end, and says whether each entry stood behind those before it.
fn is_driven(alloc: Global, core: &mut Core<'_, Store>) -> Result<bool, Fail> {
    for place in 0..400_000 {
        match core.first(alloc)? {
            Some(added) if added == place => {}
            Some(_) => return Ok(false),
            None => return Ok(core.finished(alloc)?),
        }
    }
    Ok(false)
}

/// The text of the history that a core makes of a script, which is driven by the first of the next entries alone.
fn core_text(alloc: Global, script: &str) -> Result<String, Fail> {
    let script = read_script(alloc, script.as_bytes())?;
    let mut core = Core::new(alloc, &script, Store::new(alloc))?;
    if !is_driven(alloc, &mut core)? {
        return Err(Fail::new("the core did not come to its end"));
    }
    history_text(alloc, &core.close())
}

/// Each script runs as its row says.
fn assert_runs_as_written(rt: &impl Abort, alloc: Global, rows: &[Row]) -> Result<(), Fail> {
    for (shows, script, history) in rows {
        let text = run_text(alloc, script)?;
        assert_eq!(rt; text.as_str(), *history, "{shows}");
        let text = core_text(alloc, script)?;
        assert_eq!(rt; text.as_str(), *history, "the core: {shows}");
    }
    Ok(())
}
