//! Moments of histories: which entries may follow, and which may not.

use history::{History, may, nexts, text_of};
use history_text::read_text;
use script_input::read_script;
use script_model::{PlainStore, Policy};
use std::alloc::Global;
use std::process::Abort;
use std::test::Fail;

/// A history, the lines of the entries that may follow it, in order, and lines that may not; no line has its line feed.
#[derive(Drop)]
pub struct Moment {
    pub shows: &'static str,
    pub history: &'static str,
    pub nexts: &'static [&'static str],
    pub may_not: &'static [&'static str],
}

/// Whether the entry of a line may follow the history of a text.
pub fn follows(alloc: Global, script: &str, history: &str, line: &str) -> Result<bool, Fail> {
    let script = read_script(alloc, script.as_bytes())?;
    let (_, history) = read_text(alloc, history.as_bytes())?;
    let line = format!(in alloc; "history 2\n{line}\n")?;
    let (_, next) = read_text(alloc, line.as_bytes())?;
    match next.entries() {
        [entry] => Ok(may(alloc, &script, &PlainStore, &history, entry)?),
        _ => Err(Fail::new("a line is one entry")),
    }
}

/// The lines of the entries that may follow the history of a text.
fn next_lines(alloc: Global, script: &str, history: &str) -> Result<String, Fail> {
    let script = read_script(alloc, script.as_bytes())?;
    let (_, history) = read_text(alloc, history.as_bytes())?;
    let mut listed = History::new(alloc);
    for entry in nexts(alloc, &script, &PlainStore, &history)? {
        listed.push(entry)?;
    }
    let text = text_of(alloc, Policy::One, &listed)?;
    Ok(String::from_utf8_lossy(alloc, text.as_slice())?)
}

/// A text of these lines.
fn joined(alloc: Global, lines: &[&str]) -> Result<String, Fail> {
    let mut text = String::new(alloc);
    for line in lines {
        text.push_str(line)?;
        text.push('\n')?;
    }
    Ok(text)
}

/// What may follow a moment of a script is as its row says.
fn assert_moment(
    rt: &impl Abort,
    alloc: Global,
    script: &str,
    moment: &Moment,
) -> Result<(), Fail> {
    let listed = next_lines(alloc, script, moment.history)?;
    let wanted = joined(alloc, moment.nexts)?;
    assert_eq!(rt; listed.as_str(), wanted.as_str(), "{}", moment.shows);
    for line in moment.nexts {
        let found = follows(alloc, script, moment.history, line)?;
        assert!(rt; found, "{}: {line}", moment.shows);
    }
    for line in moment.may_not {
        let found = follows(alloc, script, moment.history, line)?;
        assert!(rt; !found, "{}: {line}", moment.shows);
    }
    Ok(())
}

/// What may follow each moment of each script is as its row says.
pub fn assert_moments(
    rt: &impl Abort,
    alloc: Global,
    rows: &[(&str, &[Moment])],
) -> Result<(), Fail> {
    for (script, moments) in rows {
        for moment in *moments {
            assert_moment(rt, alloc, script, moment)?;
        }
    }
    Ok(())
}
