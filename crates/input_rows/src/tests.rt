mod action_rows;
mod lengths;
mod message_rows;
mod refusal_texts;
mod resource_rows;
mod script_rows;
mod shown;
mod shown_actions;
mod sites;

use script_input::read_script;
use shown::shown_script;
use std::alloc::Global;
use std::process::Abort;
use std::test::Fail;

/// What the reader says of a text: `read` with all that is not left out in the script, or a refusal without its first word.
fn told(alloc: Global, bytes: &[u8]) -> Result<String, Fail> {
    match read_script(alloc, bytes) {
        Ok(script) => shown_script(alloc, &script),
        Err(stop) => without(alloc, &stop.to_string(alloc)?, "refused ", ""),
    }
}

/// A text with another in place of a part, where it has that part.
fn without(alloc: Global, text: &str, part: &str, other: &str) -> Result<String, Fail> {
    match text.split_once(part) {
        Some((front, back)) => Ok(format!(in alloc; "{front}{other}{back}")?),
        None => Ok(String::from_str(alloc, text)?),
    }
}

/// A place in a script: what stands around it, its path, and what is shown before it.
#[derive(Drop)]
struct Place<'a> {
    front: &'a str,
    back: &'a str,
    path: &'a str,
    shown: &'a str,
}

/// What the reader says of a text at a place, whose path is written `@`.
fn told_at(alloc: Global, place: &Place<'_>, text: &str) -> Result<String, Fail> {
    let front = place.front;
    let back = place.back;
    let script = format!(in alloc; "{front}{text}{back}")?;
    let told = told(alloc, script.as_bytes())?;
    let told = without(alloc, told.as_str(), place.path, "@")?;
    without(alloc, told.as_str(), place.shown, "")
}

/// Texts at a place, with what the reader says of each.
fn assert_told_at(
    rt: &impl Abort,
    alloc: Global,
    place: &Place<'_>,
    rows: &[(&str, &str)],
) -> Result<(), Fail> {
    for (text, want) in rows {
        let found = told_at(alloc, place, text)?;
        assert_eq!(rt; found.as_str(), *want, "at {text}");
    }
    Ok(())
}

/// Whole texts, with what the reader says of each.
fn assert_told(rt: &impl Abort, alloc: Global, rows: &[(&str, &str)]) -> Result<(), Fail> {
    for (text, want) in rows {
        let found = told(alloc, text.as_bytes())?;
        assert_eq!(rt; found.as_str(), *want, "at {text}");
    }
    Ok(())
}
