//! Histories with another body of a resource, and what may follow in the script of that body.

use super::moments::follows;
use super::run_text;
use history::text_of;
use history_text::read_text;
use script_input::read_script;
use script_model::Policy;
use secret_bodies::swap_body;
use std::alloc::Global;
use std::process::Abort;
use std::test::Fail;

/// A script with a body in it, and its run with another body of the resource that has a key.
#[derive(Drop)]
struct SwapRow {
    shows: &'static str,
    /// What of the script stands before the body, and what behind it.
    script: (&'static str, &'static str),
    body: &'static str,
    key: &'static str,
    other_body: &'static str,
    /// The text of the script's run.
    run: &'static str,
    /// The text of that run with the other body.
    swapped: &'static str,
}

/// A page of the body's own site and one of another ask for it.
const ASKED_BY_TWO: (&str, &str) = (
    r#"{"start":["https://a.com/","https://b.com/"],"resources":[
{"url":"https://a.com/","actions":[{"do":"fetch","url":"https://b.com/x","mode":"no-cors"}]},
{"url":"https://b.com/","actions":[{"do":"fetch","url":"https://b.com/x","mode":"no-cors"}]},
{"url":"https://b.com/x","headers":[["Content-Type","text/html"]],"body":""#,
    r#""}]}"#,
);

const ASKED_BY_TWO_RUN: &str = "history 2
open 0
open 1
order 0 0 https://a.com https://a.com https://a.com/
order 1 1 https://b.com https://b.com https://b.com/
commit 0 0 https://a.com 68747470733a2f2f612e636f6d2f => ok
said 0 0 0 0 fetch no-cors https://a.com 68747470733a2f2f622e636f6d2f78 => ok
commit 1 1 https://b.com 68747470733a2f2f622e636f6d2f => ok
said 1 1 0 1 fetch no-cors https://b.com 68747470733a2f2f622e636f6d2f78 => ok
head 1 A3
piece 1 0 3c68746d6c3e
end 0 blocked B4
end 1 whole
";

/// A page asks for a resource, for one that redirects there, for one with its fragment, and for another.
const ASKED_FOUR_TIMES: (&str, &str) = (
    r#"{"start":["https://b.com/"],"resources":[
{"url":"https://b.com/","actions":[{"do":"fetch","url":"https://b.com/x","mode":"cors"},
{"do":"fetch","url":"https://b.com/r","mode":"cors"},{"do":"fetch","url":"https://b.com/x#f","mode":"cors"},
{"do":"fetch","url":"https://b.com/y","mode":"cors"}]},
{"url":"https://b.com/r","status":302,"headers":[["Location","/x"]],"body":"moved"},
{"url":"https://b.com/y","body":"abcdef","cuts":[2,4]},
{"url":"https://b.com/x","cuts":[2,4],"body":""#,
    r#""}]}"#,
);

const ASKED_FOUR_TIMES_RUN: &str = "history 2
open 0
order 0 0 https://b.com https://b.com https://b.com/
commit 0 0 https://b.com 68747470733a2f2f622e636f6d2f => ok
said 0 0 0 0 fetch cors https://b.com 68747470733a2f2f622e636f6d2f78 => ok
said 0 0 1 0 fetch cors https://b.com 68747470733a2f2f622e636f6d2f72 => ok
hop req 1 https://b.com/x
said 0 0 2 0 fetch cors https://b.com 68747470733a2f2f622e636f6d2f782366 => ok
said 0 0 3 0 fetch cors https://b.com 68747470733a2f2f622e636f6d2f79 => ok
head 0 A1
head 1 A1
head 2 A1
head 3 A1
piece 0 0 6162
piece 0 1 6364
piece 0 2 6566
piece 1 0 6162
piece 1 1 6364
piece 1 2 6566
piece 2 0 6162
piece 2 1 6364
piece 2 2 6566
piece 3 0 6162
piece 3 1 6364
piece 3 2 6566
end 0 whole
end 1 whole
end 2 whole
end 3 whole
";

/// Only a resource's own site may ask for it.
const KEPT_BACK: (&str, &str) = (
    r#"{"start":["https://a.com/"],"resources":[
{"url":"https://a.com/","actions":[{"do":"fetch","url":"https://b.com/x","mode":"no-cors"}]},
{"url":"https://b.com/x","headers":[["Cross-Origin-Resource-Policy","same-site"]],"body":""#,
    r#""}]}"#,
);

const KEPT_BACK_RUN: &str = "history 2
open 0
order 0 0 https://a.com https://a.com https://a.com/
commit 0 0 https://a.com 68747470733a2f2f612e636f6d2f => ok
said 0 0 0 0 fetch no-cors https://a.com 68747470733a2f2f622e636f6d2f78 => ok
end 0 blocked B8
";

/// The wire fails within the body.
const BROKEN_OFF: (&str, &str) = (
    r#"{"start":["https://b.com/"],"resources":[
{"url":"https://b.com/","actions":[{"do":"fetch","url":"https://b.com/x","mode":"cors"}]},
{"url":"https://b.com/x","cuts":[2,4],"fail_after":3,"body":""#,
    r#""}]}"#,
);

/// Bodies whose histories may be those of the script with the other body.
const ROWS: &[SwapRow] = &[
    // The page of the other site receives the same: a blocked end.
    SwapRow {
        shows: "another page of the same length",
        script: ASKED_BY_TWO,
        body: "<html>",
        key: "https://b.com/x",
        other_body: "<html ",
        run: ASKED_BY_TWO_RUN,
        swapped: "history 2
open 0
open 1
order 0 0 https://a.com https://a.com https://a.com/
order 1 1 https://b.com https://b.com https://b.com/
commit 0 0 https://a.com 68747470733a2f2f612e636f6d2f => ok
said 0 0 0 0 fetch no-cors https://a.com 68747470733a2f2f622e636f6d2f78 => ok
commit 1 1 https://b.com 68747470733a2f2f622e636f6d2f => ok
said 1 1 0 1 fetch no-cors https://b.com 68747470733a2f2f622e636f6d2f78 => ok
head 1 A3
piece 1 0 3c68746d6c20
end 0 blocked B4
end 1 whole
",
    },
    // The URL without its fragment, and the last of a chain, has the key. Each piece takes the bytes at its place.
    SwapRow {
        shows: "a body with two cuts",
        script: ASKED_FOUR_TIMES,
        body: "abcdef",
        key: "https://b.com/x",
        other_body: "uvwxyz",
        run: ASKED_FOUR_TIMES_RUN,
        swapped: "history 2
open 0
order 0 0 https://b.com https://b.com https://b.com/
commit 0 0 https://b.com 68747470733a2f2f622e636f6d2f => ok
said 0 0 0 0 fetch cors https://b.com 68747470733a2f2f622e636f6d2f78 => ok
said 0 0 1 0 fetch cors https://b.com 68747470733a2f2f622e636f6d2f72 => ok
hop req 1 https://b.com/x
said 0 0 2 0 fetch cors https://b.com 68747470733a2f2f622e636f6d2f782366 => ok
said 0 0 3 0 fetch cors https://b.com 68747470733a2f2f622e636f6d2f79 => ok
head 0 A1
head 1 A1
head 2 A1
head 3 A1
piece 0 0 7576
piece 0 1 7778
piece 0 2 797a
piece 1 0 7576
piece 1 1 7778
piece 1 2 797a
piece 2 0 7576
piece 2 1 7778
piece 2 2 797a
piece 3 0 6162
piece 3 1 6364
piece 3 2 6566
end 0 whole
end 1 whole
end 2 whole
end 3 whole
",
    },
    // Two pieces came, of three bytes.
    SwapRow {
        shows: "a wire that fails within the body",
        script: BROKEN_OFF,
        body: "abcdef",
        key: "https://b.com/x",
        other_body: "uvwxyz",
        run: "history 2
open 0
order 0 0 https://b.com https://b.com https://b.com/
commit 0 0 https://b.com 68747470733a2f2f622e636f6d2f => ok
said 0 0 0 0 fetch cors https://b.com 68747470733a2f2f622e636f6d2f78 => ok
head 0 A1
piece 0 0 6162
piece 0 1 63
end 0 failed N7
",
        swapped: "history 2
open 0
order 0 0 https://b.com https://b.com https://b.com/
commit 0 0 https://b.com 68747470733a2f2f622e636f6d2f => ok
said 0 0 0 0 fetch cors https://b.com 68747470733a2f2f622e636f6d2f78 => ok
head 0 A1
piece 0 0 7576
piece 0 1 77
end 0 failed N7
",
    },
    // No piece came.
    SwapRow {
        shows: "a body that its policy keeps back",
        script: KEPT_BACK,
        body: "x",
        key: "https://b.com/x",
        other_body: "y",
        run: KEPT_BACK_RUN,
        swapped: KEPT_BACK_RUN,
    },
];

/// Keys and bodies of which the script says nothing.
const OTHER_ROWS: &[SwapRow] = &[
    SwapRow {
        shows: "a key that no resource has",
        script: ASKED_FOUR_TIMES,
        body: "abcdef",
        key: "https://b.com/z",
        other_body: "uvwxyz",
        run: ASKED_FOUR_TIMES_RUN,
        swapped: ASKED_FOUR_TIMES_RUN,
    },
    // It is compared with URLs without their fragment.
    SwapRow {
        shows: "a key with a fragment is none",
        script: ASKED_FOUR_TIMES,
        body: "abcdef",
        key: "https://b.com/x#f",
        other_body: "uvwxyz",
        run: ASKED_FOUR_TIMES_RUN,
        swapped: ASKED_FOUR_TIMES_RUN,
    },
    // That request ended at another URL.
    SwapRow {
        shows: "the key of a redirect",
        script: ASKED_FOUR_TIMES,
        body: "abcdef",
        key: "https://b.com/r",
        other_body: "uvwxyz",
        run: ASKED_FOUR_TIMES_RUN,
        swapped: ASKED_FOUR_TIMES_RUN,
    },
    // A piece past those of the shorter body stays.
    SwapRow {
        shows: "a body of another length",
        script: BROKEN_OFF,
        body: "abcdef",
        key: "https://b.com/x",
        other_body: "u",
        run: "history 2
open 0
order 0 0 https://b.com https://b.com https://b.com/
commit 0 0 https://b.com 68747470733a2f2f622e636f6d2f => ok
said 0 0 0 0 fetch cors https://b.com 68747470733a2f2f622e636f6d2f78 => ok
head 0 A1
piece 0 0 6162
piece 0 1 63
end 0 failed N7
",
        swapped: "history 2
open 0
order 0 0 https://b.com https://b.com https://b.com/
commit 0 0 https://b.com 68747470733a2f2f622e636f6d2f => ok
said 0 0 0 0 fetch cors https://b.com 68747470733a2f2f622e636f6d2f78 => ok
head 0 A1
piece 0 0 75
piece 0 1 63
end 0 failed N7
",
    },
];

/// The script of a row with this body.
fn script_text(alloc: Global, row: &SwapRow, body: &str) -> Result<String, Fail> {
    let (before, behind) = row.script;
    Ok(format!(in alloc; "{before}{body}{behind}")?)
}

/// The text of the row's run with the other body.
fn swapped_text(alloc: Global, row: &SwapRow, script: &str) -> Result<String, Fail> {
    let script = read_script(alloc, script.as_bytes())?;
    let (_, history) = read_text(alloc, row.run.as_bytes())?;
    let swapped = swap_body(alloc, &history, &script, row.key, row.other_body.as_bytes())?;
    let text = text_of(alloc, Policy::Two, &swapped)?;
    Ok(String::from_utf8_lossy(alloc, text.as_slice())?)
}

/// A row's script runs as it says, and so does its run with the other body.
fn assert_swaps_as_written(rt: &impl Abort, alloc: Global, row: &SwapRow) -> Result<(), Fail> {
    let script = script_text(alloc, row, row.body)?;
    let run = run_text(alloc, script.as_str())?;
    assert_eq!(rt; run.as_str(), row.run, "{}", row.shows);
    let swapped = swapped_text(alloc, row, script.as_str())?;
    assert_eq!(rt; swapped.as_str(), row.swapped, "{}", row.shows);
    Ok(())
}

#[test]
fn bodies_are_swapped_as_written(rt: HostRuntime) -> Result<(), Fail> {
    for row in ROWS {
        assert_swaps_as_written(&rt, rt.alloc(), row)?;
    }
    for row in OTHER_ROWS {
        assert_swaps_as_written(&rt, rt.alloc(), row)?;
    }
    Ok(())
}

/// Whether each line of a text, but the version line, is an entry that may follow those before it.
fn is_legal(alloc: Global, script: &str, text: &str) -> Result<bool, Fail> {
    let mut before = String::new(alloc);
    for line in text.lines() {
        if !before.is_empty() && !follows(alloc, script, before.as_str(), line)? {
            return Ok(false);
        }
        before.push_str(line)?;
        before.push('\n')?;
    }
    Ok(true)
}

/// Each entry of a swapped history may follow in the script with the other body. Where the swap changed anything, those of the
/// run may not.
fn assert_swapped_is_legal(rt: &impl Abort, alloc: Global, row: &SwapRow) -> Result<(), Fail> {
    let changed = script_text(alloc, row, row.other_body)?;
    let swapped = is_legal(alloc, changed.as_str(), row.swapped)?;
    assert!(rt; swapped, "{}", row.shows);
    let run = is_legal(alloc, changed.as_str(), row.run)?;
    assert_eq!(rt; run, row.run == row.swapped, "{}", row.shows);
    Ok(())
}

#[test]
fn swapped_histories_are_legal(rt: HostRuntime) -> Result<(), Fail> {
    for row in ROWS {
        assert_swapped_is_legal(&rt, rt.alloc(), row)?;
    }
    Ok(())
}
