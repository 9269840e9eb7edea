//! Long runs: how many lines have some words, and lines that stand in this order.

use super::numbered::{Part, text_of_parts};
use super::run_text;
use std::alloc::Global;
use std::process::Abort;
use std::test::Fail;

/// A script and what is known of the text of its run.
#[derive(Drop)]
pub struct LongRow {
    pub shows: &'static str,
    pub script: &'static [Part],

    /// How many lines have these words; no words stand in all lines.
    pub counts: &'static [(&'static str, usize)],

    /// Lines that stand in the text, in this order.
    pub lines: &'static [&'static str],
}

/// How many lines of a text have these words.
fn count_lines(text: &str, words: &str) -> usize {
    text.lines().filter(|line| line.contains(words)).count()
}

/// The first of these lines that does not stand in the text behind those before it.
fn first_missing<'a>(text: &str, lines: &'a [&'static str]) -> Option<&'a &'static str> {
    let mut left = lines.iter();
    let mut wanted = left.next();
    for line in text.lines() {
        if wanted == Some(&line) {
            wanted = left.next();
        }
    }
    wanted
}

/// A text has the lines that its row names.
fn assert_has_lines(rt: &impl Abort, text: &str, row: &LongRow) {
    for (words, count) in row.counts {
        assert_eq!(rt; count_lines(text, words), *count, "{}: {words}", row.shows);
    }
    assert_eq!(rt; first_missing(text, row.lines), None, "{}", row.shows);
}

/// Each script runs as its row says.
pub fn assert_long_runs(rt: &impl Abort, alloc: Global, rows: &[LongRow]) -> Result<(), Fail> {
    for row in rows {
        let script = text_of_parts(alloc, row.script)?;
        let text = run_text(alloc, script.as_str())?;
        assert_has_lines(rt, text.as_str(), row);
    }
    Ok(())
}
