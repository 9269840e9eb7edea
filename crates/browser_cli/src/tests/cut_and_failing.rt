//! Cut input, and reads and writes that fail: each call of them, until a run meets no fault.

ghost use Rattle.std.specs.Prelude.{◌≤◌};

use super::{Ended, PAGE, PAGE_TEXT, READER, ending_of, failing_sink, run, run_bytes};
use crate::answers::{summarize, write_answer};
use crate::read_script;
use std::alloc::Global;
use std::process::Abort;
use std::test::Fail;

const STEPS: [usize; 3] = [1, 8, 4096];

/// More calls than any run here makes.
const CALLS: u64 = 1_000;

// What `audit` reads: the script of a page, and the text of its run.
fn page_audit(alloc: Global) -> Result<String, Fail> {
    Ok(format!(in alloc; "script {}\n{PAGE}{PAGE_TEXT}", PAGE.len())?)
}

#[test]
fn each_part_of_a_script_is_refused(rt: HostRuntime) -> Result<(), Fail> {
    for end in 0..PAGE.len() {
        let part = &PAGE.as_bytes()[..end];
        let ended = run_bytes(rt.alloc(), &["one"], part, 8, None, None)?;
        assert_eq!(rt; (ended.code, ended.line.as_str()), (5, "refused X1"));
        assert_eq!(rt; ended.written.as_str(), "");
    }
    Ok(())
}

// What `audit` finds of a part of the page's text that has so many whole lines and perhaps a cut one.
fn found_of_part(alloc: Global, lines: usize, is_cut: bool) -> Result<String, Fail> {
    if is_cut {
        return Ok(format!(in alloc; "bad line {}\n", lines.saturating_add(1))?);
    }
    let found = match lines {
        0 | 1 => "unfinished open\n",
        2 => "unfinished order\n",
        3 => "unfinished commit\n",
        _ => "legal 3\n",
    };
    Ok(String::from_str(alloc, found)?)
}

// A part of a text, in a frame with a script.
fn framed_part(alloc: Global, script: &str, part: &[u8]) -> Result<Vec<u8>, Fail> {
    let frame = format!(in alloc; "script {}\n{script}", script.len())?;
    let mut input = frame.as_bytes().to_vec(alloc)?;
    input.extend_from_slice(part)?;
    Ok(input)
}

fn has_cut_line(part: &[u8]) -> bool {
    match part.last() {
        Some(byte) => *byte != b'\n',
        None => false,
    }
}

// An audit that passes ends with Ran, and one that does not with Illegal.
fn is_told(rt: &impl Abort, ended: &Ended, found: &str) {
    let is_legal = found.starts_with("legal ");
    let wanted = if is_legal { (0, "") } else { (1, "illegal") };
    assert_eq!(rt; ended.written.as_str(), found);
    assert_eq!(rt; (ended.code, ended.line.as_str()), wanted);
}

#[test]
fn each_part_of_a_text_is_told(rt: HostRuntime) -> Result<(), Fail> {
    let alloc = rt.alloc();
    for end in 0..=PAGE_TEXT.len() {
        let part = &PAGE_TEXT.as_bytes()[..end];
        let lines = part.iter().filter(|byte| **byte == b'\n').count();
        let input = framed_part(alloc, PAGE, part)?;
        let ended = run_bytes(alloc, &["audit"], &input, 8, None, None)?;
        let found = found_of_part(alloc, lines, has_cut_line(part))?;
        is_told(&rt, &ended, found.as_str());
    }
    Ok(())
}

// The text of the reader's run, of version one.
const READER_TEXT: &str = "open 0
order 0 0 https://a.com https://a.com https://a.com/
commit 0 0 https://a.com 68747470733a2f2f612e636f6d2f => ok
said 0 0 0 0 fetch no-cors https://a.com 68747470733a2f2f622e636f6d2f78 => ok
head 0 A4
piece 0 0 3c3f786d6c
end 0 whole
";

// The summary of its run.
const READER_SUMMARY: &str = "entries 7
delivered 5
A4 1
";

// What is missing behind so many whole lines of it.
const MISSING: [&str; 8] = [
    "unfinished open\n",
    "unfinished order\n",
    "unfinished commit\n",
    "unfinished said\n",
    "unfinished head\n",
    "unfinished piece\n",
    "unfinished end\n",
    "legal 7\n",
];

#[test]
fn each_part_of_a_readers_text_is_told(rt: HostRuntime) -> Result<(), Fail> {
    let alloc = rt.alloc();
    for end in 0..=READER_TEXT.len() {
        let part = &READER_TEXT.as_bytes()[..end];
        let lines = part.iter().filter(|byte| **byte == b'\n').count();
        let input = framed_part(alloc, READER, part)?;
        let ended = run_bytes(alloc, &["audit"], &input, 4096, None, None)?;
        if has_cut_line(part) {
            let bad = format!(in alloc; "bad line {}\n", lines.saturating_add(1))?;
            is_told(&rt, &ended, bad.as_str());
        } else {
            is_told(&rt, &ended, MISSING.get(lines).copied().unwrap_or(""));
        }
    }
    Ok(())
}

// A frame whose script is so many blanks.
fn blank_script(alloc: Global, length: usize) -> Result<Vec<u8>, Fail> {
    let frame = format!(in alloc; "script {length}\n")?;
    let blanks = vec![in alloc; b' '; length]?;
    let mut input = frame.as_bytes().to_vec(alloc)?;
    input.extend_from_slice(&blanks)?;
    Ok(input)
}

// A script's limit holds in a frame, too: blanks are no JSON, and one more of them are no frame.
#[test]
fn a_script_in_a_frame_has_its_limit(rt: HostRuntime) -> Result<(), Fail> {
    for (length, line) in [(4_194_304, "refused X1"), (4_194_305, "refused X8")] {
        let input = blank_script(rt.alloc(), length)?;
        let ended = run_bytes(rt.alloc(), &["audit"], &input, 65_536, None, None)?;
        assert_eq!(rt; (ended.code, ended.line.as_str()), (5, line));
        assert_eq!(rt; ended.written.as_str(), "");
    }
    Ok(())
}

// A failed read tells nothing else: nothing is written.
fn is_read_fault(rt: &impl Abort, ended: &Ended) {
    assert_eq!(rt; (ended.code, ended.line.as_str()), (3, "read fault"));
    assert_eq!(rt; ended.written.as_str(), "");
}

// Call after call of the source fails, until a run makes fewer calls and ends as it should.
fn each_read_fails(
    rt: &impl Abort,
    alloc: Global,
    words: &[&str],
    input: &str,
    step: usize,
    wanted: &str,
) -> Result<(), Fail>
    requires { 1 ≤ step }
{
    for call in 0..CALLS {
        let ended = run(alloc, words, input, step, Some(call), None)?;
        if ended.code == 0 {
            assert_eq!(rt; ended.written.as_str(), wanted);
            assert!(rt; call > 0);
            return Ok(());
        }
        is_read_fault(rt, &ended);
    }
    Err(Fail::new("a run makes too many calls"))
}

// A failed write leaves a part of the output written, and not all of it.
fn is_write_fault(rt: &impl Abort, ended: &Ended, wanted: &str) {
    assert_eq!(rt; (ended.code, ended.line.as_str()), (4, "write fault"));
    assert!(rt; wanted.starts_with(ended.written.as_str()));
    assert!(rt; ended.written.len() < wanted.len());
}

// What writes: a command over its input, or `gen` behind its generator, over a small script in place of the generated one, whose run
// does not end within a test.
#[derive(Clone, Copy)]
enum Writer<'w> {
    Command(&'w str, &'w str),
    Summary(&'w str),
}

fn summarized(alloc: Global, input: &str, step: usize, call: u64) -> Result<Ended, Fail>
    requires { 1 ≤ step }
{
    let answer = summarize(alloc, &read_script(alloc, input.as_bytes())?)?;
    let mut sink = failing_sink(alloc, step, Some(call))?;
    let status = write_answer(&answer, &mut sink);
    ending_of(alloc, &status, &sink)
}

fn written_by(alloc: Global, writer: Writer<'_>, step: usize, call: u64) -> Result<Ended, Fail>
    requires { 1 ≤ step }
{
    match writer {
        Writer::Command(word, input) => run(alloc, &[word], input, step, None, Some(call)),
        Writer::Summary(script) => summarized(alloc, script, step, call),
    }
}

// The same of the sink.
fn each_write_fails(
    rt: &impl Abort,
    alloc: Global,
    writer: Writer<'_>,
    step: usize,
    wanted: &str,
) -> Result<(), Fail>
    requires { 1 ≤ step }
{
    for call in 0..CALLS {
        let ended = written_by(alloc, writer, step, call)?;
        if ended.code == 0 {
            assert_eq!(rt; ended.written.as_str(), wanted);
            assert!(rt; call > 0);
            return Ok(());
        }
        is_write_fault(rt, &ended, wanted);
    }
    Err(Fail::new("a run makes too many calls"))
}

// A page whose renderer forges the commit of a bank's page for its child.
const FORGER: &str =
    r#"{"start":["https://a.com/"],"resources":[{"url":"https://a.com/","actions":[{"do":"frame","src":"https://a.com/f"},{"do":"raw","message":{"is":"commit","nav":1,"url":"https://bank.com/","origin":"https://bank.com/"}}]}]}"#;

const FORGER_TEXT: &str = "history 2
open 0
order 0 0 https://a.com https://a.com https://a.com/
commit 0 0 https://a.com 68747470733a2f2f612e636f6d2f => ok
said 0 0 0 0 frame plain url 68747470733a2f2f612e636f6d2f66 => ok
order 1 0 https://a.com https://a.com https://a.com/f
said 0 0 1 0 commit 1 https://bank.com 68747470733a2f2f62616e6b2e636f6d2f => kill K9
";

#[test]
fn reads_may_fail_at_any_call(rt: HostRuntime) -> Result<(), Fail> {
    let alloc = rt.alloc();
    let audit = page_audit(alloc)?;
    for step in STEPS {
        each_read_fails(&rt, alloc, &["one"], PAGE, step, PAGE_TEXT)?;
        each_read_fails(&rt, alloc, &["one"], FORGER, step, FORGER_TEXT)?;
        each_read_fails(&rt, alloc, &["audit"], &audit, step, "legal 3\n")?;
    }
    Ok(())
}

#[test]
fn writes_may_fail_at_any_call(rt: HostRuntime) -> Result<(), Fail> {
    let alloc = rt.alloc();
    let audit = page_audit(alloc)?;
    for step in STEPS {
        each_write_fails(&rt, alloc, Writer::Command("one", PAGE), step, PAGE_TEXT)?;
        each_write_fails(
            &rt,
            alloc,
            Writer::Command("one", FORGER),
            step,
            FORGER_TEXT,
        )?;
        each_write_fails(
            &rt,
            alloc,
            Writer::Command("audit", &audit),
            step,
            "legal 3\n",
        )?;
        each_write_fails(&rt, alloc, Writer::Summary(READER), step, READER_SUMMARY)?;
    }
    Ok(())
}
