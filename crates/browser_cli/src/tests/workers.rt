//! The top call with workers.

ghost use Rattle.std.specs.Prelude.{◌≤◌};

use super::{Ended, OTHER_TEXT, PAGE, PAGE_TEXT};
use crate::{NoGate, browse, status_line};
use browser_io::{MemSink, MemSource};
use std::alloc::Global;
use std::sync::Wait;
use std::test::Fail;
use std::thread::Threads;

fn run<R: Threads + Wait + Sync>(
    rt: &R,
    alloc: Global,
    words: &[&str],
    input: &str,
    step: usize,
    failing_read: Option<u64>,
    failing_write: Option<u64>,
) -> Result<Ended, Fail>
    requires { 1 ≤ step }
{
    let bytes = input.as_bytes().to_vec(alloc)?;
    let mut source = MemSource::new(bytes, step, failing_read.into_iter().collect(alloc)?);
    let mut sink = MemSink::new(alloc, 4096, step, failing_write.into_iter().collect(alloc)?)?;
    let status = browse(rt, alloc, words, &mut source, &mut sink, &NoGate);
    let line = status_line(alloc, &status)?;
    Ok(Ended {
        code: status.exit_code(),
        line: String::from_str(alloc, line.as_str())?,
        written: String::from_utf8_lossy(alloc, sink.written())?,
    })
}

#[test]
fn commands_end_with_their_status(rt: HostRuntime) -> Result<(), Fail> {
    let usage = "usage: one | run N | audit | gen NUMBER";
    let cases: [(&[&str], &str, u8, &str, &str); 15] = [
        (&["run", "1"], PAGE, 0, "", PAGE_TEXT),
        (&["run", "4"], PAGE, 0, "", PAGE_TEXT),
        (&["run", "16"], PAGE, 0, "", PAGE_TEXT),
        (&["run", "1"], r#"{"start":[]}"#, 0, "", "history 2\n"),
        (
            &["run", "2"],
            r#"{"start":["https://b.org/"]}"#,
            0,
            "",
            OTHER_TEXT,
        ),
        (
            &["run", "1"],
            r#"{"start":["https://a.com/"],"resou"#,
            5,
            "refused X1",
            "",
        ),
        (&["run", "1"], "{}", 5, "refused X2 /start", ""),
        (&["run", "0"], PAGE, 2, usage, ""),
        (&["run", "17"], PAGE, 2, usage, ""),
        (&["run", "01"], PAGE, 2, usage, ""),
        (&["run", "1", "1"], PAGE, 2, usage, ""),
        (&[], PAGE, 2, usage, ""),
        (&["one"], PAGE, 0, "", PAGE_TEXT),
        (
            &["audit"],
            "script 12\n{\"start\":[]}open 0\n",
            1,
            "illegal",
            "illegal line 1\n",
        ),
        (&["audit"], "script", 5, "refused X8", ""),
    ];
    for (words, input, code, line, written) in cases {
        let ended = run(&rt, rt.alloc(), words, input, 8, None, None)?;
        assert_eq!(rt; ended.code, code, "{input}");
        assert_eq!(rt; ended.line.as_str(), line);
        assert_eq!(rt; ended.written.as_str(), written);
    }
    Ok(())
}

#[test]
fn faults_are_told(rt: HostRuntime) -> Result<(), Fail> {
    let alloc = rt.alloc();
    let ended = run(&rt, alloc, &["run", "2"], PAGE, 8, Some(0), None)?;
    assert_eq!(rt; (ended.code, ended.line.as_str()), (3, "read fault"));
    assert_eq!(rt; ended.written.as_str(), "");
    let ended = run(&rt, alloc, &["run", "2"], PAGE, 8, None, Some(1))?;
    assert_eq!(rt; (ended.code, ended.line.as_str()), (4, "write fault"));
    assert_eq!(rt; ended.written.as_str(), "history ");
    Ok(())
}

#[test]
fn too_much_input_is_told(rt: HostRuntime) -> Result<(), Fail> {
    let alloc = rt.alloc();
    for (len, code) in [(4_194_304, 5), (4_194_305, 6)] {
        let bytes = vec![in alloc; b' '; len]?;
        let mut source = MemSource::new(bytes, 1 << 20, Vec::new(alloc));
        let mut sink = MemSink::new(alloc, 16, 16, Vec::new(alloc))?;
        let words = ["run", "1"];
        let status = browse(&rt, alloc, &words, &mut source, &mut sink, &NoGate);
        assert_eq!(rt; status.exit_code(), code);
    }
    Ok(())
}
