ghost use Rattle.std.specs.Prelude.{◌≤◌};

mod audits;
mod cut_and_failing;
mod gates;
mod workers;

use crate::{
    Command, Finding, PathText, Refusal, Status, browse_one, command_of, read_script, status_line,
};
use browser_io::{MemSink, MemSource, NeverSink, NeverSource};
use history::EntryKind;
use std::alloc::Global;
use std::test::Fail;

const PAGE: &str = r#"{"start":["https://a.com/"],"resources":[{"url":"https://a.com/"}]}"#;

const PAGE_TEXT: &str = "history 2
open 0
order 0 0 https://a.com https://a.com https://a.com/
commit 0 0 https://a.com 68747470733a2f2f612e636f6d2f => ok
";

const OTHER_TEXT: &str = "history 2
open 0
order 0 0 https://b.org https://b.org https://b.org/
commit 0 0 https://b.org 68747470733a2f2f622e6f72672f => ok
";

// A page that reads an image of another site.
const READER: &str =
    r#"{"start":["https://a.com/"],"resources":[{"url":"https://a.com/","actions":[{"do":"fetch","url":"https://b.com/x","mode":"no-cors"}]},{"url":"https://b.com/x","headers":[["Content-Type","image/svg+xml"]],"body":"<?xml"}]}"#;

// The exit status, the line on standard error and what was written, of a run over memory.
#[derive(Drop)]
struct Ended {
    code: u8,
    line: String,
    written: String,
}

// A sink that takes so many bytes at a call, one of whose calls may fail.
fn failing_sink(alloc: Global, step: usize, failing: Option<u64>) -> Result<MemSink, Fail>
    requires { 1 ≤ step }
{
    Ok(MemSink::new(alloc, 4096, step, failing.into_iter().collect(alloc)?)?)
}

fn ending_of(alloc: Global, status: &Status, sink: &MemSink) -> Result<Ended, Fail> {
    let line = status_line(alloc, status)?;
    Ok(Ended {
        code: status.exit_code(),
        line: String::from_str(alloc, line.as_str())?,
        written: String::from_utf8_lossy(alloc, sink.written())?,
    })
}

fn run_bytes(
    alloc: Global,
    words: &[&str],
    input: &[u8],
    step: usize,
    failing_read: Option<u64>,
    failing_write: Option<u64>,
) -> Result<Ended, Fail>
    requires { 1 ≤ step }
{
    let bytes = input.to_vec(alloc)?;
    let mut source = MemSource::new(bytes, step, failing_read.into_iter().collect(alloc)?);
    let mut sink = failing_sink(alloc, step, failing_write)?;
    let status = browse_one(alloc, words, &mut source, &mut sink);
    ending_of(alloc, &status, &sink)
}

fn run(
    alloc: Global,
    words: &[&str],
    input: &str,
    step: usize,
    failing_read: Option<u64>,
    failing_write: Option<u64>,
) -> Result<Ended, Fail>
    requires { 1 ≤ step }
{
    run_bytes(
        alloc,
        words,
        input.as_bytes(),
        step,
        failing_read,
        failing_write,
    )
}

#[test]
fn commands_end_with_their_status(rt: HostRuntime) -> Result<(), Fail> {
    let usage = "usage: one | run N | audit | gen NUMBER";
    let cases: [(&[&str], &str, u8, &str, &str); 15] = [
        (&["one"], PAGE, 0, "", PAGE_TEXT),
        (&["one"], r#"{"start":[]}"#, 0, "", "history 2\n"),
        (
            &["one"],
            r#"{"start":["https://b.org/"]}"#,
            0,
            "",
            OTHER_TEXT,
        ),
        (
            &["one"],
            r#"{"start":["https://a.com/"],"resou"#,
            5,
            "refused X1",
            "",
        ),
        (&["one"], "[]", 5, "refused X2", ""),
        (&["one"], "", 5, "refused X1", ""),
        (&[], PAGE, 2, usage, ""),
        (&["run", "0"], PAGE, 2, usage, ""),
        (&["run", "17"], PAGE, 2, usage, ""),
        (&["run", "1"], PAGE, 2, usage, ""),
        (&["one", "two"], PAGE, 2, usage, ""),
        (&["One"], PAGE, 2, usage, ""),
        (&["audit", "one"], PAGE, 2, usage, ""),
        (&["gen"], PAGE, 2, usage, ""),
        (&["gen", "07"], PAGE, 2, usage, ""),
    ];
    for (words, input, code, line, written) in cases {
        for step in [1, 8, 4096] {
            let ended = run(rt.alloc(), words, input, step, None, None)?;
            assert_eq!(rt; ended.code, code, "{input}");
            assert_eq!(rt; ended.line.as_str(), line);
            assert_eq!(rt; ended.written.as_str(), written);
        }
    }
    Ok(())
}

#[test]
fn words_name_commands(rt: HostRuntime) {
    let rows: [(&[&str], Option<Command>); 30] = [
        (&["one"], Some(Command::One)),
        (&["audit"], Some(Command::Audit)),
        (&["gen", "0"], Some(Command::Gen(0))),
        (&["gen", "7"], Some(Command::Gen(7))),
        (
            &["gen", "18446744073709551615"],
            Some(Command::Gen(18_446_744_073_709_551_615)),
        ),
        (&["gen", "18446744073709551616"], None),
        (&["gen", ""], None),
        (&["gen", "+7"], None),
        (&["gen", "-7"], None),
        (&["gen", " 7"], None),
        (&["gen", "7", "7"], None),
        (&["gen"], None),
        (&["run", "1"], Some(Command::Run(1))),
        (&["run", "2"], Some(Command::Run(2))),
        (&["run", "16"], Some(Command::Run(16))),
        (&["run", "0"], None),
        (&["run", "17"], None),
        (&["run", "01"], None),
        (&["run", "+1"], None),
        (&["run", "-1"], None),
        (&["run", ""], None),
        (&["run", "4294967297"], None),
        (&["run", "1", "1"], None),
        (&["run"], None),
        (&["Run", "1"], None),
        (&["Audit"], None),
        (&["audit", ""], None),
        (&["one", "7"], None),
        (&[""], None),
        (&[], None),
    ];
    for (words, command) in rows {
        assert!(rt; command_of(words) == command);
    }
}

// The suffix rules, the isolated origin and the start page of a script, and the site and the origin of its order.
const SITES: &[(&str, &str, &str, &str, &str)] = &[
    (
        "",
        "https://pay.a.com",
        "https://pay.a.com/",
        "=https://pay.a.com",
        "https://pay.a.com",
    ),
    (
        "",
        "https://pay.a.com:8443/any/path",
        "https://pay.a.com:8443/x",
        "=https://pay.a.com:8443",
        "https://pay.a.com:8443",
    ),
    (
        "",
        "https://pay.a.com:8443",
        "https://pay.a.com/",
        "https://a.com",
        "https://pay.a.com",
    ),
    (
        "",
        "https://pay.a.com",
        "http://pay.a.com/",
        "http://a.com",
        "http://pay.a.com",
    ),
    (
        "",
        "http://127.0.0.1:8080",
        "http://127.0.0.1:8080/",
        "=http://127.0.0.1:8080",
        "http://127.0.0.1:8080",
    ),
    (
        "",
        "https://pay.a.com",
        "https://sub.pay.a.com/",
        "https://a.com",
        "https://sub.pay.a.com",
    ),
    (
        "co.uk",
        "https://pay.a.com",
        "https://www.shop.co.uk/",
        "https://shop.co.uk",
        "https://www.shop.co.uk",
    ),
    (
        "uk",
        "https://pay.a.com",
        "https://www.shop.co.uk/",
        "https://co.uk",
        "https://www.shop.co.uk",
    ),
];

fn order_of(alloc: Global, suffixes: &str, isolated: &str, page: &str) -> Result<String, Fail> {
    let script = format!(in alloc;
        "{{\"suffixes\":\"{suffixes}\",\"start\":[\"{page}\"],\"isolated_origins\":[\"{isolated}\"]}}"
    )?;
    let ended = run(alloc, &["one"], script.as_str(), 4096, None, None)?;
    let order = ended.written.as_str().lines().nth(2).unwrap_or("");
    Ok(String::from_str(alloc, order)?)
}

#[test]
fn orders_name_the_site_of_their_page(rt: HostRuntime) -> Result<(), Fail> {
    for (suffixes, isolated, page, site, origin) in SITES {
        let order = order_of(rt.alloc(), suffixes, isolated, page)?;
        let wanted = format!(in rt.alloc(); "order 0 0 {site} {origin} {page}")?;
        assert_eq!(rt; order.as_str(), wanted.as_str());
    }
    Ok(())
}

#[test]
fn faults_of_source_and_sink_are_told(rt: HostRuntime) -> Result<(), Fail> {
    let ended = run(rt.alloc(), &["one"], PAGE, 8, Some(0), None)?;
    assert_eq!(rt; (ended.code, ended.line.as_str()), (3, "read fault"));
    assert_eq!(rt; ended.written.as_str(), "");
    let ended = run(rt.alloc(), &["one"], PAGE, 8, None, Some(1))?;
    assert_eq!(rt; (ended.code, ended.line.as_str()), (4, "write fault"));
    assert_eq!(rt; ended.written.as_str(), "history ");
    let legal = "script 12\n{\"start\":[]}";
    let ended = run(rt.alloc(), &["audit"], legal, 8, Some(1), None)?;
    assert_eq!(rt; (ended.code, ended.line.as_str()), (3, "read fault"));
    let illegal = "script 12\n{\"start\":[]}open 0\n";
    let ended = run(rt.alloc(), &["audit"], illegal, 8, None, Some(1))?;
    assert_eq!(rt; (ended.code, ended.line.as_str()), (4, "write fault"));
    assert_eq!(rt; ended.written.as_str(), "illegal ");
    Ok(())
}

#[test]
fn too_much_input_is_told(rt: HostRuntime) -> Result<(), Fail> {
    let alloc = rt.alloc();
    for (len, code) in [(4_194_304, 5), (4_194_305, 6)] {
        let bytes = vec![in alloc; b' '; len]?;
        let mut source = MemSource::new(bytes, 1 << 20, Vec::new(alloc));
        let mut sink = MemSink::new(alloc, 16, 16, Vec::new(alloc))?;
        let status = browse_one(alloc, &["one"], &mut source, &mut sink);
        assert_eq!(rt; status.exit_code(), code);
    }
    Ok(())
}

// Scripts with the line that their refusal shows, and an empty line where they run.
const SCRIPTS: &[(&str, &str)] = &[
    ("[]", "refused X2"),
    ("{}", "refused X2 /start"),
    (r#"{"start":[],"x":1}"#, "refused X2"),
    (r#"{"start":["ftp://a.com/"]}"#, "refused X3 /start/0"),
    (r#"{"start":[],"suffixes":"a.*.b"}"#, "refused X4 line 1"),
    (r#"{"start":[],"soft_limit":65}"#, "refused X6 /soft_limit"),
    (r#"{"start":[],"soft_limit":1.5}"#, "refused X2 /soft_limit"),
    (
        r#"{"start":[],"resources":[{"url":"about:srcdoc"}]}"#,
        "refused X3 /resources/0/url",
    ),
    (
        r#"{"start":[],"resources":[{"url":"https://a.com/"},{"url":"https://a.com/#x"}]}"#,
        "refused X7 /resources/1/url",
    ),
    (
        r#"{"start":[],"resources":[{"url":"https://a.com/","headers":[["Bad Name","x"]]}]}"#,
        "refused X5 /resources/0/headers/0/0",
    ),
    (
        r#"{"start":[],"resources":[{"url":"https://a.com/","actions":[{"do":"fly"}]}]}"#,
        "refused X2 /resources/0/actions/0/do",
    ),
    (r#"{"start":[],"spare":true}"#, ""),
    (r#"{"start":["https://a.com/","https://b.org/"]}"#, ""),
    (
        r#"{"start":[],"resources":[{"url":"https://a.com/","actions":[{"do":"wait"}]}]}"#,
        "",
    ),
    (
        r#"{"start":[],"resources":[{"url":"https://a.com/","fail_after":0}]}"#,
        "",
    ),
    (
        r#"{"start":[],"resources":[{"url":"https://a.com/","body":"x","fail_after":1}]}"#,
        "",
    ),
    (r#"{"start":["https://a.com/"],"soft_limit":0}"#, ""),
    (
        r#"{"start":[],"spare":true,"soft_limit":65}"#,
        "refused X6 /soft_limit",
    ),
];

#[test]
fn scripts_are_refused_by_code_and_path(rt: HostRuntime) -> Result<(), Fail> {
    for (script, line) in SCRIPTS {
        let ended = run(rt.alloc(), &["one"], script, 4096, None, None)?;
        assert_eq!(rt; ended.line.as_str(), *line, "{script}");
        let code = if line.is_empty() { 0 } else { 5 };
        assert_eq!(rt; ended.code, code, "{script}");
    }
    Ok(())
}

fn stop_text(alloc: Global, script: &str) -> Result<String, Fail> {
    match read_script(alloc, script.as_bytes()) {
        Ok(_) => Ok(String::new(alloc)),
        Err(stop) => Ok(stop.to_string(alloc)?),
    }
}

#[test]
fn refusals_have_texts(rt: HostRuntime) -> Result<(), Fail> {
    for (script, want) in [
        ("[]", "refused X2"),
        (r#"{"start":["no"]}"#, "refused X3 /start/0"),
        (r#"{"start":[],"suffixes":"a.*.b"}"#, "refused X4 line 1"),
        (r#"{"start":[]}"#, ""),
    ] {
        let text = stop_text(rt.alloc(), script)?;
        assert_eq!(rt; text.as_str(), want);
    }
    Ok(())
}

#[test]
fn a_page_runs_where_nothing_fails(rt: HostRuntime) -> Result<(), Fail> {
    let alloc = rt.alloc();
    let mut source = NeverSource::new(PAGE.as_bytes().to_vec(alloc)?, 7);
    let mut sink = NeverSink::new(3);
    let status = browse_one(alloc, &["one"], &mut source, &mut sink);
    assert_eq!(rt; status.exit_code(), 0);
    Ok(())
}

#[test]
fn lines_of_refusals_name_path_and_line(rt: HostRuntime) -> Result<(), Fail> {
    let alloc = rt.alloc();
    let status = Status::Refused(Refusal {
        code: 4,
        path: PathText::root(alloc),
        line: 3,
    });
    assert_eq!(rt; status.exit_code(), 5);
    assert_eq!(rt; status_line(alloc, &status)?.as_str(), "refused X4 line 3");
    Ok(())
}

#[test]
fn statuses_have_their_line_and_exit_code(rt: HostRuntime) -> Result<(), Fail> {
    let rows = [
        (Status::Ran, 0, ""),
        (Status::Illegal(Finding::BadLine(1)), 1, "illegal"),
        (Status::Illegal(Finding::Entry(2)), 1, "illegal"),
        (
            Status::Illegal(Finding::Unfinished(EntryKind::Exit)),
            1,
            "illegal",
        ),
        (Status::Usage, 2, "usage: one | run N | audit | gen NUMBER"),
        (Status::ReadFault, 3, "read fault"),
        (Status::WriteFault, 4, "write fault"),
        (Status::TooLarge, 6, "too large"),
        (Status::NoMemory, 7, "no memory"),
    ];
    for (status, code, line) in &rows {
        assert_eq!(rt; status.exit_code(), *code);
        assert_eq!(rt; status_line(rt.alloc(), status)?.as_str(), *line);
    }
    Ok(())
}
