//! What `audit` finds of texts in frames.

use super::{PAGE, PAGE_TEXT, READER, run};
use std::test::Fail;

const PAGE_WITHOUT_TEXT: &str =
    "script 67\n{\"start\":[\"https://a.com/\"],\"resources\":[{\"url\":\"https://a.com/\"}]}";

// A page that reads an image whose resource policy keeps it from other sites, and what each policy makes of its text.
const KEPT_BACK_TEXT: &str = "script 258
{\"start\":[\"https://a.com/\"],\"resources\":[{\"url\":\"https://a.com/\",\"actions\":[{\"do\":\"fetch\",\"url\":\"https://b.com/x\",\"mode\":\"no-cors\"}]},{\"url\":\"https://b.com/x\",\"headers\":[[\"Content-Type\",\"image/png\"],[\"Cross-Origin-Resource-Policy\",\"same-site\"]],\"body\":\"x\"}]}open 0
order 0 0 https://a.com https://a.com https://a.com/
commit 0 0 https://a.com 68747470733a2f2f612e636f6d2f => ok
said 0 0 0 0 fetch no-cors https://a.com 68747470733a2f2f622e636f6d2f78 => ok
head 0 A4
piece 0 0 78
end 0 whole
";

const KEPT_BACK_TEXT_TWO: &str = "script 258
{\"start\":[\"https://a.com/\"],\"resources\":[{\"url\":\"https://a.com/\",\"actions\":[{\"do\":\"fetch\",\"url\":\"https://b.com/x\",\"mode\":\"no-cors\"}]},{\"url\":\"https://b.com/x\",\"headers\":[[\"Content-Type\",\"image/png\"],[\"Cross-Origin-Resource-Policy\",\"same-site\"]],\"body\":\"x\"}]}history 2
open 0
order 0 0 https://a.com https://a.com https://a.com/
commit 0 0 https://a.com 68747470733a2f2f612e636f6d2f => ok
said 0 0 0 0 fetch no-cors https://a.com 68747470733a2f2f622e636f6d2f78 => ok
head 0 A4
piece 0 0 78
end 0 whole
";

// What `audit` reads, with its exit status, its line on standard error, and what it writes.
const AUDITS: &[(&str, u8, &str, &str)] = &[
    ("script 12\n{\"start\":[]}", 0, "", "legal 0\n"),
    ("script 12\n{\"start\":[]}history 2\n", 0, "", "legal 0\n"),
    (
        "script 12\n{\"start\":[]}open 0\n",
        1,
        "illegal",
        "illegal line 1\n",
    ),
    (
        "script 12\n{\"start\":[]}history 2\nopen 0\n",
        1,
        "illegal",
        "illegal line 2\n",
    ),
    (
        "script 12\n{\"start\":[]}oops\n",
        1,
        "illegal",
        "bad line 1\n",
    ),
    (
        "script 12\n{\"start\":[]}open 0\noops\n",
        1,
        "illegal",
        "bad line 2\n",
    ),
    (
        "script 28\n{\"start\":[\"https://b.org/\"]}history 2\n",
        1,
        "illegal",
        "unfinished open\n",
    ),
    (PAGE_WITHOUT_TEXT, 1, "illegal", "unfinished open\n"),
    // The resource policy keeps a response back under the second policy alone.
    (KEPT_BACK_TEXT, 0, "", "legal 7\n"),
    (KEPT_BACK_TEXT_TWO, 1, "illegal", "illegal line 6\n"),
    ("", 5, "refused X8", ""),
    ("script", 5, "refused X8", ""),
    ("script 12", 5, "refused X8", ""),
    ("script 12\n", 5, "refused X8", ""),
    ("script 13\n{\"start\":[]}", 5, "refused X8", ""),
    ("script 012\n{\"start\":[]}", 5, "refused X8", ""),
    ("script +12\n{\"start\":[]}", 5, "refused X8", ""),
    ("script  12\n{\"start\":[]}", 5, "refused X8", ""),
    ("script 12\r\n{\"start\":[]}", 5, "refused X8", ""),
    ("script \n{\"start\":[]}", 5, "refused X8", ""),
    ("Script 12\n{\"start\":[]}", 5, "refused X8", ""),
    ("scripts 12\n{\"start\":[]}", 5, "refused X8", ""),
    ("script 4294967296\n", 5, "refused X8", ""),
    ("{\"start\":[]}", 5, "refused X8", ""),
    ("script 3\n[]", 5, "refused X8", ""),
    ("script 2\n[]", 5, "refused X2", ""),
    ("script 2\n[]oops", 5, "refused X2", ""),
    ("script 0\n", 5, "refused X1", ""),
    ("script 11\n{\"start\":[]}", 5, "refused X1", ""),
];

// The text of the reader's run, of version one but for its first line, with its piece told twice.
const DOUBLED_PIECE: &str = "open 0
order 0 0 https://a.com https://a.com https://a.com/
commit 0 0 https://a.com 68747470733a2f2f612e636f6d2f => ok
said 0 0 0 0 fetch no-cors https://a.com 68747470733a2f2f622e636f6d2f78 => ok
head 0 A4
piece 0 0 3c3f786d6c
piece 0 0 3c3f786d6c
end 0 whole
";

// The line of a version counts.
#[test]
fn a_doubled_piece_is_told_by_its_line(rt: HostRuntime) -> Result<(), Fail> {
    let alloc = rt.alloc();
    for (version, found) in [
        ("", "illegal line 7\n"),
        ("history 2\n", "illegal line 8\n"),
    ] {
        let input = format!(in alloc; "script {}\n{READER}{version}{DOUBLED_PIECE}", READER.len())?;
        let ended = run(alloc, &["audit"], &input, 4096, None, None)?;
        assert_eq!(rt; (ended.code, ended.written.as_str()), (1, found));
    }
    Ok(())
}

#[test]
fn audits_end_with_what_they_find(rt: HostRuntime) -> Result<(), Fail> {
    for (input, code, line, written) in AUDITS {
        for step in [1, 8, 4096] {
            let ended = run(rt.alloc(), &["audit"], input, step, None, None)?;
            assert_eq!(rt; ended.code, *code, "{input}");
            assert_eq!(rt; ended.line.as_str(), *line, "{input}");
            assert_eq!(rt; ended.written.as_str(), *written, "{input}");
        }
    }
    Ok(())
}

// The text of a run is legal, and each line less leaves it unfinished by the kind that is missing.
#[test]
fn texts_of_runs_are_legal(rt: HostRuntime) -> Result<(), Fail> {
    let alloc = rt.alloc();
    for (lines, code, written) in [
        (1, 1, "unfinished open\n"),
        (2, 1, "unfinished order\n"),
        (3, 1, "unfinished commit\n"),
        (4, 0, "legal 3\n"),
    ] {
        let mut input = format!(in alloc; "script {}\n{PAGE}", PAGE.len())?;
        for line in PAGE_TEXT.split_inclusive('\n').take(lines) {
            input.push_str(line)?;
        }
        let ended = run(alloc, &["audit"], &input, 4096, None, None)?;
        assert_eq!(rt; ended.written.as_str(), written);
        assert_eq!(rt; ended.code, code);
    }
    Ok(())
}
