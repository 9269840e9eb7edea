//! Limits of redirects, of lengths of URLs and of the window of sniffing.

use super::long_runs::{LongRow, assert_long_runs};
use std::test::Fail;

const ROWS: &[LongRow] = &[
    // Twenty different URLs, and then a document.
    LongRow {
        shows: "twenty redirects of a page",
        script: &[
            (
                r#"{"start":["https://a.com/0"],
"resources":["#,
                1,
            ),
            (
                r#"{"url":"https://a.com/@","status":302,"headers":[["Location","/^"]]},"#,
                20,
            ),
            (r#"{"url":"https://a.com/20"}]}"#, 1),
        ],
        counts: &[("", 24), ("hop nav 0 ", 20)],
        lines: &[
            "hop nav 0 https://a.com/1",
            "hop nav 0 https://a.com/20",
            "order 0 0 https://a.com https://a.com https://a.com/20",
            "commit 0 0 https://a.com 68747470733a2f2f612e636f6d2f3230 => ok",
        ],
    },
    // The 21st redirect is too many before its Location is looked at.
    LongRow {
        shows: "twenty-one redirects of a page",
        script: &[
            (
                r#"{"start":["https://a.com/0"],
"resources":["#,
                1,
            ),
            (
                r#"{"url":"https://a.com/@","status":302,"headers":[["Location","/^"]]},"#,
                20,
            ),
            (
                r#"{"url":"https://a.com/20","status":302,"headers":[["Location","data:,x"]]}]}"#,
                1,
            ),
        ],
        counts: &[("", 23), ("hop nav 0 ", 20)],
        lines: &["hop nav 0 https://a.com/20", "navend 0 N5"],
    },
    // Twenty different URLs, and then a response.
    LongRow {
        shows: "twenty redirects of a request",
        script: &[
            (
                r#"{"start":["https://a.com/"],
"resources":[{"url":"https://a.com/","actions":[{"do":"fetch","url":"https://a.com/0","mode":"cors"}]},"#,
                1,
            ),
            (
                r#"{"url":"https://a.com/@","status":308,"headers":[["Location","/^"]]},"#,
                20,
            ),
            (r#"{"url":"https://a.com/20"}]}"#, 1),
        ],
        counts: &[("", 27), ("hop req 0 ", 20)],
        lines: &["hop req 0 https://a.com/20", "head 0 A1", "end 0 whole"],
    },
    // The 21st redirect is too many before its Location is looked at.
    LongRow {
        shows: "twenty-one redirects of a request",
        script: &[
            (
                r#"{"start":["https://a.com/"],
"resources":[{"url":"https://a.com/","actions":[{"do":"fetch","url":"https://a.com/0","mode":"no-cors"}]},"#,
                1,
            ),
            (
                r#"{"url":"https://a.com/@","status":308,"headers":[["Location","/^"]]},"#,
                20,
            ),
            (
                r#"{"url":"https://a.com/20","status":302,"headers":[["Location","data:,x"]]}]}"#,
                1,
            ),
        ],
        counts: &[("", 26), ("hop req 0 ", 20)],
        lines: &["hop req 0 https://a.com/20", "end 0 failed N5"],
    },
    // 2,048 bytes are read, and 2,049 are no URL.
    LongRow {
        shows: "the length of a URL",
        script: &[
            (
                r#"{"start":["https://a.com/"],
"resources":[{"url":"https://a.com/","actions":[{"do":"frame","src":"https://a.com/"#,
                1,
            ),
            ("x", 2034),
            (
                r#""},
{"do":"frame","src":"https://a.com/"#,
                1,
            ),
            ("x", 2035),
            (
                r#""},
{"do":"fetch","mode":"cors","url":"https://a.com/"#,
                1,
            ),
            ("x", 2034),
            (
                r#""},
{"do":"fetch","mode":"cors","url":"https://a.com/"#,
                1,
            ),
            ("x", 2035),
            (r#""}]}]}"#, 1),
        ],
        counts: &[
            ("", 12),
            ("said ", 4),
            ("order ", 2),
            ("commit ", 2),
            ("deny N2", 1),
            ("deny F1", 1),
            (" => ok", 4),
        ],
        lines: &["head 0 A1", "end 0 whole"],
    },
    // 715 bytes that serialize to 2,115, since each space takes three.
    LongRow {
        shows: "the length of a serialized URL",
        script: &[
            (
                r#"{"start":["https://a.com/"],
"resources":[{"url":"https://a.com/","actions":[{"do":"page","url":"https://a.com/"#,
                1,
            ),
            (" ", 700),
            (
                r#"x"},
{"do":"page","url":"https://a.com/"#,
                1,
            ),
            (" ", 600),
            (r#"x"}]}]}"#, 1),
        ],
        counts: &[
            ("", 8),
            ("said ", 2),
            ("deny N2", 1),
            (" => ok", 3),
            (
                "order 1 0 https://a.com https://a.com https://a.com/%20%20",
                1,
            ),
        ],
        lines: &[],
    },
    // A short Location joins to a URL of more than 2,048 bytes.
    LongRow {
        shows: "the length of a joined URL",
        script: &[
            (r#"{"start":["https://a.com/"#, 1),
            ("d", 1500),
            (
                r#"/r"],
"resources":[{"url":"https://a.com/"#,
                1,
            ),
            ("d", 1500),
            (r#"/r","status":302,"headers":[["Location",""#, 1),
            ("x", 600),
            (r#""]]}]}"#, 1),
        ],
        counts: &[("", 3), ("hop ", 0)],
        lines: &["open 0", "navend 0 N2"],
    },
    // 1,024 bytes are looked at: a page whose front ends there is one, and one byte further is none. Of 1,023 bytes nothing is settled.
    LongRow {
        shows: "the window of sniffing",
        script: &[
            (
                r#"{"start":["https://a.com/"],
"resources":[{"url":"https://a.com/","actions":[{"do":"fetch","url":"https://b.com/0","mode":"no-cors"}"#,
                1,
            ),
            (
                r#",{"do":"fetch","url":"https://b.com/^","mode":"no-cors"}"#,
                5,
            ),
            (
                r#"]},
{"url":"https://b.com/0","headers":[["Content-Type","text/html"]],"body":""#,
                1,
            ),
            (" ", 1020),
            (
                r#"<html"},
{"url":"https://b.com/1","headers":[["Content-Type","text/html"]],"body":""#,
                1,
            ),
            (" ", 1019),
            (
                r#"<html"},
{"url":"https://b.com/2","headers":[["Content-Type","text/html"]],"fail_after":1023,"body":""#,
                1,
            ),
            (" ", 1030),
            (
                r#""},
{"url":"https://b.com/3","headers":[["Content-Type","text/html"]],"fail_after":1024,"body":""#,
                1,
            ),
            (" ", 1030),
            (
                r#""},
{"url":"https://b.com/4","headers":[["Content-Type","text/html"]],"body":"<!-- "#,
                1,
            ),
            ("x", 1019),
            (
                r#""},
{"url":"https://b.com/5","headers":[["Content-Type","text/html"]],"fail_after":1023,"body":"<!-- "#,
                1,
            ),
            ("x", 1019),
            (r#""}]}"#, 1),
        ],
        counts: &[("", 22), ("head ", 3), ("piece ", 3)],
        lines: &[
            "head 0 A5",
            "head 3 A5",
            "head 4 A5",
            "end 0 whole",
            "end 1 blocked B4",
            "end 2 failed N7",
            "end 3 failed N7",
            "end 4 whole",
            "end 5 failed N7",
        ],
    },
];

#[test]
fn lengths_run_as_written(rt: HostRuntime) -> Result<(), Fail> {
    assert_long_runs(&rt, rt.alloc(), ROWS)
}
