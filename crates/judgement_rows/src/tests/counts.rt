//! Rows on counts: of frames, navigations and requests. The start pages count from the beginning, opened or not.

use super::moments::{entries_of, reply_to};
use std::alloc::Global;
use std::process::Abort;
use std::test::Fail;

/// One of the two start pages, with a frame in a sandbox: so far three frames and three navigations.
const PAGE: &str = "open 0
order 0 0 https://a.com https://a.com https://a.com/
commit 0 0 https://a.com 68747470733a2f2f612e636f6d2f => ok
said 0 0 0 0 frame sandboxed url 68747470733a2f2f612e636f6d2f73 => ok
order 2 0 https://a.com opaque:2:https://a.com https://a.com/s
commit 0 2 opaque:2:https://a.com 68747470733a2f2f612e636f6d2f73 => ok
";

/// What a row shows, a line behind those of the page, how often it stands there, and messages with their replies.
type Row = (
    &'static str,
    &'static str,
    usize,
    &'static [(&'static str, &'static str)],
);

const ROWS: &[Row] = &[
    (
        "63 frames",
        "said 0 0 1 0 frame plain url 61626f75743a626c616e6b => ok\n",
        60,
        &[
            ("0 frame plain url 68747470733a2f2f612e636f6d2f32", "ok"),
            ("0 frame plain doc 0", "ok"),
            ("0 page 68747470733a2f2f612e636f6d2f32", "ok"),
        ],
    ),
    (
        "64 frames: L1 stands before the rows on the URL, and behind N9",
        "said 0 0 1 0 frame plain url 61626f75743a626c616e6b => ok\n",
        61,
        &[
            (
                "0 frame plain url 68747470733a2f2f612e636f6d2f32",
                "deny L1",
            ),
            ("0 frame plain doc 0", "deny L1"),
            ("0 page 68747470733a2f2f612e636f6d2f32", "deny L1"),
            ("0 frame plain url 6e6f", "deny L1"),
            ("0 page 6e6f", "deny L1"),
            ("2 page 68747470733a2f2f612e636f6d2f32", "deny N9"),
            (
                "0 navigate 0 https://a.com 68747470733a2f2f612e636f6d2f32",
                "ok",
            ),
        ],
    ),
    (
        "64 frames, of which all but three are pages",
        "said 0 0 1 0 page 61626f75743a626c616e6b => ok\n",
        61,
        &[
            (
                "0 frame plain url 68747470733a2f2f612e636f6d2f32",
                "deny L1",
            ),
            ("0 page 68747470733a2f2f612e636f6d2f32", "deny L1"),
        ],
    ),
    (
        "what was denied does not count",
        "said 0 0 1 0 frame plain url 6e6f => deny N2\n",
        300,
        &[
            ("0 frame plain url 68747470733a2f2f612e636f6d2f32", "ok"),
            ("0 page 68747470733a2f2f612e636f6d2f32", "ok"),
            (
                "0 navigate 0 https://a.com 68747470733a2f2f612e636f6d2f32",
                "ok",
            ),
        ],
    ),
    (
        "255 navigations",
        "said 0 0 1 0 navigate 0 https://a.com 68747470733a2f2f612e636f6d2f32 => ok\n",
        252,
        &[
            (
                "0 navigate 0 https://a.com 68747470733a2f2f612e636f6d2f32",
                "ok",
            ),
            ("0 frame plain url 68747470733a2f2f612e636f6d2f32", "ok"),
            ("0 frame plain doc 0", "ok"),
            ("0 page 68747470733a2f2f612e636f6d2f32", "ok"),
        ],
    ),
    (
        "256 navigations: N4 stands behind N2 and N3",
        "said 0 0 1 0 navigate 0 https://a.com 68747470733a2f2f612e636f6d2f32 => ok\n",
        253,
        &[
            (
                "0 navigate 0 https://a.com 68747470733a2f2f612e636f6d2f32",
                "deny N4",
            ),
            (
                "0 frame plain url 68747470733a2f2f612e636f6d2f32",
                "deny N4",
            ),
            ("0 frame plain doc 0", "deny N4"),
            ("0 page 68747470733a2f2f612e636f6d2f32", "deny N4"),
            ("0 navigate 0 https://a.com 6e6f", "deny N2"),
            ("0 page 77733a2f2f612e636f6d2f", "deny N3"),
            (
                "0 fetch cors https://a.com 68747470733a2f2f612e636f6d2f32",
                "ok",
            ),
        ],
    ),
    (
        "4,095 requests",
        "said 0 0 1 0 fetch cors https://a.com 68747470733a2f2f612e636f6d2f32 => ok\n",
        4095,
        &[(
            "0 fetch cors https://a.com 68747470733a2f2f612e636f6d2f32",
            "ok",
        )],
    ),
    (
        "4,096 requests: L2 stands behind K3 and F1",
        "said 0 0 1 0 fetch cors https://a.com 68747470733a2f2f612e636f6d2f32 => ok\n",
        4096,
        &[
            (
                "0 fetch cors https://a.com 68747470733a2f2f612e636f6d2f32",
                "deny L2",
            ),
            ("0 fetch cors https://a.com 6e6f", "deny F1"),
            (
                "0 fetch cors https://b.com 68747470733a2f2f612e636f6d2f32",
                "kill K3",
            ),
            ("0 frame plain url 68747470733a2f2f612e636f6d2f32", "ok"),
        ],
    ),
];

fn assert_counted(rt: &impl Abort, alloc: Global, row: &Row) -> Result<(), Fail> {
    let (shows, line, count, messages) = row;
    let text = format!(in alloc; "{PAGE}{}", line.repeat(alloc, *count)?)?;
    let entries = entries_of(alloc, &text)?;
    for (message, want) in *messages {
        let reply = reply_to(rt, alloc, entries.as_slice(), 0, message)?;
        assert_eq!(rt; reply.as_str(), *want, "{shows}: {message}");
    }
    Ok(())
}

#[test]
fn counts_are_judged(rt: HostRuntime) -> Result<(), Fail> {
    for row in ROWS {
        assert_counted(&rt, rt.alloc(), row)?;
    }
    Ok(())
}
