//! Each message of a process that is not locked: one that never started, a warm one, and dead ones.

use super::moments::{entries_of, reply_to};
use super::pages::PAGES;
use std::alloc::Global;
use std::process::Abort;
use std::test::Fail;

/// A message of each kind but the commit, for the document of the first page.
const MESSAGES: &[&str] = &[
    "0 navigate 0 https://a.com 68747470733a2f2f612e636f6d2f32",
    "0 frame plain url 68747470733a2f2f612e636f6d2f32",
    "0 remove 2",
    "0 page 68747470733a2f2f612e636f6d2f32",
    "0 fetch cors https://a.com 68747470733a2f2f612e636f6d2f32",
    "0 post 0 * https://a.com 78",
    "0 ask 73746f7265 https://a.com 676574206b",
];

/// Commits of an order that waits, and of one that was committed, both of process 0.
const COMMITS: &[&str] = &[
    "0 commit 6 https://a.com 68747470733a2f2f612e636f6d2f68",
    "0 commit 0 https://a.com 68747470733a2f2f612e636f6d2f",
];

/// What happens after the pages were there, a process, and the replies to its messages and to its commits.
const ROWS: &[(&str, u32, &str, &str)] = &[
    // Absent.
    ("", 3, "kill K1", "kill K8"),
    // Warm.
    ("", 2, "kill K1", "kill K8"),
    // Locked to another site.
    ("", 1, "kill K1", "kill K8"),
    // Dead, by a crash, an exit, and kills by a message and by a commit.
    ("crash 0\n", 0, "drop G1", "drop G3"),
    ("exit 0\n", 0, "drop G1", "drop G3"),
    (
        "said 0 0 9 0 remove 0 => kill K5\n",
        0,
        "drop G1",
        "drop G3",
    ),
    (
        "commit 0 6 https://b.com 68747470733a2f2f612e636f6d2f68 => kill K10\n",
        0,
        "drop G1",
        "drop G3",
    ),
    // Dead, and the documents and orders are of another process.
    ("crash 1\n", 1, "kill K1", "kill K8"),
];

/// The replies to messages of a process after these lines.
fn assert_all(
    rt: &impl Abort,
    alloc: Global,
    lines: &str,
    process: u32,
    messages: &[&str],
    want: &str,
) -> Result<(), Fail> {
    let text = format!(in alloc; "{PAGES}{lines}")?;
    let entries = entries_of(alloc, &text)?;
    for message in messages {
        let reply = reply_to(rt, alloc, entries.as_slice(), process, message)?;
        assert_eq!(rt;
            reply.as_str(),
            want,
            "{lines}, process {process}: {message}"
        );
    }
    Ok(())
}

#[test]
fn each_standing_has_its_replies(rt: HostRuntime) -> Result<(), Fail> {
    for (lines, process, want, want_commit) in ROWS {
        assert_all(&rt, rt.alloc(), lines, *process, MESSAGES, want)?;
        assert_all(&rt, rt.alloc(), lines, *process, COMMITS, want_commit)?;
    }
    Ok(())
}

/// After the crash of the other site's process: its frame has no document, and its orders no longer wait.
const AFTER_CRASH: &[(u32, &str, &str)] = &[
    (0, "0 post 4 * https://a.com 78", "drop M1"),
    (0, "0 post 2 * https://a.com 78", "ok"),
    (0, "0 remove 4", "ok"),
    (1, "4 remove 4", "drop G1"),
    (1, "1 remove 1", "drop G1"),
    (
        1,
        "0 commit 4 https://b.com 68747470733a2f2f622e636f6d2f66",
        "drop G3",
    ),
];

#[test]
fn other_processes_go_on(rt: HostRuntime) -> Result<(), Fail> {
    for (process, message, want) in AFTER_CRASH {
        assert_all(&rt, rt.alloc(), "crash 1\n", *process, &[*message], want)?;
    }
    Ok(())
}
