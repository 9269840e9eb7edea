//! A history in which each rule can be met.

use super::moments::{entries_of, reply_to};
use std::alloc::Global;
use std::process::Abort;
use std::test::Fail;

/// Two pages, of `https://a.com` in process 0 and of `https://b.com` in process 1; process 2 is warm. The first page has five
/// frames: 2, whose order 8 was replaced; 3 in a sandbox; 4 of the other site; 5, which was removed; and 6, whose order waits.
/// It opened the page of frame 7. Documents have the numbers of their frames.
pub const PAGES: &str = "open 0
open 1
order 0 0 https://a.com https://a.com https://a.com/
order 1 1 https://b.com https://b.com https://b.com/
warm 2
commit 0 0 https://a.com 68747470733a2f2f612e636f6d2f => ok
commit 1 1 https://b.com 68747470733a2f2f622e636f6d2f => ok
said 0 0 0 0 frame plain url 68747470733a2f2f612e636f6d2f66 => ok
said 0 0 1 0 frame sandboxed url 68747470733a2f2f612e636f6d2f73 => ok
said 0 0 2 0 frame plain url 68747470733a2f2f622e636f6d2f66 => ok
said 0 0 3 0 frame plain url 68747470733a2f2f612e636f6d2f67 => ok
said 0 0 4 0 frame plain url 68747470733a2f2f612e636f6d2f68 => ok
said 0 0 5 0 page 68747470733a2f2f612e636f6d2f70 => ok
order 2 0 https://a.com https://a.com https://a.com/f
order 3 0 https://a.com opaque:3:https://a.com https://a.com/s
order 4 1 https://b.com https://b.com https://b.com/f
order 5 0 https://a.com https://a.com https://a.com/g
order 6 0 https://a.com https://a.com https://a.com/h
order 7 0 https://a.com https://a.com https://a.com/p
commit 0 2 https://a.com 68747470733a2f2f612e636f6d2f66 => ok
commit 0 3 opaque:3:https://a.com 68747470733a2f2f612e636f6d2f73 => ok
commit 1 4 https://b.com 68747470733a2f2f622e636f6d2f66 => ok
commit 0 5 https://a.com 68747470733a2f2f612e636f6d2f67 => ok
commit 0 7 https://a.com 68747470733a2f2f612e636f6d2f70 => ok
said 0 0 6 0 remove 5 => ok
said 0 0 7 0 navigate 2 https://a.com 68747470733a2f2f612e636f6d2f69 => ok
order 8 0 https://a.com https://a.com https://a.com/i
said 0 0 8 0 navigate 2 https://a.com 68747470733a2f2f612e636f6d2f6a => ok
";

/// What a row shows, the process that sends, its message, and the reply.
pub type Row = (&'static str, u32, &'static str, &'static str);

/// The replies to messages about these pages are as the rows say.
pub fn assert_replies(rt: &impl Abort, alloc: Global, rows: &[Row]) -> Result<(), Fail> {
    assert_replies_after(rt, alloc, "", rows)
}

/// And so are those to messages after these lines too.
pub fn assert_replies_after(
    rt: &impl Abort,
    alloc: Global,
    lines: &str,
    rows: &[Row],
) -> Result<(), Fail> {
    let text = format!(in alloc; "{PAGES}{lines}")?;
    let entries = entries_of(alloc, &text)?;
    for (shows, process, message, want) in rows {
        let reply = reply_to(rt, alloc, entries.as_slice(), *process, message)?;
        assert_eq!(rt; reply.as_str(), *want, "{shows}: {message}");
    }
    Ok(())
}
