//! Loads that are brought back step by step, in time and too late.

use super::driver::{Came, Do, Row, assert_driven};
use browser_core::{Applied, Kind, TaskKey};
use script_model::Rule;
use std::test::Fail;

const LOAD_0: TaskKey = TaskKey::Load(0);

const ACT_0: TaskKey = TaskKey::Act(0);

const ROWS: &[Row<'static>] = &[
    Row {
        shows: "a head comes too late after the crash, and nothing changes",
        script: r#"{"start":["https://a.com/"],"resources":[{"url":"https://a.com/","actions":[
{"do":"fetch","url":"https://a.com/d","mode":"cors"},{"do":"crash"}]},{"url":"https://a.com/d","body":"x"}]}"#,
        steps: &[
            Do::First(4),
            Do::Claim(Kind::Loader, LOAD_0),
            Do::Claim(Kind::Renderer, ACT_0),
            Do::Refused(0, Came::Gone),
            Do::Bring(1, Came::Done, Applied::Entry(4)),
            Do::Bring(0, Came::Head, Applied::Stale(4)),
            Do::Bring(0, Came::Gone, Applied::Stale(4)),
            Do::None(Kind::Loader, 0),
            Do::Finished,
        ],
        history: "open 0
order 0 0 https://a.com https://a.com https://a.com/
commit 0 0 https://a.com 68747470733a2f2f612e636f6d2f => ok
said 0 0 0 0 fetch cors https://a.com 68747470733a2f2f612e636f6d2f64 => ok
crash 0
",
    },
    Row {
        shows: "a load stays out from its head to its end, and each of its steps is added once and in order",
        script: r#"{"start":["https://a.com/"],"resources":[{"url":"https://a.com/","actions":[
{"do":"fetch","url":"https://a.com/d","mode":"cors"},{"do":"wait"}]},{"url":"https://a.com/d","body":"ab","cuts":[1]}]}"#,
        steps: &[
            Do::First(4),
            Do::Claim(Kind::Loader, LOAD_0),
            Do::Refused(0, Came::Held),
            Do::Refused(0, Came::Piece(0, "a")),
            Do::Refused(0, Came::Whole),
            Do::Refused(0, Came::Blocked(Rule::B1)),
            Do::Bring(0, Came::Head, Applied::Entry(4)),
            Do::None(Kind::Loader, 1),
            Do::Refused(0, Came::Piece(1, "b")),
            Do::Refused(0, Came::Piece(0, "ab")),
            Do::Refused(0, Came::Piece(1, "a")),
            Do::Bring(0, Came::Piece(0, "a"), Applied::Entry(5)),
            Do::Bring(0, Came::Piece(0, "a"), Applied::Stale(5)),
            Do::Claim(Kind::Loader, LOAD_0),
            Do::Bring(0, Came::Piece(1, "b"), Applied::Entry(6)),
            Do::Refused(0, Came::Fault),
            Do::Bring(0, Came::Whole, Applied::Entry(7)),
            Do::Claim(Kind::Loader, ACT_0),
            Do::Bring(2, Came::Done, Applied::Entry(8)),
            Do::Bring(0, Came::Head, Applied::Stale(4)),
            Do::Bring(0, Came::Piece(1, "b"), Applied::Stale(6)),
            Do::Bring(1, Came::Whole, Applied::Stale(7)),
            Do::None(Kind::Renderer, 0),
        ],
        history: "open 0
order 0 0 https://a.com https://a.com https://a.com/
commit 0 0 https://a.com 68747470733a2f2f612e636f6d2f => ok
said 0 0 0 0 fetch cors https://a.com 68747470733a2f2f612e636f6d2f64 => ok
head 0 A1
piece 0 0 61
piece 0 1 62
end 0 whole
local 0 0 1 waited
",
    },
    Row {
        shows: "a response that may not be read is blocked by its own rule alone",
        script: r#"{"start":["https://a.com/"],"resources":[{"url":"https://a.com/","actions":[
{"do":"fetch","url":"https://b.com/x","mode":"no-cors"}]},
{"url":"https://b.com/x","headers":[["Content-Type","text/html"]],"body":"<html>"}]}"#,
        steps: &[
            Do::First(4),
            Do::Claim(Kind::Browser, LOAD_0),
            Do::Refused(0, Came::Blocked(Rule::B5)),
            Do::Refused(0, Came::Fault),
            Do::Bring(0, Came::Blocked(Rule::B4), Applied::Entry(4)),
            Do::Bring(0, Came::Blocked(Rule::B4), Applied::Stale(4)),
            Do::None(Kind::Browser, 0),
        ],
        history: "open 0
order 0 0 https://a.com https://a.com https://a.com/
commit 0 0 https://a.com 68747470733a2f2f612e636f6d2f => ok
said 0 0 0 0 fetch no-cors https://a.com 68747470733a2f2f622e636f6d2f78 => ok
end 0 blocked B4
",
    },
    Row {
        shows: "a wire that fails ends a load after its pieces",
        script: r#"{"start":["https://a.com/"],"resources":[{"url":"https://a.com/","actions":[
{"do":"fetch","url":"https://a.com/d","mode":"cors"}]},{"url":"https://a.com/d","body":"ab","fail_after":1}]}"#,
        steps: &[
            Do::First(5),
            Do::Claim(Kind::Loader, LOAD_0),
            Do::Refused(0, Came::Fault),
            Do::Bring(0, Came::Piece(0, "a"), Applied::Entry(5)),
            Do::Refused(0, Came::Whole),
            Do::Bring(0, Came::Fault, Applied::Entry(6)),
            Do::Finished,
        ],
        history: "open 0
order 0 0 https://a.com https://a.com https://a.com/
commit 0 0 https://a.com 68747470733a2f2f612e636f6d2f => ok
said 0 0 0 0 fetch cors https://a.com 68747470733a2f2f612e636f6d2f64 => ok
head 0 A1
piece 0 0 61
end 0 failed N7
",
    },
    Row {
        shows: "a process that died before a block was handed out: the end could follow last before the crash",
        script: r#"{"start":["https://a.com/"],"resources":[{"url":"https://a.com/","actions":[
{"do":"fetch","url":"https://b.com/x","mode":"no-cors"},{"do":"crash"}]},
{"url":"https://b.com/x","headers":[["Content-Type","text/html"]],"body":"<html>"}]}"#,
        steps: &[
            Do::First(4),
            Do::Claim(Kind::Loader, LOAD_0),
            Do::Claim(Kind::Renderer, ACT_0),
            Do::Bring(1, Came::Done, Applied::Entry(4)),
            Do::None(Kind::Loader, 1),
            Do::Bring(0, Came::Gone, Applied::Stale(4)),
            Do::None(Kind::Loader, 0),
            Do::Finished,
        ],
        history: "open 0
order 0 0 https://a.com https://a.com https://a.com/
commit 0 0 https://a.com 68747470733a2f2f612e636f6d2f => ok
said 0 0 0 0 fetch no-cors https://a.com 68747470733a2f2f622e636f6d2f78 => ok
crash 0
",
    },
    Row {
        shows: "a process that died before the end was handed out: head, piece and end could follow, and the end last",
        script: r#"{"start":["https://a.com/"],"resources":[{"url":"https://a.com/","actions":[
{"do":"fetch","url":"https://a.com/d","mode":"cors"},{"do":"crash"}]},{"url":"https://a.com/d","body":"x"}]}"#,
        steps: &[
            Do::First(4),
            Do::Claim(Kind::Loader, LOAD_0),
            Do::Claim(Kind::Renderer, ACT_0),
            Do::Bring(0, Came::Head, Applied::Entry(4)),
            Do::Bring(0, Came::Piece(0, "x"), Applied::Entry(5)),
            Do::Bring(1, Came::Done, Applied::Entry(6)),
            Do::None(Kind::Loader, 1),
            Do::Bring(0, Came::Gone, Applied::Stale(6)),
            Do::None(Kind::Loader, 0),
            Do::Finished,
        ],
        history: "open 0
order 0 0 https://a.com https://a.com https://a.com/
commit 0 0 https://a.com 68747470733a2f2f612e636f6d2f => ok
said 0 0 0 0 fetch cors https://a.com 68747470733a2f2f612e636f6d2f64 => ok
head 0 A1
piece 0 0 78
crash 0
",
    },
    Row {
        shows: "a head that could follow at two places one behind the other was last in time at the second",
        script: r#"{"start":["https://a.com/"],"resources":[{"url":"https://a.com/","actions":[
{"do":"fetch","url":"https://a.com/d","mode":"cors"},{"do":"fetch","url":"https://a.com/e","mode":"cors"},{"do":"crash"}]},
{"url":"https://a.com/d","body":"x"}]}"#,
        steps: &[
            Do::First(4),
            Do::Claim(Kind::Loader, LOAD_0),
            Do::Claim(Kind::Renderer, ACT_0),
            Do::Bring(1, Came::Done, Applied::Entry(4)),
            Do::Claim(Kind::Renderer, ACT_0),
            Do::Bring(2, Came::Done, Applied::Entry(5)),
            Do::Bring(0, Came::Head, Applied::Stale(5)),
            Do::None(Kind::Loader, 0),
            Do::Finished,
        ],
        history: "open 0
order 0 0 https://a.com https://a.com https://a.com/
commit 0 0 https://a.com 68747470733a2f2f612e636f6d2f => ok
said 0 0 0 0 fetch cors https://a.com 68747470733a2f2f612e636f6d2f64 => ok
said 0 0 1 0 fetch cors https://a.com 68747470733a2f2f612e636f6d2f65 => ok
crash 0
",
    },
];

#[test]
fn loads_are_brought_back_in_time_or_too_late(rt: HostRuntime) -> Result<(), Fail> {
    assert_driven(&rt, rt.alloc(), ROWS)
}
