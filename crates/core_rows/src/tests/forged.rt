//! Outcomes that no worker of ours makes: each is refused, and what the task came to may be brought back behind it.

use super::driver::{Came, Do, Row, assert_driven};
use browser_core::{Applied, Kind, TaskKey};
use script_model::Mode;
use std::test::Fail;

const ACT_0: TaskKey = TaskKey::Act(0);

const LOAD_0: TaskKey = TaskKey::Load(0);

const ROWS: &[Row<'static>] = &[
    Row {
        shows: "a document says the message of its own next action, and crashes as its own next action",
        script: r#"{"start":["https://a.com/"],"resources":[{"url":"https://a.com/","actions":[
{"do":"fetch","url":"https://a.com/d","mode":"cors"},{"do":"fetch","url":"https://a.com/e","mode":"cors"},{"do":"crash"}]}]}"#,
        steps: &[
            Do::First(3),
            Do::Claim(Kind::Renderer, ACT_0),
            Do::Refused(0, Came::ActionOf(1)),
            Do::Refused(0, Came::ActionOf(2)),
            Do::Refused(0, Came::ActionOf(9)),
            Do::Bring(0, Came::Done, Applied::Entry(3)),
            Do::First(1),
            Do::Refused(0, Came::ActionOf(2)),
            Do::Claim(Kind::Renderer, ACT_0),
            Do::Refused(1, Came::ActionOf(1)),
            Do::Bring(1, Came::Done, Applied::Entry(5)),
            Do::Bring(1, Came::Done, Applied::Stale(5)),
        ],
        history: "open 0
order 0 0 https://a.com https://a.com https://a.com/
commit 0 0 https://a.com 68747470733a2f2f612e636f6d2f => ok
said 0 0 0 0 fetch cors https://a.com 68747470733a2f2f612e636f6d2f64 => ok
said 0 0 1 0 fetch cors https://a.com 68747470733a2f2f612e636f6d2f65 => ok
crash 0
",
    },
    Row {
        shows: "a document that waits does not skip, and one that skips does not wait",
        script: r#"{"start":["https://a.com/"],"resources":[{"url":"https://a.com/","actions":[
{"do":"wait"},{"do":"remove","child":3}]}]}"#,
        steps: &[
            Do::First(3),
            Do::Claim(Kind::Renderer, ACT_0),
            Do::Refused(0, Came::ActionOf(1)),
            Do::Bring(0, Came::Done, Applied::Entry(3)),
            Do::Claim(Kind::Renderer, ACT_0),
            Do::Refused(1, Came::ActionOf(0)),
            Do::Bring(1, Came::Done, Applied::Entry(4)),
            Do::Finished,
        ],
        history: "open 0
order 0 0 https://a.com https://a.com https://a.com/
commit 0 0 https://a.com 68747470733a2f2f612e636f6d2f => ok
local 0 0 0 waited
local 0 0 1 skipped
",
    },
    Row {
        shows: "a head is by the rule of its own request, and no leave is used for another request",
        script: r#"{"start":["https://a.com/"],"resources":[{"url":"https://a.com/","actions":[
{"do":"fetch","url":"https://a.com/d","mode":"cors"},{"do":"fetch","url":"https://a.com/d","mode":"cors"}]},
{"url":"https://a.com/d","body":"x"}]}"#,
        steps: &[
            Do::First(5),
            Do::Claim(Kind::Loader, LOAD_0),
            Do::Refused(0, Came::HeadAs(Mode::NoCors)),
            Do::Refused(0, Came::HeadFor(1)),
            Do::Bring(0, Came::Head, Applied::Entry(5)),
            Do::Refused(0, Came::PieceFor(1, "x")),
            Do::Bring(0, Came::Piece(0, "x"), Applied::Entry(6)),
            Do::Bring(0, Came::Whole, Applied::Entry(7)),
        ],
        history: "open 0
order 0 0 https://a.com https://a.com https://a.com/
commit 0 0 https://a.com 68747470733a2f2f612e636f6d2f => ok
said 0 0 0 0 fetch cors https://a.com 68747470733a2f2f612e636f6d2f64 => ok
said 0 0 1 0 fetch cors https://a.com 68747470733a2f2f612e636f6d2f64 => ok
head 0 A1
piece 0 0 78
end 0 whole
",
    },
];

#[test]
fn a_forged_outcome_may_not_be_brought_back(rt: HostRuntime) -> Result<(), Fail> {
    assert_driven(&rt, rt.alloc(), ROWS)
}
