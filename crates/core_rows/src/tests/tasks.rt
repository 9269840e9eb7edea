//! Which tasks are ready, and for whom.

use super::driver::{COMMIT_0, Came, Do, NAV_0, Row, assert_driven};
use browser_core::{Applied, BrowserJob, Kind, TaskKey};
use std::test::Fail;

const OPEN_0: TaskKey = TaskKey::Browser(BrowserJob::Open(0));

const WARM: TaskKey = TaskKey::Browser(BrowserJob::Warm);

const ROWS: &[Row<'static>] = &[
    Row {
        shows: "a script without pages has no task",
        script: r#"{"start":[]}"#,
        steps: &[
            Do::Finished,
            Do::None(Kind::Browser, 0),
            Do::None(Kind::Loader, 0),
        ],
        history: "",
    },
    Row {
        shows: "a page from its opening to its commit, whoever asks, and a task is out until its outcome is brought back",
        script: r#"{"start":["https://a.com/"],"resources":[{"url":"https://a.com/"}]}"#,
        steps: &[
            Do::Claim(Kind::Loader, OPEN_0),
            Do::None(Kind::Browser, 1),
            Do::Bring(0, Came::Done, Applied::Entry(0)),
            Do::Claim(Kind::Browser, NAV_0),
            Do::None(Kind::Renderer, 1),
            Do::Bring(1, Came::Done, Applied::Entry(1)),
            Do::Claim(Kind::Renderer, COMMIT_0),
            Do::Bring(2, Came::Done, Applied::Entry(2)),
            Do::None(Kind::Browser, 0),
            Do::Finished,
        ],
        history: "open 0
order 0 0 https://a.com https://a.com https://a.com/
commit 0 0 https://a.com 68747470733a2f2f612e636f6d2f => ok
",
    },
    Row {
        shows: "an outcome that is brought back twice is too late, and leaves the tasks out as they are",
        script: r#"{"start":["https://a.com/"],"resources":[{"url":"https://a.com/"}]}"#,
        steps: &[
            Do::First(1),
            Do::Claim(Kind::Browser, NAV_0),
            Do::Bring(0, Came::Done, Applied::Entry(1)),
            Do::Claim(Kind::Browser, COMMIT_0),
            Do::Bring(0, Came::Done, Applied::Stale(1)),
            Do::None(Kind::Browser, 1),
            Do::First(1),
            Do::Bring(0, Came::Done, Applied::Stale(1)),
            Do::Bring(1, Came::Done, Applied::Stale(2)),
            Do::None(Kind::Browser, 0),
        ],
        history: "open 0
order 0 0 https://a.com https://a.com https://a.com/
commit 0 0 https://a.com 68747470733a2f2f612e636f6d2f => ok
",
    },
    Row {
        shows: "a spare process is a task of its own",
        script: r#"{"start":["https://a.com/"],"spare":true}"#,
        steps: &[
            Do::Claim(Kind::Browser, OPEN_0),
            Do::Claim(Kind::Browser, WARM),
            Do::Bring(1, Came::Done, Applied::Entry(0)),
            Do::Bring(0, Came::Done, Applied::Entry(1)),
            Do::Bring(1, Came::Done, Applied::Stale(0)),
            Do::Claim(Kind::Browser, NAV_0),
            Do::Bring(2, Came::Done, Applied::Entry(2)),
            Do::Claim(Kind::Browser, WARM),
        ],
        history: "warm 0
open 0
order 0 0 https://a.com https://a.com https://a.com/
",
    },
    Row {
        shows: "a worker gets a task of its own kind where one is ready; a redirect is a job, and what it leads to a load",
        script: r#"{"start":["https://a.com/"],"resources":[{"url":"https://a.com/","actions":[
{"do":"fetch","url":"https://a.com/r","mode":"cors"},{"do":"frame","src":"https://b.com/"}]},
{"url":"https://a.com/r","status":302,"headers":[["Location","/d"]]},{"url":"https://a.com/d","body":"x"}]}"#,
        steps: &[
            Do::First(4),
            Do::Claim(Kind::Loader, TaskKey::Browser(BrowserJob::Request(0))),
            Do::Claim(Kind::Loader, TaskKey::Act(0)),
            Do::Bring(1, Came::Done, Applied::Entry(4)),
            Do::Bring(0, Came::Done, Applied::Entry(5)),
            Do::Claim(Kind::Loader, TaskKey::Load(0)),
            Do::Claim(Kind::Loader, TaskKey::Browser(BrowserJob::Nav(1))),
            Do::None(Kind::Renderer, 2),
            Do::Bring(2, Came::Head, Applied::Entry(6)),
            Do::Bring(3, Came::Done, Applied::Entry(7)),
        ],
        history: "open 0
order 0 0 https://a.com https://a.com https://a.com/
commit 0 0 https://a.com 68747470733a2f2f612e636f6d2f => ok
said 0 0 0 0 fetch cors https://a.com 68747470733a2f2f612e636f6d2f72 => ok
said 0 0 1 0 frame plain url 68747470733a2f2f622e636f6d2f => ok
hop req 0 https://a.com/d
head 0 A1
order 1 1 https://b.com https://b.com https://b.com/
",
    },
    Row {
        shows: "a request that fails at once is ended by a job",
        script: r#"{"start":["https://a.com/"],"resources":[{"url":"https://a.com/","actions":[
{"do":"fetch","url":"https://a.com/d","mode":"cors"}]},{"url":"https://a.com/d","body":"x","fail_after":0}]}"#,
        steps: &[
            Do::First(4),
            Do::Claim(Kind::Loader, TaskKey::Browser(BrowserJob::Request(0))),
            Do::Bring(0, Came::Done, Applied::Entry(4)),
            Do::None(Kind::Loader, 0),
            Do::Finished,
        ],
        history: "open 0
order 0 0 https://a.com https://a.com https://a.com/
commit 0 0 https://a.com 68747470733a2f2f612e636f6d2f => ok
said 0 0 0 0 fetch cors https://a.com 68747470733a2f2f612e636f6d2f64 => ok
end 0 failed N7
",
    },
    Row {
        shows: "a process whose documents are gone exits, and who waits or takes is not ready before it may",
        script: r#"{"start":["https://a.com/"],"resources":[{"url":"https://a.com/","actions":[
{"do":"frame","src":"https://b.com/"},{"do":"recv"}]},{"url":"https://b.com/","actions":[
{"do":"post","frame":"parent","target":"*","text":"hi"},{"do":"navigate","frame":"self","url":"https://a.com/2"}]}]}"#,
        steps: &[
            Do::First(6),
            Do::Claim(Kind::Renderer, TaskKey::Act(1)),
            Do::Bring(0, Came::Done, Applied::Entry(6)),
            Do::Claim(Kind::Renderer, TaskKey::Act(0)),
            Do::Claim(Kind::Renderer, TaskKey::Act(1)),
            Do::Bring(1, Came::Done, Applied::Entry(7)),
            Do::Bring(2, Came::Done, Applied::Entry(8)),
            Do::First(2),
            Do::Claim(Kind::Browser, TaskKey::Browser(BrowserJob::Exit(1))),
            Do::Bring(3, Came::Done, Applied::Entry(11)),
            Do::None(Kind::Loader, 0),
        ],
        history: "open 0
order 0 0 https://a.com https://a.com https://a.com/
commit 0 0 https://a.com 68747470733a2f2f612e636f6d2f => ok
said 0 0 0 0 frame plain url 68747470733a2f2f622e636f6d2f => ok
order 1 1 https://b.com https://b.com https://b.com/
commit 1 1 https://b.com 68747470733a2f2f622e636f6d2f => ok
said 1 1 0 1 post 0 * https://b.com 6869 => ok
local 0 0 1 took https://b.com 6869
said 1 1 1 1 navigate 1 https://b.com 68747470733a2f2f612e636f6d2f32 => ok
order 2 0 https://a.com https://a.com https://a.com/2
commit 0 2 https://a.com 68747470733a2f2f612e636f6d2f32 => ok
exit 1
",
    },
    Row {
        shows: "what a document said as one action is too late where its next action says the same",
        script: r#"{"start":["https://a.com/"],"resources":[{"url":"https://a.com/","actions":[
{"do":"fetch","url":"https://a.com/d","mode":"cors"},{"do":"fetch","url":"https://a.com/d","mode":"cors"}]}]}"#,
        steps: &[
            Do::First(3),
            Do::Claim(Kind::Renderer, TaskKey::Act(0)),
            Do::Bring(0, Came::Done, Applied::Entry(3)),
            Do::Bring(0, Came::Done, Applied::Stale(3)),
            Do::Claim(Kind::Renderer, TaskKey::Act(0)),
            Do::Bring(1, Came::Done, Applied::Entry(4)),
        ],
        history: "open 0
order 0 0 https://a.com https://a.com https://a.com/
commit 0 0 https://a.com 68747470733a2f2f612e636f6d2f => ok
said 0 0 0 0 fetch cors https://a.com 68747470733a2f2f612e636f6d2f64 => ok
said 0 0 1 0 fetch cors https://a.com 68747470733a2f2f612e636f6d2f64 => ok
",
    },
    Row {
        shows: "a load is out behind its head and its pieces, until its end",
        script: r#"{"start":["https://a.com/"],"resources":[{"url":"https://a.com/","actions":[
{"do":"fetch","url":"https://a.com/d","mode":"cors"}]},{"url":"https://a.com/d","body":"x"}]}"#,
        steps: &[
            Do::First(4),
            Do::Claim(Kind::Loader, TaskKey::Load(0)),
            Do::Bring(0, Came::Head, Applied::Entry(4)),
            Do::None(Kind::Loader, 1),
            Do::Bring(0, Came::Piece(0, "x"), Applied::Entry(5)),
            Do::None(Kind::Loader, 1),
            Do::Bring(0, Came::Whole, Applied::Entry(6)),
            Do::None(Kind::Loader, 0),
            Do::Finished,
        ],
        history: "open 0
order 0 0 https://a.com https://a.com https://a.com/
commit 0 0 https://a.com 68747470733a2f2f612e636f6d2f => ok
said 0 0 0 0 fetch cors https://a.com 68747470733a2f2f612e636f6d2f64 => ok
head 0 A1
piece 0 0 78
end 0 whole
",
    },
    Row {
        shows: "two spare processes came of one job, and it is too late behind the second",
        script: r#"{"start":["https://a.com/"],"spare":true}"#,
        steps: &[
            Do::Claim(Kind::Browser, OPEN_0),
            Do::Claim(Kind::Browser, WARM),
            Do::Bring(1, Came::Done, Applied::Entry(0)),
            Do::Bring(0, Came::Done, Applied::Entry(1)),
            Do::Bring(1, Came::Done, Applied::Stale(0)),
            Do::Claim(Kind::Browser, NAV_0),
            Do::Bring(2, Came::Done, Applied::Entry(2)),
            Do::Bring(1, Came::Done, Applied::Entry(3)),
            Do::Bring(1, Came::Done, Applied::Stale(3)),
        ],
        history: "warm 0
open 0
order 0 0 https://a.com https://a.com https://a.com/
warm 1
",
    },
    Row {
        shows: "a redirect and an order came of one job, and it is too late behind the order",
        script: r#"{"start":["https://a.com/r"],"resources":[{"url":"https://a.com/r","status":302,"headers":[["Location","/"]]},
{"url":"https://a.com/"}]}"#,
        steps: &[
            Do::First(1),
            Do::Claim(Kind::Browser, NAV_0),
            Do::Bring(0, Came::Done, Applied::Entry(1)),
            Do::Bring(0, Came::Done, Applied::Entry(2)),
            Do::Bring(0, Came::Done, Applied::Stale(2)),
            Do::First(1),
            Do::Bring(0, Came::Done, Applied::Stale(2)),
            Do::Finished,
        ],
        history: "open 0
hop nav 0 https://a.com/
order 0 0 https://a.com https://a.com https://a.com/
commit 0 0 https://a.com 68747470733a2f2f612e636f6d2f => ok
",
    },
];

#[test]
fn tasks_are_ready_where_something_may_follow(rt: HostRuntime) -> Result<(), Fail> {
    assert_driven(&rt, rt.alloc(), ROWS)
}
