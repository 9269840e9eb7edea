//! The choice of a process, the warm spare, crashes and exits.

use super::{Row, assert_runs_as_written};
use std::test::Fail;

const ROWS: &[Row] = &[
    // A page takes the warm process, and a new one is started behind it.
    (
        "a spare process is started and taken",
        r#"{"spare":true,"start":["https://a.com/"]}"#,
        "history 2
open 0
warm 0
order 0 0 https://a.com https://a.com https://a.com/
warm 1
commit 0 0 https://a.com 68747470733a2f2f612e636f6d2f => ok
",
    ),
    // A process is kept warm behind each order.
    (
        "each page takes the spare before a process is started",
        r#"{"spare":true,"start":["https://a.com/","https://b.com/"]}"#,
        "history 2
open 0
open 1
warm 0
order 0 0 https://a.com https://a.com https://a.com/
warm 1
order 1 1 https://b.com https://b.com https://b.com/
warm 2
commit 0 0 https://a.com 68747470733a2f2f612e636f6d2f => ok
commit 1 1 https://b.com 68747470733a2f2f622e636f6d2f => ok
",
    ),
    // The spare does not wait for a page.
    (
        "a script without pages still warms a process",
        r#"{"spare":true,"start":[]}"#,
        "history 2
warm 0
",
    ),
    // A frame of the page's own site stays in the page's process.
    (
        "the process of the group comes before the spare",
        r#"{"spare":true,"start":["https://a.com/"],
"resources":[{"url":"https://a.com/","actions":[{"do":"frame","src":"https://a.com/f"}]}]}"#,
        "history 2
open 0
warm 0
order 0 0 https://a.com https://a.com https://a.com/
warm 1
commit 0 0 https://a.com 68747470733a2f2f612e636f6d2f => ok
said 0 0 0 0 frame plain url 68747470733a2f2f612e636f6d2f66 => ok
order 1 0 https://a.com https://a.com https://a.com/f
commit 0 1 https://a.com 68747470733a2f2f612e636f6d2f66 => ok
",
    ),
    // A frame has a parent, so that the soft limit is not asked.
    (
        "a frame takes a process of its site in another group before the spare",
        r#"{"spare":true,"start":["https://a.com/","https://b.com/"],
"resources":[{"url":"https://a.com/","actions":[{"do":"frame","src":"https://b.com/f"}]}]}"#,
        "history 2
open 0
open 1
warm 0
order 0 0 https://a.com https://a.com https://a.com/
warm 1
order 1 1 https://b.com https://b.com https://b.com/
warm 2
commit 0 0 https://a.com 68747470733a2f2f612e636f6d2f => ok
said 0 0 0 0 frame plain url 68747470733a2f2f622e636f6d2f66 => ok
order 2 1 https://b.com https://b.com https://b.com/f
commit 1 1 https://b.com 68747470733a2f2f622e636f6d2f => ok
commit 1 2 https://b.com 68747470733a2f2f622e636f6d2f66 => ok
",
    ),
    // It has no parent, and two live processes are below the soft limit.
    (
        "an opened page does not take a process of its site in another group",
        r#"{"start":["https://a.com/","https://b.com/"],
"resources":[{"url":"https://a.com/","actions":[{"do":"page","url":"https://b.com/p"}]}]}"#,
        "history 2
open 0
open 1
order 0 0 https://a.com https://a.com https://a.com/
order 1 1 https://b.com https://b.com https://b.com/
commit 0 0 https://a.com 68747470733a2f2f612e636f6d2f => ok
said 0 0 0 0 page 68747470733a2f2f622e636f6d2f70 => ok
order 2 2 https://b.com https://b.com https://b.com/p
commit 1 1 https://b.com 68747470733a2f2f622e636f6d2f => ok
commit 2 2 https://b.com 68747470733a2f2f622e636f6d2f70 => ok
",
    ),
    // Two live processes are at a soft limit of 2.
    (
        "at the soft limit an opened page takes a process of its site in another group",
        r#"{"soft_limit":2,"start":["https://a.com/","https://b.com/"],
"resources":[{"url":"https://a.com/","actions":[{"do":"page","url":"https://b.com/p"}]}]}"#,
        "history 2
open 0
open 1
order 0 0 https://a.com https://a.com https://a.com/
order 1 1 https://b.com https://b.com https://b.com/
commit 0 0 https://a.com 68747470733a2f2f612e636f6d2f => ok
said 0 0 0 0 page 68747470733a2f2f622e636f6d2f70 => ok
order 2 1 https://b.com https://b.com https://b.com/p
commit 1 1 https://b.com 68747470733a2f2f622e636f6d2f => ok
commit 1 2 https://b.com 68747470733a2f2f622e636f6d2f70 => ok
",
    ),
    // A locked and the warm process are two live ones, so that the second page shares.
    (
        "the warm process counts for the soft limit",
        r#"{"spare":true,"soft_limit":2,"start":["https://a.com/","https://a.com/g"]}"#,
        "history 2
open 0
open 1
warm 0
order 0 0 https://a.com https://a.com https://a.com/
warm 1
order 1 0 https://a.com https://a.com https://a.com/g
commit 0 0 https://a.com 68747470733a2f2f612e636f6d2f => ok
commit 0 1 https://a.com 68747470733a2f2f612e636f6d2f67 => ok
",
    ),
    // The second page's frame stays in process 1, though process 0 is of its site too.
    (
        "the process of the group comes before a lesser one of the site",
        r#"{"start":["https://b.com/","https://b.com/q"],
"resources":[{"url":"https://b.com/q","actions":[{"do":"frame","src":"https://b.com/f"}]}]}"#,
        "history 2
open 0
open 1
order 0 0 https://b.com https://b.com https://b.com/
order 1 1 https://b.com https://b.com https://b.com/q
commit 0 0 https://b.com 68747470733a2f2f622e636f6d2f => ok
commit 1 1 https://b.com 68747470733a2f2f622e636f6d2f71 => ok
said 1 1 0 1 frame plain url 68747470733a2f2f622e636f6d2f66 => ok
order 2 1 https://b.com https://b.com https://b.com/f
commit 1 2 https://b.com 68747470733a2f2f622e636f6d2f66 => ok
",
    ),
    // The second frame is ordered to the process of the first, which has no document yet.
    (
        "a waiting order is enough for the process of a group",
        r#"{"start":["https://a.com/"],"resources":[{"url":"https://a.com/",
"actions":[{"do":"frame","src":"https://b.com/1"},{"do":"frame","src":"https://b.com/2"}]}]}"#,
        "history 2
open 0
order 0 0 https://a.com https://a.com https://a.com/
commit 0 0 https://a.com 68747470733a2f2f612e636f6d2f => ok
said 0 0 0 0 frame plain url 68747470733a2f2f622e636f6d2f31 => ok
order 1 1 https://b.com https://b.com https://b.com/1
said 0 0 1 0 frame plain url 68747470733a2f2f622e636f6d2f32 => ok
order 2 1 https://b.com https://b.com https://b.com/2
commit 1 1 https://b.com 68747470733a2f2f622e636f6d2f31 => ok
commit 1 2 https://b.com 68747470733a2f2f622e636f6d2f32 => ok
",
    ),
    // The process has no document any more, and each of its orders is answered.
    (
        "a page that leaves its process ends it",
        r#"{"start":["https://a.com/"],
"resources":[{"url":"https://a.com/","actions":[{"do":"navigate","frame":"self","url":"https://b.com/"}]}]}"#,
        "history 2
open 0
order 0 0 https://a.com https://a.com https://a.com/
commit 0 0 https://a.com 68747470733a2f2f612e636f6d2f => ok
said 0 0 0 0 navigate 0 https://a.com 68747470733a2f2f622e636f6d2f => ok
order 1 1 https://b.com https://b.com https://b.com/
commit 1 1 https://b.com 68747470733a2f2f622e636f6d2f => ok
exit 0
",
    ),
    // The way back starts a third process; both left ones end, and no number is used again.
    (
        "a process without a document is not one of its group",
        r#"{"start":["https://a.com/"],"resources":[
{"url":"https://a.com/","actions":[{"do":"navigate","frame":"self","url":"https://b.com/"}]},
{"url":"https://b.com/","actions":[{"do":"navigate","frame":"self","url":"https://a.com/2"}]}]}"#,
        "history 2
open 0
order 0 0 https://a.com https://a.com https://a.com/
commit 0 0 https://a.com 68747470733a2f2f612e636f6d2f => ok
said 0 0 0 0 navigate 0 https://a.com 68747470733a2f2f622e636f6d2f => ok
order 1 1 https://b.com https://b.com https://b.com/
commit 1 1 https://b.com 68747470733a2f2f622e636f6d2f => ok
said 1 1 0 1 navigate 0 https://b.com 68747470733a2f2f612e636f6d2f32 => ok
order 2 2 https://a.com https://a.com https://a.com/2
commit 2 2 https://a.com 68747470733a2f2f612e636f6d2f32 => ok
exit 0
exit 1
",
    ),
    // It is still live and locked to the site.
    (
        "at the soft limit a process without a document is taken again",
        r#"{"soft_limit":2,"start":["https://a.com/"],"resources":[
{"url":"https://a.com/","actions":[{"do":"navigate","frame":"self","url":"https://b.com/"}]},
{"url":"https://b.com/","actions":[{"do":"navigate","frame":"self","url":"https://a.com/2"}]}]}"#,
        "history 2
open 0
order 0 0 https://a.com https://a.com https://a.com/
commit 0 0 https://a.com 68747470733a2f2f612e636f6d2f => ok
said 0 0 0 0 navigate 0 https://a.com 68747470733a2f2f622e636f6d2f => ok
order 1 1 https://b.com https://b.com https://b.com/
commit 1 1 https://b.com 68747470733a2f2f622e636f6d2f => ok
said 1 1 0 1 navigate 0 https://b.com 68747470733a2f2f612e636f6d2f32 => ok
order 2 0 https://a.com https://a.com https://a.com/2
commit 0 2 https://a.com 68747470733a2f2f612e636f6d2f32 => ok
exit 1
",
    ),
    // The first order is replaced; its process ends once it has answered, and not at once.
    (
        "a process answers each of its orders before it ends",
        r#"{"start":["https://a.com/"],"resources":[{"url":"https://a.com/","actions":[
{"do":"frame","src":"https://b.com/"},{"do":"navigate","frame":"child 0","url":"https://c.com/"}]}]}"#,
        "history 2
open 0
order 0 0 https://a.com https://a.com https://a.com/
commit 0 0 https://a.com 68747470733a2f2f612e636f6d2f => ok
said 0 0 0 0 frame plain url 68747470733a2f2f622e636f6d2f => ok
order 1 1 https://b.com https://b.com https://b.com/
said 0 0 1 0 navigate 1 https://a.com 68747470733a2f2f632e636f6d2f => ok
order 2 2 https://c.com https://c.com https://c.com/
commit 1 1 https://b.com 68747470733a2f2f622e636f6d2f => drop G3
commit 2 2 https://c.com 68747470733a2f2f632e636f6d2f => ok
exit 1
",
    ),
    // A crash is an entry of its process, and nothing follows.
    (
        "a crash loses the page",
        r#"{"start":["https://a.com/"],"resources":[{"url":"https://a.com/","actions":[{"do":"crash"},{"do":"crash"}]}]}"#,
        "history 2
open 0
order 0 0 https://a.com https://a.com https://a.com/
commit 0 0 https://a.com 68747470733a2f2f612e636f6d2f => ok
crash 0
",
    ),
    // The frame is removed before its order is answered, and its process has nothing left.
    (
        "a crash takes the frames of the page with it",
        r#"{"start":["https://a.com/"],"resources":[{"url":"https://a.com/","actions":[
{"do":"frame","src":"https://b.com/"},{"do":"crash"}]}]}"#,
        "history 2
open 0
order 0 0 https://a.com https://a.com https://a.com/
commit 0 0 https://a.com 68747470733a2f2f612e636f6d2f => ok
said 0 0 0 0 frame plain url 68747470733a2f2f622e636f6d2f => ok
order 1 1 https://b.com https://b.com https://b.com/
crash 0
commit 1 1 https://b.com 68747470733a2f2f622e636f6d2f => drop G3
exit 1
",
    ),
    // Two pages share a process; the crash of the first comes before the commit of the second, whose order dies too.
    (
        "a crash loses each document of its process",
        r#"{"soft_limit":0,"start":["https://a.com/","https://a.com/g"],
"resources":[{"url":"https://a.com/","actions":[{"do":"crash"}]}]}"#,
        "history 2
open 0
open 1
order 0 0 https://a.com https://a.com https://a.com/
order 1 0 https://a.com https://a.com https://a.com/g
commit 0 0 https://a.com 68747470733a2f2f612e636f6d2f => ok
crash 0
",
    ),
    // The frame stays without a document, and the crashed process is never chosen again.
    (
        "a frame whose process crashed can be navigated",
        r#"{"start":["https://a.com/"],"resources":[
{"url":"https://a.com/","actions":[{"do":"frame","src":"https://b.com/"},{"do":"wait"},
{"do":"navigate","frame":"child 0","url":"https://b.com/2"}]},
{"url":"https://b.com/","actions":[{"do":"crash"}]}]}"#,
        "history 2
open 0
order 0 0 https://a.com https://a.com https://a.com/
commit 0 0 https://a.com 68747470733a2f2f612e636f6d2f => ok
said 0 0 0 0 frame plain url 68747470733a2f2f622e636f6d2f => ok
order 1 1 https://b.com https://b.com https://b.com/
commit 1 1 https://b.com 68747470733a2f2f622e636f6d2f => ok
crash 1
local 0 0 1 waited
said 0 0 2 0 navigate 1 https://a.com 68747470733a2f2f622e636f6d2f32 => ok
order 2 2 https://b.com https://b.com https://b.com/2
commit 2 2 https://b.com 68747470733a2f2f622e636f6d2f32 => ok
",
    ),
    // A dead process is not live, and the warm one stays as it is.
    (
        "a spare takes the place of one that a crash did not touch",
        r#"{"spare":true,"start":["https://a.com/"],"resources":[{"url":"https://a.com/","actions":[{"do":"crash"}]}]}"#,
        "history 2
open 0
warm 0
order 0 0 https://a.com https://a.com https://a.com/
warm 1
commit 0 0 https://a.com 68747470733a2f2f612e636f6d2f => ok
crash 0
",
    ),
];

#[test]
fn processes_run_as_written(rt: HostRuntime) -> Result<(), Fail> {
    assert_runs_as_written(&rt, rt.alloc(), ROWS)
}
