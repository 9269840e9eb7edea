//! Which openings, orders, commits and exits may follow histories that are no runs of one thread: the order of the actors is
//! another.

use super::moments::{Moment, assert_moments};
use std::test::Fail;

const ROWS: &[(&str, &[Moment])] = &[
    (
        r#"{"start":["https://a.com/"],"resources":[{"url":"https://a.com/","actions":[
{"do":"frame","src":"https://b.com/"},{"do":"navigate","frame":"child 0","url":"https://c.com/"}]}]}"#,
        &[
            Moment {
                shows: "a process with an unanswered order does not end",
                history: "open 0
order 0 0 https://a.com https://a.com https://a.com/
commit 0 0 https://a.com 68747470733a2f2f612e636f6d2f => ok
said 0 0 0 0 frame plain url 68747470733a2f2f622e636f6d2f => ok
order 1 1 https://b.com https://b.com https://b.com/
said 0 0 1 0 navigate 1 https://a.com 68747470733a2f2f632e636f6d2f => ok
order 2 2 https://c.com https://c.com https://c.com/
",
                nexts: &[
                    "commit 1 1 https://b.com 68747470733a2f2f622e636f6d2f => drop G3",
                    "commit 2 2 https://c.com 68747470733a2f2f632e636f6d2f => ok",
                ],
                may_not: &[
                    "exit 1",
                    "exit 2",
                    "commit 1 1 https://b.com 68747470733a2f2f622e636f6d2f => ok",
                    "commit 2 1 https://b.com 68747470733a2f2f622e636f6d2f => drop G3",
                    "commit 2 2 https://c.com 68747470733a2f2f632e636f6d2f => drop G3",
                    "commit 2 2 https://c.com 68747470733a2f2f632e636f6d2f78 => kill K9",
                    "commit 0 0 https://a.com 68747470733a2f2f612e636f6d2f => drop G3",
                ],
            },
            Moment {
                shows: "a process that has answered ends",
                history: "open 0
order 0 0 https://a.com https://a.com https://a.com/
commit 0 0 https://a.com 68747470733a2f2f612e636f6d2f => ok
said 0 0 0 0 frame plain url 68747470733a2f2f622e636f6d2f => ok
order 1 1 https://b.com https://b.com https://b.com/
said 0 0 1 0 navigate 1 https://a.com 68747470733a2f2f632e636f6d2f => ok
order 2 2 https://c.com https://c.com https://c.com/
commit 1 1 https://b.com 68747470733a2f2f622e636f6d2f => drop G3
",
                nexts: &[
                    "commit 2 2 https://c.com 68747470733a2f2f632e636f6d2f => ok",
                    "exit 1",
                ],
                may_not: &[
                    "exit 0",
                    "exit 2",
                    "exit 3",
                    "commit 1 1 https://b.com 68747470733a2f2f622e636f6d2f => drop G3",
                ],
            },
            Moment {
                shows: "a process that ended is not heard of again",
                history: "open 0
order 0 0 https://a.com https://a.com https://a.com/
commit 0 0 https://a.com 68747470733a2f2f612e636f6d2f => ok
said 0 0 0 0 frame plain url 68747470733a2f2f622e636f6d2f => ok
order 1 1 https://b.com https://b.com https://b.com/
said 0 0 1 0 navigate 1 https://a.com 68747470733a2f2f632e636f6d2f => ok
order 2 2 https://c.com https://c.com https://c.com/
commit 1 1 https://b.com 68747470733a2f2f622e636f6d2f => drop G3
exit 1
",
                nexts: &["commit 2 2 https://c.com 68747470733a2f2f632e636f6d2f => ok"],
                may_not: &[
                    "exit 1",
                    "crash 1",
                    "commit 1 1 https://b.com 68747470733a2f2f622e636f6d2f => drop G3",
                    "warm 3",
                ],
            },
            Moment {
                shows: "the frame may commit before it is navigated again",
                history: "open 0
order 0 0 https://a.com https://a.com https://a.com/
commit 0 0 https://a.com 68747470733a2f2f612e636f6d2f => ok
said 0 0 0 0 frame plain url 68747470733a2f2f622e636f6d2f => ok
order 1 1 https://b.com https://b.com https://b.com/
",
                nexts: &[
                    "said 0 0 1 0 navigate 1 https://a.com 68747470733a2f2f632e636f6d2f => ok",
                    "commit 1 1 https://b.com 68747470733a2f2f622e636f6d2f => ok",
                ],
                may_not: &[
                    "commit 1 1 https://b.com 68747470733a2f2f622e636f6d2f => drop G3",
                    "commit 1 1 https://a.com 68747470733a2f2f622e636f6d2f => kill K10",
                    "order 1 1 https://b.com https://b.com https://b.com/",
                    "exit 1",
                ],
            },
        ],
    ),
    (
        r#"{"spare":true,"start":["https://a.com/","https://b.com/"]}"#,
        &[
            Moment {
                shows: "pages are opened in order, and one process is warmed",
                history: "",
                nexts: &["open 0", "warm 0"],
                may_not: &[
                    "open 1",
                    "warm 1",
                    "order 0 0 https://a.com https://a.com https://a.com/",
                    "navend 0 N6",
                ],
            },
            Moment {
                shows: "an opened page is ordered to the process that is chosen",
                history: "open 0
",
                nexts: &[
                    "open 1",
                    "warm 0",
                    "order 0 0 https://a.com https://a.com https://a.com/",
                ],
                may_not: &[
                    "open 0",
                    "open 2",
                    "warm 1",
                    "order 0 1 https://a.com https://a.com https://a.com/",
                    "order 1 0 https://b.com https://b.com https://b.com/",
                    "order 0 0 https://b.com https://a.com https://a.com/",
                    "order 0 0 https://a.com https://b.com https://a.com/",
                    "order 0 0 https://a.com https://a.com https://a.com/x",
                    "order 0 0 https://a.com opaque:0:https://a.com https://a.com/",
                ],
            },
            Moment {
                shows: "a page is ordered to the warm process",
                history: "open 0
open 1
warm 0
",
                nexts: &[
                    "order 0 0 https://a.com https://a.com https://a.com/",
                    "order 1 0 https://b.com https://b.com https://b.com/",
                ],
                may_not: &[
                    "warm 1",
                    "order 0 1 https://a.com https://a.com https://a.com/",
                    "order 1 1 https://b.com https://b.com https://b.com/",
                ],
            },
            Moment {
                shows: "the numbers of processes go by their starts",
                history: "open 0
open 1
order 1 0 https://b.com https://b.com https://b.com/
",
                nexts: &[
                    "warm 1",
                    "order 0 1 https://a.com https://a.com https://a.com/",
                    "commit 0 1 https://b.com 68747470733a2f2f622e636f6d2f => ok",
                ],
                may_not: &[
                    "warm 0",
                    "order 0 0 https://a.com https://a.com https://a.com/",
                    "order 1 1 https://b.com https://b.com https://b.com/",
                    "exit 0",
                    "crash 0",
                ],
            },
        ],
    ),
    (
        r#"{"soft_limit":1,"start":["https://a.com/","https://a.com/g"]}"#,
        &[
            Moment {
                shows: "pages are ordered in any order",
                history: "open 0
open 1
",
                nexts: &[
                    "order 0 0 https://a.com https://a.com https://a.com/",
                    "order 1 0 https://a.com https://a.com https://a.com/g",
                ],
                may_not: &["order 1 1 https://a.com https://a.com https://a.com/g"],
            },
            Moment {
                shows: "the later page's process is shared by the earlier page",
                history: "open 0
open 1
order 1 0 https://a.com https://a.com https://a.com/g
",
                nexts: &[
                    "order 0 0 https://a.com https://a.com https://a.com/",
                    "commit 0 1 https://a.com 68747470733a2f2f612e636f6d2f67 => ok",
                ],
                may_not: &["order 0 1 https://a.com https://a.com https://a.com/"],
            },
        ],
    ),
    (
        r#"{"start":["https://a.com/r"],"resources":[{"url":"https://a.com/r","status":302,"headers":[["Location","https://b.com/"]]}]}"#,
        &[Moment {
            shows: "a redirected page is neither ordered nor ended before its last URL",
            history: "open 0
",
            nexts: &["hop nav 0 https://b.com/"],
            may_not: &[
                "order 0 0 https://a.com https://a.com https://a.com/r",
                "order 0 0 https://b.com https://b.com https://b.com/",
                "navend 0 N3",
                "navend 0 N8",
                "hop nav 0 https://b.com/x",
                "hop req 0 https://b.com/",
            ],
        }],
    ),
    (
        r#"{"start":["https://a.com/"],"resources":[{"url":"https://a.com/","status":204}]}"#,
        &[
            Moment {
                shows: "a navigation ends once",
                history: "open 0
",
                nexts: &["navend 0 N8"],
                may_not: &[
                    "navend 0 N7",
                    "order 0 0 https://a.com https://a.com https://a.com/",
                ],
            },
            Moment {
                shows: "a navigation that ended is over",
                history: "open 0
navend 0 N8
",
                nexts: &[],
                may_not: &[
                    "navend 0 N8",
                    "order 0 0 https://a.com https://a.com https://a.com/",
                    "commit 0 0 https://a.com 68747470733a2f2f612e636f6d2f => ok",
                ],
            },
        ],
    ),
    (
        r#"{"start":["https://a.com/"],"resources":[{"url":"https://a.com/","actions":[
{"do":"frame","src":"https://b.com/1"},{"do":"frame","src":"https://b.com/2"}]},
{"url":"https://b.com/1","actions":[{"do":"crash"}]}]}"#,
        &[
            Moment {
                shows: "an order dies with its process",
                history: "open 0
order 0 0 https://a.com https://a.com https://a.com/
commit 0 0 https://a.com 68747470733a2f2f612e636f6d2f => ok
said 0 0 0 0 frame plain url 68747470733a2f2f622e636f6d2f31 => ok
order 1 1 https://b.com https://b.com https://b.com/1
said 0 0 1 0 frame plain url 68747470733a2f2f622e636f6d2f32 => ok
order 2 1 https://b.com https://b.com https://b.com/2
commit 1 1 https://b.com 68747470733a2f2f622e636f6d2f31 => ok
crash 1
",
                nexts: &[],
                may_not: &[
                    "commit 1 2 https://b.com 68747470733a2f2f622e636f6d2f32 => ok",
                    "commit 1 2 https://b.com 68747470733a2f2f622e636f6d2f32 => drop G3",
                    "order 2 2 https://b.com https://b.com https://b.com/2",
                    "navend 2 N6",
                    "exit 1",
                ],
            },
            Moment {
                shows: "a process is chosen when the order is made",
                history: "open 0
order 0 0 https://a.com https://a.com https://a.com/
commit 0 0 https://a.com 68747470733a2f2f612e636f6d2f => ok
said 0 0 0 0 frame plain url 68747470733a2f2f622e636f6d2f31 => ok
order 1 1 https://b.com https://b.com https://b.com/1
said 0 0 1 0 frame plain url 68747470733a2f2f622e636f6d2f32 => ok
commit 1 1 https://b.com 68747470733a2f2f622e636f6d2f31 => ok
crash 1
",
                nexts: &["order 2 2 https://b.com https://b.com https://b.com/2"],
                may_not: &["order 2 1 https://b.com https://b.com https://b.com/2"],
            },
        ],
    ),
];

#[test]
fn entries_follow_as_written(rt: HostRuntime) -> Result<(), Fail> {
    assert_moments(&rt, rt.alloc(), ROWS)
}
