//! Which deliveries, actions and posts may follow histories that are no runs of one thread: the order of the actors is another.

use super::moments::{Moment, assert_moments};
use std::test::Fail;

const ROWS: &[(&str, &[Moment])] = &[
    (
        r#"{"start":["https://a.com/"],"resources":[{"url":"https://a.com/","actions":[
{"do":"fetch","url":"https://a.com/d","mode":"cors"},{"do":"crash"}]},{"url":"https://a.com/d","body":"ab","cuts":[1]}]}"#,
        &[
            Moment {
                shows: "pieces come in order until the document is lost",
                history: "open 0
order 0 0 https://a.com https://a.com https://a.com/
commit 0 0 https://a.com 68747470733a2f2f612e636f6d2f => ok
said 0 0 0 0 fetch cors https://a.com 68747470733a2f2f612e636f6d2f64 => ok
head 0 A1
piece 0 0 61
",
                nexts: &["crash 0", "piece 0 1 62"],
                may_not: &[
                    "piece 0 0 61",
                    "piece 0 1 61",
                    "piece 0 1 6162",
                    "piece 0 2 62",
                    "piece 1 1 62",
                    "head 0 A1",
                    "head 0 A3",
                    "end 0 whole",
                    "end 0 failed N7",
                    "exit 0",
                    "crash 1",
                ],
            },
            Moment {
                shows: "an end comes behind the last piece",
                history: "open 0
order 0 0 https://a.com https://a.com https://a.com/
commit 0 0 https://a.com 68747470733a2f2f612e636f6d2f => ok
said 0 0 0 0 fetch cors https://a.com 68747470733a2f2f612e636f6d2f64 => ok
head 0 A1
piece 0 0 61
piece 0 1 62
",
                nexts: &["crash 0", "end 0 whole"],
                may_not: &["end 0 failed N7", "end 0 blocked B1", "piece 0 2 62"],
            },
            Moment {
                shows: "nothing is delivered to a crashed process",
                history: "open 0
order 0 0 https://a.com https://a.com https://a.com/
commit 0 0 https://a.com 68747470733a2f2f612e636f6d2f => ok
said 0 0 0 0 fetch cors https://a.com 68747470733a2f2f612e636f6d2f64 => ok
head 0 A1
piece 0 0 61
crash 0
",
                nexts: &[],
                may_not: &[
                    "piece 0 1 62",
                    "end 0 whole",
                    "end 0 failed N7",
                    "crash 0",
                    "exit 0",
                    "said 0 0 1 0 frame plain doc 0 => ok",
                ],
            },
            Moment {
                shows: "a head comes before the pieces, and a crash at any time",
                history: "open 0
order 0 0 https://a.com https://a.com https://a.com/
commit 0 0 https://a.com 68747470733a2f2f612e636f6d2f => ok
said 0 0 0 0 fetch cors https://a.com 68747470733a2f2f612e636f6d2f64 => ok
",
                nexts: &["crash 0", "head 0 A1"],
                may_not: &["piece 0 0 61", "end 0 whole", "head 0 A2", "head 0 B1"],
            },
        ],
    ),
    (
        r#"{"start":["https://a.com/"],"resources":[{"url":"https://a.com/","actions":[
{"do":"fetch","url":"https://a.com/d","mode":"cors"},{"do":"wait"}]}]}"#,
        &[
            Moment {
                shows: "an action is done once, in its order and in its process",
                history: "open 0
order 0 0 https://a.com https://a.com https://a.com/
commit 0 0 https://a.com 68747470733a2f2f612e636f6d2f => ok
",
                nexts: &[
                    "said 0 0 0 0 fetch cors https://a.com 68747470733a2f2f612e636f6d2f64 => ok",
                ],
                may_not: &[
                    "said 0 0 0 0 fetch cors https://a.com 68747470733a2f2f612e636f6d2f64 => deny F1",
                    "said 0 0 0 0 fetch no-cors https://a.com 68747470733a2f2f612e636f6d2f64 => ok",
                    "said 0 0 0 0 fetch cors https://a.com 68747470733a2f2f612e636f6d2f65 => ok",
                    "said 0 0 0 0 fetch cors https://b.com 68747470733a2f2f612e636f6d2f64 => kill K3",
                    "said 0 0 1 0 fetch cors https://a.com 68747470733a2f2f612e636f6d2f64 => ok",
                    "said 0 0 0 1 fetch cors https://a.com 68747470733a2f2f612e636f6d2f64 => ok",
                    "said 1 0 0 0 fetch cors https://a.com 68747470733a2f2f612e636f6d2f64 => ok",
                    "said 0 1 0 0 fetch cors https://a.com 68747470733a2f2f612e636f6d2f64 => ok",
                    "local 0 0 0 waited",
                    "local 0 0 1 waited",
                    "exit 0",
                ],
            },
            Moment {
                shows: "a wait is over with the last request",
                history: "open 0
order 0 0 https://a.com https://a.com https://a.com/
commit 0 0 https://a.com 68747470733a2f2f612e636f6d2f => ok
said 0 0 0 0 fetch cors https://a.com 68747470733a2f2f612e636f6d2f64 => ok
head 0 A1
",
                nexts: &["end 0 whole"],
                may_not: &[
                    "local 0 0 1 waited",
                    "said 0 0 0 0 fetch cors https://a.com 68747470733a2f2f612e636f6d2f64 => ok",
                ],
            },
            Moment {
                shows: "behind its request a wait is waited and not skipped",
                history: "open 0
order 0 0 https://a.com https://a.com https://a.com/
commit 0 0 https://a.com 68747470733a2f2f612e636f6d2f => ok
said 0 0 0 0 fetch cors https://a.com 68747470733a2f2f612e636f6d2f64 => ok
head 0 A1
end 0 whole
",
                nexts: &["local 0 0 1 waited"],
                may_not: &[
                    "local 0 0 1 skipped",
                    "local 0 0 1 took https://a.com -",
                    "local 0 0 2 waited",
                    "local 1 0 1 waited",
                ],
            },
        ],
    ),
    (
        r#"{"start":["https://a.com/"],"resources":[{"url":"https://a.com/","actions":[
{"do":"frame","src":"https://b.com/"},{"do":"navigate","frame":"child 0","url":"https://b.com/2"},
{"do":"post","frame":"child 0","target":"*","text":"x"}]},
{"url":"https://b.com/","actions":[{"do":"recv"}]},{"url":"https://b.com/2","actions":[{"do":"recv"}]}]}"#,
        &[
            Moment {
                shows: "a post goes to the document of its moment",
                history: "open 0
order 0 0 https://a.com https://a.com https://a.com/
commit 0 0 https://a.com 68747470733a2f2f612e636f6d2f => ok
said 0 0 0 0 frame plain url 68747470733a2f2f622e636f6d2f => ok
order 1 1 https://b.com https://b.com https://b.com/
commit 1 1 https://b.com 68747470733a2f2f622e636f6d2f => ok
said 0 0 1 0 navigate 1 https://a.com 68747470733a2f2f622e636f6d2f32 => ok
order 2 1 https://b.com https://b.com https://b.com/2
commit 1 2 https://b.com 68747470733a2f2f622e636f6d2f32 => ok
said 0 0 2 0 post 1 * https://a.com 78 => ok
",
                nexts: &["local 1 2 0 took https://a.com 78"],
                may_not: &[
                    "local 1 1 0 took https://a.com 78",
                    "local 1 2 0 took https://b.com 78",
                    "local 1 2 0 took https://a.com 79",
                ],
            },
            Moment {
                shows: "a post to the document before is lost with it",
                history: "open 0
order 0 0 https://a.com https://a.com https://a.com/
commit 0 0 https://a.com 68747470733a2f2f612e636f6d2f => ok
said 0 0 0 0 frame plain url 68747470733a2f2f622e636f6d2f => ok
order 1 1 https://b.com https://b.com https://b.com/
commit 1 1 https://b.com 68747470733a2f2f622e636f6d2f => ok
said 0 0 1 0 navigate 1 https://a.com 68747470733a2f2f622e636f6d2f32 => ok
order 2 1 https://b.com https://b.com https://b.com/2
said 0 0 2 0 post 1 * https://a.com 78 => ok
commit 1 2 https://b.com 68747470733a2f2f622e636f6d2f32 => ok
",
                nexts: &[],
                may_not: &[
                    "local 1 1 0 took https://a.com 78",
                    "local 1 2 0 took https://a.com 78",
                    "exit 1",
                ],
            },
            Moment {
                shows: "a post is taken before its document is replaced",
                history: "open 0
order 0 0 https://a.com https://a.com https://a.com/
commit 0 0 https://a.com 68747470733a2f2f612e636f6d2f => ok
said 0 0 0 0 frame plain url 68747470733a2f2f622e636f6d2f => ok
order 1 1 https://b.com https://b.com https://b.com/
commit 1 1 https://b.com 68747470733a2f2f622e636f6d2f => ok
said 0 0 1 0 navigate 1 https://a.com 68747470733a2f2f622e636f6d2f32 => ok
order 2 1 https://b.com https://b.com https://b.com/2
said 0 0 2 0 post 1 * https://a.com 78 => ok
",
                nexts: &[
                    "commit 1 2 https://b.com 68747470733a2f2f622e636f6d2f32 => ok",
                    "local 1 1 0 took https://a.com 78",
                ],
                may_not: &[
                    "local 1 2 0 took https://a.com 78",
                    "local 0 1 0 took https://a.com 78",
                ],
            },
            Moment {
                shows: "a post to a frame without a document",
                history: "open 0
order 0 0 https://a.com https://a.com https://a.com/
commit 0 0 https://a.com 68747470733a2f2f612e636f6d2f => ok
said 0 0 0 0 frame plain url 68747470733a2f2f622e636f6d2f => ok
order 1 1 https://b.com https://b.com https://b.com/
said 0 0 1 0 navigate 1 https://a.com 68747470733a2f2f622e636f6d2f32 => ok
",
                nexts: &[
                    "order 2 1 https://b.com https://b.com https://b.com/2",
                    "said 0 0 2 0 post 1 * https://a.com 78 => drop M1",
                    "commit 1 1 https://b.com 68747470733a2f2f622e636f6d2f => drop G3",
                ],
                may_not: &[
                    "said 0 0 2 0 post 1 * https://a.com 78 => ok",
                    "commit 1 1 https://b.com 68747470733a2f2f622e636f6d2f => ok",
                ],
            },
        ],
    ),
    (
        r#"{"start":["https://a.com/"],"resources":[
{"url":"https://a.com/","actions":[{"do":"fetch","url":"https://b.com/r","mode":"cors"},
{"do":"fetch","url":"https://b.com/r","mode":"no-cors"}]},
{"url":"https://b.com/r","status":302,"headers":[["Location","/x"]]}]}"#,
        &[Moment {
            shows: "a redirect that the page may not read is not followed",
            history: "open 0
order 0 0 https://a.com https://a.com https://a.com/
commit 0 0 https://a.com 68747470733a2f2f612e636f6d2f => ok
said 0 0 0 0 fetch cors https://a.com 68747470733a2f2f622e636f6d2f72 => ok
said 0 0 1 0 fetch no-cors https://a.com 68747470733a2f2f622e636f6d2f72 => ok
",
            nexts: &["hop req 1 https://b.com/x", "end 0 blocked B1"],
            may_not: &[
                "hop req 0 https://b.com/x",
                "end 0 failed F1",
                "head 0 A2",
                "end 1 blocked B1",
                "end 1 failed F1",
                "head 1 A4",
                "hop req 1 https://b.com/r",
                "hop nav 1 https://b.com/x",
            ],
        }],
    ),
];

#[test]
fn deliveries_follow_as_written(rt: HostRuntime) -> Result<(), Fail> {
    assert_moments(&rt, rt.alloc(), ROWS)
}
