//! Documents of frames: where they commit, and with which origins.

use super::{Row, assert_runs_as_written};
use std::test::Fail;

const ROWS: &[Row] = &[
    // Site isolation itself.
    (
        "a frame of another site has a process of its own",
        r#"{"start":["https://a.com/"],
"resources":[{"url":"https://a.com/","actions":[{"do":"frame","src":"https://b.com/"}]}]}"#,
        "history 2
open 0
order 0 0 https://a.com https://a.com https://a.com/
commit 0 0 https://a.com 68747470733a2f2f612e636f6d2f => ok
said 0 0 0 0 frame plain url 68747470733a2f2f622e636f6d2f => ok
order 1 1 https://b.com https://b.com https://b.com/
commit 1 1 https://b.com 68747470733a2f2f622e636f6d2f => ok
",
    ),
    // The number is the navigation's; a frame of the page's own site stays in its process.
    (
        "a sandboxed frame has an opaque origin of its URL's site",
        r#"{"start":["https://a.com/"],"resources":[{"url":"https://a.com/","actions":[
{"do":"frame","src":"https://b.com/","sandbox":true},{"do":"frame","src":"https://sub.a.com/","sandbox":true}]}]}"#,
        "history 2
open 0
order 0 0 https://a.com https://a.com https://a.com/
commit 0 0 https://a.com 68747470733a2f2f612e636f6d2f => ok
said 0 0 0 0 frame sandboxed url 68747470733a2f2f622e636f6d2f => ok
order 1 1 https://b.com opaque:1:https://b.com https://b.com/
said 0 0 1 0 frame sandboxed url 68747470733a2f2f7375622e612e636f6d2f => ok
order 2 0 https://a.com opaque:2:https://a.com https://sub.a.com/
commit 0 2 opaque:2:https://a.com 68747470733a2f2f7375622e612e636f6d2f => ok
commit 1 1 opaque:1:https://b.com 68747470733a2f2f622e636f6d2f => ok
",
    ),
    // The child is added without the word, and its opaque origin is another one.
    (
        "a child of a sandboxed frame is sandboxed",
        r#"{"start":["https://a.com/"],"resources":[
{"url":"https://a.com/","actions":[{"do":"frame","src":"https://a.com/f","sandbox":true}]},
{"url":"https://a.com/f","actions":[{"do":"frame","src":"https://a.com/g"}]}]}"#,
        "history 2
open 0
order 0 0 https://a.com https://a.com https://a.com/
commit 0 0 https://a.com 68747470733a2f2f612e636f6d2f => ok
said 0 0 0 0 frame sandboxed url 68747470733a2f2f612e636f6d2f66 => ok
order 1 0 https://a.com opaque:1:https://a.com https://a.com/f
commit 0 1 opaque:1:https://a.com 68747470733a2f2f612e636f6d2f66 => ok
said 0 1 0 1 frame plain url 68747470733a2f2f612e636f6d2f67 => ok
order 2 0 https://a.com opaque:2:https://a.com https://a.com/g
commit 0 2 opaque:2:https://a.com 68747470733a2f2f612e636f6d2f67 => ok
",
    ),
    // Each of its documents has a number of its own.
    (
        "a sandboxed frame stays sandboxed when it is navigated",
        r#"{"start":["https://a.com/"],"resources":[{"url":"https://a.com/","actions":[
{"do":"frame","src":"https://a.com/f","sandbox":true},{"do":"wait"},
{"do":"navigate","frame":"child 0","url":"https://a.com/g"}]}]}"#,
        "history 2
open 0
order 0 0 https://a.com https://a.com https://a.com/
commit 0 0 https://a.com 68747470733a2f2f612e636f6d2f => ok
said 0 0 0 0 frame sandboxed url 68747470733a2f2f612e636f6d2f66 => ok
order 1 0 https://a.com opaque:1:https://a.com https://a.com/f
commit 0 1 opaque:1:https://a.com 68747470733a2f2f612e636f6d2f66 => ok
local 0 0 1 waited
said 0 0 2 0 navigate 1 https://a.com 68747470733a2f2f612e636f6d2f67 => ok
order 2 0 https://a.com opaque:2:https://a.com https://a.com/g
commit 0 2 opaque:2:https://a.com 68747470733a2f2f612e636f6d2f67 => ok
",
    ),
    // It runs the actions of the resource `about:blank`, and is of the page's own origin.
    (
        "a blank frame has the origin of its initiator",
        r#"{"start":["https://a.com/"],"resources":[
{"url":"https://a.com/","actions":[{"do":"frame","src":"about:blank#x"},{"do":"recv"}]},
{"url":"about:blank","actions":[{"do":"post","frame":"parent","target":"/","text":"hi"}]}]}"#,
        "history 2
open 0
order 0 0 https://a.com https://a.com https://a.com/
commit 0 0 https://a.com 68747470733a2f2f612e636f6d2f => ok
said 0 0 0 0 frame plain url 61626f75743a626c616e6b2378 => ok
order 1 0 https://a.com https://a.com about:blank#x
commit 0 1 https://a.com 61626f75743a626c616e6b2378 => ok
said 0 1 0 1 post 0 / https://a.com 6869 => ok
local 0 0 1 took https://a.com 6869
",
    ),
    // The page blanks a frame of another site, which takes the page's origin; the other process ends.
    (
        "a frame that is blanked goes to its initiator's process",
        r#"{"start":["https://a.com/"],"resources":[{"url":"https://a.com/","actions":[
{"do":"frame","src":"https://b.com/"},{"do":"wait"},
{"do":"navigate","frame":"child 0","url":"about:blank"}]}]}"#,
        "history 2
open 0
order 0 0 https://a.com https://a.com https://a.com/
commit 0 0 https://a.com 68747470733a2f2f612e636f6d2f => ok
said 0 0 0 0 frame plain url 68747470733a2f2f622e636f6d2f => ok
order 1 1 https://b.com https://b.com https://b.com/
commit 1 1 https://b.com 68747470733a2f2f622e636f6d2f => ok
local 0 0 1 waited
said 0 0 2 0 navigate 1 https://a.com 61626f75743a626c616e6b => ok
order 2 0 https://a.com https://a.com about:blank
commit 0 2 https://a.com 61626f75743a626c616e6b => ok
exit 1
",
    ),
    // The initiator is the frame's own document.
    (
        "a frame that blanks itself keeps its origin",
        r#"{"start":["https://a.com/"],"resources":[
{"url":"https://a.com/","actions":[{"do":"frame","src":"https://b.com/"}]},
{"url":"https://b.com/","actions":[{"do":"navigate","frame":"self","url":"about:blank"}]}]}"#,
        "history 2
open 0
order 0 0 https://a.com https://a.com https://a.com/
commit 0 0 https://a.com 68747470733a2f2f612e636f6d2f => ok
said 0 0 0 0 frame plain url 68747470733a2f2f622e636f6d2f => ok
order 1 1 https://b.com https://b.com https://b.com/
commit 1 1 https://b.com 68747470733a2f2f622e636f6d2f => ok
said 1 1 0 1 navigate 1 https://b.com 61626f75743a626c616e6b => ok
order 2 1 https://b.com https://b.com about:blank
commit 1 2 https://b.com 61626f75743a626c616e6b => ok
",
    ),
    // It stays in the page's process, and its URL finds its actions.
    (
        "a `data:` frame has an opaque origin of its initiator's site",
        r#"{"start":["https://a.com/"],"resources":[
{"url":"https://a.com/","actions":[{"do":"frame","src":"data:,x"},{"do":"recv"}]},
{"url":"data:,x","actions":[{"do":"post","frame":"parent","target":"*","text":"hi"}]}]}"#,
        "history 2
open 0
order 0 0 https://a.com https://a.com https://a.com/
commit 0 0 https://a.com 68747470733a2f2f612e636f6d2f => ok
said 0 0 0 0 frame plain url 646174613a2c78 => ok
order 1 0 https://a.com opaque:1:https://a.com data:,x
commit 0 1 opaque:1:https://a.com 646174613a2c78 => ok
said 0 1 0 1 post 0 * opaque:1:https://a.com 6869 => ok
local 0 0 1 took opaque:1:https://a.com 6869
",
    ),
    // The initiator is of the frame's site, and not of the page's.
    (
        "a frame that goes to `data:` by itself stays in its process",
        r#"{"start":["https://a.com/"],"resources":[
{"url":"https://a.com/","actions":[{"do":"frame","src":"https://b.com/"}]},
{"url":"https://b.com/","actions":[{"do":"navigate","frame":"self","url":"data:,x"}]}]}"#,
        "history 2
open 0
order 0 0 https://a.com https://a.com https://a.com/
commit 0 0 https://a.com 68747470733a2f2f612e636f6d2f => ok
said 0 0 0 0 frame plain url 68747470733a2f2f622e636f6d2f => ok
order 1 1 https://b.com https://b.com https://b.com/
commit 1 1 https://b.com 68747470733a2f2f622e636f6d2f => ok
said 1 1 0 1 navigate 1 https://b.com 646174613a2c78 => ok
order 2 1 https://b.com opaque:2:https://b.com data:,x
commit 1 2 opaque:2:https://b.com 646174613a2c78 => ok
",
    ),
    // The origin of the initiator whole, with its number; so a post to the own origin is taken.
    (
        "a blank frame of a `data:` document shares its opaque origin",
        r#"{"start":["https://a.com/"],"resources":[
{"url":"https://a.com/","actions":[{"do":"frame","src":"data:,x"}]},
{"url":"data:,x","actions":[{"do":"frame","src":"about:blank"},{"do":"recv"}]},
{"url":"about:blank","actions":[{"do":"post","frame":"parent","target":"/","text":"hi"},
{"do":"post","frame":"top","target":"/","text":"no"}]}]}"#,
        "history 2
open 0
order 0 0 https://a.com https://a.com https://a.com/
commit 0 0 https://a.com 68747470733a2f2f612e636f6d2f => ok
said 0 0 0 0 frame plain url 646174613a2c78 => ok
order 1 0 https://a.com opaque:1:https://a.com data:,x
commit 0 1 opaque:1:https://a.com 646174613a2c78 => ok
said 0 1 0 1 frame plain url 61626f75743a626c616e6b => ok
order 2 0 https://a.com opaque:1:https://a.com about:blank
commit 0 2 opaque:1:https://a.com 61626f75743a626c616e6b => ok
said 0 2 0 2 post 1 / opaque:1:https://a.com 6869 => ok
said 0 2 1 2 post 0 / opaque:1:https://a.com 6e6f => drop M2
local 0 1 1 took opaque:1:https://a.com 6869
",
    ),
    // It runs the actions of the resource whose number the frame was added with.
    (
        "a `srcdoc` frame has the origin of the document that added it",
        r#"{"start":["https://a.com/"],"resources":[
{"url":"https://a.com/","actions":[{"do":"frame","srcdoc":1},{"do":"recv"}]},
{"url":"https://c.com/","actions":[{"do":"post","frame":"parent","target":"/","text":"hi"}]}]}"#,
        "history 2
open 0
order 0 0 https://a.com https://a.com https://a.com/
commit 0 0 https://a.com 68747470733a2f2f612e636f6d2f => ok
said 0 0 0 0 frame plain doc 1 => ok
order 1 0 https://a.com https://a.com about:srcdoc
commit 0 1 https://a.com 61626f75743a737263646f63 => ok
said 0 1 0 1 post 0 / https://a.com 6869 => ok
local 0 0 1 took https://a.com 6869
",
    ),
    // `srcdoc`, `data:` and `about:blank` each get an opaque origin of the page's site, in the page's process.
    (
        "sandboxed frames without a URL of the web",
        r#"{"start":["https://a.com/"],"resources":[{"url":"https://a.com/","actions":[
{"do":"frame","srcdoc":1,"sandbox":true},{"do":"frame","src":"data:,x","sandbox":true},
{"do":"frame","src":"about:blank","sandbox":true}]},
{"url":"https://c.com/"}]}"#,
        "history 2
open 0
order 0 0 https://a.com https://a.com https://a.com/
commit 0 0 https://a.com 68747470733a2f2f612e636f6d2f => ok
said 0 0 0 0 frame sandboxed doc 1 => ok
order 1 0 https://a.com opaque:1:https://a.com about:srcdoc
said 0 0 1 0 frame sandboxed url 646174613a2c78 => ok
order 2 0 https://a.com opaque:2:https://a.com data:,x
said 0 0 2 0 frame sandboxed url 61626f75743a626c616e6b => ok
order 3 0 https://a.com opaque:3:https://a.com about:blank
commit 0 1 opaque:1:https://a.com 61626f75743a737263646f63 => ok
commit 0 2 opaque:2:https://a.com 646174613a2c78 => ok
commit 0 3 opaque:3:https://a.com 61626f75743a626c616e6b => ok
",
    ),
    // A claim of the lock's site is taken: the blank frame is of another origin than the page, in the page's process.
    (
        "a navigation has the initiator that it claims",
        r#"{"start":["https://a.com/"],"resources":[{"url":"https://a.com/","actions":[
{"do":"frame","src":"https://b.com/"},{"do":"raw","message":{"is":"navigate","frame":1,"url":"about:blank",
"initiator":"https://sub.a.com/"}}]}]}"#,
        "history 2
open 0
order 0 0 https://a.com https://a.com https://a.com/
commit 0 0 https://a.com 68747470733a2f2f612e636f6d2f => ok
said 0 0 0 0 frame plain url 68747470733a2f2f622e636f6d2f => ok
order 1 1 https://b.com https://b.com https://b.com/
said 0 0 1 0 navigate 1 https://sub.a.com 61626f75743a626c616e6b => ok
order 2 0 https://a.com https://sub.a.com about:blank
commit 0 2 https://sub.a.com 61626f75743a626c616e6b => ok
commit 1 1 https://b.com 68747470733a2f2f622e636f6d2f => drop G3
exit 1
",
    ),
    // Status 404 commits like another.
    (
        "a URL that the script does not have commits an empty document",
        r#"{"start":["https://a.com/"],"resources":[
{"url":"https://a.com/","actions":[{"do":"frame","src":"https://a.com/none"},{"do":"frame","src":"https://a.com/500"}]},
{"url":"https://a.com/500","status":500}]}"#,
        "history 2
open 0
order 0 0 https://a.com https://a.com https://a.com/
commit 0 0 https://a.com 68747470733a2f2f612e636f6d2f => ok
said 0 0 0 0 frame plain url 68747470733a2f2f612e636f6d2f6e6f6e65 => ok
order 1 0 https://a.com https://a.com https://a.com/none
said 0 0 1 0 frame plain url 68747470733a2f2f612e636f6d2f353030 => ok
order 2 0 https://a.com https://a.com https://a.com/500
commit 0 1 https://a.com 68747470733a2f2f612e636f6d2f6e6f6e65 => ok
commit 0 2 https://a.com 68747470733a2f2f612e636f6d2f353030 => ok
",
    ),
    // Only the actions of such a resource count: its status and its fault do not.
    (
        "a blank or `data:` document needs no response",
        r#"{"start":["https://a.com/"],"resources":[
{"url":"https://a.com/","actions":[{"do":"frame","src":"about:blank"},{"do":"frame","src":"data:,x"}]},
{"url":"about:blank","status":204,"fail_after":0},
{"url":"data:,x","status":302,"headers":[["Location","https://b.com/"]]}]}"#,
        "history 2
open 0
order 0 0 https://a.com https://a.com https://a.com/
commit 0 0 https://a.com 68747470733a2f2f612e636f6d2f => ok
said 0 0 0 0 frame plain url 61626f75743a626c616e6b => ok
order 1 0 https://a.com https://a.com about:blank
said 0 0 1 0 frame plain url 646174613a2c78 => ok
order 2 0 https://a.com opaque:2:https://a.com data:,x
commit 0 1 https://a.com 61626f75743a626c616e6b => ok
commit 0 2 opaque:2:https://a.com 646174613a2c78 => ok
",
    ),
];

#[test]
fn documents_run_as_written(rt: HostRuntime) -> Result<(), Fail> {
    assert_runs_as_written(&rt, rt.alloc(), ROWS)
}
