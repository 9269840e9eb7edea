//! Frames: their names, who may navigate and remove them, and what replaces them.

use super::{Row, assert_runs_as_written};
use std::test::Fail;

const ROWS: &[Row] = &[
    // The frame within a frame names its parent in vain.
    (
        "a frame may navigate its top and not its parent",
        r#"{"start":["https://a.com/"],"resources":[
{"url":"https://a.com/","actions":[{"do":"frame","src":"https://a.com/f"}]},
{"url":"https://a.com/f","actions":[{"do":"frame","src":"https://a.com/g"}]},
{"url":"https://a.com/g","actions":[{"do":"navigate","frame":"parent","url":"https://a.com/p"},
{"do":"navigate","frame":"top","url":"https://a.com/t"}]}]}"#,
        "history 2
open 0
order 0 0 https://a.com https://a.com https://a.com/
commit 0 0 https://a.com 68747470733a2f2f612e636f6d2f => ok
said 0 0 0 0 frame plain url 68747470733a2f2f612e636f6d2f66 => ok
order 1 0 https://a.com https://a.com https://a.com/f
commit 0 1 https://a.com 68747470733a2f2f612e636f6d2f66 => ok
said 0 1 0 1 frame plain url 68747470733a2f2f612e636f6d2f67 => ok
order 2 0 https://a.com https://a.com https://a.com/g
commit 0 2 https://a.com 68747470733a2f2f612e636f6d2f67 => ok
said 0 2 0 2 navigate 1 https://a.com 68747470733a2f2f612e636f6d2f70 => deny N1
said 0 2 1 2 navigate 0 https://a.com 68747470733a2f2f612e636f6d2f74 => ok
order 3 0 https://a.com https://a.com https://a.com/t
commit 0 3 https://a.com 68747470733a2f2f612e636f6d2f74 => ok
",
    ),
    // So it may be navigated; the frame goes with the page's document.
    (
        "the parent of a frame of the page is its top",
        r#"{"start":["https://a.com/"],"resources":[
{"url":"https://a.com/","actions":[{"do":"frame","src":"https://b.com/"}]},
{"url":"https://b.com/","actions":[{"do":"navigate","frame":"parent","url":"https://b.com/t"}]}]}"#,
        "history 2
open 0
order 0 0 https://a.com https://a.com https://a.com/
commit 0 0 https://a.com 68747470733a2f2f612e636f6d2f => ok
said 0 0 0 0 frame plain url 68747470733a2f2f622e636f6d2f => ok
order 1 1 https://b.com https://b.com https://b.com/
commit 1 1 https://b.com 68747470733a2f2f622e636f6d2f => ok
said 1 1 0 1 navigate 0 https://b.com 68747470733a2f2f622e636f6d2f74 => ok
order 2 1 https://b.com https://b.com https://b.com/t
commit 1 2 https://b.com 68747470733a2f2f622e636f6d2f74 => ok
exit 0
",
    ),
    // A frame within its own frame, by its number.
    (
        "a frame may navigate what stands below it",
        r#"{"start":["https://a.com/"],"resources":[
{"url":"https://a.com/","actions":[{"do":"frame","src":"https://a.com/f"},{"do":"recv"},
{"do":"raw","message":{"is":"navigate","frame":2,"url":"https://a.com/x"}}]},
{"url":"https://a.com/f","actions":[{"do":"frame","src":"https://a.com/g"}]},
{"url":"https://a.com/g","actions":[{"do":"post","frame":"top","target":"*","text":"up"}]}]}"#,
        "history 2
open 0
order 0 0 https://a.com https://a.com https://a.com/
commit 0 0 https://a.com 68747470733a2f2f612e636f6d2f => ok
said 0 0 0 0 frame plain url 68747470733a2f2f612e636f6d2f66 => ok
order 1 0 https://a.com https://a.com https://a.com/f
commit 0 1 https://a.com 68747470733a2f2f612e636f6d2f66 => ok
said 0 1 0 1 frame plain url 68747470733a2f2f612e636f6d2f67 => ok
order 2 0 https://a.com https://a.com https://a.com/g
commit 0 2 https://a.com 68747470733a2f2f612e636f6d2f67 => ok
said 0 2 0 2 post 0 * https://a.com 7570 => ok
local 0 0 1 took https://a.com 7570
said 0 0 2 0 navigate 2 https://a.com 68747470733a2f2f612e636f6d2f78 => ok
order 3 0 https://a.com https://a.com https://a.com/x
commit 0 3 https://a.com 68747470733a2f2f612e636f6d2f78 => ok
",
    ),
    // Neither itself, nor below it, nor the top, nor the opener.
    (
        "a frame may not navigate the one beside it",
        r#"{"start":["https://a.com/"],"resources":[
{"url":"https://a.com/","actions":[{"do":"frame","src":"https://a.com/f"},{"do":"frame","src":"https://a.com/g"}]},
{"url":"https://a.com/g","actions":[{"do":"raw","message":{"is":"navigate","frame":1,"url":"https://a.com/x"}}]}]}"#,
        "history 2
open 0
order 0 0 https://a.com https://a.com https://a.com/
commit 0 0 https://a.com 68747470733a2f2f612e636f6d2f => ok
said 0 0 0 0 frame plain url 68747470733a2f2f612e636f6d2f66 => ok
order 1 0 https://a.com https://a.com https://a.com/f
said 0 0 1 0 frame plain url 68747470733a2f2f612e636f6d2f67 => ok
order 2 0 https://a.com https://a.com https://a.com/g
commit 0 1 https://a.com 68747470733a2f2f612e636f6d2f66 => ok
commit 0 2 https://a.com 68747470733a2f2f612e636f6d2f67 => ok
said 0 2 0 2 navigate 1 https://a.com 68747470733a2f2f612e636f6d2f78 => deny N1
",
    ),
    // Its opaque origin is of its process's site, so its claim stands.
    (
        "a sandboxed frame may navigate itself and not its top",
        r#"{"start":["https://a.com/"],"resources":[
{"url":"https://a.com/","actions":[{"do":"frame","src":"https://a.com/f","sandbox":true}]},
{"url":"https://a.com/f","actions":[{"do":"navigate","frame":"top","url":"https://a.com/t"},
{"do":"navigate","frame":"self","url":"https://a.com/s"}]}]}"#,
        "history 2
open 0
order 0 0 https://a.com https://a.com https://a.com/
commit 0 0 https://a.com 68747470733a2f2f612e636f6d2f => ok
said 0 0 0 0 frame sandboxed url 68747470733a2f2f612e636f6d2f66 => ok
order 1 0 https://a.com opaque:1:https://a.com https://a.com/f
commit 0 1 opaque:1:https://a.com 68747470733a2f2f612e636f6d2f66 => ok
said 0 1 0 1 navigate 0 opaque:1:https://a.com 68747470733a2f2f612e636f6d2f74 => deny N1
said 0 1 1 1 navigate 1 opaque:1:https://a.com 68747470733a2f2f612e636f6d2f73 => ok
order 2 0 https://a.com opaque:2:https://a.com https://a.com/s
commit 0 2 opaque:2:https://a.com 68747470733a2f2f612e636f6d2f73 => ok
",
    ),
    // The frame within it is sandboxed too, and gets an origin of its own again.
    (
        "a sandboxed frame may navigate its own frame's frames",
        r#"{"start":["https://a.com/"],"resources":[
{"url":"https://a.com/","actions":[{"do":"frame","src":"https://a.com/f","sandbox":true}]},
{"url":"https://a.com/f","actions":[{"do":"frame","src":"https://a.com/g"},
{"do":"navigate","frame":"child 0","url":"https://a.com/h"}]}]}"#,
        "history 2
open 0
order 0 0 https://a.com https://a.com https://a.com/
commit 0 0 https://a.com 68747470733a2f2f612e636f6d2f => ok
said 0 0 0 0 frame sandboxed url 68747470733a2f2f612e636f6d2f66 => ok
order 1 0 https://a.com opaque:1:https://a.com https://a.com/f
commit 0 1 opaque:1:https://a.com 68747470733a2f2f612e636f6d2f66 => ok
said 0 1 0 1 frame plain url 68747470733a2f2f612e636f6d2f67 => ok
order 2 0 https://a.com opaque:2:https://a.com https://a.com/g
said 0 1 1 1 navigate 2 opaque:1:https://a.com 68747470733a2f2f612e636f6d2f68 => ok
order 3 0 https://a.com opaque:3:https://a.com https://a.com/h
commit 0 2 opaque:2:https://a.com 68747470733a2f2f612e636f6d2f67 => drop G3
commit 0 3 opaque:3:https://a.com 68747470733a2f2f612e636f6d2f68 => ok
",
    ),
    // A start page has no parent, no opener and no child.
    (
        "a name that stands for no frame is skipped",
        r#"{"start":["https://a.com/"],"resources":[{"url":"https://a.com/","actions":[
{"do":"navigate","frame":"parent","url":"https://a.com/x"},{"do":"navigate","frame":"opener","url":"https://a.com/x"},
{"do":"navigate","frame":"child 0","url":"https://a.com/x"},{"do":"remove","child":0},
{"do":"post","frame":"child 0","target":"*","text":"x"}]}]}"#,
        "history 2
open 0
order 0 0 https://a.com https://a.com https://a.com/
commit 0 0 https://a.com 68747470733a2f2f612e636f6d2f => ok
local 0 0 0 skipped
local 0 0 1 skipped
local 0 0 2 skipped
local 0 0 3 skipped
local 0 0 4 skipped
",
    ),
    // A page that navigates its top leaves its document.
    (
        "the top of a page is its own frame",
        r#"{"start":["https://a.com/"],
"resources":[{"url":"https://a.com/","actions":[{"do":"navigate","frame":"top","url":"https://a.com/t"}]}]}"#,
        "history 2
open 0
order 0 0 https://a.com https://a.com https://a.com/
commit 0 0 https://a.com 68747470733a2f2f612e636f6d2f => ok
said 0 0 0 0 navigate 0 https://a.com 68747470733a2f2f612e636f6d2f74 => ok
order 1 0 https://a.com https://a.com https://a.com/t
commit 0 1 https://a.com 68747470733a2f2f612e636f6d2f74 => ok
",
    ),
    // The frame that was denied is no child.
    (
        "children are counted by the frames that were made",
        r#"{"start":["https://a.com/"],"resources":[{"url":"https://a.com/","actions":[
{"do":"frame","src":"no"},{"do":"frame","src":"https://a.com/f"},
{"do":"navigate","frame":"child 0","url":"https://a.com/g"}]}]}"#,
        "history 2
open 0
order 0 0 https://a.com https://a.com https://a.com/
commit 0 0 https://a.com 68747470733a2f2f612e636f6d2f => ok
said 0 0 0 0 frame plain url 6e6f => deny N2
said 0 0 1 0 frame plain url 68747470733a2f2f612e636f6d2f66 => ok
order 1 0 https://a.com https://a.com https://a.com/f
said 0 0 2 0 navigate 1 https://a.com 68747470733a2f2f612e636f6d2f67 => ok
order 2 0 https://a.com https://a.com https://a.com/g
commit 0 1 https://a.com 68747470733a2f2f612e636f6d2f66 => drop G3
commit 0 2 https://a.com 68747470733a2f2f612e636f6d2f67 => ok
",
    ),
    // The page adds a frame in the name of its frame's document, whose child it is.
    (
        "a child is counted for the document that its message names",
        r#"{"start":["https://a.com/"],"resources":[
{"url":"https://a.com/","actions":[{"do":"frame","src":"https://a.com/f"},{"do":"wait"},
{"do":"raw","message":{"is":"frame","document":1,"src":"about:blank"}},
{"do":"post","frame":"child 0","target":"*","text":"go"},{"do":"navigate","frame":"child 1","url":"https://a.com/y"}]},
{"url":"https://a.com/f","actions":[{"do":"recv"},{"do":"navigate","frame":"child 0","url":"https://a.com/x"}]}]}"#,
        "history 2
open 0
order 0 0 https://a.com https://a.com https://a.com/
commit 0 0 https://a.com 68747470733a2f2f612e636f6d2f => ok
said 0 0 0 0 frame plain url 68747470733a2f2f612e636f6d2f66 => ok
order 1 0 https://a.com https://a.com https://a.com/f
commit 0 1 https://a.com 68747470733a2f2f612e636f6d2f66 => ok
local 0 0 1 waited
said 0 0 2 1 frame plain url 61626f75743a626c616e6b => ok
order 2 0 https://a.com https://a.com about:blank
said 0 0 3 0 post 1 * https://a.com 676f => ok
commit 0 2 https://a.com 61626f75743a626c616e6b => ok
local 0 0 4 skipped
local 0 1 0 took https://a.com 676f
said 0 1 1 1 navigate 2 https://a.com 68747470733a2f2f612e636f6d2f78 => ok
order 3 0 https://a.com https://a.com https://a.com/x
commit 0 3 https://a.com 68747470733a2f2f612e636f6d2f78 => ok
",
    ),
    // Both are removed for later messages, and keep their numbers.
    (
        "a removed frame takes its frames with it",
        r#"{"start":["https://a.com/"],"resources":[
{"url":"https://a.com/","actions":[{"do":"frame","src":"https://a.com/f"},{"do":"recv"},{"do":"remove","child":0},
{"do":"raw","message":{"is":"navigate","frame":2,"url":"https://a.com/x"}},
{"do":"post","frame":"child 0","target":"*","text":"x"},{"do":"navigate","frame":"child 0","url":"https://a.com/x"},
{"do":"frame","src":"https://a.com/h"}]},
{"url":"https://a.com/f","actions":[{"do":"frame","src":"https://a.com/g"}]},
{"url":"https://a.com/g","actions":[{"do":"post","frame":"top","target":"*","text":"up"},{"do":"recv"}]}]}"#,
        "history 2
open 0
order 0 0 https://a.com https://a.com https://a.com/
commit 0 0 https://a.com 68747470733a2f2f612e636f6d2f => ok
said 0 0 0 0 frame plain url 68747470733a2f2f612e636f6d2f66 => ok
order 1 0 https://a.com https://a.com https://a.com/f
commit 0 1 https://a.com 68747470733a2f2f612e636f6d2f66 => ok
said 0 1 0 1 frame plain url 68747470733a2f2f612e636f6d2f67 => ok
order 2 0 https://a.com https://a.com https://a.com/g
commit 0 2 https://a.com 68747470733a2f2f612e636f6d2f67 => ok
said 0 2 0 2 post 0 * https://a.com 7570 => ok
local 0 0 1 took https://a.com 7570
said 0 0 2 0 remove 1 => ok
said 0 0 3 0 navigate 2 https://a.com 68747470733a2f2f612e636f6d2f78 => drop G2
said 0 0 4 0 post 1 * https://a.com 78 => drop G2
said 0 0 5 0 navigate 1 https://a.com 68747470733a2f2f612e636f6d2f78 => drop G2
said 0 0 6 0 frame plain url 68747470733a2f2f612e636f6d2f68 => ok
order 3 0 https://a.com https://a.com https://a.com/h
commit 0 3 https://a.com 68747470733a2f2f612e636f6d2f68 => ok
",
    ),
    // The second removal and the commit of the removed frame come late.
    (
        "a frame is removed once",
        r#"{"start":["https://a.com/"],"resources":[{"url":"https://a.com/","actions":[
{"do":"frame","src":"https://a.com/f"},{"do":"remove","child":0},{"do":"remove","child":0}]}]}"#,
        "history 2
open 0
order 0 0 https://a.com https://a.com https://a.com/
commit 0 0 https://a.com 68747470733a2f2f612e636f6d2f => ok
said 0 0 0 0 frame plain url 68747470733a2f2f612e636f6d2f66 => ok
order 1 0 https://a.com https://a.com https://a.com/f
said 0 0 1 0 remove 1 => ok
said 0 0 2 0 remove 1 => drop G2
commit 0 1 https://a.com 68747470733a2f2f612e636f6d2f66 => drop G3
",
    ),
    // Its one document is lost with the frame.
    (
        "the process of a removed frame ends",
        r#"{"start":["https://a.com/"],"resources":[{"url":"https://a.com/","actions":[
{"do":"frame","src":"https://b.com/"},{"do":"wait"},{"do":"remove","child":0}]}]}"#,
        "history 2
open 0
order 0 0 https://a.com https://a.com https://a.com/
commit 0 0 https://a.com 68747470733a2f2f612e636f6d2f => ok
said 0 0 0 0 frame plain url 68747470733a2f2f622e636f6d2f => ok
order 1 1 https://b.com https://b.com https://b.com/
commit 1 1 https://b.com 68747470733a2f2f622e636f6d2f => ok
local 0 0 1 waited
said 0 0 2 0 remove 1 => ok
exit 1
",
    ),
    // The process of the old order answers late, and is not killed for it.
    (
        "a newer navigation replaces an ordered one",
        r#"{"start":["https://a.com/"],"resources":[{"url":"https://a.com/","actions":[
{"do":"frame","src":"https://a.com/f"},{"do":"navigate","frame":"child 0","url":"https://b.com/"}]}]}"#,
        "history 2
open 0
order 0 0 https://a.com https://a.com https://a.com/
commit 0 0 https://a.com 68747470733a2f2f612e636f6d2f => ok
said 0 0 0 0 frame plain url 68747470733a2f2f612e636f6d2f66 => ok
order 1 0 https://a.com https://a.com https://a.com/f
said 0 0 1 0 navigate 1 https://a.com 68747470733a2f2f622e636f6d2f => ok
order 2 1 https://b.com https://b.com https://b.com/
commit 0 1 https://a.com 68747470733a2f2f612e636f6d2f66 => drop G3
commit 1 2 https://b.com 68747470733a2f2f622e636f6d2f => ok
",
    ),
    // The first order is answered late, and the frame stays without a document.
    (
        "a newer navigation that fails replaces an older one all the same",
        r#"{"start":["https://a.com/"],"resources":[
{"url":"https://a.com/","actions":[{"do":"frame","src":"https://a.com/f"},
{"do":"navigate","frame":"child 0","url":"https://a.com/n"},{"do":"wait"},
{"do":"post","frame":"child 0","target":"*","text":"x"}]},
{"url":"https://a.com/n","status":204}]}"#,
        "history 2
open 0
order 0 0 https://a.com https://a.com https://a.com/
commit 0 0 https://a.com 68747470733a2f2f612e636f6d2f => ok
said 0 0 0 0 frame plain url 68747470733a2f2f612e636f6d2f66 => ok
order 1 0 https://a.com https://a.com https://a.com/f
said 0 0 1 0 navigate 1 https://a.com 68747470733a2f2f612e636f6d2f6e => ok
navend 2 N8
commit 0 1 https://a.com 68747470733a2f2f612e636f6d2f66 => drop G3
local 0 0 2 waited
said 0 0 3 0 post 1 * https://a.com 78 => drop M1
",
    ),
    // The frame's order is still waiting when the page's document is replaced.
    (
        "a replaced document takes its frames with it",
        r#"{"start":["https://a.com/"],"resources":[{"url":"https://a.com/","actions":[
{"do":"frame","src":"https://b.com/"},{"do":"navigate","frame":"self","url":"https://a.com/2"}]}]}"#,
        "history 2
open 0
order 0 0 https://a.com https://a.com https://a.com/
commit 0 0 https://a.com 68747470733a2f2f612e636f6d2f => ok
said 0 0 0 0 frame plain url 68747470733a2f2f622e636f6d2f => ok
order 1 1 https://b.com https://b.com https://b.com/
said 0 0 1 0 navigate 0 https://a.com 68747470733a2f2f612e636f6d2f32 => ok
order 2 0 https://a.com https://a.com https://a.com/2
commit 0 2 https://a.com 68747470733a2f2f612e636f6d2f32 => ok
commit 1 1 https://b.com 68747470733a2f2f622e636f6d2f => drop G3
exit 1
",
    ),
    // Its actions go on until the new document commits.
    (
        "a document that is being left still acts",
        r#"{"start":["https://a.com/"],"resources":[{"url":"https://a.com/","actions":[
{"do":"navigate","frame":"self","url":"https://b.com/"},{"do":"frame","src":"https://c.com/"},{"do":"wait"}]}]}"#,
        "history 2
open 0
order 0 0 https://a.com https://a.com https://a.com/
commit 0 0 https://a.com 68747470733a2f2f612e636f6d2f => ok
said 0 0 0 0 navigate 0 https://a.com 68747470733a2f2f622e636f6d2f => ok
order 1 1 https://b.com https://b.com https://b.com/
said 0 0 1 0 frame plain url 68747470733a2f2f632e636f6d2f => ok
order 2 2 https://c.com https://c.com https://c.com/
commit 1 1 https://b.com 68747470733a2f2f622e636f6d2f => ok
commit 2 2 https://c.com 68747470733a2f2f632e636f6d2f => drop G3
exit 0
exit 2
",
    ),
];

#[test]
fn frames_run_as_written(rt: HostRuntime) -> Result<(), Fail> {
    assert_runs_as_written(&rt, rt.alloc(), ROWS)
}
