//! Opened pages: their groups and their openers.

use super::{Row, assert_runs_as_written};
use std::test::Fail;

const ROWS: &[Row] = &[
    // It is in the opener's group.
    (
        "an opened page of the page's site shares its process",
        r#"{"start":["https://a.com/"],
"resources":[{"url":"https://a.com/","actions":[{"do":"page","url":"https://a.com/2"}]}]}"#,
        "history 2
open 0
order 0 0 https://a.com https://a.com https://a.com/
commit 0 0 https://a.com 68747470733a2f2f612e636f6d2f => ok
said 0 0 0 0 page 68747470733a2f2f612e636f6d2f32 => ok
order 1 0 https://a.com https://a.com https://a.com/2
commit 0 1 https://a.com 68747470733a2f2f612e636f6d2f32 => ok
",
    ),
    // Both are in one group, in two processes.
    (
        "an opened page of another site posts to its opener",
        r#"{"start":["https://a.com/"],"resources":[
{"url":"https://a.com/","actions":[{"do":"page","url":"https://b.com/"},{"do":"recv"}]},
{"url":"https://b.com/","actions":[{"do":"post","frame":"opener","target":"https://a.com/","text":"hi"}]}]}"#,
        "history 2
open 0
order 0 0 https://a.com https://a.com https://a.com/
commit 0 0 https://a.com 68747470733a2f2f612e636f6d2f => ok
said 0 0 0 0 page 68747470733a2f2f622e636f6d2f => ok
order 1 1 https://b.com https://b.com https://b.com/
commit 1 1 https://b.com 68747470733a2f2f622e636f6d2f => ok
said 1 1 0 1 post 0 https://a.com https://b.com 6869 => ok
local 0 0 1 took https://b.com 6869
",
    ),
    // The opener's document is replaced by one in its own process.
    (
        "an opened page may navigate its opener",
        r#"{"start":["https://a.com/"],"resources":[
{"url":"https://a.com/","actions":[{"do":"page","url":"https://a.com/2"}]},
{"url":"https://a.com/2","actions":[{"do":"navigate","frame":"opener","url":"https://a.com/3"}]}]}"#,
        "history 2
open 0
order 0 0 https://a.com https://a.com https://a.com/
commit 0 0 https://a.com 68747470733a2f2f612e636f6d2f => ok
said 0 0 0 0 page 68747470733a2f2f612e636f6d2f32 => ok
order 1 0 https://a.com https://a.com https://a.com/2
commit 0 1 https://a.com 68747470733a2f2f612e636f6d2f32 => ok
said 0 1 0 1 navigate 0 https://a.com 68747470733a2f2f612e636f6d2f33 => ok
order 2 0 https://a.com https://a.com https://a.com/3
commit 0 2 https://a.com 68747470733a2f2f612e636f6d2f33 => ok
",
    ),
    // The opener's frame is still there, without a document, and may be navigated.
    (
        "an opened page stays when its opener crashes",
        r#"{"start":["https://a.com/"],"resources":[
{"url":"https://a.com/","actions":[{"do":"page","url":"https://b.com/p"},{"do":"crash"}]},
{"url":"https://b.com/p","actions":[{"do":"post","frame":"opener","target":"*","text":"hi"},
{"do":"navigate","frame":"opener","url":"https://b.com/q"}]}]}"#,
        "history 2
open 0
order 0 0 https://a.com https://a.com https://a.com/
commit 0 0 https://a.com 68747470733a2f2f612e636f6d2f => ok
said 0 0 0 0 page 68747470733a2f2f622e636f6d2f70 => ok
order 1 1 https://b.com https://b.com https://b.com/p
crash 0
commit 1 1 https://b.com 68747470733a2f2f622e636f6d2f70 => ok
said 1 1 0 1 post 0 * https://b.com 6869 => drop M1
said 1 1 1 1 navigate 0 https://b.com 68747470733a2f2f622e636f6d2f71 => ok
order 2 1 https://b.com https://b.com https://b.com/q
commit 1 2 https://b.com 68747470733a2f2f622e636f6d2f71 => ok
",
    ),
    // Frames go with the document that added them, and pages do not.
    (
        "an opened page stays when its opener's document is replaced",
        r#"{"start":["https://a.com/"],"resources":[
{"url":"https://a.com/","actions":[{"do":"page","url":"https://b.com/p"},
{"do":"navigate","frame":"self","url":"https://a.com/2"}]}]}"#,
        "history 2
open 0
order 0 0 https://a.com https://a.com https://a.com/
commit 0 0 https://a.com 68747470733a2f2f612e636f6d2f => ok
said 0 0 0 0 page 68747470733a2f2f622e636f6d2f70 => ok
order 1 1 https://b.com https://b.com https://b.com/p
said 0 0 1 0 navigate 0 https://a.com 68747470733a2f2f612e636f6d2f32 => ok
order 2 0 https://a.com https://a.com https://a.com/2
commit 0 2 https://a.com 68747470733a2f2f612e636f6d2f32 => ok
commit 1 1 https://b.com 68747470733a2f2f622e636f6d2f70 => ok
",
    ),
    // The page names the frame, and may not navigate the frame's top.
    (
        "a page opened from a frame has that frame for its opener",
        r#"{"start":["https://a.com/"],"resources":[
{"url":"https://a.com/","actions":[{"do":"frame","src":"https://a.com/f"}]},
{"url":"https://a.com/f","actions":[{"do":"page","url":"https://a.com/p"}]},
{"url":"https://a.com/p","actions":[{"do":"raw","message":{"is":"navigate","frame":0,"url":"https://a.com/x"}},
{"do":"navigate","frame":"opener","url":"https://a.com/y"}]}]}"#,
        "history 2
open 0
order 0 0 https://a.com https://a.com https://a.com/
commit 0 0 https://a.com 68747470733a2f2f612e636f6d2f => ok
said 0 0 0 0 frame plain url 68747470733a2f2f612e636f6d2f66 => ok
order 1 0 https://a.com https://a.com https://a.com/f
commit 0 1 https://a.com 68747470733a2f2f612e636f6d2f66 => ok
said 0 1 0 1 page 68747470733a2f2f612e636f6d2f70 => ok
order 2 0 https://a.com https://a.com https://a.com/p
commit 0 2 https://a.com 68747470733a2f2f612e636f6d2f70 => ok
said 0 2 0 2 navigate 0 https://a.com 68747470733a2f2f612e636f6d2f78 => deny N1
said 0 2 1 2 navigate 1 https://a.com 68747470733a2f2f612e636f6d2f79 => ok
order 3 0 https://a.com https://a.com https://a.com/y
commit 0 3 https://a.com 68747470733a2f2f612e636f6d2f79 => ok
",
    ),
    // It posts to both by name.
    (
        "a frame of an opened page has its page's top and opener",
        r#"{"start":["https://a.com/"],"resources":[
{"url":"https://a.com/","actions":[{"do":"page","url":"https://a.com/p"},{"do":"recv"}]},
{"url":"https://a.com/p","actions":[{"do":"frame","src":"https://a.com/f"},{"do":"recv"}]},
{"url":"https://a.com/f","actions":[{"do":"post","frame":"opener","target":"/","text":"o"},
{"do":"post","frame":"top","target":"/","text":"t"}]}]}"#,
        "history 2
open 0
order 0 0 https://a.com https://a.com https://a.com/
commit 0 0 https://a.com 68747470733a2f2f612e636f6d2f => ok
said 0 0 0 0 page 68747470733a2f2f612e636f6d2f70 => ok
order 1 0 https://a.com https://a.com https://a.com/p
commit 0 1 https://a.com 68747470733a2f2f612e636f6d2f70 => ok
said 0 1 0 1 frame plain url 68747470733a2f2f612e636f6d2f66 => ok
order 2 0 https://a.com https://a.com https://a.com/f
commit 0 2 https://a.com 68747470733a2f2f612e636f6d2f66 => ok
said 0 2 0 2 post 0 / https://a.com 6f => ok
said 0 2 1 2 post 1 / https://a.com 74 => ok
local 0 0 1 took https://a.com 6f
local 0 1 1 took https://a.com 74
",
    ),
    // It can't be removed, nor named by a place among the children.
    (
        "an opened page is no child of its opener",
        r#"{"start":["https://a.com/"],"resources":[{"url":"https://a.com/","actions":[
{"do":"page","url":"https://a.com/2"},{"do":"wait"},{"do":"remove","child":0},
{"do":"raw","message":{"is":"navigate","frame":1,"url":"https://a.com/3"}},
{"do":"raw","message":{"is":"remove","frame":1}}]}]}"#,
        "history 2
open 0
order 0 0 https://a.com https://a.com https://a.com/
commit 0 0 https://a.com 68747470733a2f2f612e636f6d2f => ok
said 0 0 0 0 page 68747470733a2f2f612e636f6d2f32 => ok
order 1 0 https://a.com https://a.com https://a.com/2
commit 0 1 https://a.com 68747470733a2f2f612e636f6d2f32 => ok
local 0 0 1 waited
local 0 0 2 skipped
said 0 0 3 0 navigate 1 https://a.com 68747470733a2f2f612e636f6d2f33 => deny N1
said 0 0 4 0 remove 1 => kill K5
",
    ),
    // A `data:` page has an opaque origin of its site; both stay in its process.
    (
        "an opened blank page has the origin of its opener's document",
        r#"{"start":["https://a.com/"],"resources":[{"url":"https://a.com/","actions":[
{"do":"page","url":"about:blank"},{"do":"page","url":"data:,x"}]}]}"#,
        "history 2
open 0
order 0 0 https://a.com https://a.com https://a.com/
commit 0 0 https://a.com 68747470733a2f2f612e636f6d2f => ok
said 0 0 0 0 page 61626f75743a626c616e6b => ok
order 1 0 https://a.com https://a.com about:blank
said 0 0 1 0 page 646174613a2c78 => ok
order 2 0 https://a.com opaque:2:https://a.com data:,x
commit 0 1 https://a.com 61626f75743a626c616e6b => ok
commit 0 2 opaque:2:https://a.com 646174613a2c78 => ok
",
    ),
    // Nor does a frame within it.
    (
        "a sandboxed frame opens no page",
        r#"{"start":["https://a.com/"],"resources":[
{"url":"https://a.com/","actions":[{"do":"frame","src":"https://a.com/f","sandbox":true}]},
{"url":"https://a.com/f","actions":[{"do":"page","url":"https://a.com/p"},{"do":"frame","src":"https://a.com/g"}]},
{"url":"https://a.com/g","actions":[{"do":"page","url":"https://a.com/p"}]}]}"#,
        "history 2
open 0
order 0 0 https://a.com https://a.com https://a.com/
commit 0 0 https://a.com 68747470733a2f2f612e636f6d2f => ok
said 0 0 0 0 frame sandboxed url 68747470733a2f2f612e636f6d2f66 => ok
order 1 0 https://a.com opaque:1:https://a.com https://a.com/f
commit 0 1 opaque:1:https://a.com 68747470733a2f2f612e636f6d2f66 => ok
said 0 1 0 1 page 68747470733a2f2f612e636f6d2f70 => deny N9
said 0 1 1 1 frame plain url 68747470733a2f2f612e636f6d2f67 => ok
order 2 0 https://a.com opaque:2:https://a.com https://a.com/g
commit 0 2 opaque:2:https://a.com 68747470733a2f2f612e636f6d2f67 => ok
said 0 2 0 2 page 68747470733a2f2f612e636f6d2f70 => deny N9
",
    ),
    // It shares the first page's process, and posts to its frame by number.
    (
        "a page that an opened page opens is in the same group",
        r#"{"start":["https://a.com/"],"resources":[
{"url":"https://a.com/","actions":[{"do":"page","url":"https://b.com/"},{"do":"recv"}]},
{"url":"https://b.com/","actions":[{"do":"page","url":"https://a.com/3"}]},
{"url":"https://a.com/3","actions":[{"do":"raw","message":{"is":"post","frame":0,"target":"/","text":"hi"}}]}]}"#,
        "history 2
open 0
order 0 0 https://a.com https://a.com https://a.com/
commit 0 0 https://a.com 68747470733a2f2f612e636f6d2f => ok
said 0 0 0 0 page 68747470733a2f2f622e636f6d2f => ok
order 1 1 https://b.com https://b.com https://b.com/
commit 1 1 https://b.com 68747470733a2f2f622e636f6d2f => ok
said 1 1 0 1 page 68747470733a2f2f612e636f6d2f33 => ok
order 2 0 https://a.com https://a.com https://a.com/3
commit 0 2 https://a.com 68747470733a2f2f612e636f6d2f33 => ok
said 0 2 0 2 post 0 / https://a.com 6869 => ok
local 0 0 1 took https://a.com 6869
",
    ),
];

#[test]
fn groups_run_as_written(rt: HostRuntime) -> Result<(), Fail> {
    assert_runs_as_written(&rt, rt.alloc(), ROWS)
}
