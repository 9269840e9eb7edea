//! Posts: their targets, who takes them and when.

use super::{Row, assert_runs_as_written};
use std::test::Fail;

const ROWS: &[Row] = &[
    // The frame is there, without a document.
    (
        "a post to a frame whose process crashed",
        r#"{"start":["https://a.com/"],"resources":[
{"url":"https://a.com/","actions":[{"do":"frame","src":"https://b.com/"},{"do":"wait"},
{"do":"post","frame":"child 0","target":"*","text":"hi"}]},
{"url":"https://b.com/","actions":[{"do":"crash"}]}]}"#,
        "history 2
open 0
order 0 0 https://a.com https://a.com https://a.com/
commit 0 0 https://a.com 68747470733a2f2f612e636f6d2f => ok
said 0 0 0 0 frame plain url 68747470733a2f2f622e636f6d2f => ok
order 1 1 https://b.com https://b.com https://b.com/
commit 1 1 https://b.com 68747470733a2f2f622e636f6d2f => ok
crash 1
local 0 0 1 waited
said 0 0 2 0 post 1 * https://a.com 6869 => drop M1
",
    ),
    // Any, the sender's own origin, the receiver's, the sender's by name; a target's path and own port do not count.
    (
        "each target, at a receiver of another site",
        r#"{"start":["https://a.com/"],"resources":[
{"url":"https://a.com/","actions":[{"do":"frame","src":"https://b.com/"},{"do":"wait"},
{"do":"post","frame":"child 0","target":"*","text":"1"},{"do":"post","frame":"child 0","target":"/","text":"2"},
{"do":"post","frame":"child 0","target":"https://b.com:443/any/path","text":"3"},
{"do":"post","frame":"child 0","target":"https://a.com/","text":"4"},
{"do":"post","frame":"child 0","target":"https://b.com:8443/","text":"5"}]},
{"url":"https://b.com/","actions":[{"do":"recv"},{"do":"recv"},{"do":"recv"}]}]}"#,
        "history 2
open 0
order 0 0 https://a.com https://a.com https://a.com/
commit 0 0 https://a.com 68747470733a2f2f612e636f6d2f => ok
said 0 0 0 0 frame plain url 68747470733a2f2f622e636f6d2f => ok
order 1 1 https://b.com https://b.com https://b.com/
commit 1 1 https://b.com 68747470733a2f2f622e636f6d2f => ok
local 0 0 1 waited
said 0 0 2 0 post 1 * https://a.com 31 => ok
said 0 0 3 0 post 1 / https://a.com 32 => drop M2
said 0 0 4 0 post 1 https://b.com https://a.com 33 => ok
said 0 0 5 0 post 1 https://a.com https://a.com 34 => drop M2
said 0 0 6 0 post 1 https://b.com:8443 https://a.com 35 => drop M2
local 1 1 0 took https://a.com 31
local 1 1 1 took https://a.com 33
",
    ),
    // A receiver of the same site and another host is another origin; both pages are in one process.
    (
        "the own origin as a target goes by the origin",
        r#"{"start":["https://a.com/"],"resources":[{"url":"https://a.com/","actions":[
{"do":"frame","src":"https://a.com/f"},{"do":"frame","src":"https://sub.a.com/"},{"do":"wait"},
{"do":"post","frame":"child 0","target":"/","text":"x"},{"do":"post","frame":"child 1","target":"/","text":"x"}]}]}"#,
        "history 2
open 0
order 0 0 https://a.com https://a.com https://a.com/
commit 0 0 https://a.com 68747470733a2f2f612e636f6d2f => ok
said 0 0 0 0 frame plain url 68747470733a2f2f612e636f6d2f66 => ok
order 1 0 https://a.com https://a.com https://a.com/f
said 0 0 1 0 frame plain url 68747470733a2f2f7375622e612e636f6d2f => ok
order 2 0 https://a.com https://sub.a.com https://sub.a.com/
commit 0 1 https://a.com 68747470733a2f2f612e636f6d2f66 => ok
commit 0 2 https://sub.a.com 68747470733a2f2f7375622e612e636f6d2f => ok
local 0 0 2 waited
said 0 0 3 0 post 1 / https://a.com 78 => ok
said 0 0 4 0 post 2 / https://a.com 78 => drop M2
",
    ),
    // The page has nothing to take until the frame has posted; the third take waits for ever.
    (
        "posts are taken in order",
        r#"{"start":["https://a.com/"],"resources":[
{"url":"https://a.com/","actions":[{"do":"frame","src":"https://b.com/"},{"do":"recv"},{"do":"recv"},{"do":"recv"},
{"do":"crash"}]},
{"url":"https://b.com/","actions":[{"do":"post","frame":"parent","target":"*","text":"one"},
{"do":"post","frame":"parent","target":"*","text":"two"}]}]}"#,
        "history 2
open 0
order 0 0 https://a.com https://a.com https://a.com/
commit 0 0 https://a.com 68747470733a2f2f612e636f6d2f => ok
said 0 0 0 0 frame plain url 68747470733a2f2f622e636f6d2f => ok
order 1 1 https://b.com https://b.com https://b.com/
commit 1 1 https://b.com 68747470733a2f2f622e636f6d2f => ok
said 1 1 0 1 post 0 * https://b.com 6f6e65 => ok
said 1 1 1 1 post 0 * https://b.com 74776f => ok
local 0 0 1 took https://b.com 6f6e65
local 0 0 2 took https://b.com 74776f
",
    ),
    // One inbox for all senders; the frames commit in the order of their processes.
    (
        "posts of two senders are taken in the order of their coming",
        r#"{"start":["https://a.com/"],"resources":[
{"url":"https://a.com/","actions":[{"do":"frame","src":"https://c.com/"},{"do":"frame","src":"https://b.com/"},
{"do":"recv"},{"do":"recv"}]},
{"url":"https://b.com/","actions":[{"do":"post","frame":"top","target":"*","text":"b"}]},
{"url":"https://c.com/","actions":[{"do":"post","frame":"top","target":"*","text":"c"}]}]}"#,
        "history 2
open 0
order 0 0 https://a.com https://a.com https://a.com/
commit 0 0 https://a.com 68747470733a2f2f612e636f6d2f => ok
said 0 0 0 0 frame plain url 68747470733a2f2f632e636f6d2f => ok
order 1 1 https://c.com https://c.com https://c.com/
said 0 0 1 0 frame plain url 68747470733a2f2f622e636f6d2f => ok
order 2 2 https://b.com https://b.com https://b.com/
commit 1 1 https://c.com 68747470733a2f2f632e636f6d2f => ok
said 1 1 0 1 post 0 * https://c.com 63 => ok
commit 2 2 https://b.com 68747470733a2f2f622e636f6d2f => ok
said 2 2 0 2 post 0 * https://b.com 62 => ok
local 0 0 2 took https://c.com 63
local 0 0 3 took https://b.com 62
",
    ),
    // What was posted before the new document committed is never taken.
    (
        "the inbox of a replaced document is gone",
        r#"{"start":["https://a.com/"],"resources":[
{"url":"https://a.com/","actions":[{"do":"frame","src":"https://b.com/"},{"do":"wait"},
{"do":"navigate","frame":"child 0","url":"https://b.com/2"},
{"do":"post","frame":"child 0","target":"*","text":"old"},{"do":"recv"},
{"do":"post","frame":"child 0","target":"*","text":"new"}]},
{"url":"https://b.com/2","actions":[{"do":"post","frame":"parent","target":"*","text":"up"},{"do":"recv"},{"do":"recv"}]}]}"#,
        "history 2
open 0
order 0 0 https://a.com https://a.com https://a.com/
commit 0 0 https://a.com 68747470733a2f2f612e636f6d2f => ok
said 0 0 0 0 frame plain url 68747470733a2f2f622e636f6d2f => ok
order 1 1 https://b.com https://b.com https://b.com/
commit 1 1 https://b.com 68747470733a2f2f622e636f6d2f => ok
local 0 0 1 waited
said 0 0 2 0 navigate 1 https://a.com 68747470733a2f2f622e636f6d2f32 => ok
order 2 1 https://b.com https://b.com https://b.com/2
said 0 0 3 0 post 1 * https://a.com 6f6c64 => ok
commit 1 2 https://b.com 68747470733a2f2f622e636f6d2f32 => ok
said 1 2 0 2 post 0 * https://b.com 7570 => ok
local 0 0 4 took https://b.com 7570
said 0 0 5 0 post 1 * https://a.com 6e6577 => ok
local 1 2 1 took https://a.com 6e6577
",
    ),
    // Its own frame by name, and an empty text.
    (
        "a document posts to itself",
        r#"{"start":["https://a.com/"],"resources":[{"url":"https://a.com/","actions":[
{"do":"post","frame":"self","target":"/","text":""},{"do":"post","frame":"top","target":"https://a.com/","text":"é"},
{"do":"recv"},{"do":"recv"}]}]}"#,
        "history 2
open 0
order 0 0 https://a.com https://a.com https://a.com/
commit 0 0 https://a.com 68747470733a2f2f612e636f6d2f => ok
said 0 0 0 0 post 0 / https://a.com - => ok
said 0 0 1 0 post 0 https://a.com https://a.com c3a9 => ok
local 0 0 2 took https://a.com -
local 0 0 3 took https://a.com c3a9
",
    ),
    // Only any target and the own origin reach it; its own origin is not its page's.
    (
        "an opaque origin sends and receives",
        r#"{"start":["https://a.com/"],"resources":[
{"url":"https://a.com/","actions":[{"do":"frame","src":"https://a.com/f","sandbox":true},{"do":"recv"},
{"do":"post","frame":"child 0","target":"https://a.com/","text":"1"},
{"do":"post","frame":"child 0","target":"/","text":"2"},{"do":"post","frame":"child 0","target":"*","text":"3"}]},
{"url":"https://a.com/f","actions":[{"do":"post","frame":"parent","target":"/","text":"4"},
{"do":"post","frame":"self","target":"/","text":"5"},{"do":"post","frame":"parent","target":"*","text":"6"},
{"do":"recv"},{"do":"recv"}]}]}"#,
        "history 2
open 0
order 0 0 https://a.com https://a.com https://a.com/
commit 0 0 https://a.com 68747470733a2f2f612e636f6d2f => ok
said 0 0 0 0 frame sandboxed url 68747470733a2f2f612e636f6d2f66 => ok
order 1 0 https://a.com opaque:1:https://a.com https://a.com/f
commit 0 1 opaque:1:https://a.com 68747470733a2f2f612e636f6d2f66 => ok
said 0 1 0 1 post 0 / opaque:1:https://a.com 34 => drop M2
said 0 1 1 1 post 1 / opaque:1:https://a.com 35 => ok
said 0 1 2 1 post 0 * opaque:1:https://a.com 36 => ok
local 0 0 1 took opaque:1:https://a.com 36
said 0 0 2 0 post 1 https://a.com https://a.com 31 => drop M2
said 0 0 3 0 post 1 / https://a.com 32 => drop M2
said 0 0 4 0 post 1 * https://a.com 33 => ok
local 0 1 3 took opaque:1:https://a.com 35
local 0 1 4 took https://a.com 33
",
    ),
    // Neither takes what is for the other's own origin.
    (
        "two sandboxed frames of one host have two origins",
        r#"{"start":["https://a.com/"],"resources":[
{"url":"https://a.com/","actions":[{"do":"frame","src":"https://a.com/f","sandbox":true},
{"do":"frame","src":"https://a.com/g","sandbox":true}]},
{"url":"https://a.com/g","actions":[{"do":"raw","message":{"is":"post","frame":1,"target":"/","text":"x"}},
{"do":"raw","message":{"is":"post","frame":1,"target":"*","text":"y"}}]},
{"url":"https://a.com/f","actions":[{"do":"recv"}]}]}"#,
        "history 2
open 0
order 0 0 https://a.com https://a.com https://a.com/
commit 0 0 https://a.com 68747470733a2f2f612e636f6d2f => ok
said 0 0 0 0 frame sandboxed url 68747470733a2f2f612e636f6d2f66 => ok
order 1 0 https://a.com opaque:1:https://a.com https://a.com/f
said 0 0 1 0 frame sandboxed url 68747470733a2f2f612e636f6d2f67 => ok
order 2 0 https://a.com opaque:2:https://a.com https://a.com/g
commit 0 1 opaque:1:https://a.com 68747470733a2f2f612e636f6d2f66 => ok
commit 0 2 opaque:2:https://a.com 68747470733a2f2f612e636f6d2f67 => ok
said 0 2 0 2 post 1 / opaque:2:https://a.com 78 => drop M2
said 0 2 1 2 post 1 * opaque:2:https://a.com 79 => ok
local 0 1 0 took opaque:2:https://a.com 79
",
    ),
    // Its target's own origin is that of the named document, and so is the source that must be told.
    (
        "a post in the name of another document of the process",
        r#"{"start":["https://a.com/"],"resources":[
{"url":"https://a.com/","actions":[{"do":"frame","src":"https://sub.a.com/"},{"do":"wait"},
{"do":"raw","message":{"is":"post","document":1,"frame":1,"target":"/","source":"https://sub.a.com/","text":"x"}},
{"do":"raw","message":{"is":"post","document":1,"frame":1,"target":"*","text":"y"}}]},
{"url":"https://sub.a.com/","actions":[{"do":"recv"}]}]}"#,
        "history 2
open 0
order 0 0 https://a.com https://a.com https://a.com/
commit 0 0 https://a.com 68747470733a2f2f612e636f6d2f => ok
said 0 0 0 0 frame plain url 68747470733a2f2f7375622e612e636f6d2f => ok
order 1 0 https://a.com https://sub.a.com https://sub.a.com/
commit 0 1 https://sub.a.com 68747470733a2f2f7375622e612e636f6d2f => ok
local 0 0 1 waited
said 0 0 2 1 post 1 / https://sub.a.com 78 => ok
said 0 0 3 1 post 1 * https://a.com 79 => kill K6
",
    ),
    // The document waits for ever, and does nothing behind it.
    (
        "a take before any post",
        r#"{"start":["https://a.com/"],"resources":[{"url":"https://a.com/","actions":[{"do":"recv"},{"do":"crash"}]}]}"#,
        "history 2
open 0
order 0 0 https://a.com https://a.com https://a.com/
commit 0 0 https://a.com 68747470733a2f2f612e636f6d2f => ok
",
    ),
];

#[test]
fn posts_run_as_written(rt: HostRuntime) -> Result<(), Fail> {
    assert_runs_as_written(&rt, rt.alloc(), ROWS)
}
