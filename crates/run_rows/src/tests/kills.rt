//! Forged messages: what kills their process, and what it takes with it.

use super::{Row, assert_runs_as_written};
use std::test::Fail;

const ROWS: &[Row] = &[
    // K1 comes before all else that the message says.
    (
        "a message for a document that was never there",
        r#"{"start":["https://a.com/"],"resources":[{"url":"https://a.com/","actions":[
{"do":"raw","message":{"is":"remove","document":7,"frame":1}}]}]}"#,
        "history 2
open 0
order 0 0 https://a.com https://a.com https://a.com/
commit 0 0 https://a.com 68747470733a2f2f612e636f6d2f => ok
said 0 0 0 7 remove 1 => kill K1
",
    ),
    // The page's frames go with it, and so the other process ends.
    (
        "a message for a document of another process",
        r#"{"start":["https://a.com/"],"resources":[{"url":"https://a.com/","actions":[
{"do":"frame","src":"https://b.com/"},{"do":"wait"},
{"do":"raw","message":{"is":"frame","document":1,"src":"about:blank"}}]}]}"#,
        "history 2
open 0
order 0 0 https://a.com https://a.com https://a.com/
commit 0 0 https://a.com 68747470733a2f2f612e636f6d2f => ok
said 0 0 0 0 frame plain url 68747470733a2f2f622e636f6d2f => ok
order 1 1 https://b.com https://b.com https://b.com/
commit 1 1 https://b.com 68747470733a2f2f622e636f6d2f => ok
local 0 0 1 waited
said 0 0 2 1 frame plain url 61626f75743a626c616e6b => kill K1
exit 1
",
    ),
    // The order is the process's own, and the document not yet.
    (
        "a message for a document that has not committed",
        r#"{"start":["https://a.com/"],"resources":[{"url":"https://a.com/","actions":[
{"do":"frame","src":"https://a.com/f"},{"do":"raw","message":{"is":"page","document":1,"url":"https://a.com/2"}}]}]}"#,
        "history 2
open 0
order 0 0 https://a.com https://a.com https://a.com/
commit 0 0 https://a.com 68747470733a2f2f612e636f6d2f => ok
said 0 0 0 0 frame plain url 68747470733a2f2f612e636f6d2f66 => ok
order 1 0 https://a.com https://a.com https://a.com/f
said 0 0 1 1 page 68747470733a2f2f612e636f6d2f32 => kill K1
",
    ),
    // K2.
    (
        "a navigation with an initiator of another site",
        r#"{"start":["https://a.com/"],"resources":[{"url":"https://a.com/","actions":[
{"do":"raw","message":{"is":"navigate","frame":0,"url":"https://a.com/2","initiator":"https://b.com/"}}]}]}"#,
        "history 2
open 0
order 0 0 https://a.com https://a.com https://a.com/
commit 0 0 https://a.com 68747470733a2f2f612e636f6d2f => ok
said 0 0 0 0 navigate 0 https://b.com 68747470733a2f2f612e636f6d2f32 => kill K2
",
    ),
    // Sites go by the scheme too.
    (
        "a navigation with an initiator of another scheme",
        r#"{"start":["https://a.com/"],"resources":[{"url":"https://a.com/","actions":[
{"do":"raw","message":{"is":"navigate","frame":0,"url":"https://a.com/2","initiator":"http://a.com/"}}]}]}"#,
        "history 2
open 0
order 0 0 https://a.com https://a.com https://a.com/
commit 0 0 https://a.com 68747470733a2f2f612e636f6d2f => ok
said 0 0 0 0 navigate 0 http://a.com 68747470733a2f2f612e636f6d2f32 => kill K2
",
    ),
    // K2 stands before K4.
    (
        "a navigation's initiator is asked before its frame",
        r#"{"start":["https://a.com/"],"resources":[{"url":"https://a.com/","actions":[
{"do":"raw","message":{"is":"navigate","frame":9,"url":"https://a.com/2","initiator":"https://b.com/"}}]}]}"#,
        "history 2
open 0
order 0 0 https://a.com https://a.com https://a.com/
commit 0 0 https://a.com 68747470733a2f2f612e636f6d2f => ok
said 0 0 0 0 navigate 9 https://b.com 68747470733a2f2f612e636f6d2f32 => kill K2
",
    ),
    // K3 goes by the origin: another host of the same site is killed too.
    (
        "a request with an initiator of another origin",
        r#"{"start":["https://a.com/"],"resources":[{"url":"https://a.com/","actions":[
{"do":"raw","message":{"is":"fetch","url":"https://a.com/2","mode":"cors","initiator":"https://sub.a.com/"}}]}]}"#,
        "history 2
open 0
order 0 0 https://a.com https://a.com https://a.com/
commit 0 0 https://a.com 68747470733a2f2f612e636f6d2f => ok
said 0 0 0 0 fetch cors https://sub.a.com 68747470733a2f2f612e636f6d2f32 => kill K3
",
    ),
    // The document's own origin is opaque.
    (
        "a request of a sandboxed frame that claims its host's origin",
        r#"{"start":["https://a.com/"],"resources":[
{"url":"https://a.com/","actions":[{"do":"frame","src":"https://a.com/f","sandbox":true}]},
{"url":"https://a.com/f","actions":[
{"do":"raw","message":{"is":"fetch","url":"https://a.com/2","mode":"cors","initiator":"https://a.com/"}}]}]}"#,
        "history 2
open 0
order 0 0 https://a.com https://a.com https://a.com/
commit 0 0 https://a.com 68747470733a2f2f612e636f6d2f => ok
said 0 0 0 0 frame sandboxed url 68747470733a2f2f612e636f6d2f66 => ok
order 1 0 https://a.com opaque:1:https://a.com https://a.com/f
commit 0 1 opaque:1:https://a.com 68747470733a2f2f612e636f6d2f66 => ok
said 0 1 0 1 fetch cors https://a.com 68747470733a2f2f612e636f6d2f32 => kill K3
",
    ),
    // A claim of the document's own origin is the message without it.
    (
        "a request with a true claim",
        r#"{"start":["https://a.com/"],"resources":[{"url":"https://a.com/","actions":[
{"do":"raw","message":{"is":"fetch","document":0,"url":"https://a.com/2","mode":"cors","initiator":"https://a.com:443/x"}}]}]}"#,
        "history 2
open 0
order 0 0 https://a.com https://a.com https://a.com/
commit 0 0 https://a.com 68747470733a2f2f612e636f6d2f => ok
said 0 0 0 0 fetch cors https://a.com 68747470733a2f2f612e636f6d2f32 => ok
head 0 A1
end 0 whole
",
    ),
    // K4 for a navigation.
    (
        "a frame that was never made",
        r#"{"start":["https://a.com/"],"resources":[{"url":"https://a.com/","actions":[
{"do":"raw","message":{"is":"navigate","frame":9,"url":"https://a.com/2"}}]}]}"#,
        "history 2
open 0
order 0 0 https://a.com https://a.com https://a.com/
commit 0 0 https://a.com 68747470733a2f2f612e636f6d2f => ok
said 0 0 0 0 navigate 9 https://a.com 68747470733a2f2f612e636f6d2f32 => kill K4
",
    ),
    // The two start pages have no common group; the second goes on.
    (
        "a frame of another group",
        r#"{"start":["https://a.com/","https://b.com/"],"resources":[{"url":"https://a.com/","actions":[
{"do":"raw","message":{"is":"navigate","frame":1,"url":"https://a.com/2"}}]}]}"#,
        "history 2
open 0
open 1
order 0 0 https://a.com https://a.com https://a.com/
order 1 1 https://b.com https://b.com https://b.com/
commit 0 0 https://a.com 68747470733a2f2f612e636f6d2f => ok
said 0 0 0 0 navigate 1 https://a.com 68747470733a2f2f612e636f6d2f32 => kill K4
commit 1 1 https://b.com 68747470733a2f2f622e636f6d2f => ok
",
    ),
    // K4 for a post, from the second page to the first.
    (
        "a post to a frame of another group",
        r#"{"start":["https://a.com/","https://b.com/"],"resources":[{"url":"https://b.com/","actions":[
{"do":"raw","message":{"is":"post","frame":0,"target":"*","text":"x"}}]}]}"#,
        "history 2
open 0
open 1
order 0 0 https://a.com https://a.com https://a.com/
order 1 1 https://b.com https://b.com https://b.com/
commit 0 0 https://a.com 68747470733a2f2f612e636f6d2f => ok
commit 1 1 https://b.com 68747470733a2f2f622e636f6d2f => ok
said 1 1 0 1 post 0 * https://b.com 78 => kill K4
",
    ),
    // K5: a frame is no child of itself.
    (
        "the removal of the own frame",
        r#"{"start":["https://a.com/"],"resources":[{"url":"https://a.com/","actions":[
{"do":"raw","message":{"is":"remove","frame":0}}]}]}"#,
        "history 2
open 0
order 0 0 https://a.com https://a.com https://a.com/
commit 0 0 https://a.com 68747470733a2f2f612e636f6d2f => ok
said 0 0 0 0 remove 0 => kill K5
",
    ),
    // K5: only the document's own children may be removed.
    (
        "the removal of a frame's frame",
        r#"{"start":["https://a.com/"],"resources":[
{"url":"https://a.com/","actions":[{"do":"frame","src":"https://a.com/f"},{"do":"recv"},
{"do":"raw","message":{"is":"remove","frame":2}}]},
{"url":"https://a.com/f","actions":[{"do":"frame","src":"https://a.com/g"},
{"do":"post","frame":"parent","target":"*","text":"x"}]}]}"#,
        "history 2
open 0
order 0 0 https://a.com https://a.com https://a.com/
commit 0 0 https://a.com 68747470733a2f2f612e636f6d2f => ok
said 0 0 0 0 frame plain url 68747470733a2f2f612e636f6d2f66 => ok
order 1 0 https://a.com https://a.com https://a.com/f
commit 0 1 https://a.com 68747470733a2f2f612e636f6d2f66 => ok
said 0 1 0 1 frame plain url 68747470733a2f2f612e636f6d2f67 => ok
order 2 0 https://a.com https://a.com https://a.com/g
said 0 1 1 1 post 0 * https://a.com 78 => ok
commit 0 2 https://a.com 68747470733a2f2f612e636f6d2f67 => ok
local 0 0 1 took https://a.com 78
said 0 0 2 0 remove 2 => kill K5
",
    ),
    // K6.
    (
        "a post with a source of another origin",
        r#"{"start":["https://a.com/"],"resources":[{"url":"https://a.com/","actions":[
{"do":"raw","message":{"is":"post","frame":0,"target":"*","source":"https://b.com/","text":"x"}}]}]}"#,
        "history 2
open 0
order 0 0 https://a.com https://a.com https://a.com/
commit 0 0 https://a.com 68747470733a2f2f612e636f6d2f => ok
said 0 0 0 0 post 0 * https://b.com 78 => kill K6
",
    ),
    // K6 stands before K4, and goes by the origin with its port.
    (
        "a post's source is asked before its frame",
        r#"{"start":["https://a.com/"],"resources":[{"url":"https://a.com/","actions":[
{"do":"raw","message":{"is":"post","frame":9,"target":"*","source":"https://a.com:8443/","text":"x"}}]}]}"#,
        "history 2
open 0
order 0 0 https://a.com https://a.com https://a.com/
commit 0 0 https://a.com 68747470733a2f2f612e636f6d2f => ok
said 0 0 0 0 post 9 * https://a.com:8443 78 => kill K6
",
    ),
    // K7.
    (
        "a question as an origin of another site",
        r#"{"start":["https://a.com/"],"resources":[{"url":"https://a.com/","actions":[
{"do":"raw","message":{"is":"ask","service":"store","origin":"https://b.com/","request":"get k"}}]}]}"#,
        "history 2
open 0
order 0 0 https://a.com https://a.com https://a.com/
commit 0 0 https://a.com 68747470733a2f2f612e636f6d2f => ok
said 0 0 0 0 ask 73746f7265 https://b.com 676574206b => kill K7
",
    ),
    // K8.
    (
        "a commit of a navigation that was never",
        r#"{"start":["https://a.com/"],"resources":[{"url":"https://a.com/","actions":[
{"do":"raw","message":{"is":"commit","nav":5,"url":"https://a.com/","origin":"https://a.com/"}}]}]}"#,
        "history 2
open 0
order 0 0 https://a.com https://a.com https://a.com/
commit 0 0 https://a.com 68747470733a2f2f612e636f6d2f => ok
said 0 0 0 0 commit 5 https://a.com 68747470733a2f2f612e636f6d2f => kill K8
",
    ),
    // K8, though URL and origin are the order's; the frame goes with the page.
    (
        "a commit of another process's navigation",
        r#"{"start":["https://a.com/"],"resources":[{"url":"https://a.com/","actions":[
{"do":"frame","src":"https://b.com/"},
{"do":"raw","message":{"is":"commit","nav":1,"url":"https://b.com/","origin":"https://b.com/"}}]}]}"#,
        "history 2
open 0
order 0 0 https://a.com https://a.com https://a.com/
commit 0 0 https://a.com 68747470733a2f2f612e636f6d2f => ok
said 0 0 0 0 frame plain url 68747470733a2f2f622e636f6d2f => ok
order 1 1 https://b.com https://b.com https://b.com/
said 0 0 1 0 commit 1 https://b.com 68747470733a2f2f622e636f6d2f => kill K8
commit 1 1 https://b.com 68747470733a2f2f622e636f6d2f => drop G3
exit 1
",
    ),
    // K9.
    (
        "a commit with another URL",
        r#"{"start":["https://a.com/"],"resources":[{"url":"https://a.com/","actions":[
{"do":"frame","src":"https://a.com/f"},
{"do":"raw","message":{"is":"commit","nav":1,"url":"https://bank.com/","origin":"https://bank.com/"}}]}]}"#,
        "history 2
open 0
order 0 0 https://a.com https://a.com https://a.com/
commit 0 0 https://a.com 68747470733a2f2f612e636f6d2f => ok
said 0 0 0 0 frame plain url 68747470733a2f2f612e636f6d2f66 => ok
order 1 0 https://a.com https://a.com https://a.com/f
said 0 0 1 0 commit 1 https://bank.com 68747470733a2f2f62616e6b2e636f6d2f => kill K9
",
    ),
    // The order's origin does not help, and a fragment makes another URL.
    (
        "a commit's URL is compared as a text",
        r#"{"start":["https://a.com/"],"resources":[{"url":"https://a.com/","actions":[
{"do":"frame","src":"https://a.com/f"},
{"do":"raw","message":{"is":"commit","nav":1,"url":"https://a.com/f#x","origin":"https://a.com/"}}]}]}"#,
        "history 2
open 0
order 0 0 https://a.com https://a.com https://a.com/
commit 0 0 https://a.com 68747470733a2f2f612e636f6d2f => ok
said 0 0 0 0 frame plain url 68747470733a2f2f612e636f6d2f66 => ok
order 1 0 https://a.com https://a.com https://a.com/f
said 0 0 1 0 commit 1 https://a.com 68747470733a2f2f612e636f6d2f662378 => kill K9
",
    ),
    // Both start pages are ordered to one process, and the second never commits.
    (
        "a kill takes the other pages of its process",
        r#"{"soft_limit":0,"start":["https://a.com/","https://a.com/g"],"resources":[{"url":"https://a.com/","actions":[
{"do":"frame","src":"https://a.com/f"},
{"do":"raw","message":{"is":"commit","nav":2,"url":"https://bank.com/","origin":"https://bank.com/"}}]}]}"#,
        "history 2
open 0
open 1
order 0 0 https://a.com https://a.com https://a.com/
order 1 0 https://a.com https://a.com https://a.com/g
commit 0 0 https://a.com 68747470733a2f2f612e636f6d2f => ok
said 0 0 0 0 frame plain url 68747470733a2f2f612e636f6d2f66 => ok
order 2 0 https://a.com https://a.com https://a.com/f
said 0 0 1 0 commit 2 https://bank.com 68747470733a2f2f62616e6b2e636f6d2f => kill K9
",
    ),
    // K10: the order's origin is opaque.
    (
        "a commit of a sandboxed frame with its page's origin",
        r#"{"start":["https://a.com/"],"resources":[{"url":"https://a.com/","actions":[
{"do":"frame","src":"about:blank","sandbox":true},
{"do":"raw","message":{"is":"commit","nav":1,"url":"about:blank","origin":"https://a.com/"}}]}]}"#,
        "history 2
open 0
order 0 0 https://a.com https://a.com https://a.com/
commit 0 0 https://a.com 68747470733a2f2f612e636f6d2f => ok
said 0 0 0 0 frame sandboxed url 61626f75743a626c616e6b => ok
order 1 0 https://a.com opaque:1:https://a.com about:blank
said 0 0 1 0 commit 1 https://a.com 61626f75743a626c616e6b => kill K10
",
    ),
    // K10 goes by the origin, and not by what the lock admits.
    (
        "a commit with another origin of the lock's site",
        r#"{"start":["https://a.com/"],"resources":[{"url":"https://a.com/","actions":[
{"do":"frame","src":"https://a.com/f"},
{"do":"raw","message":{"is":"commit","nav":1,"url":"https://a.com/f","origin":"https://sub.a.com/"}}]}]}"#,
        "history 2
open 0
order 0 0 https://a.com https://a.com https://a.com/
commit 0 0 https://a.com 68747470733a2f2f612e636f6d2f => ok
said 0 0 0 0 frame plain url 68747470733a2f2f612e636f6d2f66 => ok
order 1 0 https://a.com https://a.com https://a.com/f
said 0 0 1 0 commit 1 https://sub.a.com 68747470733a2f2f612e636f6d2f66 => kill K10
",
    ),
    // Whoever tells it commits the document; the frame's own answer then comes late.
    (
        "a commit that tells the truth",
        r#"{"start":["https://a.com/"],"resources":[{"url":"https://a.com/","actions":[
{"do":"frame","src":"https://a.com/f"},
{"do":"raw","message":{"is":"commit","nav":1,"url":"https://a.com/f","origin":"https://a.com/"}},
{"do":"post","frame":"child 0","target":"/","text":"x"}]},
{"url":"https://a.com/f","actions":[{"do":"recv"}]}]}"#,
        "history 2
open 0
order 0 0 https://a.com https://a.com https://a.com/
commit 0 0 https://a.com 68747470733a2f2f612e636f6d2f => ok
said 0 0 0 0 frame plain url 68747470733a2f2f612e636f6d2f66 => ok
order 1 0 https://a.com https://a.com https://a.com/f
said 0 0 1 0 commit 1 https://a.com 68747470733a2f2f612e636f6d2f66 => ok
said 0 0 2 0 post 1 / https://a.com 78 => ok
commit 0 1 https://a.com 68747470733a2f2f612e636f6d2f66 => drop G3
local 0 1 0 took https://a.com 78
",
    ),
    // Neither a document that never was nor one of another process is asked for.
    (
        "a commit does not go by the document that it names",
        r#"{"start":["https://a.com/"],"resources":[{"url":"https://a.com/","actions":[
{"do":"frame","src":"https://a.com/f"},
{"do":"raw","message":{"is":"commit","document":9,"nav":1,"url":"https://a.com/f","origin":"https://a.com/"}}]}]}"#,
        "history 2
open 0
order 0 0 https://a.com https://a.com https://a.com/
commit 0 0 https://a.com 68747470733a2f2f612e636f6d2f => ok
said 0 0 0 0 frame plain url 68747470733a2f2f612e636f6d2f66 => ok
order 1 0 https://a.com https://a.com https://a.com/f
said 0 0 1 9 commit 1 https://a.com 68747470733a2f2f612e636f6d2f66 => ok
commit 0 1 https://a.com 68747470733a2f2f612e636f6d2f66 => drop G3
",
    ),
    // The second claim comes late, whatever it says: G3 stands before K9 and K10.
    (
        "a navigation is committed once",
        r#"{"start":["https://a.com/"],"resources":[{"url":"https://a.com/","actions":[
{"do":"raw","message":{"is":"commit","nav":0,"url":"https://bank.com/","origin":"https://bank.com/"}},
{"do":"wait"}]}]}"#,
        "history 2
open 0
order 0 0 https://a.com https://a.com https://a.com/
commit 0 0 https://a.com 68747470733a2f2f612e636f6d2f => ok
said 0 0 0 0 commit 0 https://bank.com 68747470733a2f2f62616e6b2e636f6d2f => drop G3
local 0 0 1 waited
",
    ),
    // G3 stands before K9, and the page goes on.
    (
        "a forged commit of a replaced order is late",
        r#"{"start":["https://a.com/"],"resources":[{"url":"https://a.com/","actions":[
{"do":"frame","src":"https://a.com/f"},{"do":"navigate","frame":"child 0","url":"https://a.com/g"},
{"do":"raw","message":{"is":"commit","nav":1,"url":"https://bank.com/","origin":"https://bank.com/"}}]}]}"#,
        "history 2
open 0
order 0 0 https://a.com https://a.com https://a.com/
commit 0 0 https://a.com 68747470733a2f2f612e636f6d2f => ok
said 0 0 0 0 frame plain url 68747470733a2f2f612e636f6d2f66 => ok
order 1 0 https://a.com https://a.com https://a.com/f
said 0 0 1 0 navigate 1 https://a.com 68747470733a2f2f612e636f6d2f67 => ok
order 2 0 https://a.com https://a.com https://a.com/g
said 0 0 2 0 commit 1 https://bank.com 68747470733a2f2f62616e6b2e636f6d2f => drop G3
commit 0 1 https://a.com 68747470733a2f2f612e636f6d2f66 => drop G3
commit 0 2 https://a.com 68747470733a2f2f612e636f6d2f67 => ok
",
    ),
    // The page's later post finds no document in the frame.
    (
        "a killed frame's process leaves the page alone",
        r#"{"start":["https://a.com/"],"resources":[
{"url":"https://a.com/","actions":[{"do":"frame","src":"https://b.com/"},{"do":"wait"},
{"do":"post","frame":"child 0","target":"*","text":"x"}]},
{"url":"https://b.com/","actions":[
{"do":"raw","message":{"is":"ask","service":"store","origin":"https://a.com/","request":"get k"}}]}]}"#,
        "history 2
open 0
order 0 0 https://a.com https://a.com https://a.com/
commit 0 0 https://a.com 68747470733a2f2f612e636f6d2f => ok
said 0 0 0 0 frame plain url 68747470733a2f2f622e636f6d2f => ok
order 1 1 https://b.com https://b.com https://b.com/
commit 1 1 https://b.com 68747470733a2f2f622e636f6d2f => ok
said 1 1 0 1 ask 73746f7265 https://a.com 676574206b => kill K7
local 0 0 1 waited
said 0 0 2 0 post 1 * https://a.com 78 => drop M1
",
    ),
];

#[test]
fn kills_run_as_written(rt: HostRuntime) -> Result<(), Fail> {
    assert_runs_as_written(&rt, rt.alloc(), ROWS)
}
