//! Messages that come late, and messages that are only not allowed.

use super::{Row, assert_runs_as_written};
use std::test::Fail;

const ROWS: &[Row] = &[
    // G1: the process had it, so the sender could not know.
    (
        "a message for a document that was replaced",
        r#"{"start":["https://a.com/"],"resources":[
{"url":"https://a.com/","actions":[{"do":"frame","src":"https://a.com/f"},{"do":"recv"},
{"do":"raw","message":{"is":"frame","document":1,"src":"about:blank"}}]},
{"url":"https://a.com/f","actions":[{"do":"navigate","frame":"self","url":"https://a.com/g"}]},
{"url":"https://a.com/g","actions":[{"do":"post","frame":"parent","target":"*","text":"new"}]}]}"#,
        "history 2
open 0
order 0 0 https://a.com https://a.com https://a.com/
commit 0 0 https://a.com 68747470733a2f2f612e636f6d2f => ok
said 0 0 0 0 frame plain url 68747470733a2f2f612e636f6d2f66 => ok
order 1 0 https://a.com https://a.com https://a.com/f
commit 0 1 https://a.com 68747470733a2f2f612e636f6d2f66 => ok
said 0 1 0 1 navigate 1 https://a.com 68747470733a2f2f612e636f6d2f67 => ok
order 2 0 https://a.com https://a.com https://a.com/g
commit 0 2 https://a.com 68747470733a2f2f612e636f6d2f67 => ok
said 0 2 0 2 post 0 * https://a.com 6e6577 => ok
local 0 0 1 took https://a.com 6e6577
said 0 0 2 1 frame plain url 61626f75743a626c616e6b => drop G1
",
    ),
    // G1 stands before K2 and K4.
    (
        "a late message is not looked into",
        r#"{"start":["https://a.com/"],"resources":[{"url":"https://a.com/","actions":[
{"do":"frame","src":"https://a.com/f"},{"do":"wait"},{"do":"remove","child":0},
{"do":"raw","message":{"is":"navigate","document":1,"frame":9,"url":"no","initiator":"https://b.com/"}}]}]}"#,
        "history 2
open 0
order 0 0 https://a.com https://a.com https://a.com/
commit 0 0 https://a.com 68747470733a2f2f612e636f6d2f => ok
said 0 0 0 0 frame plain url 68747470733a2f2f612e636f6d2f66 => ok
order 1 0 https://a.com https://a.com https://a.com/f
commit 0 1 https://a.com 68747470733a2f2f612e636f6d2f66 => ok
local 0 0 1 waited
said 0 0 2 0 remove 1 => ok
said 0 0 3 1 navigate 9 https://b.com 6e6f => drop G1
",
    ),
    // N2, for a frame, a page and a navigation: a word, a path without a page, no host, a port that is none.
    (
        "texts that are no URLs",
        r#"{"start":["https://a.com/"],"resources":[{"url":"https://a.com/","actions":[
{"do":"frame","src":"no"},{"do":"frame","src":"/f"},{"do":"page","url":"https://"},
{"do":"navigate","frame":"self","url":"https://a.com:99999/"},{"do":"frame","src":""}]}]}"#,
        "history 2
open 0
order 0 0 https://a.com https://a.com https://a.com/
commit 0 0 https://a.com 68747470733a2f2f612e636f6d2f => ok
said 0 0 0 0 frame plain url 6e6f => deny N2
said 0 0 1 0 frame plain url 2f66 => deny N2
said 0 0 2 0 page 68747470733a2f2f => deny N2
said 0 0 3 0 navigate 0 https://a.com 68747470733a2f2f612e636f6d3a39393939392f => deny N2
said 0 0 4 0 frame plain url - => deny N2
",
    ),
    // N3, `about:srcdoc` as a text among them.
    (
        "URLs of classes that are not loaded",
        r#"{"start":["https://a.com/"],"resources":[{"url":"https://a.com/","actions":[
{"do":"frame","src":"ftp://a.com/"},{"do":"frame","src":"about:srcdoc"},{"do":"page","url":"javascript:x"},
{"do":"navigate","frame":"self","url":"ws://a.com/"},{"do":"frame","src":"about:version"}]}]}"#,
        "history 2
open 0
order 0 0 https://a.com https://a.com https://a.com/
commit 0 0 https://a.com 68747470733a2f2f612e636f6d2f => ok
said 0 0 0 0 frame plain url 6674703a2f2f612e636f6d2f => deny N3
said 0 0 1 0 frame plain url 61626f75743a737263646f63 => deny N3
said 0 0 2 0 page 6a6176617363726970743a78 => deny N3
said 0 0 3 0 navigate 0 https://a.com 77733a2f2f612e636f6d2f => deny N3
said 0 0 4 0 frame plain url 61626f75743a76657273696f6e => deny N3
",
    ),
    // The message has the text, and the order what it serializes to.
    (
        "a URL that is sent is kept as it is written",
        r#"{"start":["https://a.com/"],"resources":[{"url":"https://a.com/","actions":[
{"do":"frame","src":"HTTPS://B.com:443"}]}]}"#,
        "history 2
open 0
order 0 0 https://a.com https://a.com https://a.com/
commit 0 0 https://a.com 68747470733a2f2f612e636f6d2f => ok
said 0 0 0 0 frame plain url 48545450533a2f2f422e636f6d3a343433 => ok
order 1 1 https://b.com https://b.com https://b.com/
commit 1 1 https://b.com 68747470733a2f2f622e636f6d2f => ok
",
    ),
    // N1 stands before N2.
    (
        "who may navigate is asked before the URL",
        r#"{"start":["https://a.com/"],"resources":[
{"url":"https://a.com/","actions":[{"do":"frame","src":"https://a.com/f","sandbox":true}]},
{"url":"https://a.com/f","actions":[{"do":"navigate","frame":"top","url":"no"},
{"do":"navigate","frame":"self","url":"no"}]}]}"#,
        "history 2
open 0
order 0 0 https://a.com https://a.com https://a.com/
commit 0 0 https://a.com 68747470733a2f2f612e636f6d2f => ok
said 0 0 0 0 frame sandboxed url 68747470733a2f2f612e636f6d2f66 => ok
order 1 0 https://a.com opaque:1:https://a.com https://a.com/f
commit 0 1 opaque:1:https://a.com 68747470733a2f2f612e636f6d2f66 => ok
said 0 1 0 1 navigate 0 opaque:1:https://a.com 6e6f => deny N1
said 0 1 1 1 navigate 1 opaque:1:https://a.com 6e6f => deny N2
",
    ),
    // N9 stands before N2.
    (
        "a sandbox is asked before the URL of a page",
        r#"{"start":["https://a.com/"],"resources":[
{"url":"https://a.com/","actions":[{"do":"frame","src":"https://a.com/f","sandbox":true}]},
{"url":"https://a.com/f","actions":[{"do":"page","url":"no"}]}]}"#,
        "history 2
open 0
order 0 0 https://a.com https://a.com https://a.com/
commit 0 0 https://a.com 68747470733a2f2f612e636f6d2f => ok
said 0 0 0 0 frame sandboxed url 68747470733a2f2f612e636f6d2f66 => ok
order 1 0 https://a.com opaque:1:https://a.com https://a.com/f
commit 0 1 opaque:1:https://a.com 68747470733a2f2f612e636f6d2f66 => ok
said 0 1 0 1 page 6e6f => deny N9
",
    ),
    // F1: a word, a path, and classes that frames may have.
    (
        "requests for what is no URL of the web",
        r#"{"start":["https://a.com/"],"resources":[{"url":"https://a.com/","actions":[
{"do":"fetch","url":"no","mode":"cors"},{"do":"fetch","url":"/x","mode":"no-cors"},
{"do":"fetch","url":"data:,x","mode":"cors"},{"do":"fetch","url":"about:blank","mode":"no-cors"},
{"do":"fetch","url":"ftp://a.com/","mode":"cors"},{"do":"wait"}]}]}"#,
        "history 2
open 0
order 0 0 https://a.com https://a.com https://a.com/
commit 0 0 https://a.com 68747470733a2f2f612e636f6d2f => ok
said 0 0 0 0 fetch cors https://a.com 6e6f => deny F1
said 0 0 1 0 fetch no-cors https://a.com 2f78 => deny F1
said 0 0 2 0 fetch cors https://a.com 646174613a2c78 => deny F1
said 0 0 3 0 fetch no-cors https://a.com 61626f75743a626c616e6b => deny F1
said 0 0 4 0 fetch cors https://a.com 6674703a2f2f612e636f6d2f => deny F1
local 0 0 5 waited
",
    ),
    // K3 stands before F1.
    (
        "a request's initiator is asked before its URL",
        r#"{"start":["https://a.com/"],"resources":[{"url":"https://a.com/","actions":[
{"do":"raw","message":{"is":"fetch","url":"no","mode":"cors","initiator":"https://b.com/"}}]}]}"#,
        "history 2
open 0
order 0 0 https://a.com https://a.com https://a.com/
commit 0 0 https://a.com 68747470733a2f2f612e636f6d2f => ok
said 0 0 0 0 fetch cors https://b.com 6e6f => kill K3
",
    ),
    // Its defaults are the running document and its origin.
    (
        "a raw message without claims says what the action says",
        r#"{"start":["https://a.com/"],"resources":[{"url":"https://a.com/","actions":[
{"do":"raw","message":{"is":"frame","src":"data:,x","sandbox":true}},
{"do":"raw","message":{"is":"page","url":"no"}},
{"do":"raw","message":{"is":"post","frame":0,"target":"/","text":"x"}},
{"do":"raw","message":{"is":"ask","service":"store","request":"get k"}},
{"do":"recv"}]}]}"#,
        "history 2
open 0
order 0 0 https://a.com https://a.com https://a.com/
commit 0 0 https://a.com 68747470733a2f2f612e636f6d2f => ok
said 0 0 0 0 frame sandboxed url 646174613a2c78 => ok
order 1 0 https://a.com opaque:1:https://a.com data:,x
said 0 0 1 0 page 6e6f => deny N2
said 0 0 2 0 post 0 / https://a.com 78 => ok
said 0 0 3 0 ask 73746f7265 https://a.com 676574206b => answer 6e6f6e65
commit 0 1 opaque:1:https://a.com 646174613a2c78 => ok
local 0 0 4 took https://a.com 78
",
    ),
];

#[test]
fn denials_run_as_written(rt: HostRuntime) -> Result<(), Fail> {
    assert_runs_as_written(&rt, rt.alloc(), ROWS)
}
