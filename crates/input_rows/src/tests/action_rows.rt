use crate::tests::{Place, assert_told_at};
use std::test::Fail;

/// Actions of the one resource of a script, with what is said of each.
const ACTIONS: &[(&str, &str)] = &[
    (r#"[]"#, "X2 @"),
    (r#"{}"#, "X2 @/do"),
    (r#"{"x":1}"#, "X2 @/do"),
    (r#"{"do":1}"#, "X2 @/do"),
    (r#"{"do":"fly"}"#, "X2 @/do"),
    (r#"{"do":"Wait"}"#, "X2 @/do"),
    (r#"{"do":"commit"}"#, "X2 @/do"),
    (r#"{"do":"frame"}"#, "X2 @"),
    (r#"{"do":"frame","src":"x"}"#, "frame plain url x"),
    (
        r#"{"do":"frame","src":"","sandbox":false}"#,
        "frame plain url ",
    ),
    (
        r#"{"do":"frame","src":"not a url","sandbox":true}"#,
        "frame sandboxed url not a url",
    ),
    (r#"{"do":"frame","srcdoc":0}"#, "frame plain doc 0"),
    (
        r#"{"do":"frame","srcdoc":0,"sandbox":true}"#,
        "frame sandboxed doc 0",
    ),
    (r#"{"do":"frame","srcdoc":1}"#, "X6 @/srcdoc"),
    (r#"{"do":"frame","srcdoc":"0"}"#, "X2 @/srcdoc"),
    (r#"{"do":"frame","src":1}"#, "X2 @/src"),
    (r#"{"do":"frame","src":"x","srcdoc":0}"#, "X2 @"),
    (r#"{"do":"frame","src":1,"sandbox":1}"#, "X2 @/src"),
    (r#"{"do":"frame","srcdoc":1,"sandbox":1}"#, "X6 @/srcdoc"),
    (r#"{"do":"frame","src":"x","sandbox":1}"#, "X2 @/sandbox"),
    (r#"{"do":"frame","src":"x","url":"x"}"#, "X2 @"),
    (r#"{"do":"frame","x":1}"#, "X2 @"),
    (r#"{"do":"remove"}"#, "X2 @/child"),
    (r#"{"do":"remove","x":0}"#, "X2 @/child"),
    (r#"{"do":"remove","child":"0"}"#, "X2 @/child"),
    (r#"{"do":"remove","child":3}"#, "remove 3"),
    (r#"{"do":"remove","child":4294967295}"#, "remove 4294967295"),
    (r#"{"do":"remove","child":4294967296}"#, "X6 @/child"),
    (r#"{"do":"remove","child":0,"x":0}"#, "X2 @"),
    (r#"{"do":"navigate"}"#, "X2 @/frame"),
    (r#"{"do":"navigate","url":"x"}"#, "X2 @/frame"),
    (r#"{"do":"navigate","frame":"x"}"#, "X2 @/url"),
    (r#"{"do":"navigate","frame":"x","x":1}"#, "X2 @/url"),
    (r#"{"do":"navigate","frame":1,"url":"x"}"#, "X2 @/frame"),
    (r#"{"do":"navigate","frame":"x","url":1}"#, "X2 @/frame"),
    (r#"{"do":"navigate","frame":"self","url":1}"#, "X2 @/url"),
    (
        r#"{"do":"navigate","frame":"self","url":"x","x":1}"#,
        "X2 @",
    ),
    (r#"{"do":"page"}"#, "X2 @/url"),
    (r#"{"do":"page","x":1}"#, "X2 @/url"),
    (r#"{"do":"page","url":1}"#, "X2 @/url"),
    (r#"{"do":"page","url":"no url"}"#, "page no url"),
    (r#"{"do":"page","url":"x","mode":"cors"}"#, "X2 @"),
    (r#"{"do":"fetch"}"#, "X2 @/url"),
    (r#"{"do":"fetch","mode":"cors"}"#, "X2 @/url"),
    (r#"{"do":"fetch","url":"x"}"#, "X2 @/mode"),
    (r#"{"do":"fetch","url":"x","x":1}"#, "X2 @/mode"),
    (r#"{"do":"fetch","url":"u","mode":"cors"}"#, "fetch u cors"),
    (
        r#"{"do":"fetch","url":"u","mode":"no-cors"}"#,
        "fetch u no-cors",
    ),
    (r#"{"do":"fetch","url":"x","mode":"CORS"}"#, "X2 @/mode"),
    (r#"{"do":"fetch","url":"x","mode":""}"#, "X2 @/mode"),
    (r#"{"do":"fetch","url":1,"mode":1}"#, "X2 @/url"),
    (
        r#"{"do":"fetch","url":"x","mode":"cors","initiator":"https://b.com/"}"#,
        "X2 @",
    ),
    (r#"{"do":"post"}"#, "X2 @/frame"),
    (r#"{"do":"post","target":"*","text":""}"#, "X2 @/frame"),
    (r#"{"do":"post","frame":"top"}"#, "X2 @/target"),
    (
        r#"{"do":"post","frame":"top","target":"*","x":1}"#,
        "X2 @/text",
    ),
    (
        r#"{"do":"post","frame":"top","target":"*","text":"t \u00e9"}"#,
        "post top * t \u{e9}",
    ),
    (
        r#"{"do":"post","frame":"x","target":"x","text":1}"#,
        "X2 @/frame",
    ),
    (
        r#"{"do":"post","frame":"top","target":1,"text":1}"#,
        "X2 @/target",
    ),
    (
        r#"{"do":"post","frame":"top","target":"*","text":1}"#,
        "X2 @/text",
    ),
    (r#"{"do":"ask"}"#, "X2 @/service"),
    (r#"{"do":"ask","request":""}"#, "X2 @/service"),
    (r#"{"do":"ask","service":"store"}"#, "X2 @/request"),
    (r#"{"do":"ask","service":"","request":""}"#, "X6 @/service"),
    (
        r#"{"do":"ask","service":"x","request":"get k"}"#,
        "ask x get k",
    ),
    (r#"{"do":"ask","service":1,"request":1}"#, "X2 @/service"),
    (r#"{"do":"wait"}"#, "wait"),
    (r#"{"do":"wait","x":1}"#, "X2 @"),
    (r#"{"do":"recv"}"#, "recv"),
    (r#"{"do":"recv","frame":"self"}"#, "X2 @"),
    (r#"{"do":"crash"}"#, "crash"),
    (r#"{"do":"crash","is":"crash"}"#, "X2 @"),
    (r#"{"do":"raw"}"#, "X2 @/message"),
    (r#"{"do":"raw","x":1}"#, "X2 @/message"),
    (
        r#"{"do":"raw","message":{"is":"page","url":"x"},"document":0}"#,
        "X2 @",
    ),
];

/// Words at `frame`, with what is said of each.
const FRAMES: &[(&str, &str)] = &[
    ("self", "self x"),
    ("parent", "parent x"),
    ("top", "top x"),
    ("opener", "opener x"),
    ("child 0", "child 0 x"),
    ("child 3", "child 3 x"),
    ("child 10", "child 10 x"),
    ("child 4294967295", "child 4294967295 x"),
    ("child 4294967296", "X2 @"),
    ("child 00", "X2 @"),
    ("child 01", "X2 @"),
    ("child +1", "X2 @"),
    ("child -1", "X2 @"),
    ("child x", "X2 @"),
    ("child  1", "X2 @"),
    ("child 1 ", "X2 @"),
    ("child ", "X2 @"),
    ("child", "X2 @"),
    ("Self", "X2 @"),
    ("", "X2 @"),
];

/// Words at `target`, with what is said of each.
const TARGETS: &[(&str, &str)] = &[
    ("*", "* t"),
    ("/", "/ t"),
    ("https://b.com/x?y#z", "https://b.com:443 t"),
    ("http://B.com:8080", "http://b.com:8080 t"),
    ("", "X3 @"),
    ("**", "X3 @"),
    ("//", "X3 @"),
    ("b.com", "X3 @"),
    ("about:blank", "X3 @"),
    ("data:,x", "X3 @"),
];

#[test]
fn actions_are_read_by_their_rows(rt: HostRuntime) -> Result<(), Fail> {
    let action = Place {
        front: r#"{"start":[],"resources":[{"url":"https://a.com/","actions":["#,
        back: "]}]}",
        path: "/resources/0/actions/0",
        shown: "read resource https://a.com/ do ",
    };
    assert_told_at(&rt, rt.alloc(), &action, ACTIONS)
}

#[test]
fn frames_are_named_by_five_words(rt: HostRuntime) -> Result<(), Fail> {
    let frame = Place {
        front: r#"{"start":[],"resources":[{"url":"https://a.com/","actions":[{"do":"navigate","url":"x","frame":""#,
        back: r#""}]}]}"#,
        path: "/resources/0/actions/0/frame",
        shown: "read resource https://a.com/ do navigate ",
    };
    assert_told_at(&rt, rt.alloc(), &frame, FRAMES)
}

#[test]
fn posts_have_targets_of_three_kinds(rt: HostRuntime) -> Result<(), Fail> {
    let target = Place {
        front: r#"{"start":[],"resources":[{"url":"https://a.com/","actions":[{"do":"post","frame":"top","text":"t","target":""#,
        back: r#""}]}]}"#,
        path: "/resources/0/actions/0/target",
        shown: "read resource https://a.com/ do post top ",
    };
    assert_told_at(&rt, rt.alloc(), &target, TARGETS)
}
