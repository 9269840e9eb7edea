use crate::tests::{Place, assert_told_at};
use std::test::Fail;

/// Forged messages, with what is said of each: in whose name, as which origin, and what it says.
const MESSAGES: &[(&str, &str)] = &[
    (r#"1"#, "X2 @"),
    (r#"{}"#, "X2 @/is"),
    (r#"{"is":1}"#, "X2 @/is"),
    (r#"{"is":"wait"}"#, "X2 @/is"),
    (r#"{"do":"page","url":"x"}"#, "X2 @/is"),
    (r#"{"is":"navigate"}"#, "X2 @/frame"),
    (r#"{"is":"navigate","url":"x"}"#, "X2 @/frame"),
    (r#"{"is":"navigate","frame":0}"#, "X2 @/url"),
    (r#"{"is":"navigate","frame":0,"x":1}"#, "X2 @/url"),
    (
        r#"{"is":"navigate","frame":"self","url":"x"}"#,
        "X2 @/frame",
    ),
    (
        r#"{"is":"navigate","frame":4294967295,"url":"x"}"#,
        "own as own navigate 4294967295 x",
    ),
    (
        r#"{"is":"navigate","frame":4294967296,"url":"x"}"#,
        "X6 @/frame",
    ),
    (
        r#"{"is":"navigate","document":7,"frame":2,"url":"u","initiator":"https://b.com:8443/x"}"#,
        "7 as https://b.com:8443 navigate 2 u",
    ),
    (
        r#"{"is":"navigate","frame":0,"url":"x","initiator":"data:,x"}"#,
        "X3 @/initiator",
    ),
    (
        r#"{"is":"navigate","frame":0,"url":"x","initiator":null}"#,
        "X2 @/initiator",
    ),
    (
        r#"{"is":"navigate","frame":0,"url":1,"initiator":1}"#,
        "X2 @/url",
    ),
    (r#"{"is":"navigate","frame":0,"url":"x","x":1}"#, "X2 @"),
    (
        r#"{"is":"navigate","document":4294967295,"frame":0,"url":"x"}"#,
        "4294967295 as own navigate 0 x",
    ),
    (
        r#"{"is":"navigate","frame":0,"url":1,"document":4294967296}"#,
        "X6 @/document",
    ),
    (
        r#"{"is":"navigate","frame":"x","url":"x","document":"0"}"#,
        "X2 @/document",
    ),
    (r#"{"is":"frame"}"#, "X2 @"),
    (r#"{"is":"frame","document":"0"}"#, "X2 @"),
    (
        r#"{"is":"frame","src":"x","document":7}"#,
        "7 as own frame plain url x",
    ),
    (r#"{"is":"frame","src":1,"document":"0"}"#, "X2 @/document"),
    (r#"{"is":"frame","src":1,"sandbox":1}"#, "X2 @/src"),
    (
        r#"{"is":"frame","srcdoc":0,"sandbox":true}"#,
        "own as own frame sandboxed doc 0",
    ),
    (
        r#"{"is":"frame","srcdoc":0}"#,
        "own as own frame plain doc 0",
    ),
    (
        r#"{"is":"frame","src":"x","sandbox":false}"#,
        "own as own frame plain url x",
    ),
    (r#"{"is":"frame","srcdoc":1}"#, "X6 @/srcdoc"),
    (r#"{"is":"frame","src":"x","srcdoc":0}"#, "X2 @"),
    (r#"{"is":"frame","src":"x","do":"frame"}"#, "X2 @"),
    (r#"{"is":"remove"}"#, "X2 @/frame"),
    (
        r#"{"is":"remove","frame":5,"document":3}"#,
        "3 as own remove 5",
    ),
    (r#"{"is":"remove","frame":0}"#, "own as own remove 0"),
    (r#"{"is":"remove","child":0}"#, "X2 @/frame"),
    (
        r#"{"is":"remove","frame":"x","document":"x"}"#,
        "X2 @/document",
    ),
    (r#"{"is":"remove","frame":4294967296}"#, "X6 @/frame"),
    (r#"{"is":"page"}"#, "X2 @/url"),
    (r#"{"is":"page","url":"u","document":0}"#, "0 as own page u"),
    (r#"{"is":"page","url":"u"}"#, "own as own page u"),
    (r#"{"is":"page","url":1,"document":-1}"#, "X2 @/document"),
    (r#"{"is":"page","url":1}"#, "X2 @/url"),
    (r#"{"is":"fetch"}"#, "X2 @/url"),
    (r#"{"is":"fetch","mode":"cors"}"#, "X2 @/url"),
    (r#"{"is":"fetch","url":"x"}"#, "X2 @/mode"),
    (r#"{"is":"fetch","url":"x","x":1}"#, "X2 @/mode"),
    (
        r#"{"is":"fetch","url":"u","mode":"no-cors","initiator":"http://b.com/"}"#,
        "own as http://b.com:80 fetch u no-cors",
    ),
    (
        r#"{"is":"fetch","url":"u","mode":"cors","document":1}"#,
        "1 as own fetch u cors",
    ),
    (r#"{"is":"fetch","url":1,"mode":"x"}"#, "X2 @/url"),
    (
        r#"{"is":"fetch","url":"x","mode":"x","initiator":1}"#,
        "X2 @/mode",
    ),
    (
        r#"{"is":"fetch","url":"x","mode":"cors","initiator":"about:blank"}"#,
        "X3 @/initiator",
    ),
    (r#"{"is":"post"}"#, "X2 @/frame"),
    (r#"{"is":"post","target":"*","text":""}"#, "X2 @/frame"),
    (
        r#"{"is":"post","frame":4294967296,"target":"*","text":""}"#,
        "X6 @/frame",
    ),
    (r#"{"is":"post","frame":0}"#, "X2 @/target"),
    (r#"{"is":"post","frame":0,"target":"*","x":1}"#, "X2 @/text"),
    (
        r#"{"is":"post","frame":4,"target":"/","source":"https://b.com/","text":"t"}"#,
        "own as https://b.com:443 post 4 / t",
    ),
    (
        r#"{"is":"post","document":2,"frame":4,"target":"http://b.com/","text":"t"}"#,
        "2 as own post 4 http://b.com:80 t",
    ),
    (
        r#"{"is":"post","frame":"top","target":"","text":1}"#,
        "X2 @/frame",
    ),
    (
        r#"{"is":"post","frame":0,"target":"","source":1,"text":1}"#,
        "X3 @/target",
    ),
    (
        r#"{"is":"post","frame":0,"target":"*","source":1,"text":1}"#,
        "X2 @/source",
    ),
    (
        r#"{"is":"post","frame":0,"target":"*","source":"data:,x","text":""}"#,
        "X3 @/source",
    ),
    (r#"{"is":"ask"}"#, "X2 @/service"),
    (r#"{"is":"ask","request":""}"#, "X2 @/service"),
    (r#"{"is":"ask","service":"store","x":1}"#, "X2 @/request"),
    (
        r#"{"is":"ask","service":"store","origin":"https://b.com/","request":"get k"}"#,
        "own as https://b.com:443 ask store get k",
    ),
    (
        r#"{"is":"ask","document":9,"service":"x","request":""}"#,
        "9 as own ask x ",
    ),
    (
        r#"{"is":"ask","service":"","origin":1,"request":1}"#,
        "X6 @/service",
    ),
    (
        r#"{"is":"ask","service":"store","origin":"no","request":1}"#,
        "X3 @/origin",
    ),
    (r#"{"is":"commit"}"#, "X2 @/nav"),
    (
        r#"{"is":"commit","url":"x","origin":"https://b.com/"}"#,
        "X2 @/nav",
    ),
    (r#"{"is":"commit","nav":0}"#, "X2 @/url"),
    (
        r#"{"is":"commit","nav":0,"origin":"https://b.com/"}"#,
        "X2 @/url",
    ),
    (r#"{"is":"commit","nav":0,"url":"x","x":1}"#, "X2 @/origin"),
    (
        r#"{"is":"commit","nav":4294967295,"url":"u","origin":"http://b.org/"}"#,
        "own as http://b.org:80 commit 4294967295 u",
    ),
    (
        r#"{"is":"commit","document":4,"nav":2,"url":"u","origin":"https://b.org/"}"#,
        "4 as https://b.org:443 commit 2 u",
    ),
    (
        r#"{"is":"commit","nav":4294967296,"url":1,"origin":1}"#,
        "X6 @/nav",
    ),
    (
        r#"{"is":"commit","nav":0,"url":"x","origin":"data:,x"}"#,
        "X3 @/origin",
    ),
];

#[test]
fn forged_messages_are_read_by_their_rows(rt: HostRuntime) -> Result<(), Fail> {
    let message = Place {
        front: r#"{"start":[],"resources":[{"url":"https://a.com/","actions":[{"do":"raw","message":"#,
        back: "}]}]}",
        path: "/resources/0/actions/0/message",
        shown: "read resource https://a.com/ do raw ",
    };
    assert_told_at(&rt, rt.alloc(), &message, MESSAGES)
}
