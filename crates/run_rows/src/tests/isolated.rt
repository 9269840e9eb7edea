//! Isolated origins: origins that are sites of their own.

use super::{Row, assert_runs_as_written};
use std::test::Fail;

const ROWS: &[Row] = &[
    // Its site is the origin, written with an equals sign.
    (
        "a frame of an isolated origin has a process of its own",
        r#"{"isolated_origins":["https://pay.a.com"],"start":["https://a.com/"],
"resources":[{"url":"https://a.com/","actions":[{"do":"frame","src":"https://pay.a.com/f"}]}]}"#,
        "history 2
open 0
order 0 0 https://a.com https://a.com https://a.com/
commit 0 0 https://a.com 68747470733a2f2f612e636f6d2f => ok
said 0 0 0 0 frame plain url 68747470733a2f2f7061792e612e636f6d2f66 => ok
order 1 1 =https://pay.a.com https://pay.a.com https://pay.a.com/f
commit 1 1 https://pay.a.com 68747470733a2f2f7061792e612e636f6d2f66 => ok
",
    ),
    // It is of the page's site, and in its process.
    (
        "the same frame without the key",
        r#"{"start":["https://a.com/"],
"resources":[{"url":"https://a.com/","actions":[{"do":"frame","src":"https://pay.a.com/f"}]}]}"#,
        "history 2
open 0
order 0 0 https://a.com https://a.com https://a.com/
commit 0 0 https://a.com 68747470733a2f2f612e636f6d2f => ok
said 0 0 0 0 frame plain url 68747470733a2f2f7061792e612e636f6d2f66 => ok
order 1 0 https://a.com https://pay.a.com https://pay.a.com/f
commit 0 1 https://pay.a.com 68747470733a2f2f7061792e612e636f6d2f66 => ok
",
    ),
    // Its neighbours by port, scheme and host are of the site of their domain.
    (
        "an isolated origin is one scheme, host and port",
        r#"{"isolated_origins":["https://pay.a.com:8443/any/path"],"soft_limit":0,
"start":["https://pay.a.com:8443/","https://pay.a.com/","http://pay.a.com:8443/","https://x.pay.a.com:8443/"]}"#,
        "history 2
open 0
open 1
open 2
open 3
order 0 0 =https://pay.a.com:8443 https://pay.a.com:8443 https://pay.a.com:8443/
order 1 1 https://a.com https://pay.a.com https://pay.a.com/
order 2 2 http://a.com http://pay.a.com:8443 http://pay.a.com:8443/
order 3 1 https://a.com https://x.pay.a.com:8443 https://x.pay.a.com:8443/
commit 0 0 https://pay.a.com:8443 68747470733a2f2f7061792e612e636f6d3a383434332f => ok
commit 1 1 https://pay.a.com 68747470733a2f2f7061792e612e636f6d2f => ok
commit 1 3 https://x.pay.a.com:8443 68747470733a2f2f782e7061792e612e636f6d3a383434332f => ok
commit 2 2 http://pay.a.com:8443 687474703a2f2f7061792e612e636f6d3a383434332f => ok
",
    ),
    // Each is a site; a repeat changes nothing.
    (
        "two isolated origins of one domain",
        r#"{"isolated_origins":["https://pay.a.com","https://id.a.com","https://pay.a.com:443/"],"soft_limit":0,
"start":["https://pay.a.com/","https://id.a.com/","https://a.com/"]}"#,
        "history 2
open 0
open 1
open 2
order 0 0 =https://pay.a.com https://pay.a.com https://pay.a.com/
order 1 1 =https://id.a.com https://id.a.com https://id.a.com/
order 2 2 https://a.com https://a.com https://a.com/
commit 0 0 https://pay.a.com 68747470733a2f2f7061792e612e636f6d2f => ok
commit 1 1 https://id.a.com 68747470733a2f2f69642e612e636f6d2f => ok
commit 2 2 https://a.com 68747470733a2f2f612e636f6d2f => ok
",
    ),
    // Its subdomains are of the plain site, which is another one.
    (
        "a registrable domain as an isolated origin",
        r#"{"isolated_origins":["https://a.com"],"soft_limit":0,"start":["https://a.com/","https://sub.a.com/"]}"#,
        "history 2
open 0
open 1
order 0 0 =https://a.com https://a.com https://a.com/
order 1 1 https://a.com https://sub.a.com https://sub.a.com/
commit 0 0 https://a.com 68747470733a2f2f612e636f6d2f => ok
commit 1 1 https://sub.a.com 68747470733a2f2f7375622e612e636f6d2f => ok
",
    ),
    // K7: the page's process is of the plain site.
    (
        "a question as an isolated origin from its domain",
        r#"{"isolated_origins":["https://pay.a.com"],"start":["https://a.com/"],"resources":[{"url":"https://a.com/","actions":[
{"do":"raw","message":{"is":"ask","service":"store","origin":"https://pay.a.com/","request":"get k"}}]}]}"#,
        "history 2
open 0
order 0 0 https://a.com https://a.com https://a.com/
commit 0 0 https://a.com 68747470733a2f2f612e636f6d2f => ok
said 0 0 0 0 ask 73746f7265 https://pay.a.com 676574206b => kill K7
",
    ),
    // It asks for itself, and is killed for its domain.
    (
        "a question as the domain from an isolated origin",
        r#"{"isolated_origins":["https://pay.a.com"],"start":["https://pay.a.com/"],"resources":[{"url":"https://pay.a.com/","actions":[
{"do":"ask","service":"store","request":"get k"},
{"do":"raw","message":{"is":"ask","service":"store","origin":"https://a.com/","request":"get k"}}]}]}"#,
        "history 2
open 0
order 0 0 =https://pay.a.com https://pay.a.com https://pay.a.com/
commit 0 0 https://pay.a.com 68747470733a2f2f7061792e612e636f6d2f => ok
said 0 0 0 0 ask 73746f7265 https://pay.a.com 676574206b => answer 6e6f6e65
said 0 0 1 0 ask 73746f7265 https://a.com 676574206b => kill K7
",
    ),
    // K2: the initiator's site is not the page's.
    (
        "a navigation with an isolated origin as its initiator",
        r#"{"isolated_origins":["https://pay.a.com"],"start":["https://a.com/"],"resources":[{"url":"https://a.com/","actions":[
{"do":"raw","message":{"is":"navigate","frame":0,"url":"about:blank","initiator":"https://pay.a.com/"}}]}]}"#,
        "history 2
open 0
order 0 0 https://a.com https://a.com https://a.com/
commit 0 0 https://a.com 68747470733a2f2f612e636f6d2f => ok
said 0 0 0 0 navigate 0 https://pay.a.com 61626f75743a626c616e6b => kill K2
",
    ),
    // A3 does not hold for the chain; a picture still comes.
    (
        "the domain does not read an isolated origin's page",
        r#"{"isolated_origins":["https://pay.a.com"],"start":["https://a.com/"],"resources":[
{"url":"https://a.com/","actions":[{"do":"fetch","url":"https://pay.a.com/x","mode":"no-cors"},
{"do":"fetch","url":"https://pay.a.com/y","mode":"no-cors"}]},
{"url":"https://pay.a.com/x","headers":[["Content-Type","text/html"]],"body":"<p"},
{"url":"https://pay.a.com/y","headers":[["Content-Type","image/png"]],"body":"x"}]}"#,
        "history 2
open 0
order 0 0 https://a.com https://a.com https://a.com/
commit 0 0 https://a.com 68747470733a2f2f612e636f6d2f => ok
said 0 0 0 0 fetch no-cors https://a.com 68747470733a2f2f7061792e612e636f6d2f78 => ok
said 0 0 1 0 fetch no-cors https://a.com 68747470733a2f2f7061792e612e636f6d2f79 => ok
head 1 A4
piece 1 0 78
end 0 blocked B4
end 1 whole
",
    ),
    // A3 by the common site.
    (
        "the same read without the key",
        r#"{"start":["https://a.com/"],"resources":[
{"url":"https://a.com/","actions":[{"do":"fetch","url":"https://pay.a.com/x","mode":"no-cors"}]},
{"url":"https://pay.a.com/x","headers":[["Content-Type","text/html"]],"body":"<p"}]}"#,
        "history 2
open 0
order 0 0 https://a.com https://a.com https://a.com/
commit 0 0 https://a.com 68747470733a2f2f612e636f6d2f => ok
said 0 0 0 0 fetch no-cors https://a.com 68747470733a2f2f7061792e612e636f6d2f78 => ok
head 0 A3
piece 0 0 3c70
end 0 whole
",
    ),
    // The wall stands in both ways; its own page it reads.
    (
        "an isolated origin does not read its domain's page",
        r#"{"isolated_origins":["https://pay.a.com"],"start":["https://pay.a.com/"],"resources":[
{"url":"https://pay.a.com/","actions":[{"do":"fetch","url":"https://a.com/x","mode":"no-cors"},
{"do":"fetch","url":"https://pay.a.com/x","mode":"no-cors"}]},
{"url":"https://a.com/x","headers":[["Content-Type","text/html"]],"body":"<p"},
{"url":"https://pay.a.com/x","headers":[["Content-Type","text/html"]],"body":"<p"}]}"#,
        "history 2
open 0
order 0 0 =https://pay.a.com https://pay.a.com https://pay.a.com/
commit 0 0 https://pay.a.com 68747470733a2f2f7061792e612e636f6d2f => ok
said 0 0 0 0 fetch no-cors https://pay.a.com 68747470733a2f2f612e636f6d2f78 => ok
said 0 0 1 0 fetch no-cors https://pay.a.com 68747470733a2f2f7061792e612e636f6d2f78 => ok
head 1 A3
piece 1 0 3c70
end 0 blocked B4
end 1 whole
",
    ),
    // B8 for the domain's page, for both values.
    (
        "resource policies go by isolated origins",
        r#"{"isolated_origins":["https://pay.a.com"],"start":["https://a.com/"],"resources":[
{"url":"https://a.com/","actions":[{"do":"fetch","url":"https://pay.a.com/1","mode":"no-cors"},
{"do":"fetch","url":"https://pay.a.com/2","mode":"no-cors"}]},
{"url":"https://pay.a.com/1","headers":[["Cross-Origin-Resource-Policy","same-site"]],"body":"x"},
{"url":"https://pay.a.com/2","headers":[["Cross-Origin-Resource-Policy","same-origin"]],"body":"x"}]}"#,
        "history 2
open 0
order 0 0 https://a.com https://a.com https://a.com/
commit 0 0 https://a.com 68747470733a2f2f612e636f6d2f => ok
said 0 0 0 0 fetch no-cors https://a.com 68747470733a2f2f7061792e612e636f6d2f31 => ok
said 0 0 1 0 fetch no-cors https://a.com 68747470733a2f2f7061792e612e636f6d2f32 => ok
end 0 blocked B8
end 1 blocked B8
",
    ),
    // A sandboxed frame of it, in a process of that site, and a `data:` frame within.
    (
        "opaque origins of an isolated origin have its site",
        r#"{"isolated_origins":["https://pay.a.com"],"start":["https://a.com/"],"resources":[
{"url":"https://a.com/","actions":[{"do":"frame","src":"https://pay.a.com/f","sandbox":true},
{"do":"frame","src":"https://pay.a.com/g"}]},
{"url":"https://pay.a.com/g","actions":[{"do":"frame","src":"data:,x"}]}]}"#,
        "history 2
open 0
order 0 0 https://a.com https://a.com https://a.com/
commit 0 0 https://a.com 68747470733a2f2f612e636f6d2f => ok
said 0 0 0 0 frame sandboxed url 68747470733a2f2f7061792e612e636f6d2f66 => ok
order 1 1 =https://pay.a.com opaque:1:=https://pay.a.com https://pay.a.com/f
said 0 0 1 0 frame plain url 68747470733a2f2f7061792e612e636f6d2f67 => ok
order 2 1 =https://pay.a.com https://pay.a.com https://pay.a.com/g
commit 1 1 opaque:1:=https://pay.a.com 68747470733a2f2f7061792e612e636f6d2f66 => ok
commit 1 2 https://pay.a.com 68747470733a2f2f7061792e612e636f6d2f67 => ok
said 1 2 0 2 frame plain url 646174613a2c78 => ok
order 3 1 =https://pay.a.com opaque:3:=https://pay.a.com data:,x
commit 1 3 opaque:3:=https://pay.a.com 646174613a2c78 => ok
",
    ),
    // The target is an origin, and has no equals sign.
    (
        "posts cross isolated origins as they cross all origins",
        r#"{"isolated_origins":["https://pay.a.com"],"start":["https://a.com/"],"resources":[
{"url":"https://a.com/","actions":[{"do":"frame","src":"https://pay.a.com/f"},{"do":"recv"}]},
{"url":"https://pay.a.com/f","actions":[{"do":"post","frame":"parent","target":"https://a.com/","text":"x"},
{"do":"post","frame":"parent","target":"/","text":"y"}]}]}"#,
        "history 2
open 0
order 0 0 https://a.com https://a.com https://a.com/
commit 0 0 https://a.com 68747470733a2f2f612e636f6d2f => ok
said 0 0 0 0 frame plain url 68747470733a2f2f7061792e612e636f6d2f66 => ok
order 1 1 =https://pay.a.com https://pay.a.com https://pay.a.com/f
commit 1 1 https://pay.a.com 68747470733a2f2f7061792e612e636f6d2f66 => ok
said 1 1 0 1 post 0 https://a.com https://pay.a.com 78 => ok
said 1 1 1 1 post 0 / https://pay.a.com 79 => drop M2
local 0 0 1 took https://pay.a.com 78
",
    ),
    // K8: the order is another process's.
    (
        "a commit as an isolated origin from its domain",
        r#"{"isolated_origins":["https://pay.a.com"],"start":["https://a.com/"],"resources":[{"url":"https://a.com/","actions":[
{"do":"frame","src":"https://pay.a.com/f"},
{"do":"raw","message":{"is":"commit","nav":1,"url":"https://pay.a.com/f","origin":"https://pay.a.com/"}}]}]}"#,
        "history 2
open 0
order 0 0 https://a.com https://a.com https://a.com/
commit 0 0 https://a.com 68747470733a2f2f612e636f6d2f => ok
said 0 0 0 0 frame plain url 68747470733a2f2f7061792e612e636f6d2f66 => ok
order 1 1 =https://pay.a.com https://pay.a.com https://pay.a.com/f
said 0 0 1 0 commit 1 https://pay.a.com 68747470733a2f2f7061792e612e636f6d2f66 => kill K8
commit 1 1 https://pay.a.com 68747470733a2f2f7061792e612e636f6d2f66 => drop G3
exit 1
",
    ),
];

#[test]
fn isolated_run_as_written(rt: HostRuntime) -> Result<(), Fail> {
    assert_runs_as_written(&rt, rt.alloc(), ROWS)
}
