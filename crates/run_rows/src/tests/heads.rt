//! Verdicts in mode no-cors without a byte of the body: rules A3, B2, B3 and B8.

use super::{Row, assert_runs_as_written};
use std::test::Fail;

const ROWS: &[Row] = &[
    // A3 stands before all rows on the body.
    (
        "a response of the own origin",
        r#"{"start":["https://a.com/"],"resources":[
{"url":"https://a.com/","actions":[{"do":"fetch","url":"https://a.com/x","mode":"no-cors"}]},
{"url":"https://a.com/x","headers":[["Content-Type","text/html"]],"body":"<html>"}]}"#,
        "history 2
open 0
order 0 0 https://a.com https://a.com https://a.com/
commit 0 0 https://a.com 68747470733a2f2f612e636f6d2f => ok
said 0 0 0 0 fetch no-cors https://a.com 68747470733a2f2f612e636f6d2f78 => ok
head 0 A3
piece 0 0 3c68746d6c3e
end 0 whole
",
    ),
    // A3 goes by the site, whatever the host and the port.
    (
        "a response of the own site",
        r#"{"start":["https://a.com/"],"resources":[
{"url":"https://a.com/","actions":[{"do":"fetch","url":"https://sub.a.com:8443/x","mode":"no-cors"}]},
{"url":"https://sub.a.com:8443/x","headers":[["Content-Type","text/html"]],"body":"<html>"}]}"#,
        "history 2
open 0
order 0 0 https://a.com https://a.com https://a.com/
commit 0 0 https://a.com 68747470733a2f2f612e636f6d2f => ok
said 0 0 0 0 fetch no-cors https://a.com 68747470733a2f2f7375622e612e636f6d3a383434332f78 => ok
head 0 A3
piece 0 0 3c68746d6c3e
end 0 whole
",
    ),
    // Sites go by the scheme: A3 does not hold.
    (
        "a response of the same host by another scheme",
        r#"{"start":["https://a.com/"],"resources":[
{"url":"https://a.com/","actions":[{"do":"fetch","url":"http://a.com/x","mode":"no-cors"}]},
{"url":"http://a.com/x","headers":[["Content-Type","text/html"]],"body":"<html>"}]}"#,
        "history 2
open 0
order 0 0 https://a.com https://a.com https://a.com/
commit 0 0 https://a.com 68747470733a2f2f612e636f6d2f => ok
said 0 0 0 0 fetch no-cors https://a.com 687474703a2f2f612e636f6d2f78 => ok
end 0 blocked B4
",
    ),
    // Status 404 with an empty body is whole without pieces.
    (
        "a response that the script does not have",
        r#"{"start":["https://a.com/"],"resources":[
{"url":"https://a.com/","actions":[{"do":"fetch","url":"https://b.com/x","mode":"no-cors"}]}]}"#,
        "history 2
open 0
order 0 0 https://a.com https://a.com https://a.com/
commit 0 0 https://a.com 68747470733a2f2f612e636f6d2f => ok
said 0 0 0 0 fetch no-cors https://a.com 68747470733a2f2f622e636f6d2f78 => ok
head 0 A4
end 0 whole
",
    ),
    // B2: status 206, though the body is none of its kind.
    (
        "a part of a protected body",
        r#"{"start":["https://a.com/"],"resources":[
{"url":"https://a.com/","actions":[{"do":"fetch","url":"https://b.com/x","mode":"no-cors"}]},
{"url":"https://b.com/x","status":206,"headers":[["Content-Type","application/json"]],"body":"hello"}]}"#,
        "history 2
open 0
order 0 0 https://a.com https://a.com https://a.com/
commit 0 0 https://a.com 68747470733a2f2f612e636f6d2f => ok
said 0 0 0 0 fetch no-cors https://a.com 68747470733a2f2f622e636f6d2f78 => ok
end 0 blocked B2
",
    ),
    // Status 206 alone blocks nothing.
    (
        "a part of another body",
        r#"{"start":["https://a.com/"],"resources":[
{"url":"https://a.com/","actions":[{"do":"fetch","url":"https://b.com/x","mode":"no-cors"}]},
{"url":"https://b.com/x","status":206,"headers":[["Content-Type","text/plain"]],"body":"hello"}]}"#,
        "history 2
open 0
order 0 0 https://a.com https://a.com https://a.com/
commit 0 0 https://a.com 68747470733a2f2f612e636f6d2f => ok
said 0 0 0 0 fetch no-cors https://a.com 68747470733a2f2f622e636f6d2f78 => ok
head 0 A5
piece 0 0 68656c6c6f
end 0 whole
",
    ),
    // B3: the value in any case, and only its first part.
    (
        "a plain body that is not to be sniffed",
        r#"{"start":["https://a.com/"],"resources":[
{"url":"https://a.com/","actions":[{"do":"fetch","url":"https://b.com/x","mode":"no-cors"}]},
{"url":"https://b.com/x","headers":[["Content-Type","text/plain"],["X-Content-Type-Options","NoSniff, x"]],"body":"x"}]}"#,
        "history 2
open 0
order 0 0 https://a.com https://a.com https://a.com/
commit 0 0 https://a.com 68747470733a2f2f612e636f6d2f => ok
said 0 0 0 0 fetch no-cors https://a.com 68747470733a2f2f622e636f6d2f78 => ok
end 0 blocked B3
",
    ),
    // B2 stands before B3.
    (
        "a part of a protected body that is not to be sniffed",
        r#"{"start":["https://a.com/"],"resources":[
{"url":"https://a.com/","actions":[{"do":"fetch","url":"https://b.com/x","mode":"no-cors"}]},
{"url":"https://b.com/x","status":206,"headers":[["Content-Type","text/html"],["X-Content-Type-Options","nosniff"]],"body":"x"}]}"#,
        "history 2
open 0
order 0 0 https://a.com https://a.com https://a.com/
commit 0 0 https://a.com 68747470733a2f2f612e636f6d2f => ok
said 0 0 0 0 fetch no-cors https://a.com 68747470733a2f2f622e636f6d2f78 => ok
end 0 blocked B2
",
    ),
    // B3 is of protected kinds and plain text.
    (
        "a style sheet that is not to be sniffed",
        r#"{"start":["https://a.com/"],"resources":[
{"url":"https://a.com/","actions":[{"do":"fetch","url":"https://b.com/x","mode":"no-cors"}]},
{"url":"https://b.com/x","headers":[["Content-Type","text/css"],["X-Content-Type-Options","nosniff"]],"body":"x"}]}"#,
        "history 2
open 0
order 0 0 https://a.com https://a.com https://a.com/
commit 0 0 https://a.com 68747470733a2f2f612e636f6d2f => ok
said 0 0 0 0 fetch no-cors https://a.com 68747470733a2f2f622e636f6d2f78 => ok
head 0 A4
piece 0 0 78
end 0 whole
",
    ),
    // The first part counts alone.
    (
        "nosniff behind another part",
        r#"{"start":["https://a.com/"],"resources":[
{"url":"https://a.com/","actions":[{"do":"fetch","url":"https://b.com/x","mode":"no-cors"}]},
{"url":"https://b.com/x","headers":[["Content-Type","text/html"],["X-Content-Type-Options","x, nosniff"]],"body":"x"}]}"#,
        "history 2
open 0
order 0 0 https://a.com https://a.com https://a.com/
commit 0 0 https://a.com 68747470733a2f2f612e636f6d2f => ok
said 0 0 0 0 fetch no-cors https://a.com 68747470733a2f2f622e636f6d2f78 => ok
head 0 A5
piece 0 0 78
end 0 whole
",
    ),
    // B8 stands before A3.
    (
        "a response for its own origin alone",
        r#"{"start":["https://a.com/"],"resources":[
{"url":"https://a.com/","actions":[{"do":"fetch","url":"https://sub.a.com/x","mode":"no-cors"}]},
{"url":"https://sub.a.com/x","headers":[["Cross-Origin-Resource-Policy","same-origin"]],"body":"x"}]}"#,
        "history 2
open 0
order 0 0 https://a.com https://a.com https://a.com/
commit 0 0 https://a.com 68747470733a2f2f612e636f6d2f => ok
said 0 0 0 0 fetch no-cors https://a.com 68747470733a2f2f7375622e612e636f6d2f78 => ok
end 0 blocked B8
",
    ),
    // Blanks around a value are stripped, and capitals are another word.
    (
        "a resource policy with blanks",
        r#"{"start":["https://a.com/"],"resources":[
{"url":"https://a.com/","actions":[{"do":"fetch","url":"https://sub.a.com/x","mode":"no-cors"}]},
{"url":"https://sub.a.com/x","headers":[["Cross-Origin-Resource-Policy"," same-origin "]],"body":"x"}]}"#,
        "history 2
open 0
order 0 0 https://a.com https://a.com https://a.com/
commit 0 0 https://a.com 68747470733a2f2f612e636f6d2f => ok
said 0 0 0 0 fetch no-cors https://a.com 68747470733a2f2f7375622e612e636f6d2f78 => ok
end 0 blocked B8
",
    ),
    (
        "a resource policy in capitals",
        r#"{"start":["https://a.com/"],"resources":[
{"url":"https://a.com/","actions":[{"do":"fetch","url":"https://sub.a.com/x","mode":"no-cors"}]},
{"url":"https://sub.a.com/x","headers":[["Cross-Origin-Resource-Policy","Same-Origin"]],"body":"x"}]}"#,
        "history 2
open 0
order 0 0 https://a.com https://a.com https://a.com/
commit 0 0 https://a.com 68747470733a2f2f612e636f6d2f => ok
said 0 0 0 0 fetch no-cors https://a.com 68747470733a2f2f7375622e612e636f6d2f78 => ok
head 0 A3
piece 0 0 78
end 0 whole
",
    ),
    // The page is of it.
    (
        "a response for its own site",
        r#"{"start":["https://a.com/"],"resources":[
{"url":"https://a.com/","actions":[{"do":"fetch","url":"https://sub.a.com/x","mode":"no-cors"}]},
{"url":"https://sub.a.com/x","headers":[["Cross-Origin-Resource-Policy","same-site"]],"body":"x"}]}"#,
        "history 2
open 0
order 0 0 https://a.com https://a.com https://a.com/
commit 0 0 https://a.com 68747470733a2f2f612e636f6d2f => ok
said 0 0 0 0 fetch no-cors https://a.com 68747470733a2f2f7375622e612e636f6d2f78 => ok
head 0 A3
piece 0 0 78
end 0 whole
",
    ),
    // B8 for a picture.
    (
        "a response for another site",
        r#"{"start":["https://a.com/"],"resources":[
{"url":"https://a.com/","actions":[{"do":"fetch","url":"https://b.com/x","mode":"no-cors"}]},
{"url":"https://b.com/x","headers":[["Content-Type","image/png"],["Cross-Origin-Resource-Policy","same-site"]],"body":"x"}]}"#,
        "history 2
open 0
order 0 0 https://a.com https://a.com https://a.com/
commit 0 0 https://a.com 68747470733a2f2f612e636f6d2f => ok
said 0 0 0 0 fetch no-cors https://a.com 68747470733a2f2f622e636f6d2f78 => ok
end 0 blocked B8
",
    ),
    // Other values forbid nothing, and neither do two values.
    (
        "a response for every site",
        r#"{"start":["https://a.com/"],"resources":[
{"url":"https://a.com/","actions":[{"do":"fetch","url":"https://b.com/x","mode":"no-cors"}]},
{"url":"https://b.com/x","headers":[["Content-Type","image/png"],["Cross-Origin-Resource-Policy","same-site"],["Cross-Origin-Resource-Policy","same-site"]],"body":"x"}]}"#,
        "history 2
open 0
order 0 0 https://a.com https://a.com https://a.com/
commit 0 0 https://a.com 68747470733a2f2f612e636f6d2f => ok
said 0 0 0 0 fetch no-cors https://a.com 68747470733a2f2f622e636f6d2f78 => ok
head 0 A4
piece 0 0 78
end 0 whole
",
    ),
    // `cross-origin` forbids nothing.
    (
        "a response that is for crossing origins",
        r#"{"start":["https://a.com/"],"resources":[
{"url":"https://a.com/","actions":[{"do":"fetch","url":"https://b.com/x","mode":"no-cors"}]},
{"url":"https://b.com/x","headers":[["Content-Type","image/png"],["Cross-Origin-Resource-Policy","cross-origin"]],"body":"x"}]}"#,
        "history 2
open 0
order 0 0 https://a.com https://a.com https://a.com/
commit 0 0 https://a.com 68747470733a2f2f612e636f6d2f => ok
said 0 0 0 0 fetch no-cors https://a.com 68747470733a2f2f622e636f6d2f78 => ok
head 0 A4
piece 0 0 78
end 0 whole
",
    ),
    // Only the last response has a policy.
    (
        "the resource policy of a redirect is not asked",
        r#"{"start":["https://a.com/"],"resources":[
{"url":"https://a.com/","actions":[{"do":"fetch","url":"https://b.com/x","mode":"no-cors"}]},
{"url":"https://b.com/x","status":302,"headers":[["Location","/y"],["Cross-Origin-Resource-Policy","same-origin"]]},
{"url":"https://b.com/y","headers":[["Content-Type","image/png"]],"body":"x"}]}"#,
        "history 2
open 0
order 0 0 https://a.com https://a.com https://a.com/
commit 0 0 https://a.com 68747470733a2f2f612e636f6d2f => ok
said 0 0 0 0 fetch no-cors https://a.com 68747470733a2f2f622e636f6d2f78 => ok
hop req 0 https://b.com/y
head 0 A4
piece 0 0 78
end 0 whole
",
    ),
    // The last URL is of the own origin, and the one before is not.
    (
        "the resource policy asks for each URL of the chain",
        r#"{"start":["https://a.com/"],"resources":[
{"url":"https://a.com/","actions":[{"do":"fetch","url":"https://b.com/x","mode":"no-cors"}]},
{"url":"https://b.com/x","status":302,"headers":[["Location","https://a.com/y"]]},
{"url":"https://a.com/y","headers":[["Cross-Origin-Resource-Policy","same-origin"]],"body":"x"}]}"#,
        "history 2
open 0
order 0 0 https://a.com https://a.com https://a.com/
commit 0 0 https://a.com 68747470733a2f2f612e636f6d2f => ok
said 0 0 0 0 fetch no-cors https://a.com 68747470733a2f2f622e636f6d2f78 => ok
hop req 0 https://a.com/y
end 0 blocked B8
",
    ),
    // A3 does not hold for a sandboxed frame, and its site's own policy leaves it out.
    (
        "a request of an opaque origin is of no site",
        r#"{"start":["https://a.com/"],"resources":[
{"url":"https://a.com/","actions":[{"do":"frame","src":"https://a.com/f","sandbox":true}]},
{"url":"https://a.com/f","actions":[{"do":"fetch","url":"https://a.com/1","mode":"no-cors"},
{"do":"fetch","url":"https://a.com/2","mode":"no-cors"},{"do":"fetch","url":"https://a.com/3","mode":"cors"}]},
{"url":"https://a.com/1","headers":[["Content-Type","text/html"]],"body":"<p"},
{"url":"https://a.com/2","headers":[["Cross-Origin-Resource-Policy","same-site"]],"body":"x"},
{"url":"https://a.com/3","body":"x"}]}"#,
        "history 2
open 0
order 0 0 https://a.com https://a.com https://a.com/
commit 0 0 https://a.com 68747470733a2f2f612e636f6d2f => ok
said 0 0 0 0 frame sandboxed url 68747470733a2f2f612e636f6d2f66 => ok
order 1 0 https://a.com opaque:1:https://a.com https://a.com/f
commit 0 1 opaque:1:https://a.com 68747470733a2f2f612e636f6d2f66 => ok
said 0 1 0 1 fetch no-cors opaque:1:https://a.com 68747470733a2f2f612e636f6d2f31 => ok
said 0 1 1 1 fetch no-cors opaque:1:https://a.com 68747470733a2f2f612e636f6d2f32 => ok
said 0 1 2 1 fetch cors opaque:1:https://a.com 68747470733a2f2f612e636f6d2f33 => ok
end 0 blocked B4
end 1 blocked B8
end 2 blocked B1
",
    ),
    // A2 by the CORS check alone.
    (
        "the resource policy does not count in mode cors",
        r#"{"start":["https://a.com/"],"resources":[
{"url":"https://a.com/","actions":[{"do":"fetch","url":"https://b.com/x","mode":"cors"}]},
{"url":"https://b.com/x","headers":[["Access-Control-Allow-Origin","*"],["Cross-Origin-Resource-Policy","same-origin"]]}]}"#,
        "history 2
open 0
order 0 0 https://a.com https://a.com https://a.com/
commit 0 0 https://a.com 68747470733a2f2f612e636f6d2f => ok
said 0 0 0 0 fetch cors https://a.com 68747470733a2f2f622e636f6d2f78 => ok
head 0 A2
end 0 whole
",
    ),
];

#[test]
fn heads_run_as_written(rt: HostRuntime) -> Result<(), Fail> {
    assert_runs_as_written(&rt, rt.alloc(), ROWS)
}
