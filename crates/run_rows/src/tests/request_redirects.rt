//! Redirects of requests, and the CORS check at each.

use super::{Row, assert_runs_as_written};
use std::test::Fail;

const ROWS: &[Row] = &[
    // B1 at the redirect, before its Location is looked at.
    (
        "a redirect that the page may not read",
        r#"{"start":["https://a.com/"],"resources":[
{"url":"https://a.com/","actions":[{"do":"fetch","url":"https://b.com/r","mode":"cors"}]},
{"url":"https://b.com/r","status":302,"headers":[["Location","data:,x"]]}]}"#,
        "history 2
open 0
order 0 0 https://a.com https://a.com https://a.com/
commit 0 0 https://a.com 68747470733a2f2f612e636f6d2f => ok
said 0 0 0 0 fetch cors https://a.com 68747470733a2f2f622e636f6d2f72 => ok
end 0 blocked B1
",
    ),
    // The chain is not tainted: the second response names the origin.
    (
        "a redirect within another origin",
        r#"{"start":["https://a.com/"],"resources":[
{"url":"https://a.com/","actions":[{"do":"fetch","url":"https://b.com/r","mode":"cors"}]},
{"url":"https://b.com/r","status":302,"headers":[["Location","/x"],["Access-Control-Allow-Origin","*"]]},
{"url":"https://b.com/x","headers":[["Access-Control-Allow-Origin","https://a.com"]],"body":"x"}]}"#,
        "history 2
open 0
order 0 0 https://a.com https://a.com https://a.com/
commit 0 0 https://a.com 68747470733a2f2f612e636f6d2f => ok
said 0 0 0 0 fetch cors https://a.com 68747470733a2f2f622e636f6d2f72 => ok
hop req 0 https://b.com/x
head 0 A2
piece 0 0 78
end 0 whole
",
    ),
    // The chain is tainted, and `null` passes.
    (
        "a redirect from one other origin to another",
        r#"{"start":["https://a.com/"],"resources":[
{"url":"https://a.com/","actions":[{"do":"fetch","url":"https://b.com/r","mode":"cors"}]},
{"url":"https://b.com/r","status":301,"headers":[["Location","https://c.com/x"],["Access-Control-Allow-Origin","https://a.com"]]},
{"url":"https://c.com/x","headers":[["Access-Control-Allow-Origin","null"]],"body":"x"}]}"#,
        "history 2
open 0
order 0 0 https://a.com https://a.com https://a.com/
commit 0 0 https://a.com 68747470733a2f2f612e636f6d2f => ok
said 0 0 0 0 fetch cors https://a.com 68747470733a2f2f622e636f6d2f72 => ok
hop req 0 https://c.com/x
head 0 A2
piece 0 0 78
end 0 whole
",
    ),
    // B1 at the second response.
    (
        "a tainted chain does not pass by the origin",
        r#"{"start":["https://a.com/"],"resources":[
{"url":"https://a.com/","actions":[{"do":"fetch","url":"https://b.com/r","mode":"cors"}]},
{"url":"https://b.com/r","status":301,"headers":[["Location","https://c.com/x"],["Access-Control-Allow-Origin","https://a.com"]]},
{"url":"https://c.com/x","headers":[["Access-Control-Allow-Origin","https://a.com"]],"body":"x"}]}"#,
        "history 2
open 0
order 0 0 https://a.com https://a.com https://a.com/
commit 0 0 https://a.com 68747470733a2f2f612e636f6d2f => ok
said 0 0 0 0 fetch cors https://a.com 68747470733a2f2f622e636f6d2f72 => ok
hop req 0 https://c.com/x
end 0 blocked B1
",
    ),
    // A2.
    (
        "a tainted chain passes by the star",
        r#"{"start":["https://a.com/"],"resources":[
{"url":"https://a.com/","actions":[{"do":"fetch","url":"https://b.com/r","mode":"cors"}]},
{"url":"https://b.com/r","status":301,"headers":[["Location","https://c.com/x"],["Access-Control-Allow-Origin","*"]]},
{"url":"https://c.com/x","headers":[["Access-Control-Allow-Origin","*"]],"body":"x"}]}"#,
        "history 2
open 0
order 0 0 https://a.com https://a.com https://a.com/
commit 0 0 https://a.com 68747470733a2f2f612e636f6d2f => ok
said 0 0 0 0 fetch cors https://a.com 68747470733a2f2f622e636f6d2f72 => ok
hop req 0 https://c.com/x
head 0 A2
piece 0 0 78
end 0 whole
",
    ),
    // Not tainted; the redirect itself needs no header.
    (
        "a redirect from the own origin to another",
        r#"{"start":["https://a.com/"],"resources":[
{"url":"https://a.com/","actions":[{"do":"fetch","url":"https://a.com/r","mode":"cors"}]},
{"url":"https://a.com/r","status":307,"headers":[["Location","https://b.com/x"]]},
{"url":"https://b.com/x","headers":[["Access-Control-Allow-Origin","https://a.com"]],"body":"x"}]}"#,
        "history 2
open 0
order 0 0 https://a.com https://a.com https://a.com/
commit 0 0 https://a.com 68747470733a2f2f612e636f6d2f => ok
said 0 0 0 0 fetch cors https://a.com 68747470733a2f2f612e636f6d2f72 => ok
hop req 0 https://b.com/x
head 0 A2
piece 0 0 78
end 0 whole
",
    ),
    // The last URL is of the own origin, and the chain is tainted.
    (
        "a redirect there and back",
        r#"{"start":["https://a.com/"],"resources":[
{"url":"https://a.com/","actions":[{"do":"fetch","url":"https://a.com/r","mode":"cors"}]},
{"url":"https://a.com/r","status":307,"headers":[["Location","https://b.com/x"]]},
{"url":"https://b.com/x","status":308,"headers":[["Location","https://a.com/y"],["Access-Control-Allow-Origin","*"]]},
{"url":"https://a.com/y","headers":[["Access-Control-Allow-Origin","null"]],"body":"x"}]}"#,
        "history 2
open 0
order 0 0 https://a.com https://a.com https://a.com/
commit 0 0 https://a.com 68747470733a2f2f612e636f6d2f => ok
said 0 0 0 0 fetch cors https://a.com 68747470733a2f2f612e636f6d2f72 => ok
hop req 0 https://b.com/x
hop req 0 https://a.com/y
head 0 A2
piece 0 0 78
end 0 whole
",
    ),
    // B1 on a response of the own origin.
    (
        "a redirect there and back without a header",
        r#"{"start":["https://a.com/"],"resources":[
{"url":"https://a.com/","actions":[{"do":"fetch","url":"https://a.com/r","mode":"cors"}]},
{"url":"https://a.com/r","status":307,"headers":[["Location","https://b.com/x"]]},
{"url":"https://b.com/x","status":308,"headers":[["Location","https://a.com/y"],["Access-Control-Allow-Origin","*"]]},
{"url":"https://a.com/y","body":"x"}]}"#,
        "history 2
open 0
order 0 0 https://a.com https://a.com https://a.com/
commit 0 0 https://a.com 68747470733a2f2f612e636f6d2f => ok
said 0 0 0 0 fetch cors https://a.com 68747470733a2f2f612e636f6d2f72 => ok
hop req 0 https://b.com/x
hop req 0 https://a.com/y
end 0 blocked B1
",
    ),
    // Twenty are followed; the 21st ends the request.
    (
        "a redirect to its own URL",
        r#"{"start":["https://a.com/"],"resources":[
{"url":"https://a.com/","actions":[{"do":"fetch","url":"https://b.com/r","mode":"cors"}]},
{"url":"https://b.com/r","status":302,"headers":[["Location","/r"],["Access-Control-Allow-Origin","*"]]}]}"#,
        "history 2
open 0
order 0 0 https://a.com https://a.com https://a.com/
commit 0 0 https://a.com 68747470733a2f2f612e636f6d2f => ok
said 0 0 0 0 fetch cors https://a.com 68747470733a2f2f622e636f6d2f72 => ok
hop req 0 https://b.com/r
hop req 0 https://b.com/r
hop req 0 https://b.com/r
hop req 0 https://b.com/r
hop req 0 https://b.com/r
hop req 0 https://b.com/r
hop req 0 https://b.com/r
hop req 0 https://b.com/r
hop req 0 https://b.com/r
hop req 0 https://b.com/r
hop req 0 https://b.com/r
hop req 0 https://b.com/r
hop req 0 https://b.com/r
hop req 0 https://b.com/r
hop req 0 https://b.com/r
hop req 0 https://b.com/r
hop req 0 https://b.com/r
hop req 0 https://b.com/r
hop req 0 https://b.com/r
hop req 0 https://b.com/r
end 0 failed N5
",
    ),
    // No header is asked for.
    (
        "a redirect to its own URL in mode no-cors",
        r#"{"start":["https://a.com/"],"resources":[
{"url":"https://a.com/","actions":[{"do":"fetch","url":"https://b.com/r","mode":"no-cors"}]},
{"url":"https://b.com/r","status":302,"headers":[["Location","/r"]]}]}"#,
        "history 2
open 0
order 0 0 https://a.com https://a.com https://a.com/
commit 0 0 https://a.com 68747470733a2f2f612e636f6d2f => ok
said 0 0 0 0 fetch no-cors https://a.com 68747470733a2f2f622e636f6d2f72 => ok
hop req 0 https://b.com/r
hop req 0 https://b.com/r
hop req 0 https://b.com/r
hop req 0 https://b.com/r
hop req 0 https://b.com/r
hop req 0 https://b.com/r
hop req 0 https://b.com/r
hop req 0 https://b.com/r
hop req 0 https://b.com/r
hop req 0 https://b.com/r
hop req 0 https://b.com/r
hop req 0 https://b.com/r
hop req 0 https://b.com/r
hop req 0 https://b.com/r
hop req 0 https://b.com/r
hop req 0 https://b.com/r
hop req 0 https://b.com/r
hop req 0 https://b.com/r
hop req 0 https://b.com/r
hop req 0 https://b.com/r
end 0 failed N5
",
    ),
    // F1.
    (
        "a redirect to `data:`",
        r#"{"start":["https://a.com/"],"resources":[
{"url":"https://a.com/","actions":[{"do":"fetch","url":"https://b.com/r","mode":"cors"}]},
{"url":"https://b.com/r","status":302,"headers":[["Location","data:,x"],["Access-Control-Allow-Origin","*"]]}]}"#,
        "history 2
open 0
order 0 0 https://a.com https://a.com https://a.com/
commit 0 0 https://a.com 68747470733a2f2f612e636f6d2f => ok
said 0 0 0 0 fetch cors https://a.com 68747470733a2f2f622e636f6d2f72 => ok
end 0 failed F1
",
    ),
    // F1 behind a hop.
    (
        "a Location that does not join to the request",
        r#"{"start":["https://a.com/"],"resources":[
{"url":"https://a.com/","actions":[{"do":"fetch","url":"https://b.com/r","mode":"no-cors"}]},
{"url":"https://b.com/r","status":302,"headers":[["Location","/x"]]},
{"url":"https://b.com/x","status":303,"headers":[["Location","https://"]]}]}"#,
        "history 2
open 0
order 0 0 https://a.com https://a.com https://a.com/
commit 0 0 https://a.com 68747470733a2f2f612e636f6d2f => ok
said 0 0 0 0 fetch no-cors https://a.com 68747470733a2f2f622e636f6d2f72 => ok
hop req 0 https://b.com/x
end 0 failed F1
",
    ),
    // A3 asks for each URL of the chain.
    (
        "a redirect out of the site and back in mode no-cors",
        r#"{"start":["https://a.com/"],"resources":[
{"url":"https://a.com/","actions":[{"do":"fetch","url":"https://a.com/1","mode":"no-cors"}]},
{"url":"https://a.com/1","status":302,"headers":[["Location","https://b.com/2"]]},
{"url":"https://b.com/2","status":302,"headers":[["Location","https://a.com/3"]]},
{"url":"https://a.com/3","headers":[["Content-Type","text/html"]],"body":"<p"}]}"#,
        "history 2
open 0
order 0 0 https://a.com https://a.com https://a.com/
commit 0 0 https://a.com 68747470733a2f2f612e636f6d2f => ok
said 0 0 0 0 fetch no-cors https://a.com 68747470733a2f2f612e636f6d2f31 => ok
hop req 0 https://b.com/2
hop req 0 https://a.com/3
end 0 blocked B4
",
    ),
    // A3: the chain stays in the site.
    (
        "a redirect within the site in mode no-cors",
        r#"{"start":["https://a.com/"],"resources":[
{"url":"https://a.com/","actions":[{"do":"fetch","url":"https://a.com/1","mode":"no-cors"}]},
{"url":"https://a.com/1","status":302,"headers":[["Location","https://sub.a.com/2"]]},
{"url":"https://sub.a.com/2","headers":[["Content-Type","text/html"]],"body":"<p"}]}"#,
        "history 2
open 0
order 0 0 https://a.com https://a.com https://a.com/
commit 0 0 https://a.com 68747470733a2f2f612e636f6d2f => ok
said 0 0 0 0 fetch no-cors https://a.com 68747470733a2f2f612e636f6d2f31 => ok
hop req 0 https://sub.a.com/2
head 0 A3
piece 0 0 3c70
end 0 whole
",
    ),
    // It is the response.
    (
        "a redirect's status without a Location",
        r#"{"start":["https://a.com/"],"resources":[
{"url":"https://a.com/","actions":[{"do":"fetch","url":"https://b.com/x","mode":"cors"}]},
{"url":"https://b.com/x","status":302,"headers":[["Access-Control-Allow-Origin","*"]],"body":"x"}]}"#,
        "history 2
open 0
order 0 0 https://a.com https://a.com https://a.com/
commit 0 0 https://a.com 68747470733a2f2f612e636f6d2f => ok
said 0 0 0 0 fetch cors https://a.com 68747470733a2f2f622e636f6d2f78 => ok
head 0 A2
piece 0 0 78
end 0 whole
",
    ),
    // It finds the resource without it, and the hop does not carry it.
    (
        "a URL with a fragment",
        r#"{"start":["https://a.com/"],"resources":[
{"url":"https://a.com/","actions":[{"do":"fetch","url":"https://b.com/r#x","mode":"cors"}]},
{"url":"https://b.com/r","status":302,"headers":[["Location","/x"],["Access-Control-Allow-Origin","*"]]},
{"url":"https://b.com/x","headers":[["Access-Control-Allow-Origin","*"]],"body":"x"}]}"#,
        "history 2
open 0
order 0 0 https://a.com https://a.com https://a.com/
commit 0 0 https://a.com 68747470733a2f2f612e636f6d2f => ok
said 0 0 0 0 fetch cors https://a.com 68747470733a2f2f622e636f6d2f722378 => ok
hop req 0 https://b.com/x
head 0 A2
piece 0 0 78
end 0 whole
",
    ),
    // Then hops by request, with a new search behind each entry.
    (
        "redirects of navigations come before those of requests",
        r#"{"start":["https://a.com/"],"resources":[
{"url":"https://a.com/","actions":[{"do":"fetch","url":"https://b.com/r","mode":"no-cors"},
{"do":"fetch","url":"https://b.com/s","mode":"no-cors"},{"do":"frame","src":"https://a.com/r"}]},
{"url":"https://b.com/r","status":302,"headers":[["Location","/s"]]},
{"url":"https://b.com/s","status":302,"headers":[["Location","/x"]]},
{"url":"https://a.com/r","status":302,"headers":[["Location","/f"]]}]}"#,
        "history 2
open 0
order 0 0 https://a.com https://a.com https://a.com/
commit 0 0 https://a.com 68747470733a2f2f612e636f6d2f => ok
said 0 0 0 0 fetch no-cors https://a.com 68747470733a2f2f622e636f6d2f72 => ok
hop req 0 https://b.com/s
hop req 0 https://b.com/x
said 0 0 1 0 fetch no-cors https://a.com 68747470733a2f2f622e636f6d2f73 => ok
hop req 1 https://b.com/x
said 0 0 2 0 frame plain url 68747470733a2f2f612e636f6d2f72 => ok
hop nav 1 https://a.com/f
order 1 0 https://a.com https://a.com https://a.com/f
commit 0 1 https://a.com 68747470733a2f2f612e636f6d2f66 => ok
head 0 A4
head 1 A4
end 0 whole
end 1 whole
",
    ),
];

#[test]
fn request_redirects_run_as_written(rt: HostRuntime) -> Result<(), Fail> {
    assert_runs_as_written(&rt, rt.alloc(), ROWS)
}
