//! Verdicts in mode cors: rules A1, A2 and B1.

use super::{Row, assert_runs_as_written};
use std::test::Fail;

const ROWS: &[Row] = &[
    // A1, whatever its kind is.
    (
        "a response of the own origin in mode cors",
        r#"{"start":["https://a.com/"],"resources":[
{"url":"https://a.com/","actions":[{"do":"fetch","url":"https://a.com/x","mode":"cors"}]},
{"url":"https://a.com/x","headers":[["Content-Type","text/html"]],"body":"<html>"}]}"#,
        "history 2
open 0
order 0 0 https://a.com https://a.com https://a.com/
commit 0 0 https://a.com 68747470733a2f2f612e636f6d2f => ok
said 0 0 0 0 fetch cors https://a.com 68747470733a2f2f612e636f6d2f78 => ok
head 0 A1
piece 0 0 3c68746d6c3e
end 0 whole
",
    ),
    // Another origin without a header: B1.
    (
        "another port of the own host in mode cors",
        r#"{"start":["https://a.com/"],"resources":[
{"url":"https://a.com/","actions":[{"do":"fetch","url":"https://a.com:8443/x","mode":"cors"}]},
{"url":"https://a.com:8443/x","body":"x"}]}"#,
        "history 2
open 0
order 0 0 https://a.com https://a.com https://a.com/
commit 0 0 https://a.com 68747470733a2f2f612e636f6d2f => ok
said 0 0 0 0 fetch cors https://a.com 68747470733a2f2f612e636f6d3a383434332f78 => ok
end 0 blocked B1
",
    ),
    // A2.
    (
        "a response that any origin may read",
        r#"{"start":["https://a.com/"],"resources":[
{"url":"https://a.com/","actions":[{"do":"fetch","url":"https://b.com/x","mode":"cors"}]},
{"url":"https://b.com/x","headers":[["Access-Control-Allow-Origin","*"]],"body":"x"}]}"#,
        "history 2
open 0
order 0 0 https://a.com https://a.com https://a.com/
commit 0 0 https://a.com 68747470733a2f2f612e636f6d2f => ok
said 0 0 0 0 fetch cors https://a.com 68747470733a2f2f622e636f6d2f78 => ok
head 0 A2
piece 0 0 78
end 0 whole
",
    ),
    // A2.
    (
        "a response that names the origin",
        r#"{"start":["https://a.com/"],"resources":[
{"url":"https://a.com/","actions":[{"do":"fetch","url":"https://b.com/x","mode":"cors"}]},
{"url":"https://b.com/x","headers":[["Access-Control-Allow-Origin"," https://a.com "]],"body":"x"}]}"#,
        "history 2
open 0
order 0 0 https://a.com https://a.com https://a.com/
commit 0 0 https://a.com 68747470733a2f2f612e636f6d2f => ok
said 0 0 0 0 fetch cors https://a.com 68747470733a2f2f622e636f6d2f78 => ok
head 0 A2
piece 0 0 78
end 0 whole
",
    ),
    // Texts are compared as they stand: B1.
    (
        "a response that names the origin with its port",
        r#"{"start":["https://a.com/"],"resources":[
{"url":"https://a.com/","actions":[{"do":"fetch","url":"https://b.com/x","mode":"cors"}]},
{"url":"https://b.com/x","headers":[["Access-Control-Allow-Origin","https://a.com:443"]],"body":"x"}]}"#,
        "history 2
open 0
order 0 0 https://a.com https://a.com https://a.com/
commit 0 0 https://a.com 68747470733a2f2f612e636f6d2f => ok
said 0 0 0 0 fetch cors https://a.com 68747470733a2f2f622e636f6d2f78 => ok
end 0 blocked B1
",
    ),
    // B1.
    (
        "a response that names another origin",
        r#"{"start":["https://a.com/"],"resources":[
{"url":"https://a.com/","actions":[{"do":"fetch","url":"https://b.com/x","mode":"cors"}]},
{"url":"https://b.com/x","headers":[["Access-Control-Allow-Origin","https://b.com"]],"body":"x"}]}"#,
        "history 2
open 0
order 0 0 https://a.com https://a.com https://a.com/
commit 0 0 https://a.com 68747470733a2f2f612e636f6d2f => ok
said 0 0 0 0 fetch cors https://a.com 68747470733a2f2f622e636f6d2f78 => ok
end 0 blocked B1
",
    ),
    // B1.
    (
        "a response that names nobody",
        r#"{"start":["https://a.com/"],"resources":[
{"url":"https://a.com/","actions":[{"do":"fetch","url":"https://b.com/x","mode":"cors"}]},
{"url":"https://b.com/x","body":"x"}]}"#,
        "history 2
open 0
order 0 0 https://a.com https://a.com https://a.com/
commit 0 0 https://a.com 68747470733a2f2f612e636f6d2f => ok
said 0 0 0 0 fetch cors https://a.com 68747470733a2f2f622e636f6d2f78 => ok
end 0 blocked B1
",
    ),
    // The values are joined: B1.
    (
        "a response that names two origins",
        r#"{"start":["https://a.com/"],"resources":[
{"url":"https://a.com/","actions":[{"do":"fetch","url":"https://b.com/x","mode":"cors"}]},
{"url":"https://b.com/x","headers":[["Access-Control-Allow-Origin","https://a.com"],["Access-Control-Allow-Origin","https://b.com"]],"body":"x"}]}"#,
        "history 2
open 0
order 0 0 https://a.com https://a.com https://a.com/
commit 0 0 https://a.com 68747470733a2f2f612e636f6d2f => ok
said 0 0 0 0 fetch cors https://a.com 68747470733a2f2f622e636f6d2f78 => ok
end 0 blocked B1
",
    ),
    // The origin is a tuple: B1.
    (
        "a response that names `null`",
        r#"{"start":["https://a.com/"],"resources":[
{"url":"https://a.com/","actions":[{"do":"fetch","url":"https://b.com/x","mode":"cors"}]},
{"url":"https://b.com/x","headers":[["Access-Control-Allow-Origin","null"]],"body":"x"}]}"#,
        "history 2
open 0
order 0 0 https://a.com https://a.com https://a.com/
commit 0 0 https://a.com 68747470733a2f2f612e636f6d2f => ok
said 0 0 0 0 fetch cors https://a.com 68747470733a2f2f622e636f6d2f78 => ok
end 0 blocked B1
",
    ),
    // Status 204 ends no request.
    (
        "a response without content",
        r#"{"start":["https://a.com/"],"resources":[
{"url":"https://a.com/","actions":[{"do":"fetch","url":"https://b.com/x","mode":"cors"}]},
{"url":"https://b.com/x","status":204,"headers":[["Access-Control-Allow-Origin","*"]]}]}"#,
        "history 2
open 0
order 0 0 https://a.com https://a.com https://a.com/
commit 0 0 https://a.com 68747470733a2f2f612e636f6d2f => ok
said 0 0 0 0 fetch cors https://a.com 68747470733a2f2f622e636f6d2f78 => ok
head 0 A2
end 0 whole
",
    ),
    // Its opaque origin's text; even its own host's response must say it.
    (
        "a sandboxed frame is named `null`",
        r#"{"start":["https://a.com/"],"resources":[
{"url":"https://a.com/","actions":[{"do":"frame","src":"https://a.com/f","sandbox":true}]},
{"url":"https://a.com/f","actions":[{"do":"fetch","url":"https://b.com/x","mode":"cors"},
{"do":"fetch","url":"https://a.com/x","mode":"cors"}]},
{"url":"https://b.com/x","headers":[["Access-Control-Allow-Origin","null"]],"body":"x"},
{"url":"https://a.com/x","headers":[["Access-Control-Allow-Origin","https://a.com"]],"body":"x"}]}"#,
        "history 2
open 0
order 0 0 https://a.com https://a.com https://a.com/
commit 0 0 https://a.com 68747470733a2f2f612e636f6d2f => ok
said 0 0 0 0 frame sandboxed url 68747470733a2f2f612e636f6d2f66 => ok
order 1 0 https://a.com opaque:1:https://a.com https://a.com/f
commit 0 1 opaque:1:https://a.com 68747470733a2f2f612e636f6d2f66 => ok
said 0 1 0 1 fetch cors opaque:1:https://a.com 68747470733a2f2f622e636f6d2f78 => ok
said 0 1 1 1 fetch cors opaque:1:https://a.com 68747470733a2f2f612e636f6d2f78 => ok
head 0 A2
piece 0 0 78
end 0 whole
end 1 blocked B1
",
    ),
];

#[test]
fn cross_origin_run_as_written(rt: HostRuntime) -> Result<(), Fail> {
    assert_runs_as_written(&rt, rt.alloc(), ROWS)
}
