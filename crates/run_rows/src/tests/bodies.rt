//! Bodies in pieces, wires that fail, waits, and what a lost document does not get.

use super::{Row, assert_runs_as_written};
use std::test::Fail;

const ROWS: &[Row] = &[
    // Heads, then pieces by request, then ends.
    (
        "a body in pieces",
        r#"{"start":["https://a.com/"],"resources":[
{"url":"https://a.com/","actions":[{"do":"fetch","url":"https://a.com/d","mode":"cors"},
{"do":"fetch","url":"https://a.com/e","mode":"no-cors"}]},
{"url":"https://a.com/d","body":"0123456789","cuts":[1,4,9]},
{"url":"https://a.com/e","body":"ab","cuts":[1]}]}"#,
        "history 2
open 0
order 0 0 https://a.com https://a.com https://a.com/
commit 0 0 https://a.com 68747470733a2f2f612e636f6d2f => ok
said 0 0 0 0 fetch cors https://a.com 68747470733a2f2f612e636f6d2f64 => ok
said 0 0 1 0 fetch no-cors https://a.com 68747470733a2f2f612e636f6d2f65 => ok
head 0 A1
head 1 A3
piece 0 0 30
piece 0 1 313233
piece 0 2 3435363738
piece 0 3 39
piece 1 0 61
piece 1 1 62
end 0 whole
end 1 whole
",
    ),
    // Given in hexadecimal digits of either case.
    (
        "a body of any bytes",
        r#"{"start":["https://a.com/"],"resources":[
{"url":"https://a.com/","actions":[{"do":"fetch","url":"https://a.com/d","mode":"cors"}]},
{"url":"https://a.com/d","body_hex":"00fF0aC3","cuts":[2]}]}"#,
        "history 2
open 0
order 0 0 https://a.com https://a.com https://a.com/
commit 0 0 https://a.com 68747470733a2f2f612e636f6d2f => ok
said 0 0 0 0 fetch cors https://a.com 68747470733a2f2f612e636f6d2f64 => ok
head 0 A1
piece 0 0 00ff
piece 0 1 0ac3
end 0 whole
",
    ),
    // Its end is whole.
    (
        "an empty body has no pieces",
        r#"{"start":["https://a.com/"],"resources":[
{"url":"https://a.com/","actions":[{"do":"fetch","url":"https://a.com/d","mode":"cors"}]},
{"url":"https://a.com/d"}]}"#,
        "history 2
open 0
order 0 0 https://a.com https://a.com https://a.com/
commit 0 0 https://a.com 68747470733a2f2f612e636f6d2f => ok
said 0 0 0 0 fetch cors https://a.com 68747470733a2f2f612e636f6d2f64 => ok
head 0 A1
end 0 whole
",
    ),
    // No head and no piece, however it is cut.
    (
        "a blocked body gives nothing",
        r#"{"start":["https://a.com/"],"resources":[
{"url":"https://a.com/","actions":[{"do":"fetch","url":"https://b.com/x","mode":"no-cors"}]},
{"url":"https://b.com/x","headers":[["Content-Type","text/html"]],"body":"<html>","cuts":[1,5]}]}"#,
        "history 2
open 0
order 0 0 https://a.com https://a.com https://a.com/
commit 0 0 https://a.com 68747470733a2f2f612e636f6d2f => ok
said 0 0 0 0 fetch no-cors https://a.com 68747470733a2f2f622e636f6d2f78 => ok
end 0 blocked B4
",
    ),
    // What a first piece has cleared is delivered whole.
    (
        "a page in the midst of a text is no page",
        r#"{"start":["https://a.com/"],"resources":[
{"url":"https://a.com/","actions":[{"do":"fetch","url":"https://b.com/x","mode":"no-cors"}]},
{"url":"https://b.com/x","headers":[["Content-Type","text/html"]],"body":"x<html>","cuts":[1]}]}"#,
        "history 2
open 0
order 0 0 https://a.com https://a.com https://a.com/
commit 0 0 https://a.com 68747470733a2f2f612e636f6d2f => ok
said 0 0 0 0 fetch no-cors https://a.com 68747470733a2f2f622e636f6d2f78 => ok
head 0 A5
piece 0 0 78
piece 0 1 3c68746d6c3e
end 0 whole
",
    ),
    // Neither verdict nor redirect is looked at.
    (
        "a wire that fails at once",
        r#"{"start":["https://a.com/"],"resources":[
{"url":"https://a.com/","actions":[{"do":"fetch","url":"https://a.com/d","mode":"cors"},
{"do":"fetch","url":"https://b.com/x","mode":"cors"},{"do":"fetch","url":"https://b.com/r","mode":"no-cors"}]},
{"url":"https://a.com/d","body":"x","fail_after":0},
{"url":"https://b.com/x","body":"x","fail_after":0},
{"url":"https://b.com/r","status":302,"headers":[["Location","/x"]],"fail_after":0}]}"#,
        "history 2
open 0
order 0 0 https://a.com https://a.com https://a.com/
commit 0 0 https://a.com 68747470733a2f2f612e636f6d2f => ok
said 0 0 0 0 fetch cors https://a.com 68747470733a2f2f612e636f6d2f64 => ok
said 0 0 1 0 fetch cors https://a.com 68747470733a2f2f622e636f6d2f78 => ok
said 0 0 2 0 fetch no-cors https://a.com 68747470733a2f2f622e636f6d2f72 => ok
end 0 failed N7
end 1 failed N7
end 2 failed N7
",
    ),
    // The fault is that of the last URL.
    (
        "a wire that fails behind a redirect",
        r#"{"start":["https://a.com/"],"resources":[
{"url":"https://a.com/","actions":[{"do":"fetch","url":"https://a.com/r","mode":"cors"}]},
{"url":"https://a.com/r","status":302,"headers":[["Location","/d"]],"body":"ab","fail_after":1},
{"url":"https://a.com/d","body":"x","fail_after":0}]}"#,
        "history 2
open 0
order 0 0 https://a.com https://a.com https://a.com/
commit 0 0 https://a.com 68747470733a2f2f612e636f6d2f => ok
said 0 0 0 0 fetch cors https://a.com 68747470733a2f2f612e636f6d2f72 => ok
hop req 0 https://a.com/d
end 0 failed N7
",
    ),
    // Three bytes could still become a page, so the page gets nothing.
    (
        "a wire that fails before the verdict",
        r#"{"start":["https://a.com/"],"resources":[
{"url":"https://a.com/","actions":[{"do":"fetch","url":"https://b.com/x","mode":"no-cors"}]},
{"url":"https://b.com/x","headers":[["Content-Type","text/html"]],"body":"<html>","fail_after":3}]}"#,
        "history 2
open 0
order 0 0 https://a.com https://a.com https://a.com/
commit 0 0 https://a.com 68747470733a2f2f612e636f6d2f => ok
said 0 0 0 0 fetch no-cors https://a.com 68747470733a2f2f622e636f6d2f78 => ok
end 0 failed N7
",
    ),
    // The bytes are a page already: it is blocked, and not failed.
    (
        "a wire that fails behind the verdict",
        r#"{"start":["https://a.com/"],"resources":[
{"url":"https://a.com/","actions":[{"do":"fetch","url":"https://b.com/x","mode":"no-cors"}]},
{"url":"https://b.com/x","headers":[["Content-Type","text/html"]],"body":"<html>more","fail_after":6}]}"#,
        "history 2
open 0
order 0 0 https://a.com https://a.com https://a.com/
commit 0 0 https://a.com 68747470733a2f2f612e636f6d2f => ok
said 0 0 0 0 fetch no-cors https://a.com 68747470733a2f2f622e636f6d2f78 => ok
end 0 blocked B4
",
    ),
    // The pieces before the fault are delivered; no later byte makes the text a page.
    (
        "a wire that fails behind a verdict that allows",
        r#"{"start":["https://a.com/"],"resources":[
{"url":"https://a.com/","actions":[{"do":"fetch","url":"https://b.com/x","mode":"no-cors"}]},
{"url":"https://b.com/x","headers":[["Content-Type","text/html"]],"body":"hello","fail_after":3}]}"#,
        "history 2
open 0
order 0 0 https://a.com https://a.com https://a.com/
commit 0 0 https://a.com 68747470733a2f2f612e636f6d2f => ok
said 0 0 0 0 fetch no-cors https://a.com 68747470733a2f2f622e636f6d2f78 => ok
head 0 A5
piece 0 0 68656c
end 0 failed N7
",
    ),
    // All bytes came, and the end is a fault all the same; the wait is over with it.
    (
        "a wire that fails at the body's end",
        r#"{"start":["https://a.com/"],"resources":[
{"url":"https://a.com/","actions":[{"do":"fetch","url":"https://a.com/d","mode":"cors"},{"do":"wait"}]},
{"url":"https://a.com/d","body":"0123456789","cuts":[2,3,5],"fail_after":10}]}"#,
        "history 2
open 0
order 0 0 https://a.com https://a.com https://a.com/
commit 0 0 https://a.com 68747470733a2f2f612e636f6d2f => ok
said 0 0 0 0 fetch cors https://a.com 68747470733a2f2f612e636f6d2f64 => ok
head 0 A1
piece 0 0 3031
piece 0 1 32
piece 0 2 3334
piece 0 3 3536373839
end 0 failed N7
local 0 0 1 waited
",
    ),
    // Three bytes come in two pieces.
    (
        "cuts at and behind the fault do not count",
        r#"{"start":["https://a.com/"],"resources":[
{"url":"https://a.com/","actions":[{"do":"fetch","url":"https://a.com/d","mode":"cors"},{"do":"wait"}]},
{"url":"https://a.com/d","body":"0123456789","cuts":[2,3,5],"fail_after":3}]}"#,
        "history 2
open 0
order 0 0 https://a.com https://a.com https://a.com/
commit 0 0 https://a.com 68747470733a2f2f612e636f6d2f => ok
said 0 0 0 0 fetch cors https://a.com 68747470733a2f2f612e636f6d2f64 => ok
head 0 A1
piece 0 0 3031
piece 0 1 32
end 0 failed N7
local 0 0 1 waited
",
    ),
    // It goes on once the last one has its end; the frame's request does not count.
    (
        "a page waits for all its requests",
        r#"{"start":["https://a.com/"],"resources":[
{"url":"https://a.com/","actions":[{"do":"fetch","url":"https://a.com/d","mode":"cors"},
{"do":"fetch","url":"https://b.com/x","mode":"cors"},{"do":"wait"},{"do":"frame","src":"https://a.com/f"},{"do":"wait"}]},
{"url":"https://a.com/f","actions":[{"do":"fetch","url":"https://a.com/d","mode":"no-cors"},{"do":"wait"}]},
{"url":"https://a.com/d","body":"x"}]}"#,
        "history 2
open 0
order 0 0 https://a.com https://a.com https://a.com/
commit 0 0 https://a.com 68747470733a2f2f612e636f6d2f => ok
said 0 0 0 0 fetch cors https://a.com 68747470733a2f2f612e636f6d2f64 => ok
said 0 0 1 0 fetch cors https://a.com 68747470733a2f2f622e636f6d2f78 => ok
head 0 A1
piece 0 0 78
end 0 whole
end 1 blocked B1
local 0 0 2 waited
said 0 0 3 0 frame plain url 68747470733a2f2f612e636f6d2f66 => ok
order 1 0 https://a.com https://a.com https://a.com/f
commit 0 1 https://a.com 68747470733a2f2f612e636f6d2f66 => ok
said 0 1 0 1 fetch no-cors https://a.com 68747470733a2f2f612e636f6d2f64 => ok
local 0 0 4 waited
head 2 A3
piece 2 0 78
end 2 whole
local 0 1 1 waited
",
    ),
    // A crashed page gets nothing of its requests.
    (
        "a crash before the response",
        r#"{"start":["https://a.com/"],"resources":[
{"url":"https://a.com/","actions":[{"do":"fetch","url":"https://a.com/d","mode":"cors"},{"do":"crash"}]},
{"url":"https://a.com/d","body":"x"}]}"#,
        "history 2
open 0
order 0 0 https://a.com https://a.com https://a.com/
commit 0 0 https://a.com 68747470733a2f2f612e636f6d2f => ok
said 0 0 0 0 fetch cors https://a.com 68747470733a2f2f612e636f6d2f64 => ok
crash 0
",
    ),
    // A killed page gets nothing either, and neither does the other page of its process.
    (
        "a kill before the response",
        r#"{"soft_limit":0,"start":["https://a.com/g","https://a.com/"],"resources":[
{"url":"https://a.com/g","actions":[{"do":"fetch","url":"https://a.com/d","mode":"cors"}]},
{"url":"https://a.com/","actions":[{"do":"fetch","url":"https://a.com/d","mode":"cors"},
{"do":"raw","message":{"is":"remove","frame":1}}]},
{"url":"https://a.com/d","body":"x"}]}"#,
        "history 2
open 0
open 1
order 0 0 https://a.com https://a.com https://a.com/g
order 1 0 https://a.com https://a.com https://a.com/
commit 0 0 https://a.com 68747470733a2f2f612e636f6d2f67 => ok
said 0 0 0 0 fetch cors https://a.com 68747470733a2f2f612e636f6d2f64 => ok
commit 0 1 https://a.com 68747470733a2f2f612e636f6d2f => ok
said 0 1 0 1 fetch cors https://a.com 68747470733a2f2f612e636f6d2f64 => ok
said 0 1 1 1 remove 1 => kill K5
",
    ),
    // The new document gets nothing of the old one's request.
    (
        "a document that is replaced before the response",
        r#"{"start":["https://a.com/"],"resources":[
{"url":"https://a.com/","actions":[{"do":"fetch","url":"https://a.com/d","mode":"cors"},
{"do":"navigate","frame":"self","url":"https://a.com/2"}]},
{"url":"https://a.com/2","actions":[{"do":"wait"}]},
{"url":"https://a.com/d","body":"x"}]}"#,
        "history 2
open 0
order 0 0 https://a.com https://a.com https://a.com/
commit 0 0 https://a.com 68747470733a2f2f612e636f6d2f => ok
said 0 0 0 0 fetch cors https://a.com 68747470733a2f2f612e636f6d2f64 => ok
said 0 0 1 0 navigate 0 https://a.com 68747470733a2f2f612e636f6d2f32 => ok
order 1 0 https://a.com https://a.com https://a.com/2
commit 0 1 https://a.com 68747470733a2f2f612e636f6d2f32 => ok
local 0 1 0 waited
",
    ),
    // The page takes the frame's word and removes it before any head.
    (
        "a frame that is removed while its response comes",
        r#"{"start":["https://a.com/"],"resources":[
{"url":"https://a.com/","actions":[{"do":"frame","src":"https://a.com/f"},{"do":"recv"},{"do":"remove","child":0}]},
{"url":"https://a.com/f","actions":[{"do":"fetch","url":"https://a.com/d","mode":"cors"},
{"do":"post","frame":"parent","target":"*","text":"x"}]},
{"url":"https://a.com/d","body":"x"}]}"#,
        "history 2
open 0
order 0 0 https://a.com https://a.com https://a.com/
commit 0 0 https://a.com 68747470733a2f2f612e636f6d2f => ok
said 0 0 0 0 frame plain url 68747470733a2f2f612e636f6d2f66 => ok
order 1 0 https://a.com https://a.com https://a.com/f
commit 0 1 https://a.com 68747470733a2f2f612e636f6d2f66 => ok
said 0 1 0 1 fetch cors https://a.com 68747470733a2f2f612e636f6d2f64 => ok
said 0 1 1 1 post 0 * https://a.com 78 => ok
local 0 0 1 took https://a.com 78
said 0 0 2 0 remove 1 => ok
",
    ),
    // Two pages share a process; the first crashes once its own request has ended, and the second's never ends.
    (
        "a crash between the pieces and the end",
        r#"{"soft_limit":0,"start":["https://a.com/g","https://a.com/"],"resources":[
{"url":"https://a.com/g","actions":[{"do":"fetch","url":"https://a.com/d","mode":"cors"},{"do":"wait"},{"do":"crash"}]},
{"url":"https://a.com/","actions":[{"do":"fetch","url":"https://a.com/d","mode":"no-cors"}]},
{"url":"https://a.com/d","body":"x"}]}"#,
        "history 2
open 0
open 1
order 0 0 https://a.com https://a.com https://a.com/g
order 1 0 https://a.com https://a.com https://a.com/
commit 0 0 https://a.com 68747470733a2f2f612e636f6d2f67 => ok
said 0 0 0 0 fetch cors https://a.com 68747470733a2f2f612e636f6d2f64 => ok
commit 0 1 https://a.com 68747470733a2f2f612e636f6d2f => ok
said 0 1 0 1 fetch no-cors https://a.com 68747470733a2f2f612e636f6d2f64 => ok
head 0 A1
head 1 A3
piece 0 0 78
piece 1 0 78
end 0 whole
local 0 0 1 waited
crash 0
",
    ),
    // The one reads it, and from the other it is kept.
    (
        "two pages fetch the body of one of them",
        r#"{"start":["https://a.com/","https://b.com/"],"resources":[
{"url":"https://a.com/","actions":[{"do":"fetch","url":"https://b.com/x","mode":"no-cors"}]},
{"url":"https://b.com/","actions":[{"do":"fetch","url":"https://b.com/x","mode":"no-cors"}]},
{"url":"https://b.com/x","headers":[["Content-Type","text/html"]],"body":"<html>"}]}"#,
        "history 2
open 0
open 1
order 0 0 https://a.com https://a.com https://a.com/
order 1 1 https://b.com https://b.com https://b.com/
commit 0 0 https://a.com 68747470733a2f2f612e636f6d2f => ok
said 0 0 0 0 fetch no-cors https://a.com 68747470733a2f2f622e636f6d2f78 => ok
commit 1 1 https://b.com 68747470733a2f2f622e636f6d2f => ok
said 1 1 0 1 fetch no-cors https://b.com 68747470733a2f2f622e636f6d2f78 => ok
head 1 A3
piece 1 0 3c68746d6c3e
end 0 blocked B4
end 1 whole
",
    ),
];

#[test]
fn bodies_run_as_written(rt: HostRuntime) -> Result<(), Fail> {
    assert_runs_as_written(&rt, rt.alloc(), ROWS)
}
