//! Verdicts in mode no-cors by the bytes of a body: rules A4, A5 and B4 to B7.

use super::{Row, assert_runs_as_written};
use std::test::Fail;

const ROWS: &[Row] = &[
    // B4, in any case of its letters.
    (
        "a page behind a comment, byte by byte",
        r#"{"start":["https://a.com/"],"resources":[
{"url":"https://a.com/","actions":[{"do":"fetch","url":"https://b.com/x","mode":"no-cors"}]},
{"url":"https://b.com/x","headers":[["Content-Type","text/html"]],"body":"<!-- x --><hTmL","cuts":[1,2,3,4,5,6,7,8,9,10,11,12,13,14]}]}"#,
        "history 2
open 0
order 0 0 https://a.com https://a.com https://a.com/
commit 0 0 https://a.com 68747470733a2f2f612e636f6d2f => ok
said 0 0 0 0 fetch no-cors https://a.com 68747470733a2f2f622e636f6d2f78 => ok
end 0 blocked B4
",
    ),
    // B4 for plain text.
    (
        "plain text that is a page",
        r#"{"start":["https://a.com/"],"resources":[
{"url":"https://a.com/","actions":[{"do":"fetch","url":"https://b.com/x","mode":"no-cors"}]},
{"url":"https://b.com/x","headers":[["Content-Type","text/plain"]],"body":" \n<!DOCTYPE HTML>"}]}"#,
        "history 2
open 0
order 0 0 https://a.com https://a.com https://a.com/
commit 0 0 https://a.com 68747470733a2f2f612e636f6d2f => ok
said 0 0 0 0 fetch no-cors https://a.com 68747470733a2f2f622e636f6d2f78 => ok
end 0 blocked B4
",
    ),
    // B5, for a kind that ends in +xml.
    (
        "a feed",
        r#"{"start":["https://a.com/"],"resources":[
{"url":"https://a.com/","actions":[{"do":"fetch","url":"https://b.com/x","mode":"no-cors"}]},
{"url":"https://b.com/x","headers":[["Content-Type","application/rss+xml; charset=utf-8"]],"body":" <?xml version=\"1.0\"?>"}]}"#,
        "history 2
open 0
order 0 0 https://a.com https://a.com https://a.com/
commit 0 0 https://a.com 68747470733a2f2f612e636f6d2f => ok
said 0 0 0 0 fetch no-cors https://a.com 68747470733a2f2f622e636f6d2f78 => ok
end 0 blocked B5
",
    ),
    // XML is met exactly.
    (
        "a feed in capitals",
        r#"{"start":["https://a.com/"],"resources":[
{"url":"https://a.com/","actions":[{"do":"fetch","url":"https://b.com/x","mode":"no-cors"}]},
{"url":"https://b.com/x","headers":[["Content-Type","text/xml"]],"body":"<?XML "}]}"#,
        "history 2
open 0
order 0 0 https://a.com https://a.com https://a.com/
commit 0 0 https://a.com 68747470733a2f2f612e636f6d2f => ok
said 0 0 0 0 fetch no-cors https://a.com 68747470733a2f2f622e636f6d2f78 => ok
head 0 A5
piece 0 0 3c3f584d4c20
end 0 whole
",
    ),
    // B6: white space, a string with an escape, a colon.
    (
        "data",
        r#"{"start":["https://a.com/"],"resources":[
{"url":"https://a.com/","actions":[{"do":"fetch","url":"https://b.com/x","mode":"no-cors"}]},
{"url":"https://b.com/x","headers":[["Content-Type","application/json"]],"body":"\t{ \"a\\\"b\" :1}"}]}"#,
        "history 2
open 0
order 0 0 https://a.com https://a.com https://a.com/
commit 0 0 https://a.com 68747470733a2f2f612e636f6d2f => ok
said 0 0 0 0 fetch no-cors https://a.com 68747470733a2f2f622e636f6d2f78 => ok
end 0 blocked B6
",
    ),
    // B6 for plain text.
    (
        "plain text that is data",
        r#"{"start":["https://a.com/"],"resources":[
{"url":"https://a.com/","actions":[{"do":"fetch","url":"https://b.com/x","mode":"no-cors"}]},
{"url":"https://b.com/x","headers":[["Content-Type","text/plain"]],"body":"{\"a\" :"}]}"#,
        "history 2
open 0
order 0 0 https://a.com https://a.com https://a.com/
commit 0 0 https://a.com 68747470733a2f2f612e636f6d2f => ok
said 0 0 0 0 fetch no-cors https://a.com 68747470733a2f2f622e636f6d2f78 => ok
end 0 blocked B6
",
    ),
    // No object begins.
    (
        "a list as data",
        r#"{"start":["https://a.com/"],"resources":[
{"url":"https://a.com/","actions":[{"do":"fetch","url":"https://b.com/x","mode":"no-cors"}]},
{"url":"https://b.com/x","headers":[["Content-Type","application/json"]],"body":"[{\"a\":1}]"}]}"#,
        "history 2
open 0
order 0 0 https://a.com https://a.com https://a.com/
commit 0 0 https://a.com 68747470733a2f2f612e636f6d2f => ok
said 0 0 0 0 fetch no-cors https://a.com 68747470733a2f2f622e636f6d2f78 => ok
head 0 A5
piece 0 0 5b7b2261223a317d5d
end 0 whole
",
    ),
    // B7 for a kind that is not sniffed otherwise.
    (
        "a script that guards data",
        r#"{"start":["https://a.com/"],"resources":[
{"url":"https://a.com/","actions":[{"do":"fetch","url":"https://b.com/x","mode":"no-cors"}]},
{"url":"https://b.com/x","headers":[["Content-Type","text/javascript"]],"body":")]}'\n{}"}]}"#,
        "history 2
open 0
order 0 0 https://a.com https://a.com https://a.com/
commit 0 0 https://a.com 68747470733a2f2f612e636f6d2f => ok
said 0 0 0 0 fetch no-cors https://a.com 68747470733a2f2f622e636f6d2f78 => ok
end 0 blocked B7
",
    ),
    // B7: the prefix with its semicolon.
    (
        "a script that loops before data",
        r#"{"start":["https://a.com/"],"resources":[
{"url":"https://a.com/","actions":[{"do":"fetch","url":"https://b.com/x","mode":"no-cors"}]},
{"url":"https://b.com/x","body":"for(;;);[]"}]}"#,
        "history 2
open 0
order 0 0 https://a.com https://a.com https://a.com/
commit 0 0 https://a.com 68747470733a2f2f612e636f6d2f => ok
said 0 0 0 0 fetch no-cors https://a.com 68747470733a2f2f622e636f6d2f78 => ok
end 0 blocked B7
",
    ),
    // B7 for a picture, too.
    (
        "a script that joins data",
        r#"{"start":["https://a.com/"],"resources":[
{"url":"https://a.com/","actions":[{"do":"fetch","url":"https://b.com/x","mode":"no-cors"}]},
{"url":"https://b.com/x","headers":[["Content-Type","image/png"]],"body":"{}&&{}"}]}"#,
        "history 2
open 0
order 0 0 https://a.com https://a.com https://a.com/
commit 0 0 https://a.com 68747470733a2f2f612e636f6d2f => ok
said 0 0 0 0 fetch no-cors https://a.com 68747470733a2f2f622e636f6d2f78 => ok
end 0 blocked B7
",
    ),
    // B7 is of any kind but style sheets.
    (
        "a style sheet with a guard",
        r#"{"start":["https://a.com/"],"resources":[
{"url":"https://a.com/","actions":[{"do":"fetch","url":"https://b.com/x","mode":"no-cors"}]},
{"url":"https://b.com/x","headers":[["Content-Type","text/css"]],"body":")]}'"}]}"#,
        "history 2
open 0
order 0 0 https://a.com https://a.com https://a.com/
commit 0 0 https://a.com 68747470733a2f2f612e636f6d2f => ok
said 0 0 0 0 fetch no-cors https://a.com 68747470733a2f2f622e636f6d2f78 => ok
head 0 A4
piece 0 0 295d7d27
end 0 whole
",
    ),
    // The prefix stands at the very front.
    (
        "a guard behind a blank",
        r#"{"start":["https://a.com/"],"resources":[
{"url":"https://a.com/","actions":[{"do":"fetch","url":"https://b.com/x","mode":"no-cors"}]},
{"url":"https://b.com/x","headers":[["Content-Type","text/javascript"]],"body":" )]}'"}]}"#,
        "history 2
open 0
order 0 0 https://a.com https://a.com https://a.com/
commit 0 0 https://a.com 68747470733a2f2f612e636f6d2f => ok
said 0 0 0 0 fetch no-cors https://a.com 68747470733a2f2f622e636f6d2f78 => ok
head 0 A4
piece 0 0 20295d7d27
end 0 whole
",
    ),
    // A4.
    (
        "a picture",
        r#"{"start":["https://a.com/"],"resources":[
{"url":"https://a.com/","actions":[{"do":"fetch","url":"https://b.com/x","mode":"no-cors"}]},
{"url":"https://b.com/x","headers":[["Content-Type","image/png"]],"body":"x"}]}"#,
        "history 2
open 0
order 0 0 https://a.com https://a.com https://a.com/
commit 0 0 https://a.com 68747470733a2f2f612e636f6d2f => ok
said 0 0 0 0 fetch no-cors https://a.com 68747470733a2f2f622e636f6d2f78 => ok
head 0 A4
piece 0 0 78
end 0 whole
",
    ),
    // A4: `image/svg+xml` is no XML.
    (
        "a picture of XML",
        r#"{"start":["https://a.com/"],"resources":[
{"url":"https://a.com/","actions":[{"do":"fetch","url":"https://b.com/x","mode":"no-cors"}]},
{"url":"https://b.com/x","headers":[["Content-Type","image/svg+xml"]],"body":"<?xml"}]}"#,
        "history 2
open 0
order 0 0 https://a.com https://a.com https://a.com/
commit 0 0 https://a.com 68747470733a2f2f612e636f6d2f => ok
said 0 0 0 0 fetch no-cors https://a.com 68747470733a2f2f622e636f6d2f78 => ok
head 0 A4
piece 0 0 3c3f786d6c
end 0 whole
",
    ),
    // A4: not a token, a stroke and a token.
    (
        "a malformed type",
        r#"{"start":["https://a.com/"],"resources":[
{"url":"https://a.com/","actions":[{"do":"fetch","url":"https://b.com/x","mode":"no-cors"}]},
{"url":"https://b.com/x","headers":[["Content-Type","text html"]],"body":"<html>"}]}"#,
        "history 2
open 0
order 0 0 https://a.com https://a.com https://a.com/
commit 0 0 https://a.com 68747470733a2f2f612e636f6d2f => ok
said 0 0 0 0 fetch no-cors https://a.com 68747470733a2f2f622e636f6d2f78 => ok
head 0 A4
piece 0 0 3c68746d6c3e
end 0 whole
",
    ),
    // A5: nothing confirms the kind.
    (
        "data that are none",
        r#"{"start":["https://a.com/"],"resources":[
{"url":"https://a.com/","actions":[{"do":"fetch","url":"https://b.com/x","mode":"no-cors"}]},
{"url":"https://b.com/x","headers":[["Content-Type","application/json"]],"body":"hello"}]}"#,
        "history 2
open 0
order 0 0 https://a.com https://a.com https://a.com/
commit 0 0 https://a.com 68747470733a2f2f612e636f6d2f => ok
said 0 0 0 0 fetch no-cors https://a.com 68747470733a2f2f622e636f6d2f78 => ok
head 0 A5
piece 0 0 68656c6c6f
end 0 whole
",
    ),
    // The first one is a page.
    (
        "the last type counts",
        r#"{"start":["https://a.com/"],"resources":[
{"url":"https://a.com/","actions":[{"do":"fetch","url":"https://b.com/x","mode":"no-cors"}]},
{"url":"https://b.com/x","headers":[["Content-Type","text/html"],["Content-Type","Text/CSS ; x"]],"body":"<html>"}]}"#,
        "history 2
open 0
order 0 0 https://a.com https://a.com https://a.com/
commit 0 0 https://a.com 68747470733a2f2f612e636f6d2f => ok
said 0 0 0 0 fetch no-cors https://a.com 68747470733a2f2f622e636f6d2f78 => ok
head 0 A4
piece 0 0 3c68746d6c3e
end 0 whole
",
    ),
    // `<x` is the front of none.
    (
        "a tag that no page begins with",
        r#"{"start":["https://a.com/"],"resources":[
{"url":"https://a.com/","actions":[{"do":"fetch","url":"https://b.com/x","mode":"no-cors"}]},
{"url":"https://b.com/x","headers":[["Content-Type","text/html"]],"body":"<x"}]}"#,
        "history 2
open 0
order 0 0 https://a.com https://a.com https://a.com/
commit 0 0 https://a.com 68747470733a2f2f612e636f6d2f => ok
said 0 0 0 0 fetch no-cors https://a.com 68747470733a2f2f622e636f6d2f78 => ok
head 0 A5
piece 0 0 3c78
end 0 whole
",
    ),
    // `<br` begins with `<b`.
    (
        "a tag that goes on with a letter",
        r#"{"start":["https://a.com/"],"resources":[
{"url":"https://a.com/","actions":[{"do":"fetch","url":"https://b.com/x","mode":"no-cors"}]},
{"url":"https://b.com/x","headers":[["Content-Type","text/html"]],"body":"<br"}]}"#,
        "history 2
open 0
order 0 0 https://a.com https://a.com https://a.com/
commit 0 0 https://a.com 68747470733a2f2f612e636f6d2f => ok
said 0 0 0 0 fetch no-cors https://a.com 68747470733a2f2f622e636f6d2f78 => ok
end 0 blocked B4
",
    ),
];

#[test]
fn sniffing_run_as_written(rt: HostRuntime) -> Result<(), Fail> {
    assert_runs_as_written(&rt, rt.alloc(), ROWS)
}
