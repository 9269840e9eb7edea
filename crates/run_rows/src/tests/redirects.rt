//! Redirects of navigations, and navigations that commit nothing.

use super::{Row, assert_runs_as_written};
use std::test::Fail;

const ROWS: &[Row] = &[
    // The order goes by the last URL and its site.
    (
        "a redirect is followed",
        r#"{"start":["https://a.com/r"],
"resources":[{"url":"https://a.com/r","status":302,"headers":[["Location","https://b.com/"]]}]}"#,
        "history 2
open 0
hop nav 0 https://b.com/
order 0 0 https://b.com https://b.com https://b.com/
commit 0 0 https://b.com 68747470733a2f2f622e636f6d2f => ok
",
    ),
    // Every page is redirected before one is ordered.
    (
        "the five statuses of redirects",
        r#"{"start":["https://a.com/1","https://a.com/2","https://a.com/3","https://a.com/7","https://a.com/8"],"resources":[
{"url":"https://a.com/1","status":301,"headers":[["Location","/x"]]},
{"url":"https://a.com/2","status":302,"headers":[["Location","/x"]]},
{"url":"https://a.com/3","status":303,"headers":[["Location","/x"]]},
{"url":"https://a.com/7","status":307,"headers":[["Location","/x"]]},
{"url":"https://a.com/8","status":308,"headers":[["Location","/x"]]}]}"#,
        "history 2
open 0
open 1
open 2
open 3
open 4
hop nav 0 https://a.com/x
hop nav 1 https://a.com/x
hop nav 2 https://a.com/x
hop nav 3 https://a.com/x
hop nav 4 https://a.com/x
order 0 0 https://a.com https://a.com https://a.com/x
order 1 1 https://a.com https://a.com https://a.com/x
order 2 2 https://a.com https://a.com https://a.com/x
order 3 3 https://a.com https://a.com https://a.com/x
order 4 4 https://a.com https://a.com https://a.com/x
commit 0 0 https://a.com 68747470733a2f2f612e636f6d2f78 => ok
commit 1 1 https://a.com 68747470733a2f2f612e636f6d2f78 => ok
commit 2 2 https://a.com 68747470733a2f2f612e636f6d2f78 => ok
commit 3 3 https://a.com 68747470733a2f2f612e636f6d2f78 => ok
commit 4 4 https://a.com 68747470733a2f2f612e636f6d2f78 => ok
",
    ),
    // 300, 304 and 201 commit their own URLs.
    (
        "other statuses with a Location are no redirects",
        r#"{"start":["https://a.com/0","https://a.com/4","https://a.com/1"],"resources":[
{"url":"https://a.com/0","status":300,"headers":[["Location","/x"]]},
{"url":"https://a.com/4","status":304,"headers":[["Location","/x"]]},
{"url":"https://a.com/1","status":201,"headers":[["Location","/x"]]}]}"#,
        "history 2
open 0
open 1
open 2
order 0 0 https://a.com https://a.com https://a.com/0
order 1 1 https://a.com https://a.com https://a.com/4
order 2 2 https://a.com https://a.com https://a.com/1
commit 0 0 https://a.com 68747470733a2f2f612e636f6d2f30 => ok
commit 1 1 https://a.com 68747470733a2f2f612e636f6d2f34 => ok
commit 2 2 https://a.com 68747470733a2f2f612e636f6d2f31 => ok
",
    ),
    // 301 without the header is a response like any other.
    (
        "a redirect's status without a Location commits its document",
        r#"{"start":["https://a.com/r"],"resources":[{"url":"https://a.com/r","status":301,"actions":[{"do":"crash"}]}]}"#,
        "history 2
open 0
order 0 0 https://a.com https://a.com https://a.com/r
commit 0 0 https://a.com 68747470733a2f2f612e636f6d2f72 => ok
crash 0
",
    ),
    // The Location has none, so the document's URL has none.
    (
        "the fragment of the redirected URL is not carried over",
        r#"{"start":["https://a.com/r#top"],
"resources":[{"url":"https://a.com/r","status":302,"headers":[["Location","/next"]]}]}"#,
        "history 2
open 0
hop nav 0 https://a.com/next
order 0 0 https://a.com https://a.com https://a.com/next
commit 0 0 https://a.com 68747470733a2f2f612e636f6d2f6e657874 => ok
",
    ),
    // The document's URL has it, and its resource is found without it.
    (
        "the Location's own fragment is kept",
        r#"{"start":["https://a.com/r#top"],"resources":[
{"url":"https://a.com/r","status":302,"headers":[["Location","/next#there"]]},
{"url":"https://a.com/next","actions":[{"do":"crash"}]}]}"#,
        "history 2
open 0
hop nav 0 https://a.com/next#there
order 0 0 https://a.com https://a.com https://a.com/next#there
commit 0 0 https://a.com 68747470733a2f2f612e636f6d2f6e657874237468657265 => ok
crash 0
",
    ),
    // The second value is not looked at.
    (
        "the first of several Locations counts",
        r#"{"start":["https://a.com/r"],"resources":[
{"url":"https://a.com/r","status":302,"headers":[["Location","/1"],["Location","/2"]]}]}"#,
        "history 2
open 0
hop nav 0 https://a.com/1
order 0 0 https://a.com https://a.com https://a.com/1
commit 0 0 https://a.com 68747470733a2f2f612e636f6d2f31 => ok
",
    ),
    // A value is stripped of blanks at both ends.
    (
        "blanks around a Location and the case of its name do not count",
        r#"{"start":["https://a.com/r"],"resources":[
{"url":"https://a.com/r","status":302,"headers":[["LOCATION"," \t/1 "]]}]}"#,
        "history 2
open 0
hop nav 0 https://a.com/1
order 0 0 https://a.com https://a.com https://a.com/1
commit 0 0 https://a.com 68747470733a2f2f612e636f6d2f31 => ok
",
    ),
    // The second one is relative to the host of the first.
    (
        "a Location is joined to the last URL",
        r#"{"start":["https://a.com/r"],"resources":[
{"url":"https://a.com/r","status":301,"headers":[["Location","//b.com/d/1"]]},
{"url":"https://b.com/d/1","status":307,"headers":[["Location","2"]]}]}"#,
        "history 2
open 0
hop nav 0 https://b.com/d/1
hop nav 0 https://b.com/d/2
order 0 0 https://b.com https://b.com https://b.com/d/2
commit 0 0 https://b.com 68747470733a2f2f622e636f6d2f642f32 => ok
",
    ),
    // The 21st redirect ends the navigation.
    (
        "a redirect to its own URL is followed twenty times",
        r#"{"start":["https://a.com/r"],
"resources":[{"url":"https://a.com/r","status":302,"headers":[["Location","/r"]]}]}"#,
        "history 2
open 0
hop nav 0 https://a.com/r
hop nav 0 https://a.com/r
hop nav 0 https://a.com/r
hop nav 0 https://a.com/r
hop nav 0 https://a.com/r
hop nav 0 https://a.com/r
hop nav 0 https://a.com/r
hop nav 0 https://a.com/r
hop nav 0 https://a.com/r
hop nav 0 https://a.com/r
hop nav 0 https://a.com/r
hop nav 0 https://a.com/r
hop nav 0 https://a.com/r
hop nav 0 https://a.com/r
hop nav 0 https://a.com/r
hop nav 0 https://a.com/r
hop nav 0 https://a.com/r
hop nav 0 https://a.com/r
hop nav 0 https://a.com/r
hop nav 0 https://a.com/r
navend 0 N5
",
    ),
    // An empty value is a Location.
    (
        "an empty Location leads to the URL itself",
        r#"{"start":["https://a.com/r"],
"resources":[{"url":"https://a.com/r","status":302,"headers":[["Location",""]]}]}"#,
        "history 2
open 0
hop nav 0 https://a.com/r
hop nav 0 https://a.com/r
hop nav 0 https://a.com/r
hop nav 0 https://a.com/r
hop nav 0 https://a.com/r
hop nav 0 https://a.com/r
hop nav 0 https://a.com/r
hop nav 0 https://a.com/r
hop nav 0 https://a.com/r
hop nav 0 https://a.com/r
hop nav 0 https://a.com/r
hop nav 0 https://a.com/r
hop nav 0 https://a.com/r
hop nav 0 https://a.com/r
hop nav 0 https://a.com/r
hop nav 0 https://a.com/r
hop nav 0 https://a.com/r
hop nav 0 https://a.com/r
hop nav 0 https://a.com/r
hop nav 0 https://a.com/r
navend 0 N5
",
    ),
    // `data:`, `about:blank` and a scheme that is left out.
    (
        "redirects to other classes are not followed",
        r#"{"start":["https://a.com/1","https://a.com/2","https://a.com/3"],"resources":[
{"url":"https://a.com/1","status":301,"headers":[["Location","data:,x"]]},
{"url":"https://a.com/2","status":302,"headers":[["Location","about:blank"]]},
{"url":"https://a.com/3","status":303,"headers":[["Location","ftp://a.com/"]]}]}"#,
        "history 2
open 0
open 1
open 2
navend 0 N3
navend 1 N3
navend 2 N3
",
    ),
    // No host stands behind the scheme.
    (
        "a Location that does not join",
        r#"{"start":["https://a.com/r"],
"resources":[{"url":"https://a.com/r","status":302,"headers":[["Location","https://"]]}]}"#,
        "history 2
open 0
navend 0 N2
",
    ),
    // The hop stands in the history, and then the end.
    (
        "a bad Location behind one that joins",
        r#"{"start":["https://a.com/r"],"resources":[
{"url":"https://a.com/r","status":302,"headers":[["Location","/2"]]},
{"url":"https://a.com/2","status":302,"headers":[["Location","https://a.com:99999/"]]}]}"#,
        "history 2
open 0
hop nav 0 https://a.com/2
navend 0 N2
",
    ),
    // 204 and 205, with a Location too; 203 commits.
    (
        "statuses without content commit nothing",
        r#"{"start":["https://a.com/4","https://a.com/5","https://a.com/3"],"resources":[
{"url":"https://a.com/4","status":204},
{"url":"https://a.com/5","status":205,"headers":[["Location","/x"]]},
{"url":"https://a.com/3","status":203}]}"#,
        "history 2
open 0
open 1
open 2
order 2 0 https://a.com https://a.com https://a.com/3
navend 0 N8
navend 1 N8
commit 0 2 https://a.com 68747470733a2f2f612e636f6d2f33 => ok
",
    ),
    // It comes before all other ends, and before a redirect.
    (
        "a wire that fails before the head",
        r#"{"start":["https://a.com/1","https://a.com/2","https://a.com/3"],"resources":[
{"url":"https://a.com/1","fail_after":0},
{"url":"https://a.com/2","fail_after":0,"status":302,"headers":[["Location","/x"]]},
{"url":"https://a.com/3","fail_after":0,"status":204}]}"#,
        "history 2
open 0
open 1
open 2
navend 0 N7
navend 1 N7
navend 2 N7
",
    ),
    // The head has come.
    (
        "a wire that fails within the body commits the page",
        r#"{"start":["https://a.com/"],"resources":[{"url":"https://a.com/","body":"ab","fail_after":1}]}"#,
        "history 2
open 0
order 0 0 https://a.com https://a.com https://a.com/
commit 0 0 https://a.com 68747470733a2f2f612e636f6d2f => ok
",
    ),
    // The navigation is not ordered before its redirects are followed.
    (
        "a redirected frame goes to the process of its last site",
        r#"{"start":["https://a.com/"],"resources":[
{"url":"https://a.com/","actions":[{"do":"frame","src":"https://a.com/r"}]},
{"url":"https://a.com/r","status":302,"headers":[["Location","https://b.com/"]]}]}"#,
        "history 2
open 0
order 0 0 https://a.com https://a.com https://a.com/
commit 0 0 https://a.com 68747470733a2f2f612e636f6d2f => ok
said 0 0 0 0 frame plain url 68747470733a2f2f612e636f6d2f72 => ok
hop nav 1 https://b.com/
order 1 1 https://b.com https://b.com https://b.com/
commit 1 1 https://b.com 68747470733a2f2f622e636f6d2f => ok
",
    ),
    // The page goes on with its actions after a navigation of its own frame that committed nothing.
    (
        "a navigation that fails leaves its frame as it is",
        r#"{"start":["https://a.com/"],"resources":[
{"url":"https://a.com/","actions":[{"do":"navigate","frame":"self","url":"https://a.com/n"},
{"do":"frame","src":"https://a.com/f"}]},
{"url":"https://a.com/n","status":204}]}"#,
        "history 2
open 0
order 0 0 https://a.com https://a.com https://a.com/
commit 0 0 https://a.com 68747470733a2f2f612e636f6d2f => ok
said 0 0 0 0 navigate 0 https://a.com 68747470733a2f2f612e636f6d2f6e => ok
navend 1 N8
said 0 0 1 0 frame plain url 68747470733a2f2f612e636f6d2f66 => ok
order 2 0 https://a.com https://a.com https://a.com/f
commit 0 2 https://a.com 68747470733a2f2f612e636f6d2f66 => ok
",
    ),
    // The opaque origin has the site of the last URL.
    (
        "a redirect of a sandboxed frame",
        r#"{"start":["https://a.com/"],"resources":[
{"url":"https://a.com/","actions":[{"do":"frame","src":"https://a.com/r","sandbox":true}]},
{"url":"https://a.com/r","status":302,"headers":[["Location","http://b.com:8080/"]]}]}"#,
        "history 2
open 0
order 0 0 https://a.com https://a.com https://a.com/
commit 0 0 https://a.com 68747470733a2f2f612e636f6d2f => ok
said 0 0 0 0 frame sandboxed url 68747470733a2f2f612e636f6d2f72 => ok
hop nav 1 http://b.com:8080/
order 1 1 http://b.com opaque:1:http://b.com http://b.com:8080/
commit 1 1 opaque:1:http://b.com 687474703a2f2f622e636f6d3a383038302f => ok
",
    ),
];

#[test]
fn redirects_run_as_written(rt: HostRuntime) -> Result<(), Fail> {
    assert_runs_as_written(&rt, rt.alloc(), ROWS)
}
