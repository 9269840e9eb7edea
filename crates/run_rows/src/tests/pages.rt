//! Start pages: their orders, sites and processes.

use super::{Row, assert_runs_as_written};
use std::test::Fail;

const ROWS: &[Row] = &[
    // The history of nothing.
    (
        "no start page",
        r#"{"start":[]}"#,
        "history 2
",
    ),
    // The three kinds of entries of a page, each once.
    (
        "one page is opened, ordered and committed",
        r#"{"start":["https://a.com/"],"resources":[{"url":"https://a.com/"}]}"#,
        "history 2
open 0
order 0 0 https://a.com https://a.com https://a.com/
commit 0 0 https://a.com 68747470733a2f2f612e636f6d2f => ok
",
    ),
    // A start page has no parent and a group of its own.
    (
        "two pages of one site have a process each",
        r#"{"start":["https://a.com/","https://a.com/g"]}"#,
        "history 2
open 0
open 1
order 0 0 https://a.com https://a.com https://a.com/
order 1 1 https://a.com https://a.com https://a.com/g
commit 0 0 https://a.com 68747470733a2f2f612e636f6d2f => ok
commit 1 1 https://a.com 68747470733a2f2f612e636f6d2f67 => ok
",
    ),
    // One live process is enough at a soft limit of 1.
    (
        "at the soft limit pages of one site share a process",
        r#"{"soft_limit":1,"start":["https://a.com/","https://a.com/g"]}"#,
        "history 2
open 0
open 1
order 0 0 https://a.com https://a.com https://a.com/
order 1 0 https://a.com https://a.com https://a.com/g
commit 0 0 https://a.com 68747470733a2f2f612e636f6d2f => ok
commit 0 1 https://a.com 68747470733a2f2f612e636f6d2f67 => ok
",
    ),
    // The second page meets one live process, the third two; commits go by process, then by navigation.
    (
        "one below the soft limit pages do not share, and at it they take the least process",
        r#"{"soft_limit":2,"start":["https://a.com/","https://a.com/g","https://a.com/h"]}"#,
        "history 2
open 0
open 1
open 2
order 0 0 https://a.com https://a.com https://a.com/
order 1 1 https://a.com https://a.com https://a.com/g
order 2 0 https://a.com https://a.com https://a.com/h
commit 0 0 https://a.com 68747470733a2f2f612e636f6d2f => ok
commit 0 2 https://a.com 68747470733a2f2f612e636f6d2f68 => ok
commit 1 1 https://a.com 68747470733a2f2f612e636f6d2f67 => ok
",
    ),
    // The soft limit shares processes of one site alone.
    (
        "at the soft limit a page of another site starts a process",
        r#"{"soft_limit":0,"start":["https://a.com/","https://b.com/"]}"#,
        "history 2
open 0
open 1
order 0 0 https://a.com https://a.com https://a.com/
order 1 1 https://b.com https://b.com https://b.com/
commit 0 0 https://a.com 68747470733a2f2f612e636f6d2f => ok
commit 1 1 https://b.com 68747470733a2f2f622e636f6d2f => ok
",
    ),
    // A rule of two labels, a wildcard and its exception; the last two pages are of one site and share.
    (
        "sites go by the script's suffix rules",
        r#"{"suffixes":"co.uk\n*.ck\n!www.ck","soft_limit":0,
"start":["https://x.co.uk/","https://a.b.co.uk/","https://b.c.ck/","https://www.ck/","https://a.www.ck/"]}"#,
        "history 2
open 0
open 1
open 2
open 3
open 4
order 0 0 https://x.co.uk https://x.co.uk https://x.co.uk/
order 1 1 https://b.co.uk https://a.b.co.uk https://a.b.co.uk/
order 2 2 https://b.c.ck https://b.c.ck https://b.c.ck/
order 3 3 https://www.ck https://www.ck https://www.ck/
order 4 3 https://www.ck https://a.www.ck https://a.www.ck/
commit 0 0 https://x.co.uk 68747470733a2f2f782e636f2e756b2f => ok
commit 1 1 https://a.b.co.uk 68747470733a2f2f612e622e636f2e756b2f => ok
commit 2 2 https://b.c.ck 68747470733a2f2f622e632e636b2f => ok
commit 3 3 https://www.ck 68747470733a2f2f7777772e636b2f => ok
commit 3 4 https://a.www.ck 68747470733a2f2f612e7777772e636b2f => ok
",
    ),
    // Subdomains of one name are of one site, and share at the soft limit; their origins differ.
    (
        "without rules the last label is the suffix",
        r#"{"soft_limit":0,"start":["https://x.co.uk/","https://y.co.uk/"]}"#,
        "history 2
open 0
open 1
order 0 0 https://co.uk https://x.co.uk https://x.co.uk/
order 1 0 https://co.uk https://y.co.uk https://y.co.uk/
commit 0 0 https://x.co.uk 68747470733a2f2f782e636f2e756b2f => ok
commit 0 1 https://y.co.uk 68747470733a2f2f792e636f2e756b2f => ok
",
    ),
    // A suffix itself, an address, and a host that ends in a dot.
    (
        "hosts without a registrable domain are sites whole",
        r#"{"suffixes":"co.uk","start":["https://co.uk/","https://1.2.3.4/","https://a.com./"]}"#,
        "history 2
open 0
open 1
open 2
order 0 0 https://co.uk https://co.uk https://co.uk/
order 1 1 https://1.2.3.4 https://1.2.3.4 https://1.2.3.4/
order 2 2 https://a.com. https://a.com. https://a.com./
commit 0 0 https://co.uk 68747470733a2f2f636f2e756b2f => ok
commit 1 1 https://1.2.3.4 68747470733a2f2f312e322e332e342f => ok
commit 2 2 https://a.com. 68747470733a2f2f612e636f6d2e2f => ok
",
    ),
    // Three origins of one host; those of one scheme share at the soft limit.
    (
        "the port does not count for a site and the scheme does",
        r#"{"soft_limit":0,"start":["https://a.com/","https://a.com:8443/","http://a.com/"]}"#,
        "history 2
open 0
open 1
open 2
order 0 0 https://a.com https://a.com https://a.com/
order 1 0 https://a.com https://a.com:8443 https://a.com:8443/
order 2 1 http://a.com http://a.com http://a.com/
commit 0 0 https://a.com 68747470733a2f2f612e636f6d2f => ok
commit 0 1 https://a.com:8443 68747470733a2f2f612e636f6d3a383434332f => ok
commit 1 2 http://a.com 687474703a2f2f612e636f6d2f => ok
",
    ),
    // The scheme and the host in lower case, the scheme's own port left out, a path put in; the fragment stays.
    (
        "a URL is written as it is serialized",
        r#"{"start":["HTTPS://A.com:443#top"]}"#,
        "history 2
open 0
order 0 0 https://a.com https://a.com https://a.com/#top
commit 0 0 https://a.com 68747470733a2f2f612e636f6d2f23746f70 => ok
",
    ),
    // The page with a fragment has the actions of the resource without one.
    (
        "a resource is found without the fragment of the page's URL",
        r#"{"start":["https://a.com/#top"],"resources":[{"url":"https://a.com/","actions":[{"do":"crash"}]}]}"#,
        "history 2
open 0
order 0 0 https://a.com https://a.com https://a.com/#top
commit 0 0 https://a.com 68747470733a2f2f612e636f6d2f23746f70 => ok
crash 0
",
    ),
    // The fragment of the resource's own URL does not count either.
    (
        "a resource is found whatever fragment it is given with",
        r#"{"start":["https://a.com/"],"resources":[{"url":"https://a.com/#x","actions":[{"do":"crash"}]}]}"#,
        "history 2
open 0
order 0 0 https://a.com https://a.com https://a.com/
commit 0 0 https://a.com 68747470733a2f2f612e636f6d2f => ok
crash 0
",
    ),
];

#[test]
fn pages_run_as_written(rt: HostRuntime) -> Result<(), Fail> {
    assert_runs_as_written(&rt, rt.alloc(), ROWS)
}
