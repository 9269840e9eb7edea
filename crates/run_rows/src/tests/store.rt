//! Questions to the service `store`.

use super::{Row, assert_runs_as_written};
use std::test::Fail;

const ROWS: &[Row] = &[
    // Each answer of the service.
    (
        "a key is set, read and removed",
        r#"{"start":["https://a.com/"],"resources":[{"url":"https://a.com/","actions":[
{"do":"ask","service":"store","request":"get k"},{"do":"ask","service":"store","request":"set k v"},
{"do":"ask","service":"store","request":"get k"},{"do":"ask","service":"store","request":"remove k"},
{"do":"ask","service":"store","request":"get k"},{"do":"ask","service":"store","request":"remove k"}]}]}"#,
        "history 2
open 0
order 0 0 https://a.com https://a.com https://a.com/
commit 0 0 https://a.com 68747470733a2f2f612e636f6d2f => ok
said 0 0 0 0 ask 73746f7265 https://a.com 676574206b => answer 6e6f6e65
said 0 0 1 0 ask 73746f7265 https://a.com 736574206b2076 => answer 646f6e65
said 0 0 2 0 ask 73746f7265 https://a.com 676574206b => answer 736f6d652076
said 0 0 3 0 ask 73746f7265 https://a.com 72656d6f7665206b => answer 646f6e65
said 0 0 4 0 ask 73746f7265 https://a.com 676574206b => answer 6e6f6e65
said 0 0 5 0 ask 73746f7265 https://a.com 72656d6f7665206b => answer 6e6f6e65
",
    ),
    // Empty, with blanks, and set anew; keys differ by case.
    (
        "a value is the rest of the text",
        r#"{"start":["https://a.com/"],"resources":[{"url":"https://a.com/","actions":[
{"do":"ask","service":"store","request":"set k "},{"do":"ask","service":"store","request":"get k"},
{"do":"ask","service":"store","request":"set k  a b "},{"do":"ask","service":"store","request":"get k"},
{"do":"ask","service":"store","request":"get K"}]}]}"#,
        "history 2
open 0
order 0 0 https://a.com https://a.com https://a.com/
commit 0 0 https://a.com 68747470733a2f2f612e636f6d2f => ok
said 0 0 0 0 ask 73746f7265 https://a.com 736574206b20 => answer 646f6e65
said 0 0 1 0 ask 73746f7265 https://a.com 676574206b => answer 736f6d6520
said 0 0 2 0 ask 73746f7265 https://a.com 736574206b202061206220 => answer 646f6e65
said 0 0 3 0 ask 73746f7265 https://a.com 676574206b => answer 736f6d65202061206220
said 0 0 4 0 ask 73746f7265 https://a.com 676574204b => answer 6e6f6e65
",
    ),
    // S4: no word, no key, no space behind the key, a space in the key, an unknown word, a byte that is not visible.
    (
        "requests that have no form",
        r#"{"start":["https://a.com/"],"resources":[{"url":"https://a.com/","actions":[
{"do":"ask","service":"store","request":""},{"do":"ask","service":"store","request":"get"},
{"do":"ask","service":"store","request":"get "},{"do":"ask","service":"store","request":"set k"},
{"do":"ask","service":"store","request":"get a b"},{"do":"ask","service":"store","request":"put k v"},
{"do":"ask","service":"store","request":"Get k"},{"do":"ask","service":"store","request":"get é"},
{"do":"ask","service":"store","request":"set  v"},{"do":"ask","service":"store","request":"remove k "}]}]}"#,
        "history 2
open 0
order 0 0 https://a.com https://a.com https://a.com/
commit 0 0 https://a.com 68747470733a2f2f612e636f6d2f => ok
said 0 0 0 0 ask 73746f7265 https://a.com - => deny S4
said 0 0 1 0 ask 73746f7265 https://a.com 676574 => deny S4
said 0 0 2 0 ask 73746f7265 https://a.com 67657420 => deny S4
said 0 0 3 0 ask 73746f7265 https://a.com 736574206b => deny S4
said 0 0 4 0 ask 73746f7265 https://a.com 67657420612062 => deny S4
said 0 0 5 0 ask 73746f7265 https://a.com 707574206b2076 => deny S4
said 0 0 6 0 ask 73746f7265 https://a.com 476574206b => deny S4
said 0 0 7 0 ask 73746f7265 https://a.com 67657420c3a9 => deny S4
said 0 0 8 0 ask 73746f7265 https://a.com 736574202076 => deny S4
said 0 0 9 0 ask 73746f7265 https://a.com 72656d6f7665206b20 => deny S4
",
    ),
    // 64 are taken, and 65 are S4.
    (
        "a key has at most 64 bytes",
        r#"{"start":["https://a.com/"],"resources":[{"url":"https://a.com/","actions":[
{"do":"ask","service":"store","request":"get kkkkkkkkkkkkkkkkkkkkkkkkkkkkkkkkkkkkkkkkkkkkkkkkkkkkkkkkkkkkkkkk"},
{"do":"ask","service":"store","request":"get kkkkkkkkkkkkkkkkkkkkkkkkkkkkkkkkkkkkkkkkkkkkkkkkkkkkkkkkkkkkkkkkk"}]}]}"#,
        "history 2
open 0
order 0 0 https://a.com https://a.com https://a.com/
commit 0 0 https://a.com 68747470733a2f2f612e636f6d2f => ok
said 0 0 0 0 ask 73746f7265 https://a.com 676574206b6b6b6b6b6b6b6b6b6b6b6b6b6b6b6b6b6b6b6b6b6b6b6b6b6b6b6b6b6b6b6b6b6b6b6b6b6b6b6b6b6b6b6b6b6b6b6b6b6b6b6b6b6b6b6b6b6b6b6b6b6b6b6b => answer 6e6f6e65
said 0 0 1 0 ask 73746f7265 https://a.com 676574206b6b6b6b6b6b6b6b6b6b6b6b6b6b6b6b6b6b6b6b6b6b6b6b6b6b6b6b6b6b6b6b6b6b6b6b6b6b6b6b6b6b6b6b6b6b6b6b6b6b6b6b6b6b6b6b6b6b6b6b6b6b6b6b6b => deny S4
",
    ),
    // S3, also for a request that has no form.
    (
        "another service than the program has",
        r#"{"start":["https://a.com/"],"resources":[{"url":"https://a.com/","actions":[
{"do":"ask","service":"clock","request":"get k"},{"do":"ask","service":"Store","request":"x"}]}]}"#,
        "history 2
open 0
order 0 0 https://a.com https://a.com https://a.com/
commit 0 0 https://a.com 68747470733a2f2f612e636f6d2f => ok
said 0 0 0 0 ask 636c6f636b https://a.com 676574206b => deny S3
said 0 0 1 0 ask 53746f7265 https://a.com 78 => deny S3
",
    ),
    // The page and its frames are of one site, and in one process; host and port make other origins.
    (
        "each origin has its own keys",
        r#"{"start":["https://a.com/"],"resources":[
{"url":"https://a.com/","actions":[{"do":"ask","service":"store","request":"set k v"},
{"do":"frame","src":"https://sub.a.com/"},{"do":"frame","src":"https://a.com:8443/"},{"do":"frame","src":"https://a.com/f"}]},
{"url":"https://sub.a.com/","actions":[{"do":"ask","service":"store","request":"get k"}]},
{"url":"https://a.com:8443/","actions":[{"do":"ask","service":"store","request":"get k"}]},
{"url":"https://a.com/f","actions":[{"do":"ask","service":"store","request":"get k"}]}]}"#,
        "history 2
open 0
order 0 0 https://a.com https://a.com https://a.com/
commit 0 0 https://a.com 68747470733a2f2f612e636f6d2f => ok
said 0 0 0 0 ask 73746f7265 https://a.com 736574206b2076 => answer 646f6e65
said 0 0 1 0 frame plain url 68747470733a2f2f7375622e612e636f6d2f => ok
order 1 0 https://a.com https://sub.a.com https://sub.a.com/
said 0 0 2 0 frame plain url 68747470733a2f2f612e636f6d3a383434332f => ok
order 2 0 https://a.com https://a.com:8443 https://a.com:8443/
said 0 0 3 0 frame plain url 68747470733a2f2f612e636f6d2f66 => ok
order 3 0 https://a.com https://a.com https://a.com/f
commit 0 1 https://sub.a.com 68747470733a2f2f7375622e612e636f6d2f => ok
said 0 1 0 1 ask 73746f7265 https://sub.a.com 676574206b => answer 6e6f6e65
commit 0 2 https://a.com:8443 68747470733a2f2f612e636f6d3a383434332f => ok
said 0 2 0 2 ask 73746f7265 https://a.com:8443 676574206b => answer 6e6f6e65
commit 0 3 https://a.com 68747470733a2f2f612e636f6d2f66 => ok
said 0 3 0 3 ask 73746f7265 https://a.com 676574206b => answer 736f6d652076
",
    ),
    // Two start pages in two processes; keys outlive their process.
    (
        "pages of one origin share their keys in two groups",
        r#"{"start":["https://a.com/","https://a.com/g"],"resources":[
{"url":"https://a.com/","actions":[{"do":"ask","service":"store","request":"set k v"},{"do":"crash"}]},
{"url":"https://a.com/g","actions":[{"do":"ask","service":"store","request":"get k"}]}]}"#,
        "history 2
open 0
open 1
order 0 0 https://a.com https://a.com https://a.com/
order 1 1 https://a.com https://a.com https://a.com/g
commit 0 0 https://a.com 68747470733a2f2f612e636f6d2f => ok
said 0 0 0 0 ask 73746f7265 https://a.com 736574206b2076 => answer 646f6e65
crash 0
commit 1 1 https://a.com 68747470733a2f2f612e636f6d2f67 => ok
said 1 1 0 1 ask 73746f7265 https://a.com 676574206b => answer 736f6d652076
",
    ),
    // S1 stands before the service's own rows.
    (
        "an opaque origin has no store",
        r#"{"start":["https://a.com/"],"resources":[
{"url":"https://a.com/","actions":[{"do":"frame","src":"https://a.com/f","sandbox":true}]},
{"url":"https://a.com/f","actions":[{"do":"ask","service":"store","request":"get k"},
{"do":"ask","service":"clock","request":"get k"}]}]}"#,
        "history 2
open 0
order 0 0 https://a.com https://a.com https://a.com/
commit 0 0 https://a.com 68747470733a2f2f612e636f6d2f => ok
said 0 0 0 0 frame sandboxed url 68747470733a2f2f612e636f6d2f66 => ok
order 1 0 https://a.com opaque:1:https://a.com https://a.com/f
commit 0 1 opaque:1:https://a.com 68747470733a2f2f612e636f6d2f66 => ok
said 0 1 0 1 ask 73746f7265 opaque:1:https://a.com 676574206b => deny S1
said 0 1 1 1 ask 636c6f636b opaque:1:https://a.com 676574206b => deny S1
",
    ),
    // The process may ask for its whole site; the answer is of the origin that is named.
    (
        "a question as another origin of the lock's site",
        r#"{"start":["https://a.com/"],"resources":[{"url":"https://a.com/","actions":[
{"do":"ask","service":"store","request":"set k own"},
{"do":"raw","message":{"is":"ask","service":"store","origin":"https://sub.a.com/","request":"get k"}},
{"do":"raw","message":{"is":"ask","service":"store","origin":"https://sub.a.com/","request":"set k sub"}},
{"do":"raw","message":{"is":"ask","service":"store","origin":"https://sub.a.com/","request":"get k"}},
{"do":"ask","service":"store","request":"get k"},
{"do":"raw","message":{"is":"ask","service":"store","origin":"http://a.com/","request":"get k"}}]}]}"#,
        "history 2
open 0
order 0 0 https://a.com https://a.com https://a.com/
commit 0 0 https://a.com 68747470733a2f2f612e636f6d2f => ok
said 0 0 0 0 ask 73746f7265 https://a.com 736574206b206f776e => answer 646f6e65
said 0 0 1 0 ask 73746f7265 https://sub.a.com 676574206b => answer 6e6f6e65
said 0 0 2 0 ask 73746f7265 https://sub.a.com 736574206b20737562 => answer 646f6e65
said 0 0 3 0 ask 73746f7265 https://sub.a.com 676574206b => answer 736f6d6520737562
said 0 0 4 0 ask 73746f7265 https://a.com 676574206b => answer 736f6d65206f776e
said 0 0 5 0 ask 73746f7265 http://a.com 676574206b => kill K7
",
    ),
    // The claim is of the lock's site, and is answered.
    (
        "a sandboxed frame that asks as its site's origin",
        r#"{"start":["https://a.com/"],"resources":[
{"url":"https://a.com/","actions":[{"do":"frame","src":"https://a.com/f","sandbox":true}]},
{"url":"https://a.com/f","actions":[
{"do":"raw","message":{"is":"ask","service":"store","origin":"https://a.com/","request":"get k"}}]}]}"#,
        "history 2
open 0
order 0 0 https://a.com https://a.com https://a.com/
commit 0 0 https://a.com 68747470733a2f2f612e636f6d2f => ok
said 0 0 0 0 frame sandboxed url 68747470733a2f2f612e636f6d2f66 => ok
order 1 0 https://a.com opaque:1:https://a.com https://a.com/f
commit 0 1 opaque:1:https://a.com 68747470733a2f2f612e636f6d2f66 => ok
said 0 1 0 1 ask 73746f7265 https://a.com 676574206b => answer 6e6f6e65
",
    ),
    // Under the rule `co.uk` the neighbour is of another site.
    (
        "suffix rules part what asks",
        r#"{"suffixes":"co.uk","start":["https://a.co.uk/"],"resources":[{"url":"https://a.co.uk/","actions":[
{"do":"raw","message":{"is":"ask","service":"store","origin":"https://www.a.co.uk/","request":"get k"}},
{"do":"raw","message":{"is":"ask","service":"store","origin":"https://b.co.uk/","request":"get k"}}]}]}"#,
        "history 2
open 0
order 0 0 https://a.co.uk https://a.co.uk https://a.co.uk/
commit 0 0 https://a.co.uk 68747470733a2f2f612e636f2e756b2f => ok
said 0 0 0 0 ask 73746f7265 https://www.a.co.uk 676574206b => answer 6e6f6e65
said 0 0 1 0 ask 73746f7265 https://b.co.uk 676574206b => kill K7
",
    ),
];

#[test]
fn store_run_as_written(rt: HostRuntime) -> Result<(), Fail> {
    assert_runs_as_written(&rt, rt.alloc(), ROWS)
}
