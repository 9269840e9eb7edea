//! Counts that no run of a test's length comes to: what may follow a history that is given by its text.
//!
//! What may follow is defined of every list of entries. So these histories are none of runs: their entries are only as many as
//! the counts go by.

use super::moments::follows;
use super::numbered::{Part, text_of_parts};
use std::test::Fail;

/// What a row shows, a script, the text of a history, a line that may follow it and one that may not.
type Row = (
    &'static str,
    &'static str,
    &'static [Part],
    &'static str,
    &'static str,
);

const TWO_PAGES: &str = r#"{"start":["https://a.com/","https://b.com/"]}"#;

const SPARE: &str = r#"{"spare":true,"start":["https://a.com/"]}"#;

const FETCH: &str = r#"{"start":["https://a.com/"],"resources":[
{"url":"https://a.com/","actions":[{"do":"fetch","url":"https://a.com/d","mode":"cors"}]}]}"#;

const OPENER: &str = r#"{"start":["https://a.com/"],"resources":[
{"url":"https://a.com/","actions":[{"do":"page","url":"https://a.com/2"}]}]}"#;

const ROWS: &[Row] = &[
    (
        "the last of 1,024 processes is started",
        TWO_PAGES,
        &[(
            "open 0
open 1
order 0 1022 https://a.com https://a.com https://a.com/
",
            1,
        )],
        "order 1 1023 https://b.com https://b.com https://b.com/",
        "navend 1 N6",
    ),
    (
        "no process is started past 1,024",
        TWO_PAGES,
        &[(
            "open 0
open 1
order 0 1023 https://a.com https://a.com https://a.com/
",
            1,
        )],
        "navend 1 N6",
        "order 1 1024 https://b.com https://b.com https://b.com/",
    ),
    (
        "the last of 1,024 processes is warmed",
        SPARE,
        &[(
            "open 0
order 0 1022 https://a.com https://a.com https://a.com/
",
            1,
        )],
        "warm 1023",
        "warm 1024",
    ),
    (
        "no process is warmed past 1,024",
        SPARE,
        &[(
            "open 0
order 0 1023 https://a.com https://a.com https://a.com/
",
            1,
        )],
        "commit 1023 0 https://a.com 68747470733a2f2f612e636f6d2f => ok",
        "warm 1024",
    ),
    (
        "the last of 64 live processes is started",
        TWO_PAGES,
        &[
            (
                "open 0
open 1
",
                1,
            ),
            ("order 0 @ https://a.com https://a.com https://a.com/\n", 63),
        ],
        "order 1 63 https://b.com https://b.com https://b.com/",
        "navend 1 N6",
    ),
    (
        "no process is started beside 64 live ones",
        TWO_PAGES,
        &[
            (
                "open 0
open 1
",
                1,
            ),
            ("order 0 @ https://a.com https://a.com https://a.com/\n", 64),
        ],
        "navend 1 N6",
        "order 1 64 https://b.com https://b.com https://b.com/",
    ),
    (
        "the last of 64 frames is made",
        OPENER,
        &[
            (
                "open 0
order 0 0 https://a.com https://a.com https://a.com/
commit 0 0 https://a.com 68747470733a2f2f612e636f6d2f => ok
",
                1,
            ),
            (
                "said 0 9 @ 0 frame plain url 61626f75743a626c616e6b => ok\n",
                62,
            ),
        ],
        "said 0 0 0 0 page 68747470733a2f2f612e636f6d2f32 => ok",
        "said 0 0 0 0 page 68747470733a2f2f612e636f6d2f32 => deny L1",
    ),
    (
        "no frame is made past 64",
        OPENER,
        &[
            (
                "open 0
order 0 0 https://a.com https://a.com https://a.com/
commit 0 0 https://a.com 68747470733a2f2f612e636f6d2f => ok
",
                1,
            ),
            (
                "said 0 9 @ 0 frame plain url 61626f75743a626c616e6b => ok\n",
                63,
            ),
        ],
        "said 0 0 0 0 page 68747470733a2f2f612e636f6d2f32 => deny L1",
        "said 0 0 0 0 page 68747470733a2f2f612e636f6d2f32 => ok",
    ),
    (
        "the last of 256 navigations begins",
        OPENER,
        &[
            (
                "open 0
order 0 0 https://a.com https://a.com https://a.com/
commit 0 0 https://a.com 68747470733a2f2f612e636f6d2f => ok
",
                1,
            ),
            (
                "said 0 9 @ 0 navigate 0 https://a.com 68747470733a2f2f612e636f6d2f32 => ok\n",
                254,
            ),
        ],
        "said 0 0 0 0 page 68747470733a2f2f612e636f6d2f32 => ok",
        "said 0 0 0 0 page 68747470733a2f2f612e636f6d2f32 => deny N4",
    ),
    (
        "no navigation begins past 256",
        OPENER,
        &[
            (
                "open 0
order 0 0 https://a.com https://a.com https://a.com/
commit 0 0 https://a.com 68747470733a2f2f612e636f6d2f => ok
",
                1,
            ),
            (
                "said 0 9 @ 0 navigate 0 https://a.com 68747470733a2f2f612e636f6d2f32 => ok\n",
                255,
            ),
        ],
        "said 0 0 0 0 page 68747470733a2f2f612e636f6d2f32 => deny N4",
        "said 0 0 0 0 page 68747470733a2f2f612e636f6d2f32 => ok",
    ),
    (
        "the last of 4,096 requests begins",
        FETCH,
        &[
            (
                "open 0
order 0 0 https://a.com https://a.com https://a.com/
commit 0 0 https://a.com 68747470733a2f2f612e636f6d2f => ok
",
                1,
            ),
            (
                "said 0 9 @ 0 fetch cors https://a.com 68747470733a2f2f612e636f6d2f64 => ok\n",
                4095,
            ),
        ],
        "said 0 0 0 0 fetch cors https://a.com 68747470733a2f2f612e636f6d2f64 => ok",
        "said 0 0 0 0 fetch cors https://a.com 68747470733a2f2f612e636f6d2f64 => deny L2",
    ),
    (
        "no request begins past 4,096",
        FETCH,
        &[
            (
                "open 0
order 0 0 https://a.com https://a.com https://a.com/
commit 0 0 https://a.com 68747470733a2f2f612e636f6d2f => ok
",
                1,
            ),
            (
                "said 0 9 @ 0 fetch cors https://a.com 68747470733a2f2f612e636f6d2f64 => ok\n",
                4096,
            ),
        ],
        "said 0 0 0 0 fetch cors https://a.com 68747470733a2f2f612e636f6d2f64 => deny L2",
        "said 0 0 0 0 fetch cors https://a.com 68747470733a2f2f612e636f6d2f64 => ok",
    ),
];

#[test]
fn counts_end_where_they_are_said_to(rt: HostRuntime) -> Result<(), Fail> {
    let alloc = rt.alloc();
    for (shows, script, history, may_follow, may_not) in ROWS {
        let history = text_of_parts(alloc, history)?;
        let first = follows(alloc, script, history.as_str(), may_follow)?;
        assert!(rt; first, "{shows}: {may_follow}");
        let second = follows(alloc, script, history.as_str(), may_not)?;
        assert!(rt; !second, "{shows}: {may_not}");
    }
    Ok(())
}
