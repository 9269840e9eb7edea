//! Limits of frames, pages, navigations, processes and keys, each run by a test of its own, since the histories are long.

use super::long_runs::{LongRow, assert_long_runs};
use std::test::Fail;

const FRAMES: &[LongRow] = &[
    // The start page is the first of the 64 frames.
    LongRow {
        shows: "sixty-four frames",
        script: &[
            (
                r#"{"start":["https://a.com/"],
"resources":[{"url":"https://a.com/","actions":["#,
                1,
            ),
            (r#"{"do":"frame","src":"about:blank"},"#, 63),
            (r#"{"do":"frame","src":"about:blank"}]}]}"#, 1),
        ],
        counts: &[
            ("", 194),
            ("open ", 1),
            ("said ", 64),
            ("order ", 64),
            ("commit ", 64),
            ("deny L1", 1),
        ],
        lines: &[
            "said 0 0 62 0 frame plain url 61626f75743a626c616e6b => ok",
            "order 63 0 https://a.com https://a.com about:blank",
            "said 0 0 63 0 frame plain url 61626f75743a626c616e6b => deny L1",
            "commit 0 63 https://a.com 61626f75743a626c616e6b => ok",
        ],
    },
];

#[test]
fn frames_run_as_written(rt: HostRuntime) -> Result<(), Fail> {
    assert_long_runs(&rt, rt.alloc(), FRAMES)
}

const FRAMES_EVER_MADE: &[LongRow] = &[
    // A frame that was removed still counts, and so does an opened page.
    LongRow {
        shows: "frames ever made",
        script: &[
            (
                r#"{"start":["https://a.com/"],
"resources":[{"url":"https://a.com/","actions":["#,
                1,
            ),
            (r#"{"do":"page","url":"about:blank"},"#, 32),
            (r#"{"do":"frame","src":"about:blank"},"#, 1),
            (r#"{"do":"remove","child":0},"#, 1),
            (r#"{"do":"frame","src":"about:blank"},"#, 29),
            (r#"{"do":"frame","src":"https://a.com/f"}]},"#, 1),
            (
                r#"{"url":"https://a.com/f","actions":[{"do":"page","url":"about:blank"}]}]}"#,
                1,
            ),
        ],
        counts: &[
            ("", 195),
            ("said ", 65),
            ("order ", 64),
            ("commit ", 64),
            ("deny L1", 1),
            ("drop G3", 1),
        ],
        lines: &[
            "said 0 0 33 0 remove 33 => ok",
            "said 0 0 63 0 frame plain url 68747470733a2f2f612e636f6d2f66 => ok",
            "commit 0 33 https://a.com 61626f75743a626c616e6b => drop G3",
            "commit 0 63 https://a.com 68747470733a2f2f612e636f6d2f66 => ok",
            "said 0 63 0 63 page 61626f75743a626c616e6b => deny L1",
        ],
    },
];

#[test]
fn frames_ever_made_run_as_written(rt: HostRuntime) -> Result<(), Fail> {
    assert_long_runs(&rt, rt.alloc(), FRAMES_EVER_MADE)
}

const START_PAGES: &[LongRow] = &[
    // 64 pages of one site, a process each: the soft limit is 64 where a script names none.
    LongRow {
        shows: "sixty-four start pages",
        script: &[
            (r#"{"start":["https://a.com/f""#, 1),
            (r#","https://a.com/""#, 63),
            (
                r#"],"resources":[{"url":"https://a.com/f","actions":[{"do":"frame","src":"https://a.com/g"},
{"do":"page","url":"https://a.com/g"}]}]}"#,
                1,
            ),
        ],
        counts: &[
            ("", 195),
            ("open ", 64),
            ("order ", 64),
            ("commit ", 64),
            ("deny L1", 2),
        ],
        lines: &[
            "open 63",
            "order 63 63 https://a.com https://a.com https://a.com/",
            "commit 0 0 https://a.com 68747470733a2f2f612e636f6d2f66 => ok",
            "said 0 0 0 0 frame plain url 68747470733a2f2f612e636f6d2f67 => deny L1",
            "said 0 0 1 0 page 68747470733a2f2f612e636f6d2f67 => deny L1",
            "commit 63 63 https://a.com 68747470733a2f2f612e636f6d2f => ok",
        ],
    },
];

#[test]
fn start_pages_run_as_written(rt: HostRuntime) -> Result<(), Fail> {
    assert_long_runs(&rt, rt.alloc(), START_PAGES)
}

const NAVIGATIONS: &[LongRow] = &[
    // Each start page and each frame counts as well: the last page has four navigations too many. All but the last navigation of
    // a frame were replaced by the next one before their commit.
    LongRow {
        shows: "two hundred and fifty-six navigations",
        script: &[
            (
                r#"{"start":["https://a.com/","https://a.com/","https://a.com/","https://a.com/"],
"resources":[{"url":"https://a.com/","actions":[{"do":"frame","src":"about:blank"}"#,
                1,
            ),
            (
                r#",{"do":"navigate","frame":"child 0","url":"https://a.com/f"}"#,
                63,
            ),
            ("]}]}", 1),
        ],
        counts: &[
            ("", 773),
            ("said ", 256),
            ("order ", 256),
            ("commit ", 256),
            ("drop G3", 248),
            ("deny N4", 4),
        ],
        lines: &[
            "said 0 0 0 0 frame plain url 61626f75743a626c616e6b => ok",
            "order 4 0 https://a.com https://a.com about:blank",
            "said 0 0 63 0 navigate 4 https://a.com 68747470733a2f2f612e636f6d2f66 => ok",
            "order 67 0 https://a.com https://a.com https://a.com/f",
            "commit 0 66 https://a.com 68747470733a2f2f612e636f6d2f66 => drop G3",
            "commit 0 67 https://a.com 68747470733a2f2f612e636f6d2f66 => ok",
            "said 3 3 59 3 navigate 7 https://a.com 68747470733a2f2f612e636f6d2f66 => ok",
            "order 255 3 https://a.com https://a.com https://a.com/f",
            "said 3 3 60 3 navigate 7 https://a.com 68747470733a2f2f612e636f6d2f66 => deny N4",
            "said 3 3 61 3 navigate 7 https://a.com 68747470733a2f2f612e636f6d2f66 => deny N4",
            "said 3 3 62 3 navigate 7 https://a.com 68747470733a2f2f612e636f6d2f66 => deny N4",
            "said 3 3 63 3 navigate 7 https://a.com 68747470733a2f2f612e636f6d2f66 => deny N4",
            "commit 3 255 https://a.com 68747470733a2f2f612e636f6d2f66 => ok",
        ],
    },
];

#[test]
fn navigations_run_as_written(rt: HostRuntime) -> Result<(), Fail> {
    assert_long_runs(&rt, rt.alloc(), NAVIGATIONS)
}

const PROCESSES: &[LongRow] = &[
    // A navigation to a 65th site finds no process; one to a site that is there shares its process.
    LongRow {
        shows: "sixty-four live processes",
        script: &[
            (r#"{"start":["https://s0.com/""#, 1),
            (r#","https://s^.com/""#, 63),
            (
                r#"],"resources":[{"url":"https://s0.com/","actions":[{"do":"navigate","frame":"self","url":"https://z.com/"},
{"do":"navigate","frame":"self","url":"https://s1.com/f"}]}]}"#,
                1,
            ),
        ],
        counts: &[
            ("", 199),
            ("order ", 65),
            ("commit ", 65),
            ("navend ", 1),
            ("exit ", 1),
        ],
        lines: &[
            "order 63 63 https://s63.com https://s63.com https://s63.com/",
            "commit 0 0 https://s0.com 68747470733a2f2f73302e636f6d2f => ok",
            "said 0 0 0 0 navigate 0 https://s0.com 68747470733a2f2f7a2e636f6d2f => ok",
            "navend 64 N6",
            "said 0 0 1 0 navigate 0 https://s0.com 68747470733a2f2f73312e636f6d2f66 => ok",
            "order 65 1 https://s1.com https://s1.com https://s1.com/f",
            "commit 1 65 https://s1.com 68747470733a2f2f73312e636f6d2f66 => ok",
            "commit 63 63 https://s63.com 68747470733a2f2f7336332e636f6d2f => ok",
            "exit 0",
        ],
    },
];

#[test]
fn processes_run_as_written(rt: HostRuntime) -> Result<(), Fail> {
    assert_long_runs(&rt, rt.alloc(), PROCESSES)
}

const SPARE: &[LongRow] = &[
    // The warm process is one of the 64; a new one is started as soon as a process has died.
    LongRow {
        shows: "a spare among sixty-four processes",
        script: &[
            (r#"{"spare":true,"start":["https://s0.com/""#, 1),
            (r#","https://s^.com/""#, 63),
            (
                r#"],"resources":[{"url":"https://s0.com/","actions":[{"do":"navigate","frame":"self","url":"https://z.com/"},
{"do":"crash"}]}]}"#,
                1,
            ),
        ],
        counts: &[
            ("", 261),
            ("warm ", 65),
            ("order ", 64),
            ("commit ", 64),
            ("navend ", 1),
            ("crash ", 1),
        ],
        lines: &[
            "open 63",
            "warm 0",
            "order 0 0 https://s0.com https://s0.com https://s0.com/",
            "warm 63",
            "order 63 63 https://s63.com https://s63.com https://s63.com/",
            "commit 0 0 https://s0.com 68747470733a2f2f73302e636f6d2f => ok",
            "navend 64 N6",
            "crash 0",
            "warm 64",
            "commit 1 1 https://s1.com 68747470733a2f2f73312e636f6d2f => ok",
        ],
    },
];

#[test]
fn spare_run_as_written(rt: HostRuntime) -> Result<(), Fail> {
    assert_long_runs(&rt, rt.alloc(), SPARE)
}

const KEYS: &[LongRow] = &[
    // An origin has at most 256 keys; one that is there may be set again, and another origin has its own.
    LongRow {
        shows: "two hundred and fifty-six keys",
        script: &[
            (
                r#"{"soft_limit":0,"start":["https://a.com/0","https://a.com/1","https://a.com/2","https://a.com/3","https://a.com/4","https://sub.a.com/"],
"resources":[{"url":"https://a.com/0","actions":[{"do":"ask","service":"store","request":"set a0 v"}"#,
                1,
            ),
            (
                r#",{"do":"ask","service":"store","request":"set a^ v"}"#,
                63,
            ),
            (
                r#"]},
{"url":"https://a.com/1","actions":[{"do":"ask","service":"store","request":"set b0 v"}"#,
                1,
            ),
            (
                r#",{"do":"ask","service":"store","request":"set b^ v"}"#,
                63,
            ),
            (
                r#"]},
{"url":"https://a.com/2","actions":[{"do":"ask","service":"store","request":"set c0 v"}"#,
                1,
            ),
            (
                r#",{"do":"ask","service":"store","request":"set c^ v"}"#,
                63,
            ),
            (
                r#"]},
{"url":"https://a.com/3","actions":[{"do":"ask","service":"store","request":"set d0 v"}"#,
                1,
            ),
            (
                r#",{"do":"ask","service":"store","request":"set d^ v"}"#,
                63,
            ),
            (
                r#"]},
{"url":"https://a.com/4","actions":[{"do":"ask","service":"store","request":"set a0 w"},
{"do":"ask","service":"store","request":"set e v"},
{"do":"ask","service":"store","request":"get e"},
{"do":"ask","service":"store","request":"remove a0"},
{"do":"ask","service":"store","request":"set e v"},
{"do":"ask","service":"store","request":"set f v"}]},
{"url":"https://sub.a.com/","actions":[{"do":"ask","service":"store","request":"set x v"}]}]}"#,
                1,
            ),
        ],
        counts: &[
            ("", 282),
            ("said ", 263),
            ("answer 646f6e65", 260),
            ("deny S2", 2),
        ],
        lines: &[
            "said 0 3 63 3 ask 73746f7265 https://a.com 736574206436332076 => answer 646f6e65",
            "said 0 4 0 4 ask 73746f7265 https://a.com 7365742061302077 => answer 646f6e65",
            "said 0 4 1 4 ask 73746f7265 https://a.com 73657420652076 => deny S2",
            "said 0 4 2 4 ask 73746f7265 https://a.com 6765742065 => answer 6e6f6e65",
            "said 0 4 3 4 ask 73746f7265 https://a.com 72656d6f7665206130 => answer 646f6e65",
            "said 0 4 4 4 ask 73746f7265 https://a.com 73657420652076 => answer 646f6e65",
            "said 0 4 5 4 ask 73746f7265 https://a.com 73657420662076 => deny S2",
            "said 0 5 0 5 ask 73746f7265 https://sub.a.com 73657420782076 => answer 646f6e65",
        ],
    },
];

#[test]
fn keys_run_as_written(rt: HostRuntime) -> Result<(), Fail> {
    assert_long_runs(&rt, rt.alloc(), KEYS)
}
