//! Messages in the name of an origin, and commits.

use super::pages::{Row, assert_replies, assert_replies_after};
use std::test::Fail;

/// Requests.
const FETCHES: &[Row] = &[
    (
        "the own origin",
        0,
        "0 fetch cors https://a.com 68747470733a2f2f612e636f6d2f32",
        "ok",
    ),
    (
        "a URL of another site",
        0,
        "0 fetch no-cors https://a.com 687474703a2f2f622e636f6d2f",
        "ok",
    ),
    (
        "the own opaque origin",
        0,
        "3 fetch cors opaque:3:https://a.com 68747470733a2f2f612e636f6d2f32",
        "ok",
    ),
    (
        "opaque origins are told by their numbers",
        0,
        "3 fetch cors opaque:3:https://b.com 68747470733a2f2f612e636f6d2f32",
        "ok",
    ),
    (
        "another origin",
        0,
        "0 fetch cors https://b.com 68747470733a2f2f612e636f6d2f32",
        "kill K3",
    ),
    (
        "another origin of the site",
        0,
        "0 fetch cors https://sub.a.com 68747470733a2f2f612e636f6d2f32",
        "kill K3",
    ),
    (
        "another port",
        0,
        "0 fetch cors https://a.com:8443 68747470733a2f2f612e636f6d2f32",
        "kill K3",
    ),
    (
        "the precursor of the own origin",
        0,
        "3 fetch cors https://a.com 68747470733a2f2f612e636f6d2f32",
        "kill K3",
    ),
    (
        "another opaque origin",
        0,
        "3 fetch cors opaque:4:https://a.com 68747470733a2f2f612e636f6d2f32",
        "kill K3",
    ),
    (
        "K3 stands before F1",
        0,
        "0 fetch cors https://b.com 6e6f",
        "kill K3",
    ),
    (
        "a text that is no URL",
        0,
        "0 fetch cors https://a.com 6e6f",
        "deny F1",
    ),
    (
        "a scheme that is not fetched",
        0,
        "0 fetch cors https://a.com 77733a2f2f612e636f6d2f",
        "deny F1",
    ),
    (
        "about:blank",
        0,
        "0 fetch cors https://a.com 61626f75743a626c616e6b",
        "deny F1",
    ),
    (
        "a data URL",
        0,
        "0 fetch cors https://a.com 646174613a2c78",
        "deny F1",
    ),
];

/// Posts.
const POSTS: &[Row] = &[
    ("to any origin", 0, "0 post 2 * https://a.com 78", "ok"),
    ("to itself", 0, "0 post 0 * https://a.com 78", "ok"),
    ("to the own origin", 0, "0 post 2 / https://a.com 78", "ok"),
    (
        "to another origin that is there",
        0,
        "0 post 4 https://b.com https://a.com 78",
        "ok",
    ),
    (
        "to another page of the group",
        0,
        "2 post 7 * https://a.com 78",
        "ok",
    ),
    ("into a sandbox", 0, "0 post 3 * https://a.com 78", "ok"),
    (
        "to an opaque origin that is there",
        0,
        "0 post 3 opaque:3:https://a.com https://a.com 78",
        "ok",
    ),
    (
        "to the own opaque origin",
        0,
        "3 post 3 / opaque:3:https://a.com 78",
        "ok",
    ),
    (
        "another source",
        0,
        "0 post 2 * https://b.com 78",
        "kill K6",
    ),
    (
        "another source of the site",
        0,
        "0 post 2 * https://sub.a.com 78",
        "kill K6",
    ),
    (
        "K6 stands before K4",
        0,
        "0 post 99 * https://b.com 78",
        "kill K6",
    ),
    (
        "a frame that was never made",
        0,
        "0 post 99 * https://a.com 78",
        "kill K4",
    ),
    (
        "a frame of another group",
        0,
        "0 post 1 * https://a.com 78",
        "kill K4",
    ),
    (
        "a removed frame",
        0,
        "0 post 5 * https://a.com 78",
        "drop G2",
    ),
    (
        "a frame without a document",
        0,
        "0 post 6 * https://a.com 78",
        "drop M1",
    ),
    (
        "M1 stands before M2",
        0,
        "0 post 6 https://b.com https://a.com 78",
        "drop M1",
    ),
    (
        "to the own origin, which is not there",
        0,
        "0 post 4 / https://a.com 78",
        "drop M2",
    ),
    (
        "to an origin that is not there",
        0,
        "0 post 4 https://a.com https://a.com 78",
        "drop M2",
    ),
    (
        "an opaque origin is not its precursor",
        0,
        "0 post 3 https://a.com https://a.com 78",
        "drop M2",
    ),
    (
        "an opaque origin is not the sender's",
        0,
        "0 post 3 / https://a.com 78",
        "drop M2",
    ),
];

/// Requests to services.
const QUESTIONS: &[Row] = &[
    (
        "an answer",
        0,
        "0 ask 73746f7265 https://a.com 676574206b",
        "answer 6e6f6e65",
    ),
    (
        "another answer",
        0,
        "0 ask 73746f7265 https://a.com 736574206b2076",
        "answer 646f6e65",
    ),
    (
        "another origin of the site",
        0,
        "0 ask 73746f7265 https://sub.a.com 676574206b",
        "answer 6e6f6e65",
    ),
    (
        "an origin of another site",
        0,
        "0 ask 73746f7265 https://b.com 676574206b",
        "kill K7",
    ),
    (
        "an origin of another scheme",
        0,
        "0 ask 73746f7265 http://a.com 676574206b",
        "kill K7",
    ),
    (
        "K7 stands before S1",
        0,
        "0 ask 73746f7265 opaque:3:https://b.com 676574206b",
        "kill K7",
    ),
    (
        "an opaque origin",
        0,
        "3 ask 73746f7265 opaque:3:https://a.com 676574206b",
        "deny S1",
    ),
    (
        "S1 stands before S3",
        0,
        "3 ask 6c6f636b73 opaque:3:https://a.com 676574206b",
        "deny S1",
    ),
    (
        "a service that is not there",
        0,
        "0 ask 6c6f636b73 https://a.com 676574",
        "deny S3",
    ),
    (
        "a request without a form",
        0,
        "0 ask 73746f7265 https://a.com 676574",
        "deny S4",
    ),
];

/// Commits.
const COMMITS: &[Row] = &[
    (
        "an order that waits",
        0,
        "0 commit 6 https://a.com 68747470733a2f2f612e636f6d2f68",
        "ok",
    ),
    (
        "the message's document is not asked",
        0,
        "99 commit 6 https://a.com 68747470733a2f2f612e636f6d2f68",
        "ok",
    ),
    (
        "a navigation that never began",
        0,
        "0 commit 99 https://a.com 68747470733a2f2f612e636f6d2f68",
        "kill K8",
    ),
    (
        "a navigation without an order",
        0,
        "0 commit 9 https://a.com 68747470733a2f2f612e636f6d2f6a",
        "kill K8",
    ),
    (
        "an order to another process",
        0,
        "0 commit 1 https://b.com 68747470733a2f2f622e636f6d2f",
        "kill K8",
    ),
    (
        "another process's order",
        1,
        "1 commit 6 https://a.com 68747470733a2f2f612e636f6d2f68",
        "kill K8",
    ),
    (
        "an order that was committed",
        0,
        "0 commit 0 https://a.com 68747470733a2f2f612e636f6d2f",
        "drop G3",
    ),
    (
        "an order of a removed frame",
        0,
        "0 commit 5 https://a.com 68747470733a2f2f612e636f6d2f67",
        "drop G3",
    ),
    (
        "an order that was replaced",
        0,
        "0 commit 8 https://a.com 68747470733a2f2f612e636f6d2f69",
        "drop G3",
    ),
    (
        "G3 stands before K9",
        0,
        "0 commit 8 https://b.com 68747470733a2f2f612e636f6d2f78",
        "drop G3",
    ),
    (
        "another URL",
        0,
        "0 commit 6 https://a.com 68747470733a2f2f612e636f6d2f78",
        "kill K9",
    ),
    (
        "K9 stands before K10",
        0,
        "0 commit 6 https://b.com 68747470733a2f2f612e636f6d2f78",
        "kill K9",
    ),
    (
        "another origin",
        0,
        "0 commit 6 https://b.com 68747470733a2f2f612e636f6d2f68",
        "kill K10",
    ),
    (
        "an opaque origin of the same site",
        0,
        "0 commit 6 opaque:6:https://a.com 68747470733a2f2f612e636f6d2f68",
        "kill K10",
    ),
];

/// Behind the pages a sandboxed frame is made, whose order waits, and another frame is navigated to a data URL, whose order waits:
/// both orders have an opaque origin.
const OPAQUE_ORDERS: &str = "said 0 0 9 0 frame sandboxed url 68747470733a2f2f612e636f6d2f73 => ok
order 10 0 https://a.com opaque:10:https://a.com https://a.com/s
said 0 0 10 0 navigate 2 https://a.com 646174613a2c78 => ok
order 11 0 https://a.com opaque:11:https://a.com data:,x
";

/// Commits of these orders. Both origins are compared as a whole.
const OPAQUE_COMMITS: &[Row] = &[
    (
        "its own opaque origin",
        0,
        "0 commit 10 opaque:10:https://a.com 68747470733a2f2f612e636f6d2f73",
        "ok",
    ),
    (
        "that of a data URL",
        0,
        "0 commit 11 opaque:11:https://a.com 646174613a2c78",
        "ok",
    ),
    (
        "the number of another document",
        0,
        "0 commit 10 opaque:11:https://a.com 68747470733a2f2f612e636f6d2f73",
        "kill K10",
    ),
    (
        "the opaque origin of a document that is there",
        0,
        "0 commit 10 opaque:3:https://a.com 68747470733a2f2f612e636f6d2f73",
        "kill K10",
    ),
    (
        "another precursor",
        0,
        "0 commit 10 opaque:10:https://b.com 68747470733a2f2f612e636f6d2f73",
        "kill K10",
    ),
    (
        "another precursor's scheme",
        0,
        "0 commit 10 opaque:10:http://a.com 68747470733a2f2f612e636f6d2f73",
        "kill K10",
    ),
    (
        "the precursor itself",
        0,
        "0 commit 10 https://a.com 68747470733a2f2f612e636f6d2f73",
        "kill K10",
    ),
    (
        "the precursor of a data URL itself",
        0,
        "0 commit 11 https://a.com 646174613a2c78",
        "kill K10",
    ),
    (
        "K9 stands before K10 for an opaque origin",
        0,
        "0 commit 10 opaque:11:https://a.com 646174613a2c78",
        "kill K9",
    ),
    (
        "K8 stands before them: the order is another process's",
        1,
        "1 commit 10 opaque:10:https://a.com 68747470733a2f2f612e636f6d2f73",
        "kill K8",
    ),
    (
        "an order that was committed",
        0,
        "0 commit 3 opaque:3:https://a.com 68747470733a2f2f612e636f6d2f73",
        "drop G3",
    ),
];

#[test]
fn fetches_are_judged(rt: HostRuntime) -> Result<(), Fail> {
    assert_replies(&rt, rt.alloc(), FETCHES)
}

#[test]
fn posts_are_judged(rt: HostRuntime) -> Result<(), Fail> {
    assert_replies(&rt, rt.alloc(), POSTS)
}

#[test]
fn questions_are_judged(rt: HostRuntime) -> Result<(), Fail> {
    assert_replies(&rt, rt.alloc(), QUESTIONS)
}

#[test]
fn commits_are_judged(rt: HostRuntime) -> Result<(), Fail> {
    assert_replies(&rt, rt.alloc(), COMMITS)
}

#[test]
fn commits_of_opaque_origins_are_judged(rt: HostRuntime) -> Result<(), Fail> {
    assert_replies_after(&rt, rt.alloc(), OPAQUE_ORDERS, OPAQUE_COMMITS)
}
