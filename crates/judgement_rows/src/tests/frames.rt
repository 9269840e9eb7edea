//! Messages about documents, frames and pages.

use super::pages::{Row, assert_replies};
use std::test::Fail;

/// The document that a message names, of which only a commit says nothing.
const DOCUMENTS: &[Row] = &[
    ("a document of another process", 0, "1 remove 99", "kill K1"),
    ("another process's document", 1, "0 remove 0", "kill K1"),
    (
        "a document that was never there",
        0,
        "99 remove 0",
        "kill K1",
    ),
    (
        "a document that was ordered and has not committed",
        0,
        "6 remove 0",
        "kill K1",
    ),
    ("a document of a removed frame", 0, "5 remove 0", "drop G1"),
    (
        "a late message is not looked into",
        0,
        "5 navigate 99 https://b.com 6e6f",
        "drop G1",
    ),
];

/// Navigations of frames.
const NAVIGATIONS: &[Row] = &[
    (
        "the own frame",
        0,
        "0 navigate 0 https://a.com 68747470733a2f2f612e636f6d2f32",
        "ok",
    ),
    (
        "a child",
        0,
        "0 navigate 2 https://a.com 68747470733a2f2f612e636f6d2f32",
        "ok",
    ),
    (
        "the page's top frame",
        0,
        "2 navigate 0 https://a.com 68747470733a2f2f612e636f6d2f32",
        "ok",
    ),
    (
        "the page's top frame, from another process",
        1,
        "4 navigate 0 https://b.com 68747470733a2f2f612e636f6d2f32",
        "ok",
    ),
    (
        "the page's opener",
        0,
        "7 navigate 0 https://a.com 68747470733a2f2f612e636f6d2f32",
        "ok",
    ),
    (
        "a sandboxed document's own frame",
        0,
        "3 navigate 3 opaque:3:https://a.com 68747470733a2f2f612e636f6d2f32",
        "ok",
    ),
    (
        "an initiator of the lock's site",
        0,
        "0 navigate 0 https://sub.a.com:8443 68747470733a2f2f612e636f6d2f32",
        "ok",
    ),
    (
        "an opaque initiator of that site",
        0,
        "0 navigate 0 opaque:9:https://a.com 68747470733a2f2f612e636f6d2f32",
        "ok",
    ),
    (
        "an initiator of another site",
        0,
        "0 navigate 0 https://b.com 68747470733a2f2f612e636f6d2f32",
        "kill K2",
    ),
    (
        "an initiator of another scheme",
        0,
        "0 navigate 0 http://a.com 68747470733a2f2f612e636f6d2f32",
        "kill K2",
    ),
    (
        "an opaque initiator of another site",
        0,
        "0 navigate 0 opaque:3:https://b.com 68747470733a2f2f612e636f6d2f32",
        "kill K2",
    ),
    (
        "K2 stands before K4",
        0,
        "0 navigate 99 https://b.com 68747470733a2f2f612e636f6d2f32",
        "kill K2",
    ),
    (
        "a frame that was never made",
        0,
        "0 navigate 99 https://a.com 68747470733a2f2f612e636f6d2f32",
        "kill K4",
    ),
    (
        "a frame of another group",
        0,
        "0 navigate 1 https://a.com 68747470733a2f2f612e636f6d2f32",
        "kill K4",
    ),
    (
        "a removed frame",
        0,
        "0 navigate 5 https://a.com 68747470733a2f2f612e636f6d2f32",
        "drop G2",
    ),
    (
        "G2 stands before N1",
        0,
        "2 navigate 5 https://a.com 68747470733a2f2f612e636f6d2f32",
        "drop G2",
    ),
    (
        "a sibling",
        0,
        "2 navigate 6 https://a.com 68747470733a2f2f612e636f6d2f32",
        "deny N1",
    ),
    (
        "a page that the document opened",
        0,
        "0 navigate 7 https://a.com 68747470733a2f2f612e636f6d2f32",
        "deny N1",
    ),
    (
        "a child of the page's opener",
        0,
        "7 navigate 2 https://a.com 68747470733a2f2f612e636f6d2f32",
        "deny N1",
    ),
    (
        "the top frame, out of a sandbox",
        0,
        "3 navigate 0 opaque:3:https://a.com 68747470733a2f2f612e636f6d2f32",
        "deny N1",
    ),
    (
        "N1 stands before N2",
        0,
        "2 navigate 6 https://a.com 6e6f",
        "deny N1",
    ),
    (
        "a text that is no URL",
        0,
        "0 navigate 0 https://a.com 6e6f",
        "deny N2",
    ),
    (
        "an empty text",
        0,
        "0 navigate 0 https://a.com -",
        "deny N2",
    ),
    (
        "a scheme that is not loaded",
        0,
        "0 navigate 0 https://a.com 77733a2f2f612e636f6d2f",
        "deny N3",
    ),
    (
        "about:srcdoc as a text",
        0,
        "0 navigate 0 https://a.com 61626f75743a737263646f63",
        "deny N3",
    ),
    (
        "about:blank",
        0,
        "0 navigate 0 https://a.com 61626f75743a626c616e6b",
        "ok",
    ),
    (
        "a data URL",
        0,
        "0 navigate 0 https://a.com 646174613a2c78",
        "ok",
    ),
];

/// New frames.
const NEW_FRAMES: &[Row] = &[
    (
        "a URL",
        0,
        "0 frame plain url 68747470733a2f2f612e636f6d2f32",
        "ok",
    ),
    (
        "a URL in a sandbox",
        0,
        "0 frame sandboxed url 68747470733a2f2f612e636f6d2f32",
        "ok",
    ),
    ("a resource", 0, "0 frame plain doc 99", "ok"),
    (
        "a text that is no URL",
        0,
        "0 frame plain url 6e6f",
        "deny N2",
    ),
    (
        "a scheme that is not loaded",
        0,
        "0 frame plain url 66696c653a2f2f2f78",
        "deny N3",
    ),
];

/// Removals of frames.
const REMOVALS: &[Row] = &[
    ("a child", 0, "0 remove 2", "ok"),
    ("a sandboxed child", 0, "0 remove 3", "ok"),
    ("the own frame", 0, "0 remove 0", "kill K5"),
    ("a frame that was never made", 0, "0 remove 99", "kill K5"),
    ("a frame of another page", 0, "0 remove 1", "kill K5"),
    (
        "a page that the document opened",
        0,
        "0 remove 7",
        "kill K5",
    ),
    ("a sibling", 0, "2 remove 6", "kill K5"),
    ("a removed child", 0, "0 remove 5", "drop G2"),
    ("K5 stands before G2", 0, "2 remove 5", "kill K5"),
];

/// New pages.
const NEW_PAGES: &[Row] = &[
    ("a URL", 0, "0 page 68747470733a2f2f612e636f6d2f32", "ok"),
    ("about:blank", 0, "2 page 61626f75743a626c616e6b", "ok"),
    (
        "out of a sandbox",
        0,
        "3 page 68747470733a2f2f612e636f6d2f32",
        "deny N9",
    ),
    ("N9 stands before N2", 0, "3 page 6e6f", "deny N9"),
    ("a text that is no URL", 0, "0 page 6e6f", "deny N2"),
    (
        "a scheme that is not loaded",
        0,
        "0 page 77733a2f2f612e636f6d2f",
        "deny N3",
    ),
];

#[test]
fn documents_are_judged(rt: HostRuntime) -> Result<(), Fail> {
    assert_replies(&rt, rt.alloc(), DOCUMENTS)
}

#[test]
fn navigations_are_judged(rt: HostRuntime) -> Result<(), Fail> {
    assert_replies(&rt, rt.alloc(), NAVIGATIONS)
}

#[test]
fn new_frames_are_judged(rt: HostRuntime) -> Result<(), Fail> {
    assert_replies(&rt, rt.alloc(), NEW_FRAMES)
}

#[test]
fn removals_are_judged(rt: HostRuntime) -> Result<(), Fail> {
    assert_replies(&rt, rt.alloc(), REMOVALS)
}

#[test]
fn new_pages_are_judged(rt: HostRuntime) -> Result<(), Fail> {
    assert_replies(&rt, rt.alloc(), NEW_PAGES)
}
