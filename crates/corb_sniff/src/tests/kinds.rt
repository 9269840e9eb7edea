//! Which kinds are tested for which grammar and prefix, and at which byte a body is settled.

use super::{HTML, JSON, PREFIX, XML, fed_singly, fed_whole, settled};
use crate::{Answer, SniffKind};

/// A body of each grammar and with each prefix.
const SAMPLES: &[&[u8]] = &[
    b"<html",
    b"<?xml",
    b"{\"a\":",
    b")]}'",
    b"{}&&",
    b"for(;;);",
];

const CLEAR: Answer = Answer::Clear;

/// Each kind, and the answers at the end of these bodies.
const KINDS: &[(SniffKind, &[Answer])] = &[
    (
        SniffKind::Html,
        &[HTML, CLEAR, CLEAR, PREFIX, PREFIX, PREFIX],
    ),
    (SniffKind::Xml, &[CLEAR, XML, CLEAR, PREFIX, PREFIX, PREFIX]),
    (
        SniffKind::Json,
        &[CLEAR, CLEAR, JSON, PREFIX, PREFIX, PREFIX],
    ),
    (SniffKind::Plain, &[HTML, XML, JSON, PREFIX, PREFIX, PREFIX]),
    (SniffKind::Css, &[CLEAR, CLEAR, CLEAR, CLEAR, CLEAR, CLEAR]),
    (
        SniffKind::Other,
        &[CLEAR, CLEAR, CLEAR, PREFIX, PREFIX, PREFIX],
    ),
];

/// A kind, a body, after how many of its bytes it is settled, and the answer then.
const SETTLED: &[(SniffKind, &[u8], usize, Answer)] = &[
    (SniffKind::Html, b"<html>", 5, HTML),
    (SniffKind::Html, b"<htmx>", 5, CLEAR),
    (SniffKind::Html, b"<!doctype html>", 14, HTML),
    (SniffKind::Html, b"<!doctypes html>", 10, CLEAR),
    (SniffKind::Html, b"<h2>", 3, CLEAR),
    (SniffKind::Html, b"<img>", 3, CLEAR),
    (SniffKind::Html, b"<spin>", 3, CLEAR),
    (SniffKind::Html, b"<tr>", 3, CLEAR),
    (SniffKind::Html, b"<xml>", 2, CLEAR),
    (SniffKind::Html, b"<!x", 3, CLEAR),
    (SniffKind::Html, b"<!-x", 4, CLEAR),
    (SniffKind::Html, b"<!----><x", 9, CLEAR),
    (SniffKind::Html, b"<!----><p", 9, HTML),
    (SniffKind::Html, b" \n<a>", 4, HTML),
    (SniffKind::Html, b"text", 1, CLEAR),
    (SniffKind::Xml, b"<?xml ", 5, XML),
    (SniffKind::Xml, b"<?xmm ", 5, CLEAR),
    (SniffKind::Xml, b"<?y", 3, CLEAR),
    (SniffKind::Xml, b"<!--", 2, CLEAR),
    (SniffKind::Json, b"{\"a\":1}", 5, JSON),
    (SniffKind::Json, b"{\"a\",1}", 5, CLEAR),
    (SniffKind::Json, b"{ }", 3, CLEAR),
    (SniffKind::Json, b"{}&x", 4, CLEAR),
    (SniffKind::Json, b"[1]", 1, CLEAR),
    (SniffKind::Plain, b"{<p>", 2, CLEAR),
    (SniffKind::Plain, b"<?xml>", 5, XML),
    (SniffKind::Plain, b"<?p>", 3, CLEAR),
    (SniffKind::Other, b")]}'x", 4, PREFIX),
    (SniffKind::Other, b")]}x", 4, CLEAR),
    (SniffKind::Other, b")]x", 3, CLEAR),
    (SniffKind::Other, b")x", 2, CLEAR),
    (SniffKind::Other, b"{}&&x", 4, PREFIX),
    (SniffKind::Other, b"{}&x", 4, CLEAR),
    (SniffKind::Other, b"{}x", 3, CLEAR),
    (SniffKind::Other, b"{\"", 2, CLEAR),
    (SniffKind::Other, b"for(;;);x", 8, PREFIX),
    (SniffKind::Other, b"for(;;)x", 8, CLEAR),
    (SniffKind::Other, b"for(;;x", 7, CLEAR),
    (SniffKind::Other, b"for(;x", 6, CLEAR),
    (SniffKind::Other, b"for(x", 5, CLEAR),
    (SniffKind::Other, b"forx", 4, CLEAR),
    (SniffKind::Other, b"fox", 3, CLEAR),
    (SniffKind::Other, b"fx", 2, CLEAR),
    (SniffKind::Other, b"FOR(;;);", 1, CLEAR),
    (SniffKind::Other, b"<html", 1, CLEAR),
    (SniffKind::Css, b"<html", 1, CLEAR),
];

#[test]
fn each_kind_with_each_sample(rt: HostRuntime) {
    for (kind, answers) in KINDS {
        for (sample, answer) in SAMPLES.iter().zip(*answers) {
            assert_eq!(rt; fed_whole(*kind, sample), *answer);
            assert_eq!(rt; fed_singly(*kind, sample), *answer);
        }
    }
}

#[test]
fn settled_at_the_very_byte(rt: HostRuntime) {
    for (kind, body, count, answer) in SETTLED {
        assert!(rt;
            settled(*kind, body) == Some((*count, *answer)),
            "{:?}",
            body
        );
    }
}
