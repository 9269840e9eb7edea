//! Rows of the rules of sniffing, fed whole, in pieces and byte by byte.

use crate::{Answer, SniffKind, Sniffed, Sniffer, sniff};
use std::test::Fail;

mod kinds;
mod markup;
mod objects;
mod window;

const HTML: Answer = Answer::Confirmed(Sniffed::Html);

const XML: Answer = Answer::Confirmed(Sniffed::Xml);

const JSON: Answer = Answer::Confirmed(Sniffed::Json);

const PREFIX: Answer = Answer::Confirmed(Sniffed::Prefix);

/// The answer after the two pieces.
fn cut(kind: SniffKind, first: &[u8], second: &[u8]) -> (Answer, Answer) {
    let mut sniffer = Sniffer::new(kind);
    (sniffer.feed(first), sniffer.feed(second))
}

/// The answer at the end of a body that is fed byte by byte.
fn fed_singly(kind: SniffKind, body: &[u8]) -> Answer {
    let mut sniffer = Sniffer::new(kind);
    for byte in body {
        let _answer = sniffer.feed(&[*byte]);
    }
    sniffer.finish()
}

/// The answer at the end of a body that is fed whole.
fn fed_whole(kind: SniffKind, body: &[u8]) -> Answer {
    let mut sniffer = Sniffer::new(kind);
    let _answer = sniffer.feed(body);
    sniffer.finish()
}

/// After how many bytes of a body, fed singly, its answer is another than `More`, and that answer.
fn settled(kind: SniffKind, body: &[u8]) -> Option<(usize, Answer)> {
    let mut sniffer = Sniffer::new(kind);
    for (index, byte) in body.iter().enumerate() {
        let answer = sniffer.feed(&[*byte]);
        if answer != Answer::More {
            return Some((index + 1, answer));
        }
    }
    None
}

/// A kind, the pieces of a body each with the answer after it, and the answer at the end.
const PIECES: &[(SniffKind, &[(&[u8], Answer)], Answer)] = &[
    (
        SniffKind::Html,
        &[
            (b"<", Answer::More),
            (b"i", Answer::More),
            (b"m", Answer::Clear),
        ],
        Answer::Clear,
    ),
    (SniffKind::Html, &[(b"<", Answer::More), (b"a", HTML)], HTML),
    (
        SniffKind::Json,
        &[(b"{}", Answer::More), (b"x", Answer::Clear)],
        Answer::Clear,
    ),
    (
        SniffKind::Other,
        &[(b"{", Answer::More), (b"}&&", PREFIX)],
        PREFIX,
    ),
    (SniffKind::Css, &[(b"", Answer::Clear)], Answer::Clear),
    (SniffKind::Plain, &[(b"x", Answer::Clear)], Answer::Clear),
    (
        SniffKind::Plain,
        &[(b"{\"a\"", Answer::More)],
        Answer::Clear,
    ),
    (
        SniffKind::Html,
        &[(b"", Answer::More), (b"", Answer::More)],
        Answer::Clear,
    ),
    (SniffKind::Html, &[(b"<!-", Answer::More)], Answer::Clear),
    (
        SniffKind::Html,
        &[
            (b"<!-", Answer::More),
            (b"x", Answer::Clear),
            (b"<p", Answer::Clear),
        ],
        Answer::Clear,
    ),
    (
        SniffKind::Html,
        &[(b"<b", HTML), (b"ad", HTML), (b"", HTML)],
        HTML,
    ),
    (
        SniffKind::Plain,
        &[(b" <", Answer::More), (b"?xm", Answer::More), (b"l", XML)],
        XML,
    ),
];

/// A kind, a body and the answer at its end.
const BODIES: &[(SniffKind, &[u8], Answer)] = &[
    (SniffKind::Html, b" \t\r\n<!doctype HTML>", HTML),
    (SniffKind::Html, b"<!DocType  html", Answer::Clear),
    (SniffKind::Html, b"<ScRiPt src=x>", HTML),
    (SniffKind::Html, b"<IFRAME", HTML),
    (SniffKind::Html, b"<titles", HTML),
    (SniffKind::Html, b"<h2>", Answer::Clear),
    (SniffKind::Html, b"<A", HTML),
    (SniffKind::Html, b"< a", Answer::Clear),
    (SniffKind::Html, b"\x0b<a", Answer::Clear),
    (SniffKind::Html, b"\xef\xbb\xbf<html", Answer::Clear),
    (SniffKind::Html, b"<!-- a --> <!----><TaBlE", HTML),
    (SniffKind::Html, b"<!-->--><p", HTML),
    (SniffKind::Html, b"<!--><p", Answer::Clear),
    (SniffKind::Html, b"<!---><p", Answer::Clear),
    (SniffKind::Html, b"<!-- ----><p", HTML),
    (SniffKind::Html, b"<!-- <!-- --><p", HTML),
    (SniffKind::Html, b"<!-- <!-- --> --><p", Answer::Clear),
    (SniffKind::Html, b"<!-- --!><p", Answer::Clear),
    (SniffKind::Html, b"{\"a\":1}", Answer::Clear),
    (SniffKind::Xml, b"\r\n<?xml version=\"1.0\"?>", XML),
    (SniffKind::Xml, b"<?XML", Answer::Clear),
    (SniffKind::Xml, b"<!-- --><?xml", Answer::Clear),
    (SniffKind::Xml, b"<html", Answer::Clear),
    (SniffKind::Json, b" {\t\"a\\\"b\\\\\" \n: 1}", JSON),
    (SniffKind::Json, b"{\"\\\x20\x7f\xff\":", JSON),
    (SniffKind::Json, b"{\"a\x1f\":", Answer::Clear),
    (SniffKind::Json, b"{\"a\\\x1f\":", Answer::Clear),
    (SniffKind::Json, b"{\"a\\\":", Answer::Clear),
    (SniffKind::Json, b"{'a':", Answer::Clear),
    (SniffKind::Json, b"[{\"a\":1}]", Answer::Clear),
    (SniffKind::Json, b"{\"a\",\"b\":", Answer::Clear),
    (SniffKind::Json, b"\xef\xbb\xbf{\"a\":", Answer::Clear),
    (SniffKind::Plain, b"<b>", HTML),
    (SniffKind::Plain, b"{\"a\":", JSON),
    (SniffKind::Other, b"for(;;);", PREFIX),
    (SniffKind::Other, b"for (;;);", Answer::Clear),
    (SniffKind::Other, b" )]}'", Answer::Clear),
    (SniffKind::Css, b"{}&&", Answer::Clear),
];

/// So many spaces, what comes behind them, and the answers after both under `text/html`.
const BEHIND_SPACES: &[(usize, &[u8], Answer, Answer)] = &[
    (1019, b"<html", Answer::More, HTML),
    (1020, b"<htm", Answer::More, Answer::Clear),
    (1020, b"<html", Answer::More, Answer::Clear),
    (1022, b"<a", Answer::More, HTML),
    (1023, b"<a", Answer::More, Answer::Clear),
    (1024, b"<a", Answer::Clear, Answer::Clear),
];

/// The kinds, each with the answers after a part of a prefix and after all of it.
const PREFIXED: &[(SniffKind, Answer, Answer)] = &[
    (SniffKind::Html, Answer::More, PREFIX),
    (SniffKind::Xml, Answer::More, PREFIX),
    (SniffKind::Json, Answer::More, PREFIX),
    (SniffKind::Plain, Answer::More, PREFIX),
    (SniffKind::Css, Answer::Clear, Answer::Clear),
    (SniffKind::Other, Answer::More, PREFIX),
];

#[test]
fn pieces_in_turn(rt: HostRuntime) {
    for (kind, steps, want) in PIECES {
        let mut sniffer = Sniffer::new(*kind);
        for (piece, answer) in *steps {
            assert_eq!(rt; sniffer.feed(piece), *answer);
        }
        assert_eq!(rt; sniffer.finish(), *want);
    }
}

#[test]
fn bodies_whole_and_byte_by_byte(rt: HostRuntime) {
    for (kind, body, want) in BODIES {
        assert_eq!(rt; fed_whole(*kind, body), *want);
        assert_eq!(rt; fed_singly(*kind, body), *want);
    }
}

#[test]
fn cut_anywhere(rt: HostRuntime) {
    let commented = b"<!-- -> -- --><p";
    for end in 0..commented.len() {
        let (first, second) = commented.split_at(end);
        assert_eq!(rt; cut(SniffKind::Html, first, second), (Answer::More, HTML));
    }
    let prefix = b")]}'";
    for (kind, early, last) in PREFIXED {
        for end in 0..prefix.len() {
            let (first, second) = prefix.split_at(end);
            assert_eq!(rt; cut(*kind, first, second), (*early, *last));
        }
    }
    for byte in 0..=255u8 {
        assert_eq!(rt; cut(SniffKind::Html, b"<a", &[byte]), (HTML, HTML));
        assert_eq!(rt; cut(SniffKind::Plain, b"<A", &[byte]), (HTML, HTML));
    }
}

#[test]
fn window_of_1024_bytes(rt: HostRuntime) -> Result<(), Fail> {
    let spaces = vec![in rt.alloc(); b' '; 1024]?;
    for (count, tail, first, second) in BEHIND_SPACES {
        assert!(rt; *count <= spaces.len());
        assert_eq!(rt;
            cut(SniffKind::Html, &spaces[..*count], tail),
            (*first, *second)
        );
    }
    let letters = vec![in rt.alloc(); b'x'; 1019]?;
    assert_eq!(rt;
        cut(SniffKind::Html, b"<!-- ", &letters),
        (Answer::More, Answer::Clear)
    );
    Ok(())
}

#[test]
fn whole_body_in_pieces(rt: HostRuntime) -> Result<(), Fail> {
    let space = vec![in rt.alloc(); b' '; 1019]?;
    let tag = vec![in rt.alloc(); b'<', b'h', b't', b'm', b'l']?;
    let pieces = vec![in rt.alloc(); space, tag]?;
    assert_eq!(rt; sniff(SniffKind::Html, &pieces), HTML);
    assert_eq!(rt; sniff(SniffKind::Json, &pieces), Answer::Clear);
    Ok(())
}
