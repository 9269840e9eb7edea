//! Rows of the grammar of JSON, and of white space in front of every grammar.

use super::{HTML, JSON, PREFIX, XML, cut, fed_singly, fed_whole};
use crate::{Answer, SniffKind, Sniffer};

/// A body under `application/json`, and the answer at its end.
const OBJECTS: &[(&[u8], Answer)] = &[
    (b"{\"a\":1}", JSON),
    (b"{\"a\":", JSON),
    (b"{\"a\"::", JSON),
    (b"{\"\":", JSON),
    (b"{\"a b\":", JSON),
    (b"{\"{:}\":", JSON),
    // White space stands in front, behind the brace and behind the name.
    (b" {\"a\":", JSON),
    (b"\t{\"a\":", JSON),
    (b"\r{\"a\":", JSON),
    (b"\n{\"a\":", JSON),
    (b"{ \"a\":", JSON),
    (b"{\t\"a\":", JSON),
    (b"{\r\"a\":", JSON),
    (b"{\n\"a\":", JSON),
    (b"{\"a\" :", JSON),
    (b"{\"a\"\t:", JSON),
    (b"{\"a\"\r:", JSON),
    (b"{\"a\"\n:", JSON),
    (b" \r\n{ \t\n\"a\"\r\n :", JSON),
    // Escapes stand in the name, and end no string.
    (b"{\"\\\"\":", JSON),
    (b"{\"\\\\\":", JSON),
    (b"{\"\\u0041\":", JSON),
    (b"{\"\\x\":", JSON),
    (b"{\"a\\\"b\":", JSON),
    (b"{\"\\\\\\\"\":", JSON),
    (b"{\"\\\":", Answer::Clear),
    (b"{\"\\\\\\\":", Answer::Clear),
    (b"{\"\\\\\"\":", Answer::Clear),
    (b"{\"\\", Answer::Clear),
    // Without an object, a name, its end or a colon it is none.
    (b"", Answer::Clear),
    (b"{", Answer::Clear),
    (b"{}", Answer::Clear),
    (b"{:", Answer::Clear),
    (b"{a:", Answer::Clear),
    (b"{a\":", Answer::Clear),
    (b"{'a':", Answer::Clear),
    (b"{1:", Answer::Clear),
    (b"{{\"a\":", Answer::Clear),
    (b"{,\"a\":", Answer::Clear),
    (b"{\"a:", Answer::Clear),
    (b"{\"a\"", Answer::Clear),
    (b"{\"a\" ", Answer::Clear),
    (b"{\"a\"}", Answer::Clear),
    (b"{\"a\",", Answer::Clear),
    (b"{\"a\"=", Answer::Clear),
    (b"{\"a\"\"b\":", Answer::Clear),
    (b"{\"a\"x:", Answer::Clear),
    (b"\"a\":", Answer::Clear),
    (b"[\"a\":", Answer::Clear),
    (b"[{\"a\":1}]", Answer::Clear),
    (b"({\"a\":", Answer::Clear),
    (b"<!-- -->{\"a\":", Answer::Clear),
    (b"// a\n{\"a\":", Answer::Clear),
];

/// The answer at the end of a body that is fed in three pieces, the middle one of a byte.
fn fed_around(kind: SniffKind, front: &[u8], byte: u8, back: &[u8]) -> Answer {
    let mut sniffer = Sniffer::new(kind);
    let _first = sniffer.feed(front);
    let _second = sniffer.feed(&[byte]);
    let _third = sniffer.feed(back);
    sniffer.finish()
}

#[test]
fn objects(rt: HostRuntime) {
    for (body, answer) in OBJECTS {
        assert!(rt; fed_whole(SniffKind::Json, body) == *answer, "{:?}", body);
        assert!(rt; fed_singly(SniffKind::Json, body) == *answer, "{:?}", body);
    }
}

/// In a name stand the bytes from 32 on. A `"` ends it, and a `\` takes the next byte with it.
#[test]
fn every_byte_in_a_name(rt: HostRuntime) {
    for byte in 0..=255u8 {
        let plain = byte >= 32 && byte != b'"' && byte != b'\\';
        let answer = if plain { JSON } else { Answer::Clear };
        assert_eq!(rt; fed_around(SniffKind::Json, b"{\"", byte, b"\":"), answer);
        let escaped = if byte >= 32 { JSON } else { Answer::Clear };
        assert_eq!(rt;
            fed_around(SniffKind::Json, b"{\"\\", byte, b"\":"),
            escaped
        );
    }
}

/// White space is space, tab, carriage return and line feed: no form feed, no vertical tab and no byte 0.
#[test]
fn every_byte_in_front(rt: HostRuntime) {
    for byte in 0..=255u8 {
        let white = byte == 32 || byte == 9 || byte == 13 || byte == 10;
        let rows: [(SniffKind, &[u8], Answer); 4] = [
            (SniffKind::Html, b"<html", HTML),
            (SniffKind::Html, b"<!-- --><p", HTML),
            (SniffKind::Xml, b"<?xml", XML),
            (SniffKind::Json, b"{\"a\":", JSON),
        ];
        for (kind, body, found) in rows {
            let answer = if white { found } else { Answer::Clear };
            assert_eq!(rt; cut(kind, &[byte], body).1, answer);
        }
    }
}

/// A prefix stands at the very front of a body, whatever follows it.
#[test]
fn every_byte_around_a_prefix(rt: HostRuntime) {
    for byte in 0..=255u8 {
        for prefix in [b")]}'".as_slice(), b"{}&&", b"for(;;);"] {
            assert_eq!(rt; cut(SniffKind::Other, &[byte], prefix).1, Answer::Clear);
            assert_eq!(rt; cut(SniffKind::Other, prefix, &[byte]), (PREFIX, PREFIX));
        }
    }
}
