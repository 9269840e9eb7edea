//! Rulings by the head and the bytes, in mode no-cors, of another site.

use crate::tests::{A4, A5, B2, B3, B4, B5, B6, B7, MORE, is_cleared_by, own_page};
use crate::{Judge, Ruling};
use std::alloc::Global;
use std::test::Fail;
use test_support::head;

/// A judge of a response with this status and this content type.
fn judge(alloc: Global, status: u16, content_type: &str) -> Result<Judge, Fail> {
    let head = head(alloc, status, &[("Content-Type", content_type)])?;
    own_page(alloc)?.judge(alloc, &["https://b.com/x"], &head)
}

/// A status, a content type, the pieces of a body each with the ruling after it, and the ruling at the end.
const PIECES: &[(u16, &str, &[(&[u8], Ruling)], Ruling)] = &[
    (
        200,
        "text/html",
        &[(b"<", MORE), (b"i", MORE), (b"m", A5)],
        A5,
    ),
    (200, "text/html", &[(b"<", MORE), (b"a", B4)], B4),
    (200, "application/json", &[(b"{}", MORE), (b"x", A5)], A5),
    (200, "text/javascript", &[(b"{", MORE), (b"}&&", B7)], B7),
    (200, "text/css", &[(b"", A4)], A4),
    (200, "text/plain", &[(b"x", A5)], A5),
    (200, "text/plain", &[(b"{\"a\"", MORE)], A5),
    (206, "text/html", &[(b"", B2)], B2),
    // What was settled stays, whatever follows.
    (200, "text/html", &[(b"im", A5), (b"<p", A5)], A5),
    (200, "text/html", &[(b"<p", B4), (b"im", B4)], B4),
    (200, "text/css", &[(b")]}'", A4)], A4),
    (206, "text/html", &[(b"im", B2)], B2),
    // Empty pieces change nothing.
    (
        200,
        "text/html",
        &[
            (b"", MORE),
            (b"<", MORE),
            (b"", MORE),
            (b"p", B4),
            (b"", B4),
        ],
        B4,
    ),
    (200, "text/html", &[], A5),
];

#[test]
fn pieces_in_turn(rt: HostRuntime) -> Result<(), Fail> {
    for (status, content_type, pieces, end) in PIECES {
        let mut judge = judge(rt.alloc(), *status, content_type)?;
        for (piece, want) in *pieces {
            assert_eq!(rt; judge.feed(piece), *want);
            assert!(rt; is_cleared_by(judge.cleared(), *want));
        }
        assert_eq!(rt; judge.finish(), *end);
        assert!(rt; is_cleared_by(judge.cleared(), *end));
    }
    Ok(())
}

/// A status, a content type, options of that type, a body, and the rulings before its first byte and at its end.
const BODIES: &[(u16, &str, &str, &[u8], Ruling, Ruling)] = &[
    (200, "text/html", "", b"<!-- x --><hTmL", MORE, B4),
    (200, "text/html", "", b"<?xml", MORE, A5),
    (200, "text/html", "", b"", MORE, A5),
    (200, "text/html", "", b"<ht", MORE, A5),
    (200, "text/html", "", b")]}'", MORE, B7),
    (200, "application/xml", "", b" <?xml", MORE, B5),
    (200, "application/atom+xml", "", b"<html", MORE, A5),
    (200, "image/svg+xml", "", b"<?xml", MORE, A4),
    (200, "application/json", "", b"{\"a\":", MORE, B6),
    (200, "application/json", "", b"hello", MORE, A5),
    (200, "text/plain", "", b"<p", MORE, B4),
    (200, "text/plain", "", b"<?xml", MORE, B5),
    (200, "text/plain", "", b"{\"a\" :", MORE, B6),
    (200, "text/plain", "", b"for(;;);", MORE, B7),
    (200, "text/plain", "", b"x", MORE, A5),
    (200, "text/javascript", "", b")]}'", MORE, B7),
    (200, "text/javascript", "", b"{}&", MORE, A4),
    (200, "image/png", "", b"x", MORE, A4),
    (200, "text/css", "", b")]}'", A4, A4),
    (206, "text/html", "", b"x", B2, B2),
    (206, "text/plain", "", b"<p", MORE, B4),
    (206, "text/html", "nosniff", b"x", B2, B2),
    (206, "text/plain", "nosniff", b"x", B3, B3),
    (200, "text/html", "NoSniff", b"x", B3, B3),
    (200, "text/xml", "nosniff", b"x", B3, B3),
    (200, "text/json", "nosniff", b"x", B3, B3),
    (200, "text/css", "nosniff", b"x", A4, A4),
    (200, "text/javascript", "nosniff", b"x", MORE, A4),
];

#[test]
fn whole_and_byte_by_byte(rt: HostRuntime) -> Result<(), Fail> {
    let alloc = rt.alloc();
    let page = own_page(alloc)?;
    for (status, content_type, options, body, early, want) in BODIES {
        let fields = [
            ("Content-Type", *content_type),
            ("X-Content-Type-Options", *options),
        ];
        let head = head(alloc, *status, &fields)?;
        let is_told = page.is_told(alloc, &["https://b.com/x"], &head, body, *early, *want)?;
        assert!(rt; is_told, "{status} {content_type} {options}");
    }
    Ok(())
}

/// The ruling at the end of a body of `text/html`: so many spaces, then `<html`, byte by byte.
fn behind(alloc: Global, spaces: usize) -> Result<Ruling, Fail> {
    let mut judge = judge(alloc, 200, "text/html")?;
    for _ in 0..spaces {
        let _ruling = judge.feed(b" ");
    }
    for byte in b"<html" {
        let _ruling = judge.feed(&[*byte]);
    }
    Ok(judge.finish())
}

#[test]
fn window_of_1024_bytes(rt: HostRuntime) -> Result<(), Fail> {
    assert_eq!(rt; behind(rt.alloc(), 1019)?, B4);
    assert_eq!(rt; behind(rt.alloc(), 1020)?, A5);
    let mut judge = judge(rt.alloc(), 200, "text/html")?;
    assert_eq!(rt; judge.feed(b"<!-- "), MORE);
    let letters = vec![in rt.alloc(); b'x'; 1019]?;
    assert_eq!(rt; judge.feed(&letters[..1018]), MORE);
    assert_eq!(rt; judge.feed(&letters[1018..]), A5);
    Ok(())
}

#[test]
fn a_body_that_breaks_off(rt: HostRuntime) -> Result<(), Fail> {
    // `<html>` breaks off behind three bytes: nothing is settled, and nothing is handed out.
    let mut page = judge(rt.alloc(), 200, "text/html")?;
    assert_eq!(rt; page.feed(b"<ht"), MORE);
    assert!(rt; page.cleared().is_none());
    // `hello` does: three bytes are enough.
    let mut text = judge(rt.alloc(), 200, "text/html")?;
    assert_eq!(rt; text.feed(b"hel"), A5);
    assert!(rt; is_cleared_by(text.cleared(), A5));
    Ok(())
}
