//! The rows of the table that are found by the bytes, in mode no-cors, of another site.

use crate::tests::{A4, A5, B4, B5, B6, B7, own_page};
use script_model::Verdict;
use std::alloc::Global;
use std::test::Fail;
use test_support::head;

/// A content type, a body, and the verdicts before and at its end.
const BODIES: &[(&str, &[u8], Option<Verdict>, Option<Verdict>)] = &[
    ("text/html", b"<!-- x --><hTmL", B4, B4),
    ("text/html", b"<?xml", A5, A5),
    ("text/html", b"", None, A5),
    ("text/html", b"<", None, A5),
    ("text/html", b"<im", A5, A5),
    ("text/html", b")]}'", B7, B7),
    ("text/xml", b"<?xml", B5, B5),
    ("application/xml", b" <?xml", B5, B5),
    ("application/atom+xml", b"<html", A5, A5),
    ("image/svg+xml", b"<?xml", A4, A4),
    ("application/json", b"{\"a\":", B6, B6),
    ("application/json", b"hello", A5, A5),
    ("application/json", b"{\"a\"", None, A5),
    ("text/plain", b"<p", B4, B4),
    ("text/plain", b"<?xml", B5, B5),
    ("text/plain", b"{\"a\" :", B6, B6),
    ("text/plain", b"for(;;);", B7, B7),
    ("text/plain", b"x", A5, A5),
    ("text/javascript", b")]}'", B7, B7),
    ("text/javascript", b"{}&", None, A4),
    ("text/javascript", b"<html", A4, A4),
    ("image/png", b"x", A4, A4),
    ("text/css", b")]}'", A4, A4),
    ("text/css", b"", A4, A4),
    ("text", b"<html", A4, A4),
];

/// The verdict on a body under a content type.
fn judged(
    alloc: Global,
    content_type: &str,
    body: &[u8],
    ended: bool,
) -> Result<Option<Verdict>, Fail> {
    let head = head(alloc, 200, &[("Content-Type", content_type)])?;
    own_page(alloc)?.verdict(alloc, &["https://b.com/x"], &head, body, ended)
}

#[test]
fn by_kind_and_body(rt: HostRuntime) -> Result<(), Fail> {
    for (content_type, body, so_far, ended) in BODIES {
        let alloc = rt.alloc();
        assert_eq!(rt;
            judged(alloc, content_type, body, false)?,
            *so_far,
            "{content_type}"
        );
        assert_eq!(rt;
            judged(alloc, content_type, body, true)?,
            *ended,
            "{content_type}"
        );
    }
    Ok(())
}

/// The verdict at its end on these bytes, then `<html`, under `text/html`.
fn behind(alloc: Global, bytes: &[u8]) -> Result<Option<Verdict>, Fail> {
    let mut body = Vec::from_slice(alloc, bytes)?;
    body.extend_from_slice(b"<html")?;
    judged(alloc, "text/html", &body, true)
}

#[test]
fn by_window(rt: HostRuntime) -> Result<(), Fail> {
    let alloc = rt.alloc();
    let spaces = vec![in alloc; b' '; 1020]?;
    assert_eq!(rt; behind(alloc, &spaces)?, A5);
    assert_eq!(rt; behind(alloc, &spaces[..1019])?, B4);
    let mut comment = Vec::from_slice(alloc, b"<!-- ")?;
    comment.extend_from_slice(&vec![in alloc; b'x'; 1019]?)?;
    assert_eq!(rt; judged(alloc, "text/html", &comment, false)?, A5);
    assert_eq!(rt; judged(alloc, "text/html", &comment[..1023], false)?, None);
    Ok(())
}
