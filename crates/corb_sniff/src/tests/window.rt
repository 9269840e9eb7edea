//! Rows at the end of the window of 1,024 bytes.

use super::{HTML, JSON, PREFIX, XML, fed_whole, settled};
use crate::{Answer, SniffKind};
use std::alloc::{AllocError, Global};
use std::test::Fail;

/// What stands in front, so many bytes of one value, and what stands behind them.
type Filled = (&'static [u8], u8, usize, &'static [u8]);

/// A kind, a body, after how many of its bytes it is settled, and the answer then and at its end.
const FILLED: &[(SniffKind, Filled, usize, Answer)] = &[
    (SniffKind::Html, (b"", b' ', 1018, b"<html"), 1023, HTML),
    (SniffKind::Html, (b"", b' ', 1019, b"<html"), 1024, HTML),
    (
        SniffKind::Html,
        (b"", b' ', 1020, b"<html"),
        1024,
        Answer::Clear,
    ),
    (SniffKind::Html, (b"", b' ', 1021, b"<a"), 1023, HTML),
    (SniffKind::Html, (b"", b' ', 1022, b"<a"), 1024, HTML),
    (
        SniffKind::Html,
        (b"", b' ', 1023, b"<a"),
        1024,
        Answer::Clear,
    ),
    (
        SniffKind::Html,
        (b"", b' ', 1024, b"<a"),
        1024,
        Answer::Clear,
    ),
    (
        SniffKind::Html,
        (b"", b' ', 1022, b"xx"),
        1023,
        Answer::Clear,
    ),
    (SniffKind::Html, (b"<!--", b'x', 1015, b"--><p"), 1024, HTML),
    (
        SniffKind::Html,
        (b"<!--", b'x', 1016, b"--><p"),
        1024,
        Answer::Clear,
    ),
    (SniffKind::Xml, (b"", b'\n', 1018, b"<?xml"), 1023, XML),
    (SniffKind::Xml, (b"", b'\n', 1019, b"<?xml"), 1024, XML),
    (
        SniffKind::Xml,
        (b"", b'\n', 1020, b"<?xml"),
        1024,
        Answer::Clear,
    ),
    (SniffKind::Json, (b"{\"", b'a', 1019, b"\":"), 1023, JSON),
    (SniffKind::Json, (b"{\"", b'a', 1020, b"\":"), 1024, JSON),
    (
        SniffKind::Json,
        (b"{\"", b'a', 1021, b"\":"),
        1024,
        Answer::Clear,
    ),
    (
        SniffKind::Json,
        (b"{\"", b'\\', 1022, b"\":"),
        1024,
        Answer::Clear,
    ),
    (SniffKind::Plain, (b"", b'\t', 1019, b"<html"), 1024, HTML),
    (SniffKind::Plain, (b"", b'\t', 1019, b"<?xml"), 1024, XML),
    (SniffKind::Plain, (b"", b'\t', 1019, b"{\"a\":"), 1024, JSON),
    (
        SniffKind::Plain,
        (b"", b'\t', 1024, b"<html"),
        1024,
        Answer::Clear,
    ),
    (
        SniffKind::Other,
        (b"", b' ', 1024, b")]}'"),
        1,
        Answer::Clear,
    ),
    (SniffKind::Other, (b")]}'", b' ', 1024, b"x"), 4, PREFIX),
];

fn filled(alloc: Global, body: Filled) -> Result<Vec<u8>, AllocError> {
    let (front, byte, count, back) = body;
    let mut bytes = Vec::from_slice(alloc, front)?;
    for _ in 0..count {
        bytes.push(byte)?;
    }
    bytes.extend_from_slice(back)?;
    Ok(bytes)
}

#[test]
fn at_the_end_of_the_window(rt: HostRuntime) -> Result<(), Fail> {
    for (kind, body, count, answer) in FILLED {
        let bytes = filled(rt.alloc(), *body)?;
        assert!(rt;
            settled(*kind, &bytes) == Some((*count, *answer)),
            "{:?}",
            body.0
        );
        assert!(rt; fed_whole(*kind, &bytes) == *answer, "{:?}", body.0);
    }
    Ok(())
}
