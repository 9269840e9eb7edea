use corb_sniff::SniffKind;
use std::alloc::{AllocError, Global};

/// A body that keeps the sniffer reading in its own way.
#[derive(Clone, Copy)]
pub enum Shape {
    /// White space under `text/html`, unsettled to the end of the window.
    Spaces,
    /// A comment under `text/html` that never ends.
    Comment,
    /// A name under `application/json` that never ends.
    Name,
    /// Text under `text/plain`, settled by its first byte.
    Letters,
}

/// All shapes.
pub const SHAPES: &[Shape] = &[Shape::Spaces, Shape::Comment, Shape::Name, Shape::Letters];

impl Shape {
    /// The kind that the headers of such a body say.
    pub fn kind(self) -> SniffKind {
        match self {
            Shape::Spaces | Shape::Comment => SniffKind::Html,
            Shape::Name => SniffKind::Json,
            Shape::Letters => SniffKind::Plain,
        }
    }

    /// A body of so many bytes, and the few that begin it.
    pub fn body(self, alloc: Global, bytes: usize) -> Result<Vec<u8>, AllocError> {
        let (front, fill): (&[u8], u8) = match self {
            Shape::Spaces => (b"", b' '),
            Shape::Comment => (b"<!--", b'-'),
            Shape::Name => (b"{\"", b'a'),
            Shape::Letters => (b"", b'x'),
        };
        let mut body = Vec::from_slice(alloc, front)?;
        for _ in 0..bytes {
            body.push(fill)?;
        }
        Ok(body)
    }
}
