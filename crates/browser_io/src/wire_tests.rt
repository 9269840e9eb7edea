ghost use Rattle.std.specs.Prelude.{◌≡◌, ◌≤◌, length, true};
ghost use Rattle.browser_io.specs.Scripted.{IsCutFrom};

use crate::{Failed, MAX_PIECE, ScriptWire, Wire};
use std::alloc::Global;
use std::test::Fail;

fn are_cuts(from: u32, size: usize, cuts: &[u32]) -> bool
    ensures { result ≡ true → IsCutFrom from size cuts.now }
{
    match cuts {
        [] => true,
        [cut, later @ ..] => {
            from < *cut && (*cut as usize) < size && are_cuts(*cut, size, later)
        }
    }
}

// A wire of these bytes.
fn wire<'a>(
    body: &'a [u8],
    cuts: &'a [u32],
    fail_after: Option<u32>,
) -> Result<ScriptWire<'a>, Fail> {
    let sent = fail_after.unwrap_or(0) as usize;
    if body.len() > MAX_PIECE || sent > body.len() || !are_cuts(0, body.len(), cuts) {
        return Err(Fail::new("no body of a wire"));
    }
    Ok(ScriptWire::new(body, cuts, fail_after))
}

// Whether the next piece that the wire gives is this one.
fn gives_piece(wire: &mut ScriptWire, buf: &mut [u8], piece: &[u8]) -> bool
    requires { MAX_PIECE ≤ length buf.old }
{
    match wire.read(buf) {
        Ok(count) => &buf[..count] == piece,
        Err(_) => false,
    }
}

// Whether the wire gives exactly these pieces, and then this answer twice.
fn gives(
    wire: &mut ScriptWire,
    buf: &mut [u8],
    pieces: &[&[u8]],
    last: Result<usize, Failed>,
) -> bool
    requires { MAX_PIECE ≤ length buf.old }
{
    for piece in pieces {
        if !gives_piece(wire, buf, piece) {
            return false;
        }
    }
    wire.read(buf) == last && wire.read(buf) == last
}

fn is_given(
    alloc: Global,
    mut wire: ScriptWire,
    pieces: &[&[u8]],
    last: Result<usize, Failed>,
) -> Result<bool, Fail> {
    let mut buf = vec![in alloc; 0; MAX_PIECE]?;
    Ok(gives(&mut wire, buf.as_mut_slice(), pieces, last))
}

// A body, its cuts, after how many bytes it fails; then its pieces.
const WIRES: &[(&[u8], &[u32], Option<u32>, &[&[u8]])] = &[
    (b"", &[], None, &[]),
    (b"", &[], Some(0), &[]),
    (b"hello", &[], None, &[b"hello"]),
    (b"hello", &[1, 3], None, &[b"h", b"el", b"lo"]),
    (
        b"hello",
        &[1, 2, 3, 4],
        None,
        &[b"h", b"e", b"l", b"l", b"o"],
    ),
    (b"hello", &[1, 3], Some(0), &[]),
    (b"hello", &[1, 3], Some(2), &[b"h", b"e"]),
    (b"hello", &[1, 3], Some(3), &[b"h", b"el"]),
    (b"hello", &[1, 3], Some(5), &[b"h", b"el", b"lo"]),
];

#[test]
fn a_wire_gives_its_pieces_and_ends_or_fails(rt: HostRuntime) -> Result<(), Fail> {
    for (body, cuts, fail_after, pieces) in WIRES {
        let last = if fail_after.is_some() {
            Err(Failed)
        } else {
            Ok(0)
        };
        let wire = wire(body, cuts, *fail_after)?;
        assert!(rt;
            is_given(rt.alloc(), wire, pieces, last)?,
            "{} pieces",
            pieces.len()
        );
    }
    Ok(())
}

#[test]
fn the_longest_body_is_one_piece(rt: HostRuntime) -> Result<(), Fail> {
    let body = vec![in rt.alloc(); b'x'; MAX_PIECE]?;
    let wire = wire(body.as_slice(), &[], None)?;
    assert!(rt; is_given(rt.alloc(), wire, &[body.as_slice()], Ok(0))?);
    Ok(())
}
