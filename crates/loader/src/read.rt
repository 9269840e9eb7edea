ghost use Rattle.std.specs.Prelude.{◌≡◌, ◌≢◌, ◌≤◌, Ok, IfOk, length};
ghost use Rattle.browser_io.specs.Faults.{Rose};
ghost use Rattle.browser_io.specs.Wires.{KeepsTellingPieces};
ghost use Rattle.loader.specs.Reads.{Gave};

use browser_io::{MAX_PIECE, Wire};
use history_entry::PieceBytes;
use script_model::NoMemory;
use std::alloc::Global;

/// What one read of a wire gave.
#[derive(Drop)]
pub(crate) enum Read {
    Piece(PieceBytes),
    End,
    Fault,
}

/// Reads one piece, by way of a buffer.
pub(crate) fn read_piece<W: Wire>(
    alloc: Global,
    wire: &mut W,
    buffer: &mut [u8],
) -> Result<Read, NoMemory>
    requires { MAX_PIECE ≤ length buffer.old }
    ensures gave { IfOk result (Gave (W.left wire.old) (W.left wire.new) (W.fails wire.old)) }
    ensures rose { result ≡ Ok Read.Fault → Rose (W.faults wire.old) (W.faults wire.new) }
    ensures calm { result ≢ Ok Read.Fault → W.faults wire.new ≡ W.faults wire.old }
    ensures later { W.faults wire.old ≤ W.faults wire.new }
    ensures telling { KeepsTellingPieces (W.left wire.old) (W.left wire.new) }
    ensures steady { W.fails wire.new ≡ W.fails wire.old }
{
    match wire.read(buffer) {
        Ok(0) => Ok(Read::End),
        Ok(count) => {
            let bytes = Vec::from_slice(alloc, &buffer[..count])?;
            Ok(Read::Piece(PieceBytes::new(bytes)))
        }
        Err(_) => Ok(Read::Fault),
    }
}
