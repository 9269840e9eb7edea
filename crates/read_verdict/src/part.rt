ghost use Rattle.std.specs.Prelude.{◌≡◌};

use crate::cleared::Cleared;
use history_entry::PieceBytes;

/// One piece of a response that is handed out, with the leave to do so, without which none is made.
#[derive(Drop)]
pub struct Part {
    index: u32,
    bytes: PieceBytes,
    cleared: Cleared,
}

impl Part {
    /// The piece of a body that has this index, counted from 0.
    pub fn new(index: u32, bytes: PieceBytes, cleared: Cleared) -> Part
        ensures { result ≡ record { index = index; bytes = bytes; cleared = cleared } }
    {
        Part {
            index,
            bytes,
            cleared,
        }
    }

    /// How many pieces of the body come before it.
    pub fn index(&self) -> u32
        ensures { result ≡ self.now.index }
    {
        self.index
    }

    /// Its bytes, at least one.
    pub fn as_bytes(&self) -> &[u8]
        ensures { result.now ≡ self.now.bytes }
    {
        self.bytes.as_bytes()
    }

    /// Its bytes, for an entry of a history.
    pub fn into_bytes(self) -> PieceBytes
        ensures { result ≡ self.bytes }
    {
        self.bytes
    }

    /// The leave to hand it out.
    pub fn cleared(&self) -> Cleared
        ensures { result ≡ self.now.cleared }
    {
        self.cleared
    }
}
