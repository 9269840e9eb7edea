ghost use Rattle.std.specs.Prelude.{◌≡◌, ◌<◌, ◌≤◌, length, Some, None, IfOk, IfSome};

use page_origin::NoMemory;
use std::alloc::Global;
use std::marker::Model;

/// The bytes of a piece of a body, at least one.
#[derive(Drop)]
pub struct PieceBytes {
    bytes: Vec<u8>,
}

impl Model for PieceBytes {
    ghost use Rattle.std.specs.Prelude.{ℕ, List, ◌<◌, length};

    ghost Value = { List ℕ };

    ghost view = { λ p. p.bytes.items };

    ghost invariant = { λ p. 0 < length p.bytes.items };
}

impl PieceBytes {
    /// The piece with these bytes, of which there is at least one.
    pub fn new(bytes: Vec<u8>) -> Self
        requires { 0 < length bytes.items }
        ensures { result ≡ bytes.items }
    {
        PieceBytes { bytes }
    }

    /// The bytes of the piece, at least one.
    pub fn as_bytes(&self) -> &[u8]
        ensures bytes { result.now ≡ self.now }
        ensures some { 0 < length self.now }
    {
        self.bytes.as_slice()
    }

    /// An equal piece, in memory of its own.
    pub fn copy(&self, alloc: Global) -> Result<Self, NoMemory>
        ensures { IfOk result (λ copy. copy ≡ self.now) }
    {
        let bytes = Vec::from_slice(alloc, &self.bytes)?;
        Ok(PieceBytes { bytes })
    }
}

impl PartialEq for PieceBytes {
    ghost use Rattle.std.specs.Str.{bytes_eq};
    ghost use Rattle.std.specs.Cmp.{partial_equiv_from_equiv};
    ghost use Rattle.std.proofs.lemmas.Cmp.{nat_list_eq_equiv};

    ghost eq = { bytes_eq };

    ghost laws = { partial_equiv_from_equiv nat_list_eq_equiv };

    fn eq(&self, other: &Self) -> bool {
        self.bytes == other.bytes
    }
}
