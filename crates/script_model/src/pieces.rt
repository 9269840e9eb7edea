//! The pieces in which a resource's body comes.

ghost use Rattle.std.specs.Prelude.{◌≡◌, ◌<◌, ◌==◌, ◌++◌, ◌∷◌, [], IfOk, OnOk, length, slice_get};
ghost use Rattle.std.specs.Option.{option_copied};
ghost use Rattle.script_model.specs.CutPlaces.{IsCutFrom, cuts_below};
ghost use Rattle.script_model.specs.Pieces as spec;

use crate::resource::Resource;
use history_entry::PieceBytes;
use page_origin::NoMemory;
use std::alloc::Global;
use std::marker::Model;

/// The pieces of a body, in order.
#[derive(Drop)]
pub struct Pieces {
    pieces: Vec<PieceBytes>,
}

impl Model for Pieces {
    ghost use Rattle.std.specs.Prelude.{ℕ, List};

    ghost Value = { List (List ℕ) };

    ghost view = { λ p. p.pieces.items };
}

impl Pieces {
    /// No pieces.
    pub fn empty(alloc: Global) -> Self
        ensures { result ≡ [] }
    {
        Pieces {
            pieces: Vec::new(alloc),
        }
    }

    /// How many pieces there are.
    pub fn len(&self) -> usize
        ensures { result ≡ length self.now }
    {
        self.pieces.len()
    }

    /// Whether there is no piece.
    pub fn is_empty(&self) -> bool
        ensures { result ≡ (length self.now == 0) }
    {
        self.pieces.is_empty()
    }

    /// The piece with this number, counted from 0.
    pub fn get(&self, index: usize) -> Option<&PieceBytes>
        ensures { option_copied result ≡ slice_get self.now index }
    {
        self.pieces.get(index)
    }

    /// The pieces, in order.
    pub fn as_slice(&self) -> &[PieceBytes]
        ensures { result.now ≡ self.now }
    {
        self.pieces.as_slice()
    }
}

/// Adds a piece of these bytes.
fn add_piece(alloc: Global, pieces: &mut Vec<PieceBytes>, bytes: &[u8]) -> Result<(), NoMemory>
    requires { 0 < length bytes.now }
    ensures { OnOk result (pieces.new.items ≡ pieces.old.items ++ bytes.now ∷ []) }
{
    pieces.push(PieceBytes::new(Vec::from_slice(alloc, bytes)?))?;
    Ok(())
}

/// The bytes, cut at the cuts below their end.
fn cut_bytes(alloc: Global, cuts: &[u32], bytes: &[u8]) -> Result<Vec<PieceBytes>, NoMemory>
    requires some { 0 < length bytes.now }
    requires rising { IsCutFrom 0 (length bytes.now) (cuts_below (length bytes.now) cuts.now) }
    ensures { IfOk result (λ pieces. pieces.items ≡ spec.cut_at 0 (cuts_below (length bytes.now) cuts.now) bytes.now) }
{
    let mut pieces = Vec::new(alloc);
    let mut from = 0;
    let mut rest = bytes;
    for cut in cuts {
        let cut = *cut as usize;
        if cut < bytes.len() {
            let (piece, later) = rest.split_at(cut - from);
            add_piece(alloc, &mut pieces, piece)?;
            from = cut;
            rest = later;
        }
    }
    add_piece(alloc, &mut pieces, rest)?;
    Ok(pieces)
}

impl Resource {
    /// The bytes that its wire carries: all of its body where the wire does not fail.
    pub fn sent_bytes(&self) -> &[u8]
        ensures { result.now ≡ spec.sent_bytes self.now }
    {
        let body = self.body.as_slice();
        match self.fail_after {
            Some(sent) => body.split_at(sent as usize).0,
            None => body,
        }
    }

    /// Whether its wire carries all of its body.
    pub fn has_ended(&self) -> bool
        ensures { result ≡ spec.has_ended self.now }
    {
        self.fail_after.is_none()
    }

    /// The places at which its body is cut. Those within what is sent rise.
    #[tactic(auto, using(crate::proofs::RisingCuts::cuts_rise))]
    fn cut_places(&self) -> &[u32]
        ensures cuts { result.now ≡ self.now.cuts }
        ensures rising { IsCutFrom 0 (length (spec.sent_bytes self.now)) (cuts_below (length (spec.sent_bytes self.now)) self.now.cuts) }
    {
        self.cuts.as_slice()
    }

    /// The pieces in which its body comes. No bytes are no piece.
    #[tactic(auto, unfolding(crate::specs::Pieces::pieces))]
    pub fn pieces(&self, alloc: Global) -> Result<Pieces, NoMemory>
        ensures { IfOk result (λ pieces. pieces ≡ spec.pieces self.now) }
    {
        let sent = self.sent_bytes();
        if sent.is_empty() {
            return Ok(Pieces::empty(alloc));
        }
        let pieces = cut_bytes(alloc, self.cut_places(), sent)?;
        Ok(Pieces { pieces })
    }
}
