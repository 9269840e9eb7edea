//! The pieces in which another body of a resource comes. It may be of any length.

ghost use Rattle.std.specs.Prelude.{◌≡◌, ◌<◌, ◌++◌, ◌∷◌, [], IfOk, OnOk, length, take, ℕ};
ghost use Rattle.std.specs.Option.{option_map_or};
ghost use Rattle.history_laws.specs.Secret as secret;
ghost use Rattle.history_rules.specs.Responses.{resource_at};
ghost use Rattle.script_model.specs.CutPlaces.{IsCutFrom, cuts_below};
ghost use Rattle.script_model.specs.Pieces.{cut_at, pieces};

use page_origin::key_of_text;
use script_model::{NoMemory, PieceBytes, Resource, Script, find};
use std::alloc::Global;

/// The bytes of a body that a wire carries, where it fails after so many of them.
fn sent_of(body: &[u8], fail_after: Option<u32>) -> &[u8]
    ensures { result.now ≡ option_map_or (λ k. take k body.now) fail_after body.now }
{
    match fail_after {
        Some(sent) if (sent as usize) < body.len() => body.split_at(sent as usize).0,
        _ => body,
    }
}

/// The places at which a resource's body is cut. Those below any end rise.
#[tactic(auto, using(crate::proofs::AnyCuts::any_cuts_rise))]
fn cut_places(resource: &Resource) -> &[u32]
    ensures cuts { result.now ≡ resource.now.cuts }
    ensures rising { (end : ℕ) → IsCutFrom 0 end (cuts_below end resource.now.cuts) }
{
    resource.cuts.as_slice()
}

/// Adds a piece of these bytes.
fn add_piece(alloc: Global, parts: &mut Vec<PieceBytes>, bytes: &[u8]) -> Result<(), NoMemory>
    requires { 0 < length bytes.now }
    ensures { OnOk result (parts.new.items ≡ parts.old.items ++ bytes.now ∷ []) }
{
    parts.push(PieceBytes::new(Vec::from_slice(alloc, bytes)?))?;
    Ok(())
}

/// The bytes, cut at the cuts below their end.
fn cut_bytes(alloc: Global, cuts: &[u32], bytes: &[u8]) -> Result<Vec<PieceBytes>, NoMemory>
    requires some { 0 < length bytes.now }
    requires rising { IsCutFrom 0 (length bytes.now) (cuts_below (length bytes.now) cuts.now) }
    ensures { IfOk result (λ parts. parts.items ≡ cut_at 0 (cuts_below (length bytes.now) cuts.now) bytes.now) }
{
    let mut parts = Vec::new(alloc);
    let mut from = 0;
    let mut rest = bytes;
    for cut in cuts {
        let cut = *cut as usize;
        if cut < bytes.len() {
            let (part, later) = rest.split_at(cut - from);
            add_piece(alloc, &mut parts, part)?;
            from = cut;
            rest = later;
        }
    }
    add_piece(alloc, &mut parts, rest)?;
    Ok(parts)
}

/// The pieces of a resource with this body in place of its own.
#[tactic(auto, unfolding(script_model::specs::Pieces::pieces))]
fn pieces_with(alloc: Global, resource: &Resource, body: &[u8]) -> Result<Vec<PieceBytes>, NoMemory>
    ensures { IfOk result (λ parts. parts.items ≡ pieces (secret.with_own_body body.now resource.now)) }
{
    let sent = sent_of(body, resource.fail_after);
    if sent.is_empty() {
        return Ok(Vec::new(alloc));
    }
    cut_bytes(alloc, cut_places(resource), sent)
}

/// The body of a resource in the script with another body: that one where the resource has the key.
fn body_at<'a>(resource: &'a Resource, key: &str, body: &'a [u8]) -> &'a [u8]
    ensures { secret.with_own_body result.now resource.now ≡ secret.with_body_at key.now body.now resource.now }
{
    if resource.url.key() == key {
        body
    } else {
        resource.body.as_slice()
    }
}

/// The pieces of the key's resource in the script with another body; none where there is no such resource.
#[tactic(auto, using(crate::proofs::Bodies::at_key, crate::proofs::Bodies::none_at_key), unfolding(script_model::specs::Pieces::pieces))]
pub fn other_pieces(
    alloc: Global,
    script: &Script,
    key: &str,
    body: &[u8],
) -> Result<Vec<PieceBytes>, NoMemory>
    ensures { IfOk result (λ parts. parts.items ≡ pieces (resource_at (secret.with_body script.now key.now body.now) key.now)) }
{
    match find(script, key_of_text(key)) {
        Some(resource) => pieces_with(alloc, resource, body_at(resource, key, body)),
        None => Ok(Vec::new(alloc)),
    }
}
