//! The history with another body's pieces.

ghost use Rattle.std.specs.Prelude.{◌≡◌, if◌then◌else◌, IfOk, IfSome, slice_get, unwrap_or};
ghost use Rattle.history_entry.specs.declared.entry.Entry.TheVariants as entries;
ghost use Rattle.history_laws.specs.Secret as secret;

use crate::other_body::other_pieces;
use history_entries::History;
use page_origin::key_of_text;
use request_facts::requests::request_chain;
use script_model::{Entry, NoMemory, PieceBytes, Script};
use std::alloc::Global;

/// A request, and whether its last URL has the key.
#[derive(Clone, Copy)]
struct KeyAnswer {
    request: u32,
    has_key: bool,
}

/// Whether a request's last URL has the key.
fn has_key(alloc: Global, history: &History, key: &str, request: u32) -> Result<bool, NoMemory>
    ensures { IfOk result (λ has. has ≡ secret.has_key history.now key.now request) }
{
    let chain = request_chain(alloc, history.entries(), u64::from(request))?;
    Ok(key_of_text(chain.last()) == key)
}

/// Whether a request's last URL has the key, as was found for the request that was asked before, or as its chain says.
fn key_answer(
    alloc: Global,
    history: &History,
    key: &str,
    before: Option<KeyAnswer>,
    request: u32,
) -> Result<KeyAnswer, NoMemory>
    requires { IfSome before (λ a. a.has_key ≡ secret.has_key history.now key.now a.request) }
    ensures request { IfOk result (λ a. a.request ≡ request) }
    ensures has_key { IfOk result (λ a. a.has_key ≡ secret.has_key history.now key.now request) }
{
    match before {
        Some(answer) if answer.request == request => Ok(answer),
        _ => Ok(KeyAnswer {
            request,
            has_key: has_key(alloc, history, key, request)?,
        }),
    }
}

/// The bytes of the piece with a number, and these past the pieces.
fn bytes_at(
    alloc: Global,
    pieces: &[PieceBytes],
    index: u32,
    bytes: &PieceBytes,
) -> Result<PieceBytes, NoMemory>
    ensures { IfOk result (λ new. new ≡ unwrap_or (slice_get pieces.now index) bytes.now) }
{
    match pieces.get(index as usize) {
        Some(other) => other.copy(alloc),
        None => bytes.copy(alloc),
    }
}

/// A piece of a request, with the bytes of these pieces where the request has the key.
fn swapped_piece(
    alloc: Global,
    pieces: &[PieceBytes],
    answer: KeyAnswer,
    index: u32,
    bytes: &PieceBytes,
) -> Result<Entry, NoMemory>
    ensures { IfOk result (λ piece. piece ≡ if answer.has_key then entries.Piece answer.request index (unwrap_or (slice_get pieces.now index) bytes.now) else entries.Piece answer.request index bytes.now) }
{
    let bytes = if answer.has_key {
        bytes_at(alloc, pieces, index, bytes)?
    } else {
        bytes.copy(alloc)?
    };
    Ok(Entry::Piece(answer.request, index, bytes))
}

/// The history with the pieces that this body of the key's resource comes in: each piece of a request whose last URL has the key
/// holds the bytes at its place. One past those pieces stays, and so does all else.
#[tactic(auto, unfolding(history_laws::specs::Secret::swap_body))]
pub fn swap_body(
    alloc: Global,
    history: &History,
    script: &Script,
    key: &str,
    body: &[u8],
) -> Result<History, NoMemory>
    ensures { IfOk result (λ swapped. swapped ≡ secret.swap_body script.now key.now body.now history.now) }
{
    let pieces = other_pieces(alloc, script, key, body)?;
    let mut last = None;
    let mut swapped = History::new(alloc);
    for entry in history.entries() {
        match entry {
            Entry::Piece(request, index, bytes) => {
                let answer = key_answer(alloc, history, key, last, *request)?;
                swapped.push(swapped_piece(alloc, pieces.as_slice(), answer, *index, bytes)?)?;
                last = Some(answer);
            }
            _ => swapped.push(entry.copy(alloc)?)?,
        }
    }
    Ok(swapped)
}
