//! The rows that several messages share, and what they ask of a document and of frames.

ghost use Rattle.std.specs.Prelude.{◌≡◌, IfOk, IfSome, IsTrue, nat_le};
ghost use Rattle.script_model.specs.declared.limits.TheConstants.{MAX_FRAMES};
ghost use Rattle.history_rules.specs.Documents as documents;
ghost use Rattle.history_rules.specs.Frames as frames;
ghost use Rattle.history_rules.specs.Judgement as judgement;

use crate::facts::Facts;
use entry_facts::messages::{class_in, is_same_site, may_load};
use history_entry::{RawUrl, Reply, Rule, Src};
use page_origin::{NoMemory, Origin, same_origin};
use script_model::limits::{MAX_FRAMES, MAX_NAVIGATIONS};
use site_url::site_of_origin;
use std::alloc::Global;

// The row on the count of navigations.
fn count_row<F: Facts>(facts: &F) -> Reply
    ensures { result ≡ judgement.count_row (F.script facts.now) (F.entries facts.now) }
{
    if MAX_NAVIGATIONS <= facts.navs_made() {
        Reply::Deny(Rule::N4)
    } else {
        Reply::Ok
    }
}

/// The rows on the text of a navigation's URL.
pub(crate) fn url_rows<F: Facts>(alloc: Global, facts: &F, text: &RawUrl) -> Result<Reply, NoMemory>
    ensures { IfOk result (λ reply. reply ≡ judgement.url_rows (F.script facts.now) (F.entries facts.now) text.now) }
{
    match class_in(alloc, text)? {
        None => Ok(Reply::Deny(Rule::N2)),
        Some(class) => {
            if may_load(class) {
                Ok(count_row(facts))
            } else {
                Ok(Reply::Deny(Rule::N3))
            }
        }
    }
}

/// The rows on a frame's source.
pub(crate) fn src_rows<F: Facts>(alloc: Global, facts: &F, src: &Src) -> Result<Reply, NoMemory>
    ensures { IfOk result (λ reply. reply ≡ judgement.src_rows (F.script facts.now) (F.entries facts.now) src.now) }
{
    match src {
        Src::Url(text) => url_rows(alloc, facts, text),
        Src::Doc(_) => Ok(count_row(facts)),
    }
}

/// Whether no frame may be made any more.
pub(crate) fn are_frames_full<F: Facts>(facts: &F) -> bool
    ensures { result ≡ nat_le MAX_FRAMES (frames.frames_made (F.script facts.now) (F.entries facts.now)) }
{
    MAX_FRAMES <= facts.frames_made()
}

/// Whether a process is locked to the site of an origin.
pub(crate) fn lock_admits<F: Facts>(
    alloc: Global,
    facts: &F,
    process: u32,
    origin: &Origin,
) -> Result<bool, NoMemory>
    ensures { IfOk result (λ admits. admits ≡ judgement.lock_admits (F.script facts.now) (F.entries facts.now) process origin.now) }
{
    let Some(lock) = facts.lock_of(process) else {
        return Ok(false);
    };
    let site = site_of_origin(alloc, facts.rules(), origin)?;
    Ok(is_same_site(&site, lock))
}

/// Whether a frame was ever in the group of a current document. It was made then.
pub(crate) fn in_group<F: Facts>(facts: &F, document: u32, frame: u32) -> bool
    requires { IsTrue (documents.is_current (F.script facts.now) (F.entries facts.now) document) }
    ensures group { result ≡ judgement.in_group (F.script facts.now) (F.entries facts.now) document frame }
    ensures made { IsTrue result → IsTrue (frames.was_made (F.script facts.now) (F.entries facts.now) frame) }
{
    facts.in_group(document, frame)
}

/// Whether a frame was ever a child of another one. It was made then.
pub(crate) fn is_child<F: Facts>(facts: &F, frame: u32, parent: u32) -> bool
    ensures child { result ≡ frames.is_child (F.script facts.now) (F.entries facts.now) frame parent }
    ensures made { IsTrue result → IsTrue (frames.was_made (F.script facts.now) (F.entries facts.now) frame) }
{
    facts.is_child(frame, parent)
}

/// The frame of a current document, which was made.
pub(crate) fn own_frame<F: Facts>(facts: &F, document: u32) -> u32
    requires { IsTrue (documents.is_current (F.script facts.now) (F.entries facts.now) document) }
    ensures frame { result ≡ frames.frame_of (F.script facts.now) (F.entries facts.now) document }
    ensures made { IsTrue (frames.was_made (F.script facts.now) (F.entries facts.now) result) }
{
    facts.frame_of(document)
}

/// The current document of a frame that was made.
pub(crate) fn receiver_in<F: Facts>(facts: &F, frame: u32) -> Option<u32>
    requires { IsTrue (frames.was_made (F.script facts.now) (F.entries facts.now) frame) }
    ensures document { result ≡ documents.document_in (F.script facts.now) (F.entries facts.now) frame }
    ensures current { IfSome result (λ document. IsTrue (documents.is_current (F.script facts.now) (F.entries facts.now) document)) }
{
    facts.document_in(frame)
}

/// Whether a current document has the same origin as this one.
pub(crate) fn is_own_origin<F: Facts>(facts: &F, document: u32, origin: &Origin) -> bool
    requires { IsTrue (documents.is_current (F.script facts.now) (F.entries facts.now) document) }
    ensures { result ≡ judgement.is_own_origin (F.entries facts.now) document origin.now }
{
    same_origin(origin, facts.origin_of(document))
}
