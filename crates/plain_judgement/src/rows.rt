//! The rows that several messages share: on URLs, on counts and on locks.

ghost use Rattle.std.specs.Prelude.{◌≡◌, IfOk, nat_le};
ghost use Rattle.script_model.specs.declared.limits.TheConstants.{MAX_FRAMES};
ghost use Rattle.history_rules.specs.Frames.{frames_made};
ghost use Rattle.history_rules.specs.Judgement as judgement;

use entry_facts::messages::{class_in, is_same_site, may_load};
use history_entry::{RawUrl, Reply, Rule, Src};
use page_origin::{NoMemory, Origin, same_origin};
use plain_facts::PlainFacts;
use plain_facts::documents::origin_of;
use plain_facts::processes::lock_of;
use script_model::Entry;
use script_model::limits::{MAX_FRAMES, MAX_NAVIGATIONS};
use site_url::site_of_origin;
use std::alloc::Global;

/// The row on the count of navigations.
fn count_row(facts: &PlainFacts<'_>) -> Reply
    ensures { result ≡ judgement.count_row facts.now.script facts.now.entries }
{
    if u64::from(MAX_NAVIGATIONS) <= facts.navigations_made() {
        Reply::Deny(Rule::N4)
    } else {
        Reply::Ok
    }
}

/// The rows on the text of a navigation's URL.
pub(crate) fn url_rows(
    alloc: Global,
    facts: &PlainFacts<'_>,
    text: &RawUrl,
) -> Result<Reply, NoMemory>
    ensures { IfOk result (λ reply. reply ≡ judgement.url_rows facts.now.script facts.now.entries text.now) }
{
    match class_in(alloc, text)? {
        None => Ok(Reply::Deny(Rule::N2)),
        Some(class) => {
            if may_load(class) {
                Ok(count_row(facts))
            } else {
                Ok(Reply::Deny(Rule::N3))
            }
        }
    }
}

/// The rows on a frame's source.
pub(crate) fn src_rows(alloc: Global, facts: &PlainFacts<'_>, src: &Src) -> Result<Reply, NoMemory>
    ensures { IfOk result (λ reply. reply ≡ judgement.src_rows facts.now.script facts.now.entries src.now) }
{
    match src {
        Src::Url(text) => url_rows(alloc, facts, text),
        Src::Doc(_) => Ok(count_row(facts)),
    }
}

/// Whether no frame may be made any more.
pub(crate) fn are_frames_full(facts: &PlainFacts<'_>) -> bool
    ensures { result ≡ nat_le MAX_FRAMES (frames_made facts.now.script facts.now.entries) }
{
    u64::from(MAX_FRAMES) <= facts.frames_made()
}

/// Whether a process is locked to the site of an origin.
pub(crate) fn lock_admits(
    alloc: Global,
    facts: &PlainFacts<'_>,
    process: u64,
    origin: &Origin,
) -> Result<bool, NoMemory>
    ensures { IfOk result (λ admits. admits ≡ judgement.lock_admits facts.now.script facts.now.entries process origin.now) }
{
    let Some(lock) = lock_of(facts.entries(), process) else {
        return Ok(false);
    };
    let site = site_of_origin(alloc, &facts.script().rules, origin)?;
    Ok(is_same_site(&site, lock))
}

/// Whether a frame was ever in the document's group.
pub(crate) fn in_group(facts: &PlainFacts<'_>, document: u64, frame: u64) -> bool
    ensures { result ≡ judgement.in_group facts.now.script facts.now.entries document frame }
{
    facts.share_group(facts.frame_of(document), frame)
}

/// Whether a document has the same origin as this one.
pub(crate) fn is_own_origin(entries: &[Entry], document: u64, origin: &Origin) -> bool
    ensures { result ≡ judgement.is_own_origin entries.now document origin.now }
{
    match origin_of(entries, document) {
        Some(own) => same_origin(origin, own),
        None => false,
    }
}
