//! The inbox of a document: the posts that were delivered to it, without those that it took.

ghost use Rattle.std.specs.Prelude.{◌≡◌, ◌<◌, ◌≤◌, ◌==◌, IfOk, count_by, false, length, slice_get, take};
ghost use Rattle.std.specs.Option.{option_map, option_map_or};
ghost use Rattle.history_rules.specs.Documents.{document_in};
ghost use Rattle.history_rules.specs.Inboxes as inboxes;
ghost use Rattle.request_facts.specs.Views.{posted_view};

use entry_facts::Post;
use entry_facts::inboxes::{post_in, takes};
use plain_facts::PlainFacts;
use script_model::{Entry, NoMemory};
use std::alloc::Global;

/// How many posts a document took.
fn taken(entries: &[Entry], document: u64) -> u64
    ensures { result ≡ count_by (inboxes.takes document) entries.now }
{
    let mut count = 0;
    for entry in entries {
        if takes(entry, document) {
            count += 1;
        }
    }
    count
}

/// Whether a document was the current one of a frame after so many entries.
fn was_current(
    alloc: Global,
    facts: &PlainFacts<'_>,
    document: u64,
    place: usize,
    frame: u32,
) -> Result<bool, NoMemory>
    requires { place ≤ length facts.now.entries }
    ensures { IfOk result (λ was. was ≡ option_map_or (λ c. c == document) (document_in facts.now.script (take place facts.now.entries) frame) false) }
{
    let (before, _) = facts.entries().split_at(place);
    let earlier = PlainFacts::new(alloc, facts.script(), before)?;
    match earlier.document_in(u64::from(frame)) {
        Some(current) => Ok(current == document),
        None => Ok(false),
    }
}

/// The post at a place, where it was delivered to a document.
fn post_at<'a>(
    alloc: Global,
    facts: &PlainFacts<'a>,
    document: u64,
    place: usize,
) -> Result<Option<Post<'a>>, NoMemory>
    requires { place < length facts.now.entries }
    ensures { IfOk result (λ post. option_map posted_view post ≡ inboxes.post_at facts.now.script facts.now.entries document place) }
{
    match post_in(&facts.entries()[place]) {
        Some(post) => {
            if was_current(alloc, facts, document, place, post.frame)? {
                Ok(Some(post))
            } else {
                Ok(None)
            }
        }
        None => Ok(None),
    }
}

/// The post with this number among those that were delivered to a document.
#[tactic(auto, unfolding(history_rules::specs::Inboxes::posts_to))]
fn post_to<'a>(
    alloc: Global,
    facts: &PlainFacts<'a>,
    document: u64,
    index: u64,
) -> Result<Option<Post<'a>>, NoMemory>
    ensures { IfOk result (λ post. option_map posted_view post ≡ slice_get (inboxes.posts_to facts.now.script facts.now.entries document) index) }
{
    let mut left = index;
    for place in 0..facts.entries().len() {
        if let Some(post) = post_at(alloc, facts, document, place)? {
            if left == 0 {
                return Ok(Some(post));
            }
            left -= 1;
        }
    }
    Ok(None)
}

/// The first post of a document's inbox.
#[tactic(auto, unfolding(history_rules::specs::Inboxes::inbox))]
pub fn first_post<'a>(
    alloc: Global,
    facts: &PlainFacts<'a>,
    document: u64,
) -> Result<Option<Post<'a>>, NoMemory>
    ensures { IfOk result (λ post. option_map posted_view post ≡ slice_get (inboxes.inbox facts.now.script facts.now.entries document) 0) }
{
    if facts.is_current(document) {
        post_to(alloc, facts, document, taken(facts.entries(), document))
    } else {
        Ok(None)
    }
}
