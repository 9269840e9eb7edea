//! Posts, and posts that are taken.

ghost use Rattle.std.specs.Prelude.{◌≡◌};
ghost use Rattle.std.specs.Option.{option_map};
ghost use Rattle.history_rules.specs.Inboxes as inboxes;
ghost use Rattle.entry_facts.specs.Views.{post_view};

use crate::entries::accepted;
use crate::post::Post;
use script_model::{Body, Entry, LocalWhat};

/// The post of a message.
pub fn body_post(body: &Body) -> Option<Post<'_>>
    ensures { option_map post_view result ≡ inboxes.body_post body.now }
{
    match body {
        Body::Post {
            frame,
            source,
            text,
            ..
        } => Some(Post {
            frame: *frame,
            source,
            text,
        }),
        _ => None,
    }
}

/// A post that was accepted.
pub fn post_in(entry: &Entry) -> Option<Post<'_>>
    ensures { option_map post_view result ≡ inboxes.post_in entry.now }
{
    match accepted(entry) {
        Some(message) => body_post(&message.body),
        None => None,
    }
}

/// Whether a post was taken.
pub fn is_took(what: &LocalWhat) -> bool
    ensures { result ≡ inboxes.is_took what.now }
{
    matches!(what, LocalWhat::Took { .. })
}

/// Whether a document took a post.
pub fn takes(entry: &Entry, number: u64) -> bool
    ensures { result ≡ inboxes.takes number entry.now }
{
    match entry {
        Entry::Local(_, document, _, what) => u64::from(*document) == number && is_took(what),
        _ => false,
    }
}
