//! Which message was accepted, what it makes and removes, what is committed, and what ends.

ghost use Rattle.std.specs.Prelude.{◌≡◌};
ghost use Rattle.std.specs.Option.{option_copied, option_map};
ghost use Rattle.history_rules.specs.Entries as entries;
ghost use Rattle.entry_facts.specs.Views.{commit_view};

use crate::committed::Committed;
use script_model::{Body, Entry, Message, Reply};

/// Whether the reply is ok.
pub fn is_okay(reply: &Reply) -> bool
    ensures { result ≡ entries.is_okay reply.now }
{
    matches!(reply, Reply::Ok)
}

/// Whether the reply is a kill.
pub fn kills(reply: &Reply) -> bool
    ensures { result ≡ entries.kills reply.now }
{
    matches!(reply, Reply::Kill(_))
}

/// The message of a renderer that was answered ok.
pub fn accepted(entry: &Entry) -> Option<&Message>
    ensures { option_copied result ≡ entries.accepted entry.now }
{
    match entry {
        Entry::Said(_, _, _, message, reply) => {
            if is_okay(reply) { Some(message) } else { None }
        }
        _ => None,
    }
}

/// Whether a message makes a frame.
pub fn body_makes_frame(body: &Body) -> bool
    ensures { result ≡ entries.body_makes_frame body.now }
{
    matches!(body, Body::AddFrame { .. } | Body::OpenPage { .. })
}

/// Whether a message begins a navigation.
pub fn body_makes_navigation(body: &Body) -> bool
    ensures { result ≡ entries.body_makes_navigation body.now }
{
    matches!(
        body,
        Body::Navigate { .. } | Body::AddFrame { .. } | Body::OpenPage { .. }
    )
}

/// Whether a message begins a request.
pub fn body_makes_request(body: &Body) -> bool
    ensures { result ≡ entries.body_makes_request body.now }
{
    matches!(body, Body::Fetch { .. })
}

/// Whether a message removes a frame.
pub fn body_removes(body: &Body, number: u64) -> bool
    ensures { result ≡ entries.body_removes number body.now }
{
    match body {
        Body::RemoveFrame { frame } => u64::from(*frame) == number,
        _ => false,
    }
}

/// Whether an accepted message makes a frame.
pub fn makes_frame(entry: &Entry) -> bool
    ensures { result ≡ entries.makes_frame entry.now }
{
    match accepted(entry) {
        Some(message) => body_makes_frame(&message.body),
        None => false,
    }
}

/// Whether an accepted message begins a navigation.
pub fn makes_navigation(entry: &Entry) -> bool
    ensures { result ≡ entries.makes_navigation entry.now }
{
    match accepted(entry) {
        Some(message) => body_makes_navigation(&message.body),
        None => false,
    }
}

/// Whether an accepted message begins a request.
pub fn makes_request(entry: &Entry) -> bool
    ensures { result ≡ entries.makes_request entry.now }
{
    match accepted(entry) {
        Some(message) => body_makes_request(&message.body),
        None => false,
    }
}

/// Whether an accepted message removes a frame.
pub fn removes(entry: &Entry, frame: u64) -> bool
    ensures { result ≡ entries.removes frame entry.now }
{
    match accepted(entry) {
        Some(message) => body_removes(&message.body, frame),
        None => false,
    }
}

/// The commit that a message of a process tells.
pub fn body_commit(body: &Body, process: u32) -> Option<Committed>
    ensures { option_map commit_view result ≡ entries.body_commit process body.now }
{
    match body {
        Body::DidCommit { nav, .. } => Some(Committed {
            process,
            document: *nav,
        }),
        _ => None,
    }
}

/// The accepted commit of an entry, whether a message tells it or a process answers an order.
pub fn commit_in(entry: &Entry) -> Option<Committed>
    ensures { option_map commit_view result ≡ entries.commit_in entry.now }
{
    match entry {
        Entry::Said(process, _, _, message, reply) => {
            if is_okay(reply) {
                body_commit(&message.body, *process)
            } else {
                None
            }
        }
        Entry::Commit(process, navigation, _, _, reply) => {
            if is_okay(reply) {
                Some(Committed {
                    process: *process,
                    document: *navigation,
                })
            } else {
                None
            }
        }
        _ => None,
    }
}

/// Whether the entry is an accepted commit of a navigation.
pub fn commits(entry: &Entry, navigation: u64) -> bool
    ensures { result ≡ entries.commits navigation entry.now }
{
    match commit_in(entry) {
        Some(commit) => u64::from(commit.document) == navigation,
        None => false,
    }
}

/// Whether the entry is an accepted commit of a document in a process.
pub fn hosts(entry: &Entry, process: u64, document: u64) -> bool
    ensures { result ≡ entries.hosts process document entry.now }
{
    match commit_in(entry) {
        Some(commit) => {
            u64::from(commit.process) == process && u64::from(commit.document) == document
        }
        None => false,
    }
}

/// The navigation that is ordered to a process.
pub fn ordered_to(entry: &Entry, process: u64) -> Option<u64>
    ensures { result ≡ entries.ordered_to process entry.now }
{
    match entry {
        Entry::Order(navigation, to, ..) => {
            if u64::from(*to) == process {
                Some(u64::from(*navigation))
            } else {
                None
            }
        }
        _ => None,
    }
}

/// Whether a navigation ends without a commit.
pub fn ends_navigation(entry: &Entry, navigation: u64) -> bool
    ensures { result ≡ entries.ends_navigation navigation entry.now }
{
    match entry {
        Entry::NavEnd(ended, _) => u64::from(*ended) == navigation,
        _ => false,
    }
}

/// Whether the entry makes a process dead: by a kill, a crash or an exit.
pub fn ends_process(entry: &Entry, number: u64) -> bool
    ensures { result ≡ entries.ends_process number entry.now }
{
    match entry {
        Entry::Said(process, .., reply) => u64::from(*process) == number && kills(reply),
        Entry::Commit(process, .., reply) => u64::from(*process) == number && kills(reply),
        Entry::Crash(process) => u64::from(*process) == number,
        Entry::Exit(process) => u64::from(*process) == number,
        _ => false,
    }
}

/// Whether the entry is an action that a document has done.
pub fn is_done_by(entry: &Entry, number: u64) -> bool
    ensures { result ≡ entries.is_done_by number entry.now }
{
    match entry {
        Entry::Said(_, document, ..) => u64::from(*document) == number,
        Entry::Local(_, document, ..) => u64::from(*document) == number,
        _ => false,
    }
}
