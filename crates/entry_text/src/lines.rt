//! The line of an entry.

ghost use Rattle.std.specs.Prelude.{◌≡◌, ◌++◌, OnOk};
ghost use Rattle.history_entry.specs.declared.entry.Entry.TheVariants.{Commit, Order, Said};
ghost use Rattle.entry_text.specs.Lines as lines;
ghost use Rattle.entry_text.specs.Printing.{GrowsTo};

use crate::bodies::put_body;
use crate::fields::{put, put_hex, put_number, put_rule, put_text};
use crate::origins::{put_origin, put_site};
use crate::replies::put_reply;
use history_entry::{EndHow, Entry, HopOf, LocalWhat, Message, RawUrl, Reply};
use page_origin::{NoMemory, Origin, Site, UrlText};
use std::alloc::Global;

fn put_pair(alloc: Global, out: &mut Vec<u8>, first: u32, second: u32) -> Result<(), NoMemory>
    ensures text { OnOk result (out.new.items ≡ out.old.items ++ (lines.number first ++ lines.number second)) }
    ensures kept { GrowsTo out.old.items out.new.items }
{
    put_number(alloc, out, first)?;
    put_number(alloc, out, second)
}

fn put_action(
    alloc: Global,
    out: &mut Vec<u8>,
    process: u32,
    document: u32,
    action: u32,
) -> Result<(), NoMemory>
    ensures text { OnOk result (out.new.items ≡ out.old.items ++ (lines.number process ++ lines.number document ++ lines.number action)) }
    ensures kept { GrowsTo out.old.items out.new.items }
{
    put_pair(alloc, out, process, document)?;
    put_number(alloc, out, action)
}

#[tactic(auto, unfolding(crate::specs::Lines::hop_text))]
fn put_hop_of(alloc: Global, out: &mut Vec<u8>, of: HopOf) -> Result<(), NoMemory>
    ensures text { OnOk result (out.new.items ≡ out.old.items ++ lines.field (lines.hop_text of)) }
    ensures kept { GrowsTo out.old.items out.new.items }
{
    match of {
        HopOf::Nav(navigation) => {
            put(out, b" nav")?;
            put_number(alloc, out, navigation)
        }
        HopOf::Req(request) => {
            put(out, b" req")?;
            put_number(alloc, out, request)
        }
    }
}

#[tactic(auto, unfolding(crate::specs::Lines::what_text))]
fn put_what(alloc: Global, out: &mut Vec<u8>, what: &LocalWhat) -> Result<(), NoMemory>
    ensures text { OnOk result (out.new.items ≡ out.old.items ++ lines.field (lines.what_text what.now)) }
    ensures kept { GrowsTo out.old.items out.new.items }
{
    match what {
        LocalWhat::Waited => put(out, b" waited"),
        LocalWhat::Skipped => put(out, b" skipped"),
        LocalWhat::Took { source, text } => {
            put(out, b" took")?;
            put_origin(alloc, out, source)?;
            put_hex(alloc, out, text.as_str().as_bytes())
        }
    }
}

#[tactic(auto, unfolding(crate::specs::Lines::how_text))]
fn put_how(out: &mut Vec<u8>, how: EndHow) -> Result<(), NoMemory>
    ensures text { OnOk result (out.new.items ≡ out.old.items ++ lines.field (lines.how_text how)) }
    ensures kept { GrowsTo out.old.items out.new.items }
{
    match how {
        EndHow::Whole => put(out, b" whole"),
        EndHow::Blocked(rule) => {
            put(out, b" blocked")?;
            put_rule(out, rule)
        }
        EndHow::Failed(rule) => {
            put(out, b" failed")?;
            put_rule(out, rule)
        }
    }
}

#[tactic(auto, unfolding(crate::specs::Lines::entry_text))]
fn put_order(
    alloc: Global,
    out: &mut Vec<u8>,
    navigation: u32,
    process: u32,
    site: &Site,
    origin: &Origin,
    url: &UrlText,
) -> Result<(), NoMemory>
    ensures text { OnOk result (out.new.items ≡ out.old.items ++ lines.entry_text (Order navigation process site.now origin.now url.now)) }
    ensures kept { GrowsTo out.old.items out.new.items }
{
    put(out, b"order")?;
    put_pair(alloc, out, navigation, process)?;
    put_site(alloc, out, site)?;
    put_origin(alloc, out, origin)?;
    put_text(out, url.as_str())
}

#[tactic(auto, unfolding(crate::specs::Lines::entry_text))]
fn put_said(
    alloc: Global,
    out: &mut Vec<u8>,
    process: u32,
    document: u32,
    action: u32,
    message: &Message,
    reply: &Reply,
) -> Result<(), NoMemory>
    ensures text { OnOk result (out.new.items ≡ out.old.items ++ lines.entry_text (Said process document action message.now reply.now)) }
    ensures kept { GrowsTo out.old.items out.new.items }
{
    put(out, b"said")?;
    put_action(alloc, out, process, document, action)?;
    put_number(alloc, out, message.document)?;
    put_body(alloc, out, &message.body)?;
    put_reply(alloc, out, reply)
}

#[tactic(auto, unfolding(crate::specs::Lines::entry_text))]
fn put_commit(
    alloc: Global,
    out: &mut Vec<u8>,
    process: u32,
    navigation: u32,
    origin: &Origin,
    url: &RawUrl,
    reply: &Reply,
) -> Result<(), NoMemory>
    ensures text { OnOk result (out.new.items ≡ out.old.items ++ lines.entry_text (Commit process navigation origin.now url.now reply.now)) }
    ensures kept { GrowsTo out.old.items out.new.items }
{
    put(out, b"commit")?;
    put_pair(alloc, out, process, navigation)?;
    put_origin(alloc, out, origin)?;
    put_hex(alloc, out, url.as_str().as_bytes())?;
    put_reply(alloc, out, reply)
}

/// Appends the line of an entry, without its line feed.
#[tactic(auto, unfolding(crate::specs::Lines::entry_text))]
pub fn put_entry(alloc: Global, out: &mut Vec<u8>, entry: &Entry) -> Result<(), NoMemory>
    ensures text { OnOk result (out.new.items ≡ out.old.items ++ lines.entry_text entry.now) }
    ensures kept { GrowsTo out.old.items out.new.items }
{
    match entry {
        Entry::Opened(page) => {
            put(out, b"open")?;
            put_number(alloc, out, *page)
        }
        Entry::Warm(process) => {
            put(out, b"warm")?;
            put_number(alloc, out, *process)
        }
        Entry::Hop(of, url) => {
            put(out, b"hop")?;
            put_hop_of(alloc, out, *of)?;
            put_text(out, url.as_str())
        }
        Entry::Order(navigation, process, site, origin, url) => {
            put_order(alloc, out, *navigation, *process, site, origin, url)
        }
        Entry::NavEnd(navigation, rule) => {
            put(out, b"navend")?;
            put_number(alloc, out, *navigation)?;
            put_rule(out, *rule)
        }
        Entry::Said(process, document, action, message, reply) => {
            put_said(alloc, out, *process, *document, *action, message, reply)
        }
        Entry::Crash(process) => {
            put(out, b"crash")?;
            put_number(alloc, out, *process)
        }
        Entry::Commit(process, navigation, origin, url, reply) => {
            put_commit(alloc, out, *process, *navigation, origin, url, reply)
        }
        Entry::Local(process, document, action, what) => {
            put(out, b"local")?;
            put_action(alloc, out, *process, *document, *action)?;
            put_what(alloc, out, what)
        }
        Entry::Head(request, rule) => {
            put(out, b"head")?;
            put_number(alloc, out, *request)?;
            put_rule(out, *rule)
        }
        Entry::Piece(request, index, bytes) => {
            put(out, b"piece")?;
            put_pair(alloc, out, *request, *index)?;
            put_hex(alloc, out, bytes.as_bytes())
        }
        Entry::End(request, how) => {
            put(out, b"end")?;
            put_number(alloc, out, *request)?;
            put_how(out, *how)
        }
        Entry::Exit(process) => {
            put(out, b"exit")?;
            put_number(alloc, out, *process)
        }
    }
}

/// Appends the line of an entry, with its line feed.
#[tactic(auto, unfolding(crate::specs::Lines::line_of))]
pub fn put_line(alloc: Global, out: &mut Vec<u8>, entry: &Entry) -> Result<(), NoMemory>
    ensures text { OnOk result (out.new.items ≡ out.old.items ++ lines.line_of entry.now) }
    ensures kept { GrowsTo out.old.items out.new.items }
{
    put_entry(alloc, out, entry)?;
    put(out, b"\n")
}
