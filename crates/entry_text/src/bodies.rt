//! The bodies of messages.

ghost use Rattle.std.specs.Prelude.{◌≡◌, ◌++◌, IfOk, OnOk};
ghost use Rattle.entry_text.specs.Lines as lines;
ghost use Rattle.entry_text.specs.Printing.{GrowsTo};

use crate::fields::{put, put_decimal, put_hex, put_number, put_text};
use crate::origins::put_origin;
use history_entry::{Body, Message, Mode, Src, Target};
use page_origin::NoMemory;
use std::alloc::Global;

fn mode_text(mode: Mode) -> &'static str
    ensures { result.now ≡ lines.mode_text mode }
{
    match mode {
        Mode::Cors => "cors",
        Mode::NoCors => "no-cors",
    }
}

fn sandbox_text(sandbox: bool) -> &'static str
    ensures { result.now ≡ lines.sandbox_text sandbox }
{
    if sandbox { "sandboxed" } else { "plain" }
}

#[tactic(auto, unfolding(crate::specs::Lines::src_text))]
fn put_src(alloc: Global, out: &mut Vec<u8>, src: &Src) -> Result<(), NoMemory>
    ensures text { OnOk result (out.new.items ≡ out.old.items ++ lines.field (lines.src_text src.now)) }
    ensures kept { GrowsTo out.old.items out.new.items }
{
    match src {
        Src::Url(url) => {
            put(out, b" url")?;
            put_hex(alloc, out, url.as_str().as_bytes())
        }
        Src::Doc(index) => {
            put(out, b" doc")?;
            put_number(alloc, out, *index)
        }
    }
}

#[tactic(auto, unfolding(crate::specs::Lines::target_text))]
fn put_target(alloc: Global, out: &mut Vec<u8>, target: &Target) -> Result<(), NoMemory>
    ensures text { OnOk result (out.new.items ≡ out.old.items ++ lines.field (lines.target_text target.now)) }
    ensures kept { GrowsTo out.old.items out.new.items }
{
    match target {
        Target::Any => put(out, b" *"),
        Target::Own => put(out, b" /"),
        Target::Of(origin) => put_origin(alloc, out, origin),
    }
}

/// Appends a space and the body of a message.
#[tactic(auto, unfolding(crate::specs::Lines::body_text))]
pub fn put_body(alloc: Global, out: &mut Vec<u8>, body: &Body) -> Result<(), NoMemory>
    ensures text { OnOk result (out.new.items ≡ out.old.items ++ lines.field (lines.body_text body.now)) }
    ensures kept { GrowsTo out.old.items out.new.items }
{
    match body {
        Body::Navigate {
            frame,
            url,
            initiator,
        } => {
            put(out, b" navigate")?;
            put_number(alloc, out, *frame)?;
            put_origin(alloc, out, initiator)?;
            put_hex(alloc, out, url.as_str().as_bytes())
        }
        Body::AddFrame { src, sandbox } => {
            put(out, b" frame")?;
            put_text(out, sandbox_text(*sandbox))?;
            put_src(alloc, out, src)
        }
        Body::RemoveFrame { frame } => {
            put(out, b" remove")?;
            put_number(alloc, out, *frame)
        }
        Body::OpenPage { url } => {
            put(out, b" page")?;
            put_hex(alloc, out, url.as_str().as_bytes())
        }
        Body::Fetch {
            url,
            mode,
            initiator,
        } => {
            put(out, b" fetch")?;
            put_text(out, mode_text(*mode))?;
            put_origin(alloc, out, initiator)?;
            put_hex(alloc, out, url.as_str().as_bytes())
        }
        Body::Post {
            frame,
            target,
            source,
            text,
        } => {
            put(out, b" post")?;
            put_number(alloc, out, *frame)?;
            put_target(alloc, out, target)?;
            put_origin(alloc, out, source)?;
            put_hex(alloc, out, text.as_str().as_bytes())
        }
        Body::Ask {
            service,
            origin,
            request,
        } => {
            put(out, b" ask")?;
            put_hex(alloc, out, service.as_str().as_bytes())?;
            put_origin(alloc, out, origin)?;
            put_hex(alloc, out, request.as_str().as_bytes())
        }
        Body::DidCommit { nav, url, origin } => {
            put(out, b" commit")?;
            put_number(alloc, out, *nav)?;
            put_origin(alloc, out, origin)?;
            put_hex(alloc, out, url.as_str().as_bytes())
        }
    }
}

/// The text of a message: the number of its document, a space, and its body.
#[tactic(auto, unfolding(crate::specs::Lines::message_text))]
pub fn message_text(alloc: Global, message: &Message) -> Result<Vec<u8>, NoMemory>
    ensures { IfOk result (λ text. text.items ≡ lines.message_text message.now) }
{
    let mut text = Vec::new(alloc);
    put_decimal(alloc, &mut text, message.document)?;
    put_body(alloc, &mut text, &message.body)?;
    Ok(text)
}
