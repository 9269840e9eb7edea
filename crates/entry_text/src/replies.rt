//! Replies.

ghost use Rattle.std.specs.Prelude.{◌≡◌, ◌++◌, IfOk, OnOk, codes};
ghost use Rattle.entry_text.specs.Lines as lines;
ghost use Rattle.entry_text.specs.Printing.{GrowsTo};

use crate::fields::{put, put_hex, put_rule};
use history_entry::Reply;
use page_origin::NoMemory;
use std::alloc::Global;

#[tactic(auto, unfolding(crate::specs::Lines::reply_text))]
fn put_reply_text(alloc: Global, out: &mut Vec<u8>, reply: &Reply) -> Result<(), NoMemory>
    ensures text { OnOk result (out.new.items ≡ out.old.items ++ lines.reply_text reply.now) }
    ensures kept { GrowsTo out.old.items out.new.items }
{
    match reply {
        Reply::Ok => put(out, b"ok"),
        Reply::Answer(text) => {
            put(out, b"answer")?;
            put_hex(alloc, out, text.as_str().as_bytes())
        }
        Reply::Deny(rule) => {
            put(out, b"deny")?;
            put_rule(out, *rule)
        }
        Reply::Drop(rule) => {
            put(out, b"drop")?;
            put_rule(out, *rule)
        }
        Reply::Kill(rule) => {
            put(out, b"kill")?;
            put_rule(out, *rule)
        }
    }
}

/// Appends an arrow and a reply.
pub fn put_reply(alloc: Global, out: &mut Vec<u8>, reply: &Reply) -> Result<(), NoMemory>
    ensures text { OnOk result (out.new.items ≡ out.old.items ++ (codes " => " ++ lines.reply_text reply.now)) }
    ensures kept { GrowsTo out.old.items out.new.items }
{
    put(out, b" => ")?;
    put_reply_text(alloc, out, reply)
}

/// The text of a reply.
pub fn reply_text(alloc: Global, reply: &Reply) -> Result<Vec<u8>, NoMemory>
    ensures { IfOk result (λ text. text.items ≡ lines.reply_text reply.now) }
{
    let mut text = Vec::new(alloc);
    put_reply_text(alloc, &mut text, reply)?;
    Ok(text)
}
