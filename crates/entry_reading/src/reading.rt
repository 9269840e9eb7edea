//! Reading a line, a message and a reply.

ghost use Rattle.std.specs.Prelude.{◌≡◌, ◌⊎◌, ◌++◌, Err, IfOk, Ok};
ghost use Rattle.history_entry.specs.declared.body.Message.{Message as MessageData};
ghost use Rattle.history_entry.specs.declared.entry.Entry.{Entry as EntryData};
ghost use Rattle.history_entry.specs.declared.reply.Reply.{Reply as ReplyData};
ghost use Rattle.entry_text.specs.Lines as lines;
ghost use Rattle.entry_reading.specs.Answers.{Gives};
ghost use Rattle.entry_reading.specs.Entries.{IsEntry};
ghost use Rattle.entry_reading.specs.Bodies as bodies;
ghost use Rattle.entry_reading.specs.Fields.{whole};
ghost use Rattle.entry_reading.specs.Reading as reading;
ghost use Rattle.entry_reading.specs.Spellings.{BeginsWithNoLine, Spells, SpellsMessage, SpellsNoMessage, SpellsNoReply, SpellsNone, SpellsReply};

use crate::fields::{Fields, around, past};
use crate::kept::{entry_is_kept, message_is_kept, reply_is_kept};
use crate::stop::{EntryStop, MessageStop, ReplyStop};
use history_entry::{Entry, Message, Reply};
use std::alloc::Global;

#[tactic(auto, unfolding(crate::specs::Reading::entry_of))]
fn entry_of(alloc: Global, line: &[u8]) -> Result<Entry, EntryStop>
    ensures { Gives result (reading.entry_of line.now) }
{
    let mut fields = Fields { rest: line };
    let entry = fields.entry(alloc)?;
    if !fields.rest.is_empty() {
        return Err(EntryStop::BadLine);
    }
    Ok(entry)
}

fn message_of(alloc: Global, text: &[u8]) -> Result<Message, EntryStop>
    ensures { Gives result (whole (bodies.message text.now)) }
{
    let mut fields = Fields { rest: text };
    let message = fields.message(alloc)?;
    if !fields.rest.is_empty() {
        return Err(EntryStop::BadLine);
    }
    Ok(message)
}

fn reply_of(alloc: Global, text: &[u8]) -> Result<Reply, EntryStop>
    ensures { Gives result (whole (bodies.reply text.now)) }
{
    let mut fields = Fields { rest: text };
    let reply = fields.reply(alloc)?;
    if !fields.rest.is_empty() {
        return Err(EntryStop::BadLine);
    }
    Ok(reply)
}

/// Reads the entry that a line spells, the line being without its line feed.
pub fn read_entry(alloc: Global, line: &[u8]) -> Result<Entry, EntryStop>
    ensures read { IfOk result (Spells line.now) }
    ensures bad { result ≡ Err EntryStop.BadLine → SpellsNone line.now }
    ensures back { (e : EntryData) → Spells line.now e → (result ≡ Ok e) ⊎ (result ≡ Err EntryStop.NoMemory) }
{
    let entry = entry_of(alloc, line)?;
    entry_is_kept(&entry);
    Ok(entry)
}

/// Reads the entry whose line stands at the front of a text, its line feed included, and gives what is left behind it.
pub fn read_line(alloc: Global, text: &[u8]) -> Result<(Entry, &[u8]), EntryStop>
    ensures found { IfOk result (λ p. IsEntry p.0 × (lines.line_of p.0 ++ p.1.now ≡ text.now)) }
    ensures bad { result ≡ Err EntryStop.BadLine → BeginsWithNoLine text.now }
{
    let (line, rest) = around(text, b'\n');
    let rest = past(rest, b'\n')?;
    let entry = read_entry(alloc, line)?;
    Ok((entry, rest))
}

/// Reads the message that a text spells: the number of its document, a space, and its body.
pub fn read_message(alloc: Global, text: &[u8]) -> Result<Message, MessageStop>
    ensures read { IfOk result (SpellsMessage text.now) }
    ensures bad { result ≡ Err MessageStop.BadMessage → SpellsNoMessage text.now }
    ensures back { (m : MessageData) → SpellsMessage text.now m → (result ≡ Ok m) ⊎ (result ≡ Err MessageStop.NoMemory) }
{
    match message_of(alloc, text) {
        Ok(message) => {
            message_is_kept(&message);
            Ok(message)
        }
        Err(EntryStop::BadLine) => Err(MessageStop::BadMessage),
        Err(EntryStop::NoMemory) => Err(MessageStop::NoMemory),
    }
}

/// Reads the reply that a text spells.
pub fn read_reply(alloc: Global, text: &[u8]) -> Result<Reply, ReplyStop>
    ensures read { IfOk result (SpellsReply text.now) }
    ensures bad { result ≡ Err ReplyStop.BadReply → SpellsNoReply text.now }
    ensures back { (r : ReplyData) → SpellsReply text.now r → (result ≡ Ok r) ⊎ (result ≡ Err ReplyStop.NoMemory) }
{
    match reply_of(alloc, text) {
        Ok(reply) => {
            reply_is_kept(&reply);
            Ok(reply)
        }
        Err(EntryStop::BadLine) => Err(ReplyStop::BadReply),
        Err(EntryStop::NoMemory) => Err(ReplyStop::NoMemory),
    }
}
