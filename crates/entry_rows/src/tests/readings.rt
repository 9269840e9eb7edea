mod fields;
mod lines;
mod values;

use entry_reading::{EntryStop, MessageStop, ReplyStop, read_entry, read_message, read_reply};
use entry_text::{message_text, put_entry, reply_text};
use std::alloc::Global;
use std::error::Error;
use std::process::Abort;
use std::test::Fail;

/// The line is read, and what was read is printed as it.
fn is_read(rt: &impl Abort, alloc: Global, line: &str) -> Result<(), Fail> {
    let entry = read_entry(alloc, line.as_bytes())?;
    let mut out = Vec::new(alloc);
    put_entry(alloc, &mut out, &entry)?;
    assert_eq!(rt; out.as_slice(), line.as_bytes(), "{line}");
    Ok(())
}

fn is_bad(rt: &impl Abort, alloc: Global, line: &str) {
    let read = read_entry(alloc, line.as_bytes());
    assert!(rt; matches!(read, Err(EntryStop::BadLine)), "{line}");
}

fn is_message(rt: &impl Abort, alloc: Global, text: &str) -> Result<(), Fail> {
    let message = read_message(alloc, text.as_bytes())?;
    let out = message_text(alloc, &message)?;
    assert_eq!(rt; out.as_slice(), text.as_bytes(), "{text}");
    Ok(())
}

fn is_bad_message(rt: &impl Abort, alloc: Global, text: &str) {
    let read = read_message(alloc, text.as_bytes());
    assert!(rt; matches!(read, Err(MessageStop::BadMessage)), "{text}");
}

fn is_reply(rt: &impl Abort, alloc: Global, text: &str) -> Result<(), Fail> {
    let reply = read_reply(alloc, text.as_bytes())?;
    let out = reply_text(alloc, &reply)?;
    assert_eq!(rt; out.as_slice(), text.as_bytes(), "{text}");
    Ok(())
}

fn is_bad_reply(rt: &impl Abort, alloc: Global, text: &str) {
    let read = read_reply(alloc, text.as_bytes());
    assert!(rt; matches!(read, Err(ReplyStop::BadReply)), "{text}");
}

fn says(rt: &impl Abort, alloc: Global, stop: &impl Error, text: &str) -> Result<(), Fail> {
    let said = stop.to_string(alloc)?;
    assert_eq!(rt; said.as_str(), text);
    Ok(())
}

const ENTRY_STOPS: &[(EntryStop, &str)] = &[
    (EntryStop::BadLine, "the line is no spelling of an entry"),
    (EntryStop::NoMemory, "no memory"),
];

const MESSAGE_STOPS: &[(MessageStop, &str)] = &[
    (
        MessageStop::BadMessage,
        "the text is no spelling of a message",
    ),
    (MessageStop::NoMemory, "no memory"),
];

const REPLY_STOPS: &[(ReplyStop, &str)] = &[
    (ReplyStop::BadReply, "the text is no spelling of a reply"),
    (ReplyStop::NoMemory, "no memory"),
];

#[test]
fn stops_say_why(rt: HostRuntime) -> Result<(), Fail> {
    for (stop, text) in ENTRY_STOPS {
        says(&rt, rt.alloc(), stop, text)?;
    }
    for (stop, text) in MESSAGE_STOPS {
        says(&rt, rt.alloc(), stop, text)?;
    }
    for (stop, text) in REPLY_STOPS {
        says(&rt, rt.alloc(), stop, text)?;
    }
    Ok(())
}
