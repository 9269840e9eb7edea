use crate::{
    EntryStop, TextStop, history_is_kept, message_text, read_entry, read_message, read_reply,
    read_text, reply_text,
};
use history_entries::text_of;
use history_entry::Policy;
use std::alloc::Global;
use std::process::Abort;
use std::test::Fail;

const LINES: &[&str] = &[
    "",
    "open 0\n",
    "open 0\norder 0 0 https://a.com https://a.com https://a.com/\ncommit 0 0 https://a.com 68 => ok\n",
    "order 0 0 =https://a.com:8443 opaque:0:=https://a.com https://a.com/\n",
    "piece 0 0 ff\nend 0 whole\nexit 0\n",
    "end 0 blocked B7\nnavend 0 N7\nhead 0 A5\n",
    "hop nav 0 history 2\n",
];

// Of these each line carries the rule B8, so they are lines of the second policy alone.
const RESOURCE_LINES: &[&str] = &[
    "head 0 B8\n",
    "navend 0 B8\n",
    "end 0 blocked B8\n",
    "end 0 failed B8\n",
    "commit 0 0 https://a.com 68 => deny B8\n",
    "said 0 0 0 0 remove 0 => drop B8\n",
    "said 0 0 0 0 remove 0 => kill B8\n",
];

/// The bytes are read as a history of so many entries, and that history's text under the policy is these bytes.
fn is_read(
    rt: &impl Abort,
    alloc: Global,
    text: &str,
    policy: Policy,
    count: usize,
) -> Result<(), Fail> {
    let (read, history) = read_text(alloc, text.as_bytes())?;
    history_is_kept(&history);
    let out = text_of(alloc, read, &history)?;
    assert!(rt; read == policy, "{text}");
    assert!(rt; history.entries().len() == count, "{text}");
    assert_eq!(rt; out.as_slice(), text.as_bytes(), "{text}");
    Ok(())
}

fn bad_line(alloc: Global, text: &str) -> u32 {
    match read_text(alloc, text.as_bytes()) {
        Err(TextStop::BadLine(number)) => number,
        _ => 0,
    }
}

fn feeds(text: &str) -> usize {
    text.as_bytes()
        .iter()
        .filter(|byte| **byte == b'\n')
        .count()
}

#[test]
fn texts_of_both_policies(rt: HostRuntime) -> Result<(), Fail> {
    let alloc = rt.alloc();
    for lines in LINES {
        is_read(&rt, alloc, lines, Policy::One, feeds(lines))?;
        let text = format!(in alloc; "history 2\n{lines}")?;
        is_read(&rt, alloc, text.as_str(), Policy::Two, feeds(lines))?;
    }
    Ok(())
}

#[test]
fn lines_of_the_second_policy_alone(rt: HostRuntime) -> Result<(), Fail> {
    let alloc = rt.alloc();
    for line in RESOURCE_LINES {
        assert!(rt; bad_line(alloc, line) == 1, "{line}");
        let later = format!(in alloc; "open 0\n{line}")?;
        assert!(rt; bad_line(alloc, later.as_str()) == 2, "{line}");
        let text = format!(in alloc; "history 2\n{line}")?;
        is_read(&rt, alloc, text.as_str(), Policy::Two, 1)?;
    }
    Ok(())
}

const BAD_LINES: &[(&str, u32)] = &[
    ("open 4294967296\n", 1),
    ("open 0\nopen 01\n", 2),
    ("piece 0 0 -\n", 1),
    ("open 0", 1),
    ("open 0\nopen 1", 2),
    ("\n", 1),
    ("open 0\n\nopen 1\n", 2),
    ("open 0\r\n", 1),
    ("open 0\nopen 1\nopen 2 \nopen 3\nopen 04\n", 3),
    ("open 0\n ", 2),
    ("order 0 0 =https://a.com:443 https://a.com x\n", 1),
    ("order 0 0 =https://a.com:080 https://a.com x\n", 1),
    ("order 0 0 https://a.com:8443 https://a.com x\n", 1),
    ("open 0\nhead 0 B9\n", 2),
    ("open 0\nhistory 2\n", 2),
    ("open 0\nhistory 2", 2),
];

#[test]
fn the_first_bad_line_is_told(rt: HostRuntime) -> Result<(), Fail> {
    let alloc = rt.alloc();
    for (lines, number) in BAD_LINES {
        assert!(rt; bad_line(alloc, lines) == *number, "{lines}");
        let text = format!(in alloc; "history 2\n{lines}")?;
        assert!(rt; bad_line(alloc, text.as_str()) == *number + 1, "{lines}");
    }
    Ok(())
}

const BAD_VERSIONS: &[(&str, u32)] = &[
    ("history 2", 1),
    ("history 2\r\n", 1),
    ("history 2 \n", 1),
    (" history 2\n", 1),
    ("\nhistory 2\n", 1),
    ("History 2\n", 1),
    ("history  2\n", 1),
    ("history 1\n", 1),
    ("history 02\n", 1),
    ("history 3\n", 1),
    ("history\n", 1),
    ("history 2\nhistory 2\n", 2),
    ("history 2\nhistory 2", 2),
    ("history 2\nhistory 1\n", 2),
    ("history 2\n\n", 2),
    ("history 2\nopen 0\nhistory 2\n", 3),
];

#[test]
fn other_version_lines_are_bad(rt: HostRuntime) {
    for (text, number) in BAD_VERSIONS {
        assert!(rt; bad_line(rt.alloc(), text) == *number, "{text}");
    }
}

const STOPS: &[(TextStop, &str)] = &[
    (TextStop::BadLine(1), "line 1 is no spelling of an entry"),
    (
        TextStop::BadLine(4294967295),
        "line 4294967295 is no spelling of an entry",
    ),
    (TextStop::NoMemory, "no memory"),
];

#[test]
fn stops_say_why(rt: HostRuntime) -> Result<(), Fail> {
    for (stop, text) in STOPS {
        let said = stop.to_string(rt.alloc())?;
        assert_eq!(rt; said.as_str(), *text);
    }
    Ok(())
}

#[test]
fn messages_and_replies_are_given_out(rt: HostRuntime) -> Result<(), Fail> {
    let message = read_message(rt.alloc(), b"0 remove 1")?;
    let out = message_text(rt.alloc(), &message)?;
    assert_eq!(rt; out.as_slice(), b"0 remove 1".as_slice());
    let reply = read_reply(rt.alloc(), b"deny N1")?;
    let out = reply_text(rt.alloc(), &reply)?;
    assert_eq!(rt; out.as_slice(), b"deny N1".as_slice());
    let bad = read_entry(rt.alloc(), b"open 01").err();
    assert_eq!(rt; bad, Some(EntryStop::BadLine));
    Ok(())
}
