//! Whole lines, messages and replies: each kind, and texts that are near to one.

use super::{is_bad, is_bad_message, is_bad_reply, is_message, is_read, is_reply};
use entry_reading::{EntryStop, read_line};
use std::process::Abort;
use std::test::Fail;

const LINES: &[&str] = &[
    "open 0",
    "warm 10",
    "hop nav 1 https://a.com/b c",
    "hop req 2 x",
    "order 0 1 =https://a.com https://a.com https://a.com/ x",
    "navend 3 N5",
    "said 0 1 2 3 remove 4 => ok",
    "crash 5",
    "commit 0 1 https://a.com 68 => kill K10",
    "local 0 1 2 waited",
    "local 0 1 2 skipped",
    "local 0 1 2 took http://=> -",
    "head 6 A1",
    "head 6 B8",
    "piece 0 0 ff80",
    "end 7 whole",
    "end 7 blocked B8",
    "end 7 failed N7",
    "exit 8",
];

#[test]
fn lines_of_each_kind(rt: HostRuntime) -> Result<(), Fail> {
    for line in LINES {
        is_read(&rt, rt.alloc(), line)?;
    }
    Ok(())
}

const BAD_LINES: &[&str] = &[
    "",
    " ",
    "open",
    " open 0",
    "open  0",
    "open 0 ",
    "open 0 1",
    "open\t0",
    "Open 0",
    "close 0",
    "history 2",
    "warm 0 0",
    "hop nav 0",
    "hop nav 0 ",
    "hop doc 0 x",
    "hop 0 x",
    "hop nav 0 \u{e9}",
    "hop nav 0 \u{7f}",
    "order 0 0 https://a.com https://a.com",
    "order 0 0 https://a.com https://a.com ",
    "order 0 https://a.com https://a.com x",
    "navend 0 N5 ",
    "navend 0",
    "commit 0 0 https://a.com 68",
    "commit 0 0 https://a.com 68 ok",
    "commit 0 0 https://a.com 68 -> ok",
    "commit 0 0 https://a.com 68 =>",
    "commit 0 0 https://a.com 68 =>  ok",
    "commit 0 0 https://a.com 68  => ok",
    "local 0 0 0 slept",
    "local 0 0 0 waited 0",
    "local 0 0 0 took https://a.com",
    "local 0 0 waited",
    "head 0 A1 A2",
    "piece 0 0",
    "piece 0 00",
    "end 0",
    "end 0 stopped",
    "end 0 whole N7",
    "end 0 blocked",
    "end 0 failed ",
];

#[test]
fn other_lines_are_bad(rt: HostRuntime) {
    for line in BAD_LINES {
        is_bad(&rt, rt.alloc(), line);
    }
}

const MESSAGES: &[&str] = &[
    "0 navigate 1 https://a.com 68",
    "0 frame plain url 68",
    "0 frame plain url -",
    "0 frame sandboxed url 68",
    "0 frame plain doc 2",
    "0 frame sandboxed doc 3",
    "0 remove 4",
    "0 page 68",
    "0 fetch cors opaque:1:https://a.com 68",
    "0 fetch no-cors https://a.com:80 68",
    "0 post 5 * https://a.com -",
    "0 post 5 / https://a.com c3a9",
    "0 post 5 http://b.org https://a.com 68",
    "0 post 5 opaque:1:=http://a https://a.com 68",
    "0 ask 73 https://a.com -",
    "4294967295 commit 6 https://a.com 68",
];

const REPLIES: &[&str] = &[
    "ok",
    "answer -",
    "answer 68",
    "deny S4",
    "drop M2",
    "kill K1",
];

#[test]
fn messages_and_replies(rt: HostRuntime) -> Result<(), Fail> {
    for text in MESSAGES {
        is_message(&rt, rt.alloc(), text)?;
    }
    for text in REPLIES {
        is_reply(&rt, rt.alloc(), text)?;
    }
    Ok(())
}

#[test]
fn every_message_gets_every_reply(rt: HostRuntime) -> Result<(), Fail> {
    let alloc = rt.alloc();
    for message in MESSAGES {
        for reply in REPLIES {
            let line = format!(in alloc; "said 0 1 2 {message} => {reply}")?;
            is_read(&rt, alloc, line.as_str())?;
        }
    }
    for reply in REPLIES {
        let line = format!(in alloc; "commit 0 1 https://a.com 68 => {reply}")?;
        is_read(&rt, alloc, line.as_str())?;
    }
    Ok(())
}

const BAD_MESSAGES: &[&str] = &[
    "",
    "0",
    "0 ",
    "remove 1",
    "0 remove",
    "0 remove 1 ",
    "0 remove 1 2",
    "0 Remove 1",
    "0 jump 1",
    "0 page",
    "0 navigate 1 68 https://a.com",
    "0 frame boxed url 68",
    "0 frame plain text 68",
    "0 frame plain doc 68 1",
    "0 frame url 68",
    "0 fetch same-origin https://a.com 68",
    "0 fetch https://a.com 68",
    "0 post 5 ** https://a.com 68",
    "0 post 5 // https://a.com 68",
    "0 post 5 https://a.com 68",
    "0 ask https://a.com 68",
    "0 commit 6 https://a.com",
    "0 remove 1 => ok",
];

const BAD_REPLIES: &[&str] = &[
    "",
    "ok ",
    " ok",
    "OK",
    "ok ok",
    "answer",
    "answer ",
    "allow A1",
    "deny",
    "deny X1",
    "deny K1 K2",
    "drop k1",
    "kill 1",
    "=> ok",
];

#[test]
fn other_messages_and_replies_are_bad(rt: HostRuntime) -> Result<(), Fail> {
    let alloc = rt.alloc();
    for text in BAD_MESSAGES {
        is_bad_message(&rt, alloc, text);
        let line = format!(in alloc; "said 0 1 2 {text} => ok")?;
        is_bad(&rt, alloc, line.as_str());
    }
    for text in BAD_REPLIES {
        is_bad_reply(&rt, alloc, text);
        let line = format!(in alloc; "said 0 1 2 3 remove 4 => {text}")?;
        is_bad(&rt, alloc, line.as_str());
    }
    Ok(())
}

const FIRST_LINES: &[(&str, &str)] = &[
    ("open 0\n", ""),
    ("open 0\nopen 01\n", "open 01\n"),
    ("hop nav 0 a b\n\n", "\n"),
];

const NO_FIRST_LINES: &[&str] = &["", "\n", "open 0", "open 0\r\n", "open 01\nopen 0\n", " \n"];

fn leaves(rt: &impl Abort, text: &str, left: &str, alloc: std::alloc::Global) -> Result<(), Fail> {
    let (_entry, rest) = read_line(alloc, text.as_bytes())?;
    assert_eq!(rt; rest, left.as_bytes(), "{text}");
    Ok(())
}

#[test]
fn first_lines(rt: HostRuntime) -> Result<(), Fail> {
    for (text, left) in FIRST_LINES {
        leaves(&rt, text, left, rt.alloc())?;
    }
    for text in NO_FIRST_LINES {
        let read = read_line(rt.alloc(), text.as_bytes());
        assert!(rt; matches!(read, Err(EntryStop::BadLine)), "{text:?}");
    }
    Ok(())
}
