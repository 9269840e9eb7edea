//! Messages judged at a history.

use history::{History, Message, Reply, reply_of};
use history_text::{read_message, read_text, reply_text};
use script_input::read_script;
use script_model::PlainStore;
use std::alloc::Global;
use std::test::Fail;

const SCRIPT: &str = r#"{"start":["https://a.com/"]}"#;

const HISTORY: &str = "history 2
open 0
order 0 0 https://a.com https://a.com https://a.com/
commit 0 0 https://a.com 68747470733a2f2f612e636f6d2f => ok
";

/// The process that sends, its message, and the reply.
const ROWS: &[(u32, &str, &str)] = &[
    (0, "0 remove 0", "kill K5"),
    (1, "0 remove 0", "kill K1"),
    (
        0,
        "0 ask 73746f7265 https://a.com 6765742078",
        "answer 6e6f6e65",
    ),
    (0, "0 ask 73746f7265 https://b.com 6765742078", "kill K7"),
    (0, "0 commit 0 https://a.com 68", "drop G3"),
    (0, "0 commit 1 https://a.com 68", "kill K8"),
];

fn page(alloc: Global) -> Result<History, Fail> {
    let (_, history) = read_text(alloc, HISTORY.as_bytes())?;
    Ok(history)
}

fn judged(alloc: Global, process: u32, message: &Message) -> Result<Reply, Fail> {
    let history = page(alloc)?;
    let script = read_script(alloc, SCRIPT.as_bytes())?;
    Ok(reply_of(alloc, &script, &PlainStore, &history, process, message)?)
}

fn text_of(alloc: Global, reply: &Reply) -> Result<String, Fail> {
    let text = reply_text(alloc, reply)?;
    Ok(String::from_utf8_lossy(alloc, text.as_slice())?)
}

fn reply(alloc: Global, process: u32, message: &str) -> Result<String, Fail> {
    let message = read_message(alloc, message.as_bytes())?;
    text_of(alloc, &judged(alloc, process, &message)?)
}

#[test]
fn messages_get_their_reply(rt: HostRuntime) -> Result<(), Fail> {
    for (process, message, wanted) in ROWS {
        let text = reply(rt.alloc(), *process, message)?;
        assert_eq!(rt; text.as_str(), *wanted, "{message}");
    }
    Ok(())
}
