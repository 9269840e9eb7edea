//! The judgement of a message at a history.

ghost use Rattle.std.specs.Prelude.{◌≡◌, IfOk};
ghost use Rattle.history_rules.specs.Judgement as judgement;

use history_entries::History;
use plain_facts::PlainFacts;
use script_model::{Message, NoMemory, Reply, Script, ServiceRule};
use std::alloc::Global;

/// The reply to a message of a process after a history.
pub fn reply_of<R: ServiceRule>(
    alloc: Global,
    script: &Script,
    services: &R,
    history: &History,
    process: u32,
    message: &Message,
) -> Result<Reply, NoMemory>
    ensures { IfOk result (λ reply. reply ≡ judgement.judge R.rule script.now history.now process message.now) }
{
    let facts = PlainFacts::new(alloc, script, history.entries())?;
    plain_judgement::reply_of(alloc, services, &facts, u64::from(process), message)
}
