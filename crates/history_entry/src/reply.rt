ghost use Rattle.std.specs.Prelude.{◌≡◌, IfOk};
ghost use Rattle.history_entry.specs.CarriedRules.{reply_rule};

use crate::rule::Rule;
use crate::text::RequestText;
use page_origin::NoMemory;
use std::alloc::Global;

/// What the browser answers to a message.
#[derive(Drop, PartialEq)]
pub enum Reply {
    Ok,
    /// A service's answer.
    Answer(RequestText),
    /// The sender hears that it may not.
    Deny(Rule),
    /// The message came too late, or for nobody. It has no effect.
    Drop(Rule),
    /// An honest renderer sends no such message: the sender is killed.
    Kill(Rule),
}

impl Reply {
    /// The rule by which the message was refused, if it was.
    pub fn rule(&self) -> Option<Rule>
        ensures { result ≡ reply_rule self.now }
    {
        match self {
            Reply::Ok | Reply::Answer(_) => None,
            Reply::Deny(rule) | Reply::Drop(rule) | Reply::Kill(rule) => Some(*rule),
        }
    }

    /// An equal reply, in memory of its own.
    pub fn copy(&self, alloc: Global) -> Result<Self, NoMemory>
        ensures { IfOk result (λ copy. copy ≡ self.now) }
    {
        match self {
            Reply::Ok => Ok(Reply::Ok),
            Reply::Answer(text) => Ok(Reply::Answer(text.copy(alloc)?)),
            Reply::Deny(rule) => Ok(Reply::Deny(*rule)),
            Reply::Drop(rule) => Ok(Reply::Drop(*rule)),
            Reply::Kill(rule) => Ok(Reply::Kill(*rule)),
        }
    }
}
