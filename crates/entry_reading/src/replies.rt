//! Replies.

ghost use Rattle.entry_reading.specs.Answers.{Takes};
ghost use Rattle.entry_reading.specs.Bodies as bodies;

use crate::fields::Fields;
use crate::stop::EntryStop;
use history_entry::{Reply, RequestText};
use std::alloc::Global;

impl<'a> Fields<'a> {
    /// The reply at the front, which no space stands before.
    #[tactic(auto, unfolding(crate::specs::Bodies::reply_by))]
    pub fn reply(&mut self, alloc: Global) -> Result<Reply, EntryStop>
        ensures { Takes result self.new.rest.now (bodies.reply self.old.rest.now) }
    {
        let word = self.word();
        if word == b"ok".as_slice() {
            Ok(Reply::Ok)
        } else if word == b"answer".as_slice() {
            Ok(Reply::Answer(RequestText::new(self.text(alloc)?)))
        } else if word == b"deny".as_slice() {
            Ok(Reply::Deny(self.rule()?))
        } else if word == b"drop".as_slice() {
            Ok(Reply::Drop(self.rule()?))
        } else if word == b"kill".as_slice() {
            Ok(Reply::Kill(self.rule()?))
        } else {
            Err(EntryStop::BadLine)
        }
    }
}
