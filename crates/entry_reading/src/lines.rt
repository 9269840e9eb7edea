//! The fields of each kind of entry.

ghost use Rattle.entry_reading.specs.Answers.{Takes};
ghost use Rattle.entry_reading.specs.Fields as fields;
ghost use Rattle.entry_reading.specs.Reading as reading;

use crate::fields::{Fields, url_of};
use crate::stop::EntryStop;
use history_entry::{EndHow, Entry, HopOf, LocalWhat, RawUrl, RequestText};
use page_origin::UrlText;
use std::alloc::Global;

impl<'a> Fields<'a> {
    /// The URL that the next field is, which is all that is left.
    #[tactic(auto, unfolding(crate::specs::Reading::url))]
    fn url(&mut self, alloc: Global) -> Result<UrlText, EntryStop>
        ensures { Takes result self.new.rest.now (reading.url self.old.rest.now) }
    {
        self.space()?;
        let url = url_of(alloc, self.rest)?;
        self.rest = &[];
        Ok(url)
    }

    #[tactic(auto, unfolding(crate::specs::Reading::hop_of_by))]
    fn hop_of(&mut self) -> Result<HopOf, EntryStop>
        ensures { Takes result self.new.rest.now (reading.hop_of self.old.rest.now) }
    {
        let word = self.field()?;
        if word == b"nav".as_slice() {
            Ok(HopOf::Nav(self.number()?))
        } else if word == b"req".as_slice() {
            Ok(HopOf::Req(self.number()?))
        } else {
            Err(EntryStop::BadLine)
        }
    }

    #[tactic(auto, unfolding(crate::specs::Reading::what_by))]
    fn what(&mut self, alloc: Global) -> Result<LocalWhat, EntryStop>
        ensures { Takes result self.new.rest.now (reading.what self.old.rest.now) }
    {
        let word = self.field()?;
        if word == b"waited".as_slice() {
            Ok(LocalWhat::Waited)
        } else if word == b"skipped".as_slice() {
            Ok(LocalWhat::Skipped)
        } else if word == b"took".as_slice() {
            let source = self.origin(alloc)?;
            let text = RequestText::new(self.text(alloc)?);
            Ok(LocalWhat::Took { source, text })
        } else {
            Err(EntryStop::BadLine)
        }
    }

    #[tactic(auto, unfolding(crate::specs::Reading::how_by))]
    fn how(&mut self) -> Result<EndHow, EntryStop>
        ensures { Takes result self.new.rest.now (reading.how self.old.rest.now) }
    {
        let word = self.field()?;
        if word == b"whole".as_slice() {
            Ok(EndHow::Whole)
        } else if word == b"blocked".as_slice() {
            Ok(EndHow::Blocked(self.rule()?))
        } else if word == b"failed".as_slice() {
            Ok(EndHow::Failed(self.rule()?))
        } else {
            Err(EntryStop::BadLine)
        }
    }

    #[tactic(auto, unfolding(crate::specs::Reading::hop))]
    fn hop(&mut self, alloc: Global) -> Result<Entry, EntryStop>
        ensures { Takes result self.new.rest.now (reading.hop self.old.rest.now) }
    {
        let of = self.hop_of()?;
        let url = self.url(alloc)?;
        Ok(Entry::Hop(of, url))
    }

    #[tactic(auto, unfolding(crate::specs::Reading::order))]
    fn order(&mut self, alloc: Global) -> Result<Entry, EntryStop>
        ensures { Takes result self.new.rest.now (reading.order self.old.rest.now) }
    {
        let navigation = self.number()?;
        let process = self.number()?;
        let site = self.site(alloc)?;
        let origin = self.origin(alloc)?;
        let url = self.url(alloc)?;
        Ok(Entry::Order(navigation, process, site, origin, url))
    }

    #[tactic(auto, unfolding(crate::specs::Reading::nav_end))]
    fn nav_end(&mut self) -> Result<Entry, EntryStop>
        ensures { Takes result self.new.rest.now (reading.nav_end self.old.rest.now) }
    {
        let navigation = self.number()?;
        let rule = self.rule()?;
        Ok(Entry::NavEnd(navigation, rule))
    }

    #[tactic(auto, unfolding(crate::specs::Reading::said))]
    fn said(&mut self, alloc: Global) -> Result<Entry, EntryStop>
        ensures { Takes result self.new.rest.now (reading.said self.old.rest.now) }
    {
        let process = self.number()?;
        let document = self.number()?;
        let action = self.number()?;
        self.space()?;
        let message = self.message(alloc)?;
        self.arrow()?;
        let reply = self.reply(alloc)?;
        Ok(Entry::Said(process, document, action, message, reply))
    }

    #[tactic(auto, unfolding(crate::specs::Reading::commit))]
    fn commit(&mut self, alloc: Global) -> Result<Entry, EntryStop>
        ensures { Takes result self.new.rest.now (reading.commit self.old.rest.now) }
    {
        let process = self.number()?;
        let navigation = self.number()?;
        let origin = self.origin(alloc)?;
        let url = RawUrl::new(self.text(alloc)?);
        self.arrow()?;
        let reply = self.reply(alloc)?;
        Ok(Entry::Commit(process, navigation, origin, url, reply))
    }

    #[tactic(auto, unfolding(crate::specs::Reading::local))]
    fn local(&mut self, alloc: Global) -> Result<Entry, EntryStop>
        ensures { Takes result self.new.rest.now (reading.local self.old.rest.now) }
    {
        let process = self.number()?;
        let document = self.number()?;
        let action = self.number()?;
        let what = self.what(alloc)?;
        Ok(Entry::Local(process, document, action, what))
    }

    #[tactic(auto, unfolding(crate::specs::Reading::head))]
    fn head(&mut self) -> Result<Entry, EntryStop>
        ensures { Takes result self.new.rest.now (reading.head self.old.rest.now) }
    {
        let request = self.number()?;
        let rule = self.rule()?;
        Ok(Entry::Head(request, rule))
    }

    #[tactic(auto, unfolding(crate::specs::Reading::piece))]
    fn piece_entry(&mut self, alloc: Global) -> Result<Entry, EntryStop>
        ensures { Takes result self.new.rest.now (reading.piece self.old.rest.now) }
    {
        let request = self.number()?;
        let index = self.number()?;
        let bytes = self.piece(alloc)?;
        Ok(Entry::Piece(request, index, bytes))
    }

    #[tactic(auto, unfolding(crate::specs::Reading::end))]
    fn end(&mut self) -> Result<Entry, EntryStop>
        ensures { Takes result self.new.rest.now (reading.end self.old.rest.now) }
    {
        let request = self.number()?;
        let how = self.how()?;
        Ok(Entry::End(request, how))
    }

    /// The entry at the front: its word tells which kind it is.
    #[tactic(auto, unfolding(crate::specs::Reading::entry_by))]
    pub fn entry(&mut self, alloc: Global) -> Result<Entry, EntryStop>
        ensures { Takes result self.new.rest.now (reading.entry_by (fields.before 32 self.old.rest.now) (fields.onwards 32 self.old.rest.now)) }
    {
        let word = self.word();
        if word == b"open".as_slice() {
            Ok(Entry::Opened(self.number()?))
        } else if word == b"warm".as_slice() {
            Ok(Entry::Warm(self.number()?))
        } else if word == b"hop".as_slice() {
            self.hop(alloc)
        } else if word == b"order".as_slice() {
            self.order(alloc)
        } else if word == b"navend".as_slice() {
            self.nav_end()
        } else if word == b"said".as_slice() {
            self.said(alloc)
        } else if word == b"crash".as_slice() {
            Ok(Entry::Crash(self.number()?))
        } else if word == b"commit".as_slice() {
            self.commit(alloc)
        } else if word == b"local".as_slice() {
            self.local(alloc)
        } else if word == b"head".as_slice() {
            self.head()
        } else if word == b"piece".as_slice() {
            self.piece_entry(alloc)
        } else if word == b"end".as_slice() {
            self.end()
        } else if word == b"exit".as_slice() {
            Ok(Entry::Exit(self.number()?))
        } else {
            Err(EntryStop::BadLine)
        }
    }
}
