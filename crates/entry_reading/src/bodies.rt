//! The bodies of messages.

ghost use Rattle.std.specs.Prelude.{◌≡◌};
ghost use Rattle.entry_reading.specs.Answers.{Gives, Takes};
ghost use Rattle.entry_reading.specs.Fields as fields;
ghost use Rattle.entry_reading.specs.Bodies as bodies;

use crate::fields::{Fields, number_of};
use crate::origins::origin_of;
use crate::stop::EntryStop;
use history_entry::{Body, Message, Mode, RawUrl, RequestText, ServiceName, Src, Target};
use std::alloc::Global;

fn mode_of(text: &[u8]) -> Result<Mode, EntryStop>
    ensures { Gives result (bodies.mode_of text.now) }
{
    if text == b"cors".as_slice() {
        Ok(Mode::Cors)
    } else if text == b"no-cors".as_slice() {
        Ok(Mode::NoCors)
    } else {
        Err(EntryStop::BadLine)
    }
}

fn sandbox_of(text: &[u8]) -> Result<bool, EntryStop>
    ensures { Gives result (bodies.sandbox_of text.now) }
{
    if text == b"sandboxed".as_slice() {
        Ok(true)
    } else if text == b"plain".as_slice() {
        Ok(false)
    } else {
        Err(EntryStop::BadLine)
    }
}

fn target_of(alloc: Global, text: &[u8]) -> Result<Target, EntryStop>
    ensures { Gives result (bodies.target_of text.now) }
{
    if text == b"*".as_slice() {
        Ok(Target::Any)
    } else if text == b"/".as_slice() {
        Ok(Target::Own)
    } else {
        Ok(Target::Of(origin_of(alloc, text)?))
    }
}

impl<'a> Fields<'a> {
    fn mode(&mut self) -> Result<Mode, EntryStop>
        ensures { Takes result self.new.rest.now (fields.field_by bodies.mode_of self.old.rest.now) }
    {
        let field = self.field()?;
        mode_of(field)
    }

    fn sandbox(&mut self) -> Result<bool, EntryStop>
        ensures { Takes result self.new.rest.now (fields.field_by bodies.sandbox_of self.old.rest.now) }
    {
        let field = self.field()?;
        sandbox_of(field)
    }

    fn target(&mut self, alloc: Global) -> Result<Target, EntryStop>
        ensures { Takes result self.new.rest.now (fields.field_by bodies.target_of self.old.rest.now) }
    {
        let field = self.field()?;
        target_of(alloc, field)
    }

    #[tactic(auto, unfolding(crate::specs::Bodies::src_by))]
    fn src(&mut self, alloc: Global) -> Result<Src, EntryStop>
        ensures { Takes result self.new.rest.now (bodies.src self.old.rest.now) }
    {
        let word = self.field()?;
        if word == b"url".as_slice() {
            Ok(Src::Url(RawUrl::new(self.text(alloc)?)))
        } else if word == b"doc".as_slice() {
            Ok(Src::Doc(self.number()?))
        } else {
            Err(EntryStop::BadLine)
        }
    }

    #[tactic(auto, unfolding(crate::specs::Bodies::navigate))]
    fn navigate(&mut self, alloc: Global) -> Result<Body, EntryStop>
        ensures { Takes result self.new.rest.now (bodies.navigate self.old.rest.now) }
    {
        let frame = self.number()?;
        let initiator = self.origin(alloc)?;
        let url = RawUrl::new(self.text(alloc)?);
        Ok(Body::Navigate {
            frame,
            url,
            initiator,
        })
    }

    #[tactic(auto, unfolding(crate::specs::Bodies::add_frame))]
    fn add_frame(&mut self, alloc: Global) -> Result<Body, EntryStop>
        ensures { Takes result self.new.rest.now (bodies.add_frame self.old.rest.now) }
    {
        let sandbox = self.sandbox()?;
        let src = self.src(alloc)?;
        Ok(Body::AddFrame { src, sandbox })
    }

    #[tactic(auto, unfolding(crate::specs::Bodies::remove_frame))]
    fn remove_frame(&mut self) -> Result<Body, EntryStop>
        ensures { Takes result self.new.rest.now (bodies.remove_frame self.old.rest.now) }
    {
        let frame = self.number()?;
        Ok(Body::RemoveFrame { frame })
    }

    #[tactic(auto, unfolding(crate::specs::Bodies::open_page))]
    fn open_page(&mut self, alloc: Global) -> Result<Body, EntryStop>
        ensures { Takes result self.new.rest.now (bodies.open_page self.old.rest.now) }
    {
        let url = RawUrl::new(self.text(alloc)?);
        Ok(Body::OpenPage { url })
    }

    #[tactic(auto, unfolding(crate::specs::Bodies::fetch))]
    fn fetch(&mut self, alloc: Global) -> Result<Body, EntryStop>
        ensures { Takes result self.new.rest.now (bodies.fetch self.old.rest.now) }
    {
        let mode = self.mode()?;
        let initiator = self.origin(alloc)?;
        let url = RawUrl::new(self.text(alloc)?);
        Ok(Body::Fetch {
            url,
            mode,
            initiator,
        })
    }

    #[tactic(auto, unfolding(crate::specs::Bodies::post))]
    fn post(&mut self, alloc: Global) -> Result<Body, EntryStop>
        ensures { Takes result self.new.rest.now (bodies.post self.old.rest.now) }
    {
        let frame = self.number()?;
        let target = self.target(alloc)?;
        let source = self.origin(alloc)?;
        let text = RequestText::new(self.text(alloc)?);
        Ok(Body::Post {
            frame,
            target,
            source,
            text,
        })
    }

    #[tactic(auto, unfolding(crate::specs::Bodies::ask))]
    fn ask(&mut self, alloc: Global) -> Result<Body, EntryStop>
        ensures { Takes result self.new.rest.now (bodies.ask self.old.rest.now) }
    {
        let service = ServiceName::new(self.text(alloc)?);
        let origin = self.origin(alloc)?;
        let request = RequestText::new(self.text(alloc)?);
        Ok(Body::Ask {
            service,
            origin,
            request,
        })
    }

    #[tactic(auto, unfolding(crate::specs::Bodies::did_commit))]
    fn did_commit(&mut self, alloc: Global) -> Result<Body, EntryStop>
        ensures { Takes result self.new.rest.now (bodies.did_commit self.old.rest.now) }
    {
        let nav = self.number()?;
        let origin = self.origin(alloc)?;
        let url = RawUrl::new(self.text(alloc)?);
        Ok(Body::DidCommit { nav, url, origin })
    }

    #[tactic(auto, unfolding(crate::specs::Bodies::body_by))]
    fn body(&mut self, alloc: Global) -> Result<Body, EntryStop>
        ensures { Takes result self.new.rest.now (bodies.body self.old.rest.now) }
    {
        let word = self.field()?;
        if word == b"navigate".as_slice() {
            self.navigate(alloc)
        } else if word == b"frame".as_slice() {
            self.add_frame(alloc)
        } else if word == b"remove".as_slice() {
            self.remove_frame()
        } else if word == b"page".as_slice() {
            self.open_page(alloc)
        } else if word == b"fetch".as_slice() {
            self.fetch(alloc)
        } else if word == b"post".as_slice() {
            self.post(alloc)
        } else if word == b"ask".as_slice() {
            self.ask(alloc)
        } else if word == b"commit".as_slice() {
            self.did_commit(alloc)
        } else {
            Err(EntryStop::BadLine)
        }
    }

    /// The message at the front, which no space stands before.
    #[tactic(auto, unfolding(crate::specs::Bodies::message))]
    pub fn message(&mut self, alloc: Global) -> Result<Message, EntryStop>
        ensures { Takes result self.new.rest.now (bodies.message self.old.rest.now) }
    {
        let document = number_of(self.word())?;
        let body = self.body(alloc)?;
        Ok(Message { document, body })
    }
}
