ghost use Rattle.std.specs.Prelude.{◌≡◌, IfOk};

use crate::text::{RawUrl, RequestText, ServiceName};
use page_origin::{NoMemory, Origin};
use std::alloc::Global;

/// The mode of a request, as in the Fetch Standard.
#[derive(Clone, Copy, Debug, PartialEq, Eq)]
pub enum Mode {
    Cors,
    NoCors,
}

/// Where a frame's first document comes from.
#[derive(Drop, PartialEq)]
pub enum Src {
    Url(RawUrl),
    /// The resource with this number gives the actions of an `about:srcdoc` document.
    Doc(u32),
}

/// To whom a post is given.
#[derive(Drop, PartialEq)]
pub enum Target {
    /// To any document, `*`.
    Any,
    /// To a document of the sender's own origin, `/`.
    Own,
    Of(Origin),
}

/// What a renderer asks of the browser. A compromised one may name whatever it wants.
#[derive(Drop, PartialEq)]
pub enum Body {
    Navigate {
        frame: u32,
        url: RawUrl,
        initiator: Origin,
    },
    AddFrame {
        src: Src,
        sandbox: bool,
    },
    RemoveFrame {
        frame: u32,
    },
    OpenPage {
        url: RawUrl,
    },
    Fetch {
        url: RawUrl,
        mode: Mode,
        initiator: Origin,
    },
    Post {
        frame: u32,
        target: Target,
        source: Origin,
        text: RequestText,
    },
    Ask {
        service: ServiceName,
        origin: Origin,
        request: RequestText,
    },
    DidCommit {
        nav: u32,
        url: RawUrl,
        origin: Origin,
    },
}

/// A message of a renderer, in the name of a document.
#[derive(Drop, PartialEq)]
pub struct Message {
    pub document: u32,
    pub body: Body,
}

impl Src {
    /// An equal source, in memory of its own.
    pub fn copy(&self, alloc: Global) -> Result<Self, NoMemory>
        ensures { IfOk result (λ copy. copy ≡ self.now) }
    {
        match self {
            Src::Url(url) => Ok(Src::Url(url.copy(alloc)?)),
            Src::Doc(index) => Ok(Src::Doc(*index)),
        }
    }
}

impl Target {
    /// An equal target, in memory of its own.
    pub fn copy(&self, alloc: Global) -> Result<Self, NoMemory>
        ensures { IfOk result (λ copy. copy ≡ self.now) }
    {
        match self {
            Target::Any => Ok(Target::Any),
            Target::Own => Ok(Target::Own),
            Target::Of(origin) => Ok(Target::Of(origin.copy(alloc)?)),
        }
    }
}

impl Message {
    /// An equal message, in memory of its own.
    pub fn copy(&self, alloc: Global) -> Result<Self, NoMemory>
        ensures { IfOk result (λ copy. copy ≡ self.now) }
    {
        Ok(Message {
            document: self.document,
            body: self.body.copy(alloc)?,
        })
    }
}

impl Body {
    /// An equal body, in memory of its own.
    pub fn copy(&self, alloc: Global) -> Result<Self, NoMemory>
        ensures { IfOk result (λ copy. copy ≡ self.now) }
    {
        match self {
            Body::Navigate {
                frame,
                url,
                initiator,
            } => Ok(Body::Navigate {
                frame: *frame,
                url: url.copy(alloc)?,
                initiator: initiator.copy(alloc)?,
            }),
            Body::AddFrame { src, sandbox } => Ok(Body::AddFrame {
                src: src.copy(alloc)?,
                sandbox: *sandbox,
            }),
            Body::RemoveFrame { frame } => Ok(Body::RemoveFrame { frame: *frame }),
            Body::OpenPage { url } => Ok(Body::OpenPage {
                url: url.copy(alloc)?,
            }),
            Body::Fetch {
                url,
                mode,
                initiator,
            } => Ok(Body::Fetch {
                url: url.copy(alloc)?,
                mode: *mode,
                initiator: initiator.copy(alloc)?,
            }),
            Body::Post {
                frame,
                target,
                source,
                text,
            } => Ok(Body::Post {
                frame: *frame,
                target: target.copy(alloc)?,
                source: source.copy(alloc)?,
                text: text.copy(alloc)?,
            }),
            Body::Ask {
                service,
                origin,
                request,
            } => Ok(Body::Ask {
                service: service.copy(alloc)?,
                origin: origin.copy(alloc)?,
                request: request.copy(alloc)?,
            }),
            Body::DidCommit { nav, url, origin } => Ok(Body::DidCommit {
                nav: *nav,
                url: url.copy(alloc)?,
                origin: origin.copy(alloc)?,
            }),
        }
    }
}
