use history_entry::{Mode, RawUrl, RequestText, ServiceName, Src, Target};
use page_origin::TupleOrigin;

/// A frame as a document names it.
#[derive(Clone, Copy, Debug, PartialEq, Eq)]
pub enum FrameRef {
    Own,
    Parent,
    Top,
    Opener,
    /// The frame that the document added, by its place among these.
    Child(u32),
}

/// What a forged message says. None stands for the running document's own origin.
#[derive(Drop)]
pub enum RawBody {
    Navigate {
        frame: u32,
        url: RawUrl,
        initiator: Option<TupleOrigin>,
    },
    Frame {
        src: Src,
        sandbox: bool,
    },
    Remove {
        frame: u32,
    },
    Page {
        url: RawUrl,
    },
    Fetch {
        url: RawUrl,
        mode: Mode,
        initiator: Option<TupleOrigin>,
    },
    Post {
        frame: u32,
        target: Target,
        source: Option<TupleOrigin>,
        text: RequestText,
    },
    Ask {
        service: ServiceName,
        origin: Option<TupleOrigin>,
        request: RequestText,
    },
    Commit {
        nav: u32,
        url: RawUrl,
        origin: TupleOrigin,
    },
}

/// A forged message. None stands for the running document.
#[derive(Drop)]
pub struct RawMessage {
    pub document: Option<u32>,
    pub body: RawBody,
}

/// What a document does, one after another.
#[derive(Drop)]
pub enum Action {
    Frame {
        src: Src,
        sandbox: bool,
    },
    /// Removes the frame that the document added, by its place among these.
    Remove {
        child: u32,
    },
    Navigate {
        frame: FrameRef,
        url: RawUrl,
    },
    Page {
        url: RawUrl,
    },
    Fetch {
        url: RawUrl,
        mode: Mode,
    },
    Post {
        frame: FrameRef,
        target: Target,
        text: RequestText,
    },
    Ask {
        service: ServiceName,
        request: RequestText,
    },
    Wait,
    Recv,
    Crash,
    Raw(RawMessage),
}
