ghost use Rattle.std.specs.Prelude.{◌≡◌, IfOk};
ghost use Rattle.history_entry.specs.CarriedRules.{carried_rule, end_rule};
ghost use Rattle.history_entry.specs.Kinds.{kind_of};

use crate::body::Message;
use crate::piece::PieceBytes;
use crate::reply::Reply;
use crate::rule::Rule;
use crate::text::{RawUrl, RequestText};
use page_origin::{NoMemory, Origin, Site, UrlText};
use std::alloc::Global;

/// Of what a followed redirect is.
#[derive(Clone, Copy, Debug, PartialEq, Eq)]
pub enum HopOf {
    Nav(u32),
    Req(u32),
}

/// What a document did by itself.
#[derive(Drop, PartialEq)]
pub enum LocalWhat {
    /// It waited until none of its requests was live.
    Waited,
    /// Its action named a frame that is not there.
    Skipped,
    /// It took the first post of its inbox.
    Took { source: Origin, text: RequestText },
}

/// How a request ended.
#[derive(Clone, Copy, Debug, PartialEq, Eq)]
pub enum EndHow {
    /// All pieces were delivered.
    Whole,
    Blocked(Rule),
    Failed(Rule),
}

/// One event of the browser.
#[derive(Drop, PartialEq)]
pub enum Entry {
    /// A start page is opened.
    Opened(u32),
    /// A process is started, unlocked.
    Warm(u32),
    /// A redirect is followed, to this URL.
    Hop(HopOf, UrlText),
    /// A navigation is ordered to a process, with its site, the origin that it commits with, and its URL.
    Order(u32, u32, Site, Origin, UrlText),
    /// A navigation ends without a commit.
    NavEnd(u32, Rule),
    /// A process sends the message of an action of a document: process, document, number of the action.
    Said(u32, u32, u32, Message, Reply),
    /// A process crashes.
    Crash(u32),
    /// A process answers the order of a navigation.
    Commit(u32, u32, Origin, RawUrl, Reply),
    /// A document does an action by itself: process, document, number of the action.
    Local(u32, u32, u32, LocalWhat),
    /// A request's response is allowed.
    Head(u32, Rule),
    /// A piece of a response is delivered: request, number of the piece.
    Piece(u32, u32, PieceBytes),
    /// A request ends.
    End(u32, EndHow),
    /// A process without documents exits.
    Exit(u32),
}

/// The kinds of entries, in the order in which the next entries are listed.
#[derive(Clone, Copy, Debug, PartialEq, Eq)]
pub enum EntryKind {
    Opened,
    Warm,
    Hop,
    Order,
    NavEnd,
    Said,
    Crash,
    Commit,
    Local,
    Head,
    Piece,
    End,
    Exit,
}

impl EndHow {
    /// The rule by which the request was blocked or failed, if it was.
    pub fn rule(self) -> Option<Rule>
        ensures { result ≡ end_rule self }
    {
        match self {
            EndHow::Whole => None,
            EndHow::Blocked(rule) | EndHow::Failed(rule) => Some(rule),
        }
    }
}

impl LocalWhat {
    /// An equal deed, in memory of its own.
    pub fn copy(&self, alloc: Global) -> Result<Self, NoMemory>
        ensures { IfOk result (λ copy. copy ≡ self.now) }
    {
        match self {
            LocalWhat::Waited => Ok(LocalWhat::Waited),
            LocalWhat::Skipped => Ok(LocalWhat::Skipped),
            LocalWhat::Took { source, text } => Ok(LocalWhat::Took {
                source: source.copy(alloc)?,
                text: text.copy(alloc)?,
            }),
        }
    }
}

impl Entry {
    /// Which of the thirteen kinds the entry is of.
    pub fn kind(&self) -> EntryKind
        ensures { result ≡ kind_of self.now }
    {
        match self {
            Entry::Opened(_) => EntryKind::Opened,
            Entry::Warm(_) => EntryKind::Warm,
            Entry::Hop(..) => EntryKind::Hop,
            Entry::Order(..) => EntryKind::Order,
            Entry::NavEnd(..) => EntryKind::NavEnd,
            Entry::Said(..) => EntryKind::Said,
            Entry::Crash(_) => EntryKind::Crash,
            Entry::Commit(..) => EntryKind::Commit,
            Entry::Local(..) => EntryKind::Local,
            Entry::Head(..) => EntryKind::Head,
            Entry::Piece(..) => EntryKind::Piece,
            Entry::End(..) => EntryKind::End,
            Entry::Exit(_) => EntryKind::Exit,
        }
    }

    /// The rule that the entry carries: of its reply, its verdict or its end.
    pub fn rule(&self) -> Option<Rule>
        ensures { result ≡ carried_rule self.now }
    {
        match self {
            Entry::NavEnd(_, rule) | Entry::Head(_, rule) => Some(*rule),
            Entry::Said(.., reply) | Entry::Commit(.., reply) => reply.rule(),
            Entry::End(_, how) => how.rule(),
            _ => None,
        }
    }

    /// An equal entry, in memory of its own.
    pub fn copy(&self, alloc: Global) -> Result<Self, NoMemory>
        ensures { IfOk result (λ copy. copy ≡ self.now) }
    {
        match self {
            Entry::Opened(page) => Ok(Entry::Opened(*page)),
            Entry::Warm(process) => Ok(Entry::Warm(*process)),
            Entry::Hop(of, url) => Ok(Entry::Hop(*of, url.copy(alloc)?)),
            Entry::Order(navigation, process, site, origin, url) => Ok(Entry::Order(
                *navigation,
                *process,
                site.copy(alloc)?,
                origin.copy(alloc)?,
                url.copy(alloc)?,
            )),
            Entry::NavEnd(navigation, rule) => Ok(Entry::NavEnd(*navigation, *rule)),
            Entry::Said(process, document, action, message, reply) => Ok(Entry::Said(
                *process,
                *document,
                *action,
                message.copy(alloc)?,
                reply.copy(alloc)?,
            )),
            Entry::Crash(process) => Ok(Entry::Crash(*process)),
            Entry::Commit(process, navigation, origin, url, reply) => Ok(Entry::Commit(
                *process,
                *navigation,
                origin.copy(alloc)?,
                url.copy(alloc)?,
                reply.copy(alloc)?,
            )),
            Entry::Local(process, document, action, what) => {
                Ok(Entry::Local(*process, *document, *action, what.copy(alloc)?))
            }
            Entry::Head(request, rule) => Ok(Entry::Head(*request, *rule)),
            Entry::Piece(request, index, bytes) => {
                Ok(Entry::Piece(*request, *index, bytes.copy(alloc)?))
            }
            Entry::End(request, how) => Ok(Entry::End(*request, *how)),
            Entry::Exit(process) => Ok(Entry::Exit(*process)),
        }
    }
}
