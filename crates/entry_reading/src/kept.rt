//! What the types of entries, messages and replies keep.

ghost use Rattle.std.specs.Prelude.{◌<◌, length};
ghost use Rattle.std.specs.List.{AllByRecursion};
ghost use Rattle.hex.specs.Hex.{IsBytes};
ghost use Rattle.entry_reading.specs.Entries as entries;

use history_entry::{Body, Entry, HopOf, LocalWhat, Message, PieceBytes, Reply, Src, Target};
use page_origin::{Origin, Site};

fn number_is_kept(_number: u32)
    ensures { entries.IsNumber _number }
{}

fn port_is_kept(_port: u16)
    ensures { entries.IsPort _port }
{}

fn site_is_kept(site: &Site)
    ensures { entries.IsSite site.now }
{
    let _host = site.host.as_str();
    match site.only {
        Some(port) => port_is_kept(port),
        None => {}
    }
}

fn origin_is_kept(origin: &Origin)
    ensures { entries.IsOrigin origin.now }
{
    match origin {
        Origin::Tuple(tuple) => {
            let _host = tuple.host.as_str();
            port_is_kept(tuple.port);
        }
        Origin::Opaque(opaque) => {
            number_is_kept(opaque.document);
            site_is_kept(&opaque.precursor);
        }
    }
}

/// Every source of a frame is one that its type keeps.
pub fn source_is_kept(source: &Src)
    ensures { entries.IsSource source.now }
{
    match source {
        Src::Url(url) => {
            let _url = url.as_str();
        }
        Src::Doc(index) => number_is_kept(*index),
    }
}

/// Every target of a post is one that its type keeps.
pub fn target_is_kept(target: &Target)
    ensures { entries.IsTarget target.now }
{
    match target {
        Target::Any | Target::Own => {}
        Target::Of(origin) => origin_is_kept(origin),
    }
}

fn body_is_kept(body: &Body)
    ensures { entries.IsBody body.now }
{
    match body {
        Body::Navigate {
            frame,
            url,
            initiator,
        } => {
            number_is_kept(*frame);
            let _url = url.as_str();
            origin_is_kept(initiator);
        }
        Body::AddFrame { src, .. } => source_is_kept(src),
        Body::RemoveFrame { frame } => number_is_kept(*frame),
        Body::OpenPage { url } => {
            let _url = url.as_str();
        }
        Body::Fetch { url, initiator, .. } => {
            let _url = url.as_str();
            origin_is_kept(initiator);
        }
        Body::Post {
            frame,
            target,
            source,
            text,
        } => {
            number_is_kept(*frame);
            target_is_kept(target);
            origin_is_kept(source);
            let _text = text.as_str();
        }
        Body::Ask {
            service,
            origin,
            request,
        } => {
            let _service = service.as_str();
            origin_is_kept(origin);
            let _request = request.as_str();
        }
        Body::DidCommit { nav, url, origin } => {
            number_is_kept(*nav);
            let _url = url.as_str();
            origin_is_kept(origin);
        }
    }
}

/// Every message is one that its type keeps.
pub fn message_is_kept(message: &Message)
    ensures { entries.IsMessage message.now }
{
    number_is_kept(message.document);
    body_is_kept(&message.body);
}

/// Every reply is one that its type keeps.
pub fn reply_is_kept(reply: &Reply)
    ensures { entries.IsReply reply.now }
{
    match reply {
        Reply::Answer(text) => {
            let _text = text.as_str();
        }
        Reply::Ok => {}
        Reply::Deny(_) => {}
        Reply::Drop(_) => {}
        Reply::Kill(_) => {}
    }
}

fn what_is_kept(what: &LocalWhat)
    ensures { entries.IsWhat what.now }
{
    match what {
        LocalWhat::Waited | LocalWhat::Skipped => {}
        LocalWhat::Took { source, text } => {
            origin_is_kept(source);
            let _text = text.as_str();
        }
    }
}

fn hop_is_kept(of: &HopOf)
    ensures { entries.IsHopOf of.now }
{
    match of {
        HopOf::Nav(navigation) => number_is_kept(*navigation),
        HopOf::Req(request) => number_is_kept(*request),
    }
}

fn bytes_are_kept(_bytes: &[u8])
    ensures { IsBytes _bytes.now }
{}

fn piece_is_kept(piece: &PieceBytes)
    ensures bytes { IsBytes piece.now }
    ensures some { 0 < length piece.now }
{
    bytes_are_kept(piece.as_bytes());
}

/// Every entry is one that its type keeps.
pub fn entry_is_kept(entry: &Entry)
    ensures { entries.IsEntry entry.now }
{
    match entry {
        Entry::Hop(of, url) => {
            hop_is_kept(of);
            let _url = url.as_str();
        }
        Entry::Order(navigation, process, site, origin, url) => {
            number_is_kept(*navigation);
            number_is_kept(*process);
            site_is_kept(site);
            origin_is_kept(origin);
            let _url = url.as_str();
        }
        Entry::Said(process, document, action, message, reply) => {
            number_is_kept(*process);
            number_is_kept(*document);
            number_is_kept(*action);
            message_is_kept(message);
            reply_is_kept(reply);
        }
        Entry::Commit(process, navigation, origin, url, reply) => {
            number_is_kept(*process);
            number_is_kept(*navigation);
            origin_is_kept(origin);
            let _url = url.as_str();
            reply_is_kept(reply);
        }
        Entry::Local(process, document, action, what) => {
            number_is_kept(*process);
            number_is_kept(*document);
            number_is_kept(*action);
            what_is_kept(what);
        }
        Entry::Piece(request, index, bytes) => {
            number_is_kept(*request);
            number_is_kept(*index);
            piece_is_kept(bytes);
        }
        Entry::Opened(number) => number_is_kept(*number),
        Entry::Warm(number) => number_is_kept(*number),
        Entry::NavEnd(number, _) => number_is_kept(*number),
        Entry::Crash(number) => number_is_kept(*number),
        Entry::Head(number, _) => number_is_kept(*number),
        Entry::End(number, _) => number_is_kept(*number),
        Entry::Exit(number) => number_is_kept(*number),
    }
}

/// Every entry of a list is one that its type keeps.
#[tactic(auto, using(crate::proofs::KeptEntries::entries_more))]
pub fn entries_are_kept(history: &[Entry])
    ensures { AllByRecursion entries.IsEntry history.now }
{
    for entry in history {
        entry_is_kept(entry);
    }
}
