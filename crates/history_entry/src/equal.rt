//! Equality of whole values, as clauses say it.

ghost use Rattle.std.specs.Prelude.{◌≡◌, ◌↔◌, IsTrue};

use crate::body::{Body, Message, Mode, Src, Target};
use crate::entry::{EndHow, Entry, HopOf, LocalWhat};
use crate::piece::PieceBytes;
use crate::reply::Reply;
use crate::rule::Rule;
use crate::text::{RawUrl, RequestText, ServiceName};
use page_origin::{Origin, UrlText, equal_origins, equal_sites};

fn equal_rules(a: &Rule, b: &Rule) -> bool
    ensures { IsTrue result ↔ (a.now ≡ b.now) }
{
    a == b
}

fn equal_hops(a: &HopOf, b: &HopOf) -> bool
    ensures { IsTrue result ↔ (a.now ≡ b.now) }
{
    a == b
}

fn equal_ends(a: &EndHow, b: &EndHow) -> bool
    ensures { IsTrue result ↔ (a.now ≡ b.now) }
{
    match (a, b) {
        (EndHow::Whole, EndHow::Whole) => true,
        (EndHow::Blocked(x), EndHow::Blocked(y)) => equal_rules(x, y),
        (EndHow::Failed(x), EndHow::Failed(y)) => equal_rules(x, y),
        _ => false,
    }
}

fn equal_sources(a: &Src, b: &Src) -> bool
    ensures { IsTrue result ↔ (a.now ≡ b.now) }
{
    a == b
}

fn equal_texts(a: &RequestText, b: &RequestText) -> bool
    ensures { IsTrue result ↔ (a.now ≡ b.now) }
{
    a == b
}

fn equal_raw_urls(a: &RawUrl, b: &RawUrl) -> bool
    ensures { IsTrue result ↔ (a.now ≡ b.now) }
{
    a == b
}

fn equal_names(a: &ServiceName, b: &ServiceName) -> bool
    ensures { IsTrue result ↔ (a.now ≡ b.now) }
{
    a == b
}

fn equal_urls(a: &UrlText, b: &UrlText) -> bool
    ensures { IsTrue result ↔ (a.now ≡ b.now) }
{
    a == b
}

fn equal_pieces(a: &PieceBytes, b: &PieceBytes) -> bool
    ensures { IsTrue result ↔ (a.now ≡ b.now) }
{
    a == b
}

fn equal_targets(a: &Target, b: &Target) -> bool
    ensures { IsTrue result ↔ (a.now ≡ b.now) }
{
    match (a, b) {
        (Target::Any, Target::Any) => true,
        (Target::Own, Target::Own) => true,
        (Target::Of(x), Target::Of(y)) => equal_origins(x, y),
        _ => false,
    }
}

fn is_navigation(body: &Body, frame: u32, url: &RawUrl, initiator: &Origin) -> bool
    ensures { IsTrue result ↔ (Body.Navigate frame url.now initiator.now ≡ body.now) }
{
    match body {
        Body::Navigate {
            frame: other_frame,
            url: other_url,
            initiator: other_initiator,
        } => {
            frame == *other_frame
                && equal_raw_urls(url, other_url)
                && equal_origins(initiator, other_initiator)
        }
        _ => false,
    }
}

fn is_frame(body: &Body, src: &Src, sandbox: bool) -> bool
    ensures { IsTrue result ↔ (Body.AddFrame src.now sandbox ≡ body.now) }
{
    match body {
        Body::AddFrame {
            src: other_src,
            sandbox: other_sandbox,
        } => sandbox == *other_sandbox && equal_sources(src, other_src),
        _ => false,
    }
}

fn is_fetch(body: &Body, url: &RawUrl, mode: Mode, initiator: &Origin) -> bool
    ensures { IsTrue result ↔ (Body.Fetch url.now mode initiator.now ≡ body.now) }
{
    match body {
        Body::Fetch {
            url: other_url,
            mode: other_mode,
            initiator: other_initiator,
        } => {
            mode == *other_mode
                && equal_raw_urls(url, other_url)
                && equal_origins(initiator, other_initiator)
        }
        _ => false,
    }
}

fn is_post(body: &Body, frame: u32, target: &Target, source: &Origin, text: &RequestText) -> bool
    ensures { IsTrue result ↔ (Body.Post frame target.now source.now text.now ≡ body.now) }
{
    match body {
        Body::Post {
            frame: other_frame,
            target: other_target,
            source: other_source,
            text: other_text,
        } => {
            frame == *other_frame
                && equal_targets(target, other_target)
                && equal_origins(source, other_source)
                && equal_texts(text, other_text)
        }
        _ => false,
    }
}

fn is_ask(body: &Body, service: &ServiceName, origin: &Origin, request: &RequestText) -> bool
    ensures { IsTrue result ↔ (Body.Ask service.now origin.now request.now ≡ body.now) }
{
    match body {
        Body::Ask {
            service: other_service,
            origin: other_origin,
            request: other_request,
        } => {
            equal_names(service, other_service)
                && equal_origins(origin, other_origin)
                && equal_texts(request, other_request)
        }
        _ => false,
    }
}

fn is_commit(body: &Body, nav: u32, url: &RawUrl, origin: &Origin) -> bool
    ensures { IsTrue result ↔ (Body.DidCommit nav url.now origin.now ≡ body.now) }
{
    match body {
        Body::DidCommit {
            nav: other_nav,
            url: other_url,
            origin: other_origin,
        } => {
            nav == *other_nav
                && equal_raw_urls(url, other_url)
                && equal_origins(origin, other_origin)
        }
        _ => false,
    }
}

fn equal_bodies(a: &Body, b: &Body) -> bool
    ensures { IsTrue result ↔ (a.now ≡ b.now) }
{
    match (a, b) {
        (
            Body::Navigate {
                frame,
                url,
                initiator,
            },
            other,
        ) => is_navigation(other, *frame, url, initiator),
        (Body::AddFrame { src, sandbox }, other) => is_frame(other, src, *sandbox),
        (Body::RemoveFrame { frame }, Body::RemoveFrame { frame: other_frame }) => {
            frame == other_frame
        }
        (Body::OpenPage { url }, Body::OpenPage { url: other_url }) => {
            equal_raw_urls(url, other_url)
        }
        (
            Body::Fetch {
                url,
                mode,
                initiator,
            },
            other,
        ) => is_fetch(other, url, *mode, initiator),
        (
            Body::Post {
                frame,
                target,
                source,
                text,
            },
            other,
        ) => is_post(other, *frame, target, source, text),
        (
            Body::Ask {
                service,
                origin,
                request,
            },
            other,
        ) => is_ask(other, service, origin, request),
        (Body::DidCommit { nav, url, origin }, other) => is_commit(other, *nav, url, origin),
        _ => false,
    }
}

/// Whether two messages are equal.
pub fn equal_messages(a: &Message, b: &Message) -> bool
    ensures { IsTrue result ↔ (a.now ≡ b.now) }
{
    a.document == b.document && equal_bodies(&a.body, &b.body)
}

fn equal_replies(a: &Reply, b: &Reply) -> bool
    ensures { IsTrue result ↔ (a.now ≡ b.now) }
{
    match (a, b) {
        (Reply::Ok, Reply::Ok) => true,
        (Reply::Answer(x), Reply::Answer(y)) => equal_texts(x, y),
        (Reply::Deny(x), Reply::Deny(y)) => equal_rules(x, y),
        (Reply::Drop(x), Reply::Drop(y)) => equal_rules(x, y),
        (Reply::Kill(x), Reply::Kill(y)) => equal_rules(x, y),
        _ => false,
    }
}

fn equal_locals(a: &LocalWhat, b: &LocalWhat) -> bool
    ensures { IsTrue result ↔ (a.now ≡ b.now) }
{
    match (a, b) {
        (LocalWhat::Waited, LocalWhat::Waited) => true,
        (LocalWhat::Skipped, LocalWhat::Skipped) => true,
        (LocalWhat::Took { source: x, text: t }, LocalWhat::Took { source: y, text: u }) =>
            equal_origins(x, y) && equal_texts(t, u),
        _ => false,
    }
}

/// Whether two entries are equal as whole values.
pub fn equal_entries(a: &Entry, b: &Entry) -> bool
    ensures { IsTrue result ↔ (a.now ≡ b.now) }
{
    match (a, b) {
        (Entry::Opened(a0), Entry::Opened(b0)) => a0 == b0,
        (Entry::Warm(a0), Entry::Warm(b0)) => a0 == b0,
        (Entry::Hop(a0, a1), Entry::Hop(b0, b1)) => equal_hops(a0, b0) && equal_urls(a1, b1),
        (Entry::Order(a0, a1, a2, a3, a4), Entry::Order(b0, b1, b2, b3, b4)) => {
            a0 == b0
                && a1 == b1
                && equal_sites(a2, b2)
                && equal_origins(a3, b3)
                && equal_urls(a4, b4)
        }
        (Entry::NavEnd(a0, a1), Entry::NavEnd(b0, b1)) => a0 == b0 && equal_rules(a1, b1),
        (Entry::Said(a0, a1, a2, a3, a4), Entry::Said(b0, b1, b2, b3, b4)) => {
            a0 == b0 && a1 == b1 && a2 == b2 && equal_messages(a3, b3) && equal_replies(a4, b4)
        }
        (Entry::Crash(a0), Entry::Crash(b0)) => a0 == b0,
        (Entry::Commit(a0, a1, a2, a3, a4), Entry::Commit(b0, b1, b2, b3, b4)) => {
            a0 == b0
                && a1 == b1
                && equal_origins(a2, b2)
                && equal_raw_urls(a3, b3)
                && equal_replies(a4, b4)
        }
        (Entry::Local(a0, a1, a2, a3), Entry::Local(b0, b1, b2, b3)) => {
            a0 == b0 && a1 == b1 && a2 == b2 && equal_locals(a3, b3)
        }
        (Entry::Head(a0, a1), Entry::Head(b0, b1)) => a0 == b0 && equal_rules(a1, b1),
        (Entry::Piece(a0, a1, a2), Entry::Piece(b0, b1, b2)) => {
            a0 == b0 && a1 == b1 && equal_pieces(a2, b2)
        }
        (Entry::End(a0, a1), Entry::End(b0, b1)) => a0 == b0 && equal_ends(a1, b1),
        (Entry::Exit(a0), Entry::Exit(b0)) => a0 == b0,
        _ => false,
    }
}
