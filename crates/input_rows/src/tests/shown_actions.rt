//! What tests show of an action: its word and its values, in the order of the table.

use script_model::{
    Action, FrameRef, Mode, Origin, RawBody, RawMessage, RawUrl, RequestText, ServiceName, Src,
    Target, TupleOrigin,
};
use std::alloc::Global;
use std::test::Fail;

fn shown_tuple(alloc: Global, tuple: &TupleOrigin) -> Result<String, Fail> {
    let scheme = tuple.scheme.as_str();
    let host = tuple.host.as_str();
    let port = tuple.port;
    Ok(format!(in alloc; "{scheme}://{host}:{port}")?)
}

fn shown_frame(alloc: Global, frame: FrameRef) -> Result<String, Fail> {
    match frame {
        FrameRef::Own => Ok(String::from_str(alloc, "self")?),
        FrameRef::Parent => Ok(String::from_str(alloc, "parent")?),
        FrameRef::Top => Ok(String::from_str(alloc, "top")?),
        FrameRef::Opener => Ok(String::from_str(alloc, "opener")?),
        FrameRef::Child(n) => Ok(format!(in alloc; "child {n}")?),
    }
}

fn shown_target(alloc: Global, target: &Target) -> Result<String, Fail> {
    match target {
        Target::Any => Ok(String::from_str(alloc, "*")?),
        Target::Own => Ok(String::from_str(alloc, "/")?),
        Target::Of(Origin::Tuple(tuple)) => shown_tuple(alloc, tuple),
        Target::Of(Origin::Opaque(_)) => Err(Fail::new("a target is opaque")),
    }
}

fn shown_source(alloc: Global, src: &Src, sandbox: bool) -> Result<String, Fail> {
    let sandbox = if sandbox { "sandboxed" } else { "plain" };
    match src {
        Src::Url(url) => {
            let url = url.as_str();
            Ok(format!(in alloc; "frame {sandbox} url {url}")?)
        }
        Src::Doc(index) => Ok(format!(in alloc; "frame {sandbox} doc {index}")?),
    }
}

fn shown_page(alloc: Global, url: &RawUrl) -> Result<String, Fail> {
    let url = url.as_str();
    Ok(format!(in alloc; "page {url}")?)
}

fn shown_fetch(alloc: Global, url: &RawUrl, mode: Mode) -> Result<String, Fail> {
    let url = url.as_str();
    match mode {
        Mode::Cors => Ok(format!(in alloc; "fetch {url} cors")?),
        Mode::NoCors => Ok(format!(in alloc; "fetch {url} no-cors")?),
    }
}

fn shown_post(
    alloc: Global,
    frame: &str,
    target: &Target,
    text: &RequestText,
) -> Result<String, Fail> {
    let target = shown_target(alloc, target)?;
    let text = text.as_str();
    Ok(format!(in alloc; "post {frame} {target} {text}")?)
}

fn shown_ask(alloc: Global, service: &ServiceName, request: &RequestText) -> Result<String, Fail> {
    let service = service.as_str();
    let request = request.as_str();
    Ok(format!(in alloc; "ask {service} {request}")?)
}

fn shown_url(alloc: Global, word: &str, place: &str, url: &RawUrl) -> Result<String, Fail> {
    let url = url.as_str();
    Ok(format!(in alloc; "{word} {place} {url}")?)
}

fn shown_body(alloc: Global, body: &RawBody) -> Result<String, Fail> {
    match body {
        RawBody::Navigate { frame, url, .. } => {
            let frame = frame.to_string(alloc)?;
            shown_url(alloc, "navigate", frame.as_str(), url)
        }
        RawBody::Frame { src, sandbox } => shown_source(alloc, src, *sandbox),
        RawBody::Remove { frame } => Ok(format!(in alloc; "remove {frame}")?),
        RawBody::Page { url } => shown_page(alloc, url),
        RawBody::Fetch { url, mode, .. } => shown_fetch(alloc, url, *mode),
        RawBody::Post {
            frame,
            target,
            text,
            ..
        } => {
            let frame = frame.to_string(alloc)?;
            shown_post(alloc, frame.as_str(), target, text)
        }
        RawBody::Ask {
            service,
            request,
            ..
        } => shown_ask(alloc, service, request),
        RawBody::Commit { nav, url, .. } => {
            let nav = nav.to_string(alloc)?;
            shown_url(alloc, "commit", nav.as_str(), url)
        }
    }
}

/// The origin that a message claims.
fn claim_of(body: &RawBody) -> Option<&TupleOrigin> {
    match body {
        RawBody::Navigate { initiator, .. } => initiator.as_ref(),
        RawBody::Fetch { initiator, .. } => initiator.as_ref(),
        RawBody::Post { source, .. } => source.as_ref(),
        RawBody::Ask { origin, .. } => origin.as_ref(),
        RawBody::Commit { origin, .. } => Some(origin),
        RawBody::Frame { .. } | RawBody::Remove { .. } | RawBody::Page { .. } => None,
    }
}

/// A forged message: in whose name, as which origin, and what it says. Both are `own` where they are left out.
fn shown_message(alloc: Global, message: &RawMessage) -> Result<String, Fail> {
    let document = match message.document {
        Some(document) => document.to_string(alloc)?,
        None => String::from_str(alloc, "own")?,
    };
    let claim = match claim_of(&message.body) {
        Some(tuple) => shown_tuple(alloc, tuple)?,
        None => String::from_str(alloc, "own")?,
    };
    let body = shown_body(alloc, &message.body)?;
    Ok(format!(in alloc; "raw {document} as {claim} {body}")?)
}

pub fn shown_action(alloc: Global, action: &Action) -> Result<String, Fail> {
    match action {
        Action::Frame { src, sandbox } => shown_source(alloc, src, *sandbox),
        Action::Remove { child } => Ok(format!(in alloc; "remove {child}")?),
        Action::Navigate { frame, url } => {
            let frame = shown_frame(alloc, *frame)?;
            shown_url(alloc, "navigate", frame.as_str(), url)
        }
        Action::Page { url } => shown_page(alloc, url),
        Action::Fetch { url, mode } => shown_fetch(alloc, url, *mode),
        Action::Post {
            frame,
            target,
            text,
        } => {
            let frame = shown_frame(alloc, *frame)?;
            shown_post(alloc, frame.as_str(), target, text)
        }
        Action::Ask { service, request } => shown_ask(alloc, service, request),
        Action::Wait => Ok(String::from_str(alloc, "wait")?),
        Action::Recv => Ok(String::from_str(alloc, "recv")?),
        Action::Crash => Ok(String::from_str(alloc, "crash")?),
        Action::Raw(message) => shown_message(alloc, message),
    }
}
