ghost use Rattle.std.specs.Prelude.{◌≡◌, IfOk};
ghost use Rattle.std.specs.Option.{option_copied};
ghost use Rattle.history_rules.specs.Actions as actions;

use history_entry::{Body, Message, Mode, RawUrl, RequestText, ServiceName, Target};
use history_rules::{Act, Sight};
use page_origin::{NoMemory, Origin, TupleOrigin};
use script_model::{Action, FrameRef, RawBody, RawMessage, Script};
use std::alloc::Global;

/// The frame that a name stands for.
fn named_frame(sight: &Sight, name: FrameRef) -> Option<u32>
    ensures { result ≡ actions.named_frame sight.now name }
{
    match name {
        FrameRef::Own => Some(sight.frame),
        FrameRef::Parent => sight.parent,
        FrameRef::Top => Some(sight.top),
        FrameRef::Opener => sight.opener,
        FrameRef::Child(place) => sight.added.as_slice().get(place as usize).copied(),
    }
}

/// A message of the sight's document.
fn message_act(sight: &Sight, body: Body) -> Act
    ensures { result ≡ actions.message_act sight.now body }
{
    Act::Message(Message {
        document: sight.document,
        body,
    })
}

/// A claimed origin, or else the running document's own.
fn claim(alloc: Global, own: &Origin, claimed: &Option<TupleOrigin>) -> Result<Origin, NoMemory>
    ensures { IfOk result (λ origin. origin ≡ actions.claim own.now claimed.now) }
{
    match claimed {
        None => own.copy(alloc),
        Some(tuple) => Ok(Origin::Tuple(tuple.copy(alloc)?)),
    }
}

/// The message that a forged navigation stands for.
fn raw_navigate(
    alloc: Global,
    own: &Origin,
    frame: u32,
    url: &RawUrl,
    initiator: &Option<TupleOrigin>,
) -> Result<Body, NoMemory>
    ensures { IfOk result (λ copy. copy ≡ actions.raw_body own.now (RawBody.Navigate frame url.now initiator.now)) }
{
    Ok(Body::Navigate {
        frame,
        url: url.copy(alloc)?,
        initiator: claim(alloc, own, initiator)?,
    })
}

/// The message that a forged fetch stands for.
fn raw_fetch(
    alloc: Global,
    own: &Origin,
    url: &RawUrl,
    mode: Mode,
    initiator: &Option<TupleOrigin>,
) -> Result<Body, NoMemory>
    ensures { IfOk result (λ copy. copy ≡ actions.raw_body own.now (RawBody.Fetch url.now mode initiator.now)) }
{
    Ok(Body::Fetch {
        url: url.copy(alloc)?,
        mode,
        initiator: claim(alloc, own, initiator)?,
    })
}

/// The message that a forged post stands for.
fn raw_post(
    alloc: Global,
    own: &Origin,
    frame: u32,
    target: &Target,
    source: &Option<TupleOrigin>,
    text: &RequestText,
) -> Result<Body, NoMemory>
    ensures { IfOk result (λ copy. copy ≡ actions.raw_body own.now (RawBody.Post frame target.now source.now text.now)) }
{
    Ok(Body::Post {
        frame,
        target: target.copy(alloc)?,
        source: claim(alloc, own, source)?,
        text: text.copy(alloc)?,
    })
}

/// The message that a forged request to a service stands for.
fn raw_ask(
    alloc: Global,
    own: &Origin,
    service: &ServiceName,
    origin: &Option<TupleOrigin>,
    request: &RequestText,
) -> Result<Body, NoMemory>
    ensures { IfOk result (λ copy. copy ≡ actions.raw_body own.now (RawBody.Ask service.now origin.now request.now)) }
{
    Ok(Body::Ask {
        service: service.copy(alloc)?,
        origin: claim(alloc, own, origin)?,
        request: request.copy(alloc)?,
    })
}

/// The message that a forged one stands for.
fn raw_body(alloc: Global, own: &Origin, body: &RawBody) -> Result<Body, NoMemory>
    ensures { IfOk result (λ copy. copy ≡ actions.raw_body own.now body.now) }
{
    match body {
        RawBody::Navigate {
            frame,
            url,
            initiator,
        } => raw_navigate(alloc, own, *frame, url, initiator),
        RawBody::Frame { src, sandbox } => Ok(Body::AddFrame {
            src: src.copy(alloc)?,
            sandbox: *sandbox,
        }),
        RawBody::Remove { frame } => Ok(Body::RemoveFrame { frame: *frame }),
        RawBody::Page { url } => Ok(Body::OpenPage {
            url: url.copy(alloc)?,
        }),
        RawBody::Fetch {
            url,
            mode,
            initiator,
        } => raw_fetch(alloc, own, url, *mode, initiator),
        RawBody::Post {
            frame,
            target,
            source,
            text,
        } => raw_post(alloc, own, *frame, target, source, text),
        RawBody::Ask {
            service,
            origin,
            request,
        } => raw_ask(alloc, own, service, origin, request),
        RawBody::Commit { nav, url, origin } => Ok(Body::DidCommit {
            nav: *nav,
            url: url.copy(alloc)?,
            origin: Origin::Tuple(origin.copy(alloc)?),
        }),
    }
}

/// The message that removes a frame that the document added.
fn remove_act(sight: &Sight, child: u32) -> Act
    ensures { result ≡ actions.act_of_action sight.now (Action.Remove child) }
{
    match named_frame(sight, FrameRef::Child(child)) {
        Some(frame) => message_act(sight, Body::RemoveFrame { frame }),
        None => Act::Skip,
    }
}

/// The message that navigates a frame.
fn navigate_act(
    alloc: Global,
    sight: &Sight,
    frame: FrameRef,
    url: &RawUrl,
) -> Result<Act, NoMemory>
    ensures { IfOk result (λ act. act ≡ actions.act_of_action sight.now (Action.Navigate frame url.now)) }
{
    let Some(frame) = named_frame(sight, frame) else {
        return Ok(Act::Skip);
    };
    let body = Body::Navigate {
        frame,
        url: url.copy(alloc)?,
        initiator: sight.origin.copy(alloc)?,
    };
    Ok(message_act(sight, body))
}

/// The message that fetches a URL.
fn fetch_act(alloc: Global, sight: &Sight, url: &RawUrl, mode: Mode) -> Result<Act, NoMemory>
    ensures { IfOk result (λ act. act ≡ actions.act_of_action sight.now (Action.Fetch url.now mode)) }
{
    let body = Body::Fetch {
        url: url.copy(alloc)?,
        mode,
        initiator: sight.origin.copy(alloc)?,
    };
    Ok(message_act(sight, body))
}

/// The message that posts a text to a frame.
fn post_act(
    alloc: Global,
    sight: &Sight,
    frame: FrameRef,
    target: &Target,
    text: &RequestText,
) -> Result<Act, NoMemory>
    ensures { IfOk result (λ act. act ≡ actions.act_of_action sight.now (Action.Post frame target.now text.now)) }
{
    let Some(frame) = named_frame(sight, frame) else {
        return Ok(Act::Skip);
    };
    let body = Body::Post {
        frame,
        target: target.copy(alloc)?,
        source: sight.origin.copy(alloc)?,
        text: text.copy(alloc)?,
    };
    Ok(message_act(sight, body))
}

/// The message that asks a service.
fn ask_act(
    alloc: Global,
    sight: &Sight,
    service: &ServiceName,
    request: &RequestText,
) -> Result<Act, NoMemory>
    ensures { IfOk result (λ act. act ≡ actions.act_of_action sight.now (Action.Ask service.now request.now)) }
{
    let body = Body::Ask {
        service: service.copy(alloc)?,
        origin: sight.origin.copy(alloc)?,
        request: request.copy(alloc)?,
    };
    Ok(message_act(sight, body))
}

/// A forged message, of the document that it names or else of the running one.
fn raw_act(alloc: Global, sight: &Sight, raw: &RawMessage) -> Result<Act, NoMemory>
    ensures { IfOk result (λ act. act ≡ actions.act_of_action sight.now (Action.Raw raw.now)) }
{
    Ok(Act::Message(Message {
        document: raw.document.unwrap_or(sight.document),
        body: raw_body(alloc, &sight.origin, &raw.body)?,
    }))
}

/// What an action comes to.
fn act_of_action(alloc: Global, sight: &Sight, action: &Action) -> Result<Act, NoMemory>
    ensures { IfOk result (λ act. act ≡ actions.act_of_action sight.now action.now) }
{
    match action {
        Action::Frame { src, sandbox } => {
            let src = src.copy(alloc)?;
            let sandbox = *sandbox;
            Ok(message_act(sight, Body::AddFrame { src, sandbox }))
        }
        Action::Remove { child } => Ok(remove_act(sight, *child)),
        Action::Navigate { frame, url } => navigate_act(alloc, sight, *frame, url),
        Action::Page { url } => {
            let url = url.copy(alloc)?;
            Ok(message_act(sight, Body::OpenPage { url }))
        }
        Action::Fetch { url, mode } => fetch_act(alloc, sight, url, *mode),
        Action::Post {
            frame,
            target,
            text,
        } => post_act(alloc, sight, *frame, target, text),
        Action::Ask { service, request } => ask_act(alloc, sight, service, request),
        Action::Wait => Ok(Act::Wait),
        Action::Recv => Ok(Act::Recv),
        Action::Crash => Ok(Act::Crash),
        Action::Raw(raw) => raw_act(alloc, sight, raw),
    }
}

/// The action of this number of the sight's resource.
fn action_in<'a>(script: &'a Script, sight: &Sight, action: u64) -> Option<&'a Action>
    ensures { option_copied result ≡ actions.action_in script.now sight.now action }
{
    let resource = script.resources.as_slice().get(sight.resource? as usize)?;
    resource.actions.as_slice().get(action as usize)
}

/// What the action of this number comes to in the sight of its document: a message, an act of the document alone, nothing
/// where it names a frame that is not there, or the end where there is no such action.
pub fn message_of(
    alloc: Global,
    script: &Script,
    sight: &Sight,
    action: u64,
) -> Result<Act, NoMemory>
    ensures { IfOk result (λ act. act ≡ actions.act_in script.now sight.now action) }
{
    match action_in(script, sight, action) {
        Some(action) => act_of_action(alloc, sight, action),
        None => Ok(Act::Done),
    }
}
