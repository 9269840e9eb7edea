//! What tests show of a generated script.

use script_model::{Action, FrameRef, Mode, RawUrl, Resource, Script, Src, Target};
use std::alloc::Global;
use std::test::Fail;

/// A resource by its place.
pub fn resource_at(script: &Script, place: usize) -> Result<&Resource, Fail> {
    match script.resources.as_slice().get(place) {
        Some(resource) => Ok(resource),
        None => Err(Fail::new("a script has too few resources")),
    }
}

fn shown_frame(alloc: Global, src: &Src, sandbox: bool) -> Result<String, Fail> {
    match src {
        Src::Url(url) if !sandbox => {
            let url = url.as_str();
            Ok(format!(in alloc; "frame {url}")?)
        }
        _ => Err(Fail::new("a frame of another kind")),
    }
}

fn shown_fetch(alloc: Global, url: &RawUrl, mode: Mode) -> Result<String, Fail> {
    let url = url.as_str();
    match mode {
        Mode::Cors => Ok(format!(in alloc; "cors {url}")?),
        Mode::NoCors => Ok(format!(in alloc; "no-cors {url}")?),
    }
}

fn shown_post(alloc: Global, frame: FrameRef, target: &Target, text: &str) -> Result<String, Fail> {
    match (frame, target) {
        (FrameRef::Parent, Target::Any) => Ok(format!(in alloc; "post parent * {text}")?),
        _ => Err(Fail::new("a post of another kind")),
    }
}

fn shown_action(alloc: Global, action: &Action) -> Result<String, Fail> {
    match action {
        Action::Frame { src, sandbox } => shown_frame(alloc, src, *sandbox),
        Action::Fetch { url, mode } => shown_fetch(alloc, url, *mode),
        Action::Post {
            frame,
            target,
            text,
        } => shown_post(alloc, *frame, target, text.as_str()),
        Action::Ask { service, request } => {
            let service = service.as_str();
            let request = request.as_str();
            Ok(format!(in alloc; "ask {service} {request}")?)
        }
        Action::Wait => Ok(String::from_str(alloc, "wait")?),
        Action::Recv => Ok(String::from_str(alloc, "recv")?),
        _ => Err(Fail::new("an action of another kind")),
    }
}

/// An action of a resource, both by their places.
pub fn action_at(
    alloc: Global,
    script: &Script,
    resource: usize,
    place: usize,
) -> Result<String, Fail> {
    match resource_at(script, resource)?.actions.as_slice().get(place) {
        Some(action) => shown_action(alloc, action),
        None => Err(Fail::new("a resource has too few actions")),
    }
}

/// All actions of a resource, each with a line feed.
pub fn shown_actions(alloc: Global, script: &Script, resource: usize) -> Result<String, Fail> {
    let mut text = String::new(alloc);
    for action in resource_at(script, resource)?.actions.as_slice() {
        let shown = shown_action(alloc, action)?;
        text.push_str(shown.as_str())?;
        text.push_str("\n")?;
    }
    Ok(text)
}
