//! Frames that a message makes.

ghost use Rattle.std.specs.Prelude.{◌≡◌};
ghost use Rattle.history_rules.specs.Frames as frames;

use script_model::{Body, Message};

/// The frame that a message navigates, where it makes the frame of this number.
pub fn body_frame(body: &Body, made: u64) -> u64
    ensures { result ≡ frames.body_frame made body.now }
{
    match body {
        Body::Navigate { frame, .. } => u64::from(*frame),
        _ => made,
    }
}

/// Whether a message adds a child.
pub fn body_adds(body: &Body) -> bool
    ensures { result ≡ frames.body_adds body.now }
{
    matches!(body, Body::AddFrame { .. })
}

/// The document of a message that adds a frame.
pub fn adder_in(message: &Message) -> Option<u64>
    ensures { result ≡ frames.adder_in message.now }
{
    if body_adds(&message.body) {
        Some(u64::from(message.document))
    } else {
        None
    }
}

/// Whether a message opens a page.
pub fn body_opens(body: &Body) -> bool
    ensures { result ≡ frames.body_opens body.now }
{
    matches!(body, Body::OpenPage { .. })
}

/// The document of a message that opens a page.
pub fn opener_in(message: &Message) -> Option<u64>
    ensures { result ≡ frames.opener_in message.now }
{
    if body_opens(&message.body) {
        Some(u64::from(message.document))
    } else {
        None
    }
}

/// Whether a message adds a frame with sandbox.
pub fn body_sandboxes(body: &Body) -> bool
    ensures { result ≡ frames.body_sandboxes body.now }
{
    match body {
        Body::AddFrame { sandbox, .. } => *sandbox,
        _ => false,
    }
}
