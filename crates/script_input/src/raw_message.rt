//! Forged messages, by their word `is`. A function reads one row of the table.

ghost use Rattle.std.specs.Prelude.{IfOk, ℕ};
ghost use Rattle.serde_json.specs.View.{view};
ghost use Rattle.script_model.specs.ActionLimits.{IsRawBody, IsRawBodyAmong};
ghost use Rattle.script_input.specs.Answers.{Gives};
ghost use Rattle.script_input.specs.RawMessages as spec;

use crate::frame::{one_source, source_at};
use crate::object::{object_at, optional, required, word_at};
use crate::refusal::{ScriptStop, WRONG_SHAPE, behind, refused};
use crate::text::{NameOfService, ShortText, UrlInput};
use crate::urls::{PostTarget, TupleUrl};
use crate::value::{Boolean, OBJECT_NUMBER, Reader};
use crate::word::RequestMode;
use script_model::{RawBody, RawMessage};
use serde_json::Value;
use std::alloc::Global;

#[tactic(auto, unfolding(crate::specs::RawMessages::navigate_message))]
fn navigate_message(alloc: Global, value: &Value) -> Result<RawMessage, ScriptStop>
    ensures gives { Gives result (spec.navigate_message (view value.now)) }
    ensures keeps { IfOk result (λ message. IsRawBody message.body) }
    ensures among { (count : ℕ) → IfOk result (λ message. IsRawBodyAmong count message.body) }
{
    object_at(
        alloc,
        &["frame", "url"],
        &["is", "document", "frame", "url", "initiator"],
        value,
    )?;
    let document = optional(alloc, "document", &OBJECT_NUMBER, value)?;
    let frame = required(alloc, "frame", &OBJECT_NUMBER, value)?;
    let url = required(alloc, "url", &UrlInput, value)?;
    let initiator = optional(alloc, "initiator", &TupleUrl, value)?;
    let body = RawBody::Navigate {
        frame,
        url,
        initiator,
    };
    Ok(RawMessage { document, body })
}

#[tactic(auto, unfolding(crate::specs::RawMessages::frame_message))]
fn frame_message(alloc: Global, count: u32, value: &Value) -> Result<RawMessage, ScriptStop>
    ensures gives { Gives result (spec.frame_message count (view value.now)) }
    ensures keeps { IfOk result (λ message. IsRawBody message.body) }
    ensures among { IfOk result (λ message. IsRawBodyAmong count message.body) }
{
    object_at(
        alloc,
        &[],
        &["is", "document", "src", "srcdoc", "sandbox"],
        value,
    )?;
    one_source(alloc, value)?;
    let document = optional(alloc, "document", &OBJECT_NUMBER, value)?;
    let src = source_at(alloc, count, value)?;
    let sandbox = optional(alloc, "sandbox", &Boolean, value)?;
    let body = RawBody::Frame {
        src,
        sandbox: sandbox.unwrap_or(false),
    };
    Ok(RawMessage { document, body })
}

#[tactic(auto, unfolding(crate::specs::RawMessages::remove_message))]
fn remove_message(alloc: Global, value: &Value) -> Result<RawMessage, ScriptStop>
    ensures gives { Gives result (spec.remove_message (view value.now)) }
    ensures keeps { IfOk result (λ message. IsRawBody message.body) }
    ensures among { (count : ℕ) → IfOk result (λ message. IsRawBodyAmong count message.body) }
{
    object_at(alloc, &["frame"], &["is", "document", "frame"], value)?;
    let document = optional(alloc, "document", &OBJECT_NUMBER, value)?;
    let frame = required(alloc, "frame", &OBJECT_NUMBER, value)?;
    let body = RawBody::Remove { frame };
    Ok(RawMessage { document, body })
}

#[tactic(auto, unfolding(crate::specs::RawMessages::page_message))]
fn page_message(alloc: Global, value: &Value) -> Result<RawMessage, ScriptStop>
    ensures gives { Gives result (spec.page_message (view value.now)) }
    ensures keeps { IfOk result (λ message. IsRawBody message.body) }
    ensures among { (count : ℕ) → IfOk result (λ message. IsRawBodyAmong count message.body) }
{
    object_at(alloc, &["url"], &["is", "document", "url"], value)?;
    let document = optional(alloc, "document", &OBJECT_NUMBER, value)?;
    let url = required(alloc, "url", &UrlInput, value)?;
    let body = RawBody::Page { url };
    Ok(RawMessage { document, body })
}

#[tactic(auto, unfolding(crate::specs::RawMessages::fetch_message, crate::specs::Objects::object_at))]
fn fetch_message(alloc: Global, value: &Value) -> Result<RawMessage, ScriptStop>
    ensures gives { Gives result (spec.fetch_message (view value.now)) }
    ensures keeps { IfOk result (λ message. IsRawBody message.body) }
    ensures among { (count : ℕ) → IfOk result (λ message. IsRawBodyAmong count message.body) }
{
    object_at(
        alloc,
        &["url", "mode"],
        &["is", "document", "url", "mode", "initiator"],
        value,
    )?;
    let document = optional(alloc, "document", &OBJECT_NUMBER, value)?;
    let url = required(alloc, "url", &UrlInput, value)?;
    let mode = required(alloc, "mode", &RequestMode, value)?;
    let initiator = optional(alloc, "initiator", &TupleUrl, value)?;
    let body = RawBody::Fetch {
        url,
        mode,
        initiator,
    };
    Ok(RawMessage { document, body })
}

#[tactic(auto, unfolding(crate::specs::RawMessages::post_message))]
fn post_message(alloc: Global, value: &Value) -> Result<RawMessage, ScriptStop>
    ensures gives { Gives result (spec.post_message (view value.now)) }
    ensures keeps { IfOk result (λ message. IsRawBody message.body) }
    ensures among { (count : ℕ) → IfOk result (λ message. IsRawBodyAmong count message.body) }
{
    object_at(
        alloc,
        &["frame", "target", "text"],
        &["is", "document", "frame", "target", "source", "text"],
        value,
    )?;
    let document = optional(alloc, "document", &OBJECT_NUMBER, value)?;
    let frame = required(alloc, "frame", &OBJECT_NUMBER, value)?;
    let target = required(alloc, "target", &PostTarget, value)?;
    let source = optional(alloc, "source", &TupleUrl, value)?;
    let text = required(alloc, "text", &ShortText, value)?;
    let body = RawBody::Post {
        frame,
        target,
        source,
        text,
    };
    Ok(RawMessage { document, body })
}

#[tactic(auto, unfolding(crate::specs::RawMessages::ask_message))]
fn ask_message(alloc: Global, value: &Value) -> Result<RawMessage, ScriptStop>
    ensures gives { Gives result (spec.ask_message (view value.now)) }
    ensures keeps { IfOk result (λ message. IsRawBody message.body) }
    ensures among { (count : ℕ) → IfOk result (λ message. IsRawBodyAmong count message.body) }
{
    object_at(
        alloc,
        &["service", "request"],
        &["is", "document", "service", "origin", "request"],
        value,
    )?;
    let document = optional(alloc, "document", &OBJECT_NUMBER, value)?;
    let service = required(alloc, "service", &NameOfService, value)?;
    let origin = optional(alloc, "origin", &TupleUrl, value)?;
    let request = required(alloc, "request", &ShortText, value)?;
    let body = RawBody::Ask {
        service,
        origin,
        request,
    };
    Ok(RawMessage { document, body })
}

#[tactic(auto, unfolding(crate::specs::RawMessages::commit_message))]
fn commit_message(alloc: Global, value: &Value) -> Result<RawMessage, ScriptStop>
    ensures gives { Gives result (spec.commit_message (view value.now)) }
    ensures keeps { IfOk result (λ message. IsRawBody message.body) }
    ensures among { (count : ℕ) → IfOk result (λ message. IsRawBodyAmong count message.body) }
{
    object_at(
        alloc,
        &["nav", "url", "origin"],
        &["is", "document", "nav", "url", "origin"],
        value,
    )?;
    let document = optional(alloc, "document", &OBJECT_NUMBER, value)?;
    let nav = required(alloc, "nav", &OBJECT_NUMBER, value)?;
    let url = required(alloc, "url", &UrlInput, value)?;
    let origin = required(alloc, "origin", &TupleUrl, value)?;
    let body = RawBody::Commit { nav, url, origin };
    Ok(RawMessage { document, body })
}

#[tactic(auto, unfolding(crate::specs::RawMessages::raw_message_by))]
fn raw_message_by(
    alloc: Global,
    word: &str,
    count: u32,
    value: &Value,
) -> Result<RawMessage, ScriptStop>
    ensures gives { Gives result (spec.raw_message_by word.now count (view value.now)) }
    ensures keeps { IfOk result (λ message. IsRawBody message.body) }
    ensures among { IfOk result (λ message. IsRawBodyAmong count message.body) }
{
    match word {
        "navigate" => navigate_message(alloc, value),
        "frame" => frame_message(alloc, count, value),
        "remove" => remove_message(alloc, value),
        "page" => page_message(alloc, value),
        "fetch" => fetch_message(alloc, value),
        "post" => post_message(alloc, value),
        "ask" => ask_message(alloc, value),
        "commit" => commit_message(alloc, value),
        _ => Err(behind(alloc, "is", refused(alloc, WRONG_SHAPE))),
    }
}

/// A forged message, in a script of so many resources.
#[derive(Clone, Copy)]
pub struct Forged {
    pub count: u32,
}

impl Reader for Forged {
    type Read = RawMessage;

    ghost use Rattle.script_model.specs.ActionLimits.{IsRawBody, IsRawBodyAmong};
    ghost use Rattle.script_input.specs.RawMessages as spec;

    ghost reading = { λ limit. spec.raw_message_at limit.count };

    ghost keeps = { λ limit message. IsRawBody message.body × IsRawBodyAmong limit.count message.body };

    #[tactic(auto, unfolding(crate::specs::RawMessages::raw_message_at))]
    fn read(&self, alloc: Global, value: &Value) -> Result<RawMessage, ScriptStop> {
        if !value.is_object() {
            return Err(refused(alloc, WRONG_SHAPE));
        }
        let word = word_at(alloc, "is", value)?;
        raw_message_by(alloc, word, self.count, value)
    }
}
