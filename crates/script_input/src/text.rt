//! Strings within bounds of length.

ghost use Rattle.std.specs.Prelude.{◌≡◌, ◌≤◌, IfOk, length};
ghost use Rattle.serde_json.specs.View.{view};
ghost use Rattle.script_input.specs.Answers.{GivesBy};
ghost use Rattle.script_input.specs.Values as spec;

use crate::refusal::{PAST_LIMIT, ScriptStop, WRONG_SHAPE, refused};
use crate::value::Reader;
use script_model::limits::{MAX_SERVICE_NAME, MAX_SHORT_TEXT, MAX_URL_INPUT};
use script_model::{RawUrl, RequestText, ServiceName};
use serde_json::Value;
use std::alloc::Global;

/// A string.
pub fn string_at(alloc: Global, value: &Value) -> Result<&str, ScriptStop>
    ensures { GivesBy (λ text. text.now) result (spec.string_at (view value.now)) }
{
    match value.as_str() {
        Some(text) => Ok(text),
        None => Err(refused(alloc, WRONG_SHAPE)),
    }
}

/// A string of `least` to `most` bytes.
#[tactic(auto, unfolding(crate::specs::Values::text_within))]
pub fn text_within(
    alloc: Global,
    least: usize,
    most: usize,
    value: &Value,
) -> Result<&str, ScriptStop>
    ensures gives { GivesBy (λ text. text.now) result (spec.text_within least most (view value.now)) }
    ensures least { IfOk result (λ text. least ≤ length text.now) }
    ensures most { IfOk result (λ text. length text.now ≤ most) }
{
    match value.as_str() {
        Some(text) if least <= text.len() && text.len() <= most => Ok(text),
        Some(_) => Err(refused(alloc, PAST_LIMIT)),
        None => Err(refused(alloc, WRONG_SHAPE)),
    }
}

/// Any text of a URL, whether it can be read or not.
pub struct UrlInput;

impl Reader for UrlInput {
    type Read = RawUrl;

    ghost use Rattle.script_model.specs.ActionLimits.{IsUrlInput};
    ghost use Rattle.script_input.specs.Values as spec;

    ghost reading = { λ _. spec.url_input_at };

    ghost keeps = { λ _ text. IsUrlInput text };

    fn read(&self, alloc: Global, value: &Value) -> Result<RawUrl, ScriptStop> {
        let text = text_within(alloc, 0, MAX_URL_INPUT, value)?;
        Ok(RawUrl::of(alloc, text)?)
    }
}

/// The text of a post or of a request to a service.
pub struct ShortText;

impl Reader for ShortText {
    type Read = RequestText;

    ghost use Rattle.script_model.specs.ActionLimits.{IsShortText};
    ghost use Rattle.script_input.specs.Values as spec;

    ghost reading = { λ _. spec.short_text_at };

    ghost keeps = { λ _ text. IsShortText text };

    fn read(&self, alloc: Global, value: &Value) -> Result<RequestText, ScriptStop> {
        let text = text_within(alloc, 0, MAX_SHORT_TEXT, value)?;
        Ok(RequestText::of(alloc, text)?)
    }
}

/// The name of a service.
pub struct NameOfService;

impl Reader for NameOfService {
    type Read = ServiceName;

    ghost use Rattle.script_model.specs.ActionLimits.{IsServiceName};
    ghost use Rattle.script_input.specs.Values as spec;

    ghost reading = { λ _. spec.service_name_at };

    ghost keeps = { λ _ name. IsServiceName name };

    fn read(&self, alloc: Global, value: &Value) -> Result<ServiceName, ScriptStop> {
        let text = text_within(alloc, 1, MAX_SERVICE_NAME, value)?;
        Ok(ServiceName::of(alloc, text)?)
    }
}
