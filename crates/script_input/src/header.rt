//! Header fields of responses.

ghost use Rattle.std.specs.Prelude.{◌≡◌, ◌≤◌, [], IfOk, OnOk, length};
ghost use Rattle.http_header.specs.FieldName.{is_field_name};
ghost use Rattle.http_header.specs.HeaderMap.{append, append_all};
ghost use Rattle.http_header.specs.Token.{lowercase};
ghost use Rattle.mime_kind.specs.FieldText.{is_field_text};
ghost use Rattle.serde_json.specs.View.{view, items_view};
ghost use Rattle.script_input.specs.Answers.{Gives};
ghost use Rattle.script_input.specs.Checked.{check};
ghost use Rattle.script_input.specs.Headers as spec;
ghost use Rattle.script_input.specs.ForProofs.{IsShort};
ghost use Rattle.script_input.specs.Refusals.{bad_header};

use crate::list::{Each, list_at};
use crate::refusal::{BAD_HEADER, PAST_LIMIT, ScriptStop, WRONG_SHAPE, refused};
use crate::text::string_at;
use crate::value::{Reader, below};
use http_header::{HeaderMap, HeaderName, HeaderNameError};
use mime_kind::stripped;
use script_model::limits::{MAX_HEADER_NAME, MAX_HEADER_VALUE, MAX_HEADERS};
use script_model::{FieldText, FieldTextError, NoMemory};
use serde_json::Value;
use std::alloc::Global;

/// A name of a header, in lower case, with a value.
type Header = (HeaderName, FieldText);

fn name_of(alloc: Global, text: &str) -> Result<HeaderName, ScriptStop>
    ensures { Gives result (check (is_field_name text.now) bad_header (lowercase text.now)) }
{
    match HeaderName::from_bytes(alloc, text.as_bytes()) {
        Ok(name) => Ok(name),
        Err(HeaderNameError::Invalid) => Err(refused(alloc, BAD_HEADER)),
        Err(HeaderNameError::OutOfMemory) => Err(ScriptStop::NoMemory),
    }
}

#[tactic(auto, unfolding(crate::specs::Headers::name_at))]
fn name_at(alloc: Global, value: &Value) -> Result<HeaderName, ScriptStop>
    ensures gives { Gives result (spec.name_at (view value.now)) }
    ensures short { IfOk result (λ name. length name ≤ 64) }
{
    let text = string_at(alloc, value)?;
    if text.len() > MAX_HEADER_NAME {
        return Err(refused(alloc, BAD_HEADER));
    }
    name_of(alloc, text)
}

fn field_of(alloc: Global, text: &str) -> Result<FieldText, ScriptStop>
    ensures { Gives result (check (is_field_text text.now) bad_header text.now) }
{
    match FieldText::new(alloc, text) {
        Ok(value) => Ok(value),
        Err(FieldTextError::Invalid) => Err(refused(alloc, BAD_HEADER)),
        Err(FieldTextError::NoMemory) => Err(ScriptStop::NoMemory),
    }
}

fn text_of(alloc: Global, bytes: &[u8]) -> Result<FieldText, ScriptStop>
    ensures { Gives result (check (is_field_text bytes.now) bad_header bytes.now) }
{
    match str::from_utf8(bytes) {
        Ok(text) => field_of(alloc, text),
        Err(_) => Err(refused(alloc, BAD_HEADER)),
    }
}

#[tactic(auto, unfolding(crate::specs::Headers::value_of), using(crate::proofs::Blanks::stripped_field))]
fn value_at(alloc: Global, value: &Value) -> Result<FieldText, ScriptStop>
    ensures gives { Gives result (spec.value_at (view value.now)) }
    ensures short { IfOk result (λ value. length value ≤ 1024) }
{
    let text = string_at(alloc, value)?;
    let bytes = stripped(text.as_bytes());
    if bytes.len() > MAX_HEADER_VALUE {
        return Err(refused(alloc, PAST_LIMIT));
    }
    text_of(alloc, bytes)
}

fn pair_of(alloc: Global, items: &[Value]) -> Result<Header, ScriptStop>
    ensures gives { Gives result (spec.pair_of (items_view items.now)) }
    ensures short { IfOk result IsShort }
{
    match items {
        [] => Err(refused(alloc, PAST_LIMIT)),
        [_] => Err(refused(alloc, PAST_LIMIT)),
        [name, value] => {
            let name = below(alloc, "0", name_at(alloc, name))?;
            let value = below(alloc, "1", value_at(alloc, value))?;
            Ok((name, value))
        }
        _ => Err(refused(alloc, PAST_LIMIT)),
    }
}

/// A list of a name and a value.
#[derive(Drop)]
struct Pair;

impl Reader for Pair {
    type Read = Header;

    ghost use Rattle.script_input.specs.Headers as spec;
    ghost use Rattle.script_input.specs.ForProofs.{IsShort};

    ghost reading = { λ _. spec.header_at };

    ghost keeps = { λ _ header. IsShort header };

    #[tactic(auto, unfolding(crate::specs::Headers::header_at))]
    fn read(&self, alloc: Global, value: &Value) -> Result<Header, ScriptStop> {
        match value.as_array() {
            Some(items) => pair_of(alloc, items.as_slice()),
            None => Err(refused(alloc, WRONG_SHAPE)),
        }
    }
}

// A map with so few values is never full: only memory can be short.
fn append(
    fields: &mut HeaderMap<FieldText>,
    name: HeaderName,
    value: FieldText,
) -> Result<(), NoMemory>
    ensures { OnOk result (fields.new ≡ append fields.old name value) }
{
    match fields.append(name, value) {
        Ok(_) => Ok(()),
        Err(_) => Err(NoMemory),
    }
}

fn fields_of(alloc: Global, headers: Vec<Header>) -> Result<HeaderMap<FieldText>, NoMemory>
    ensures { IfOk result (λ fields. fields ≡ append_all [] headers.items) }
{
    let mut fields = HeaderMap::empty(alloc);
    for (name, value) in headers {
        append(&mut fields, name, value)?;
    }
    Ok(fields)
}

/// The header fields of a response.
pub struct Headers;

impl Reader for Headers {
    type Read = HeaderMap<FieldText>;

    ghost use Rattle.script_model.specs.ResourceData.{IsHeaders};
    ghost use Rattle.script_input.specs.Headers as spec;

    ghost reading = { λ _. spec.headers_at };

    ghost keeps = { λ _ fields. IsHeaders fields };

    #[tactic(auto, unfolding(crate::specs::Headers::headers_at), using(crate::proofs::HeaderLimits::few_headers))]
    fn read(&self, alloc: Global, value: &Value) -> Result<HeaderMap<FieldText>, ScriptStop> {
        let headers = list_at(alloc, &Each(Pair), MAX_HEADERS, value)?;
        Ok(fields_of(alloc, headers)?)
    }
}
