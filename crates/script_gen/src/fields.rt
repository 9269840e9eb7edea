//! The header fields of the responses of a generated script.

ghost use Rattle.std.specs.Prelude.{◌≡◌, ◌+◌, ◌<◌, ◌^◌, IfOk, IsTrue, OnOk, length, true};
ghost use Rattle.http_header.specs.FieldName.{is_field_name};
ghost use Rattle.http_header.specs.HeaderMap.{append, value_count};
ghost use Rattle.http_header.specs.Token.{lowercase};
ghost use Rattle.mime_kind.specs.FieldText.{is_field_text};
ghost use Rattle.script_gen.specs.Generated as spec;

use http_header::{HeaderMap, HeaderMapError};
use script_model::{FieldText, FieldTextError, NoMemory};
use std::alloc::Global;

fn content_type(response: u32) -> &'static str
    ensures value { result.now ≡ spec.content_type response }
    ensures field { is_field_text result.now ≡ true }
{
    match response % 8 {
        0 => "text/html",
        1 => "text/xml",
        2 => "application/json",
        3 => "text/plain",
        4 => "text/css",
        5 => "text/javascript",
        6 => "image/png",
        _ => "application/json",
    }
}

fn field_text(alloc: Global, text: &str) -> Result<FieldText, NoMemory>
    requires { is_field_text text.now ≡ true }
    ensures { IfOk result (λ field. field ≡ text.now) }
{
    match FieldText::new(alloc, text) {
        Ok(field) => Ok(field),
        Err(FieldTextError::NoMemory) => Err(NoMemory),
        Err(FieldTextError::Invalid) => unreachable!(),
    }
}

/// Adds a field to a map that is far from full.
fn put_field(
    alloc: Global,
    fields: &mut HeaderMap<FieldText>,
    name: &str,
    value: &str,
) -> Result<(), NoMemory>
    requires name { IsTrue (is_field_name name.now) }
    requires value { is_field_text value.now ≡ true }
    requires few_names { length fields.old < 24576 }
    requires few_values { value_count fields.old + 1 < 2 ^ 64 }
    ensures { OnOk result (fields.new ≡ append fields.old (lowercase name.now) value.now) }
{
    let value = field_text(alloc, value)?;
    match fields.append(name, value) {
        Ok(_) => Ok(()),
        Err(HeaderMapError::OutOfMemory) => Err(NoMemory),
        Err(HeaderMapError::MaxSizeReached) => unreachable!(),
    }
}

/// Whether a response is not to be sniffed, which is every eighth.
fn has_nosniff(response: u32) -> bool
    ensures { result ≡ spec.has_nosniff response }
{
    response % 8 == 7
}

/// Whether a response is open to all origins, which is every third.
fn is_open(response: u32) -> bool
    ensures { result ≡ spec.is_open response }
{
    response % 3 == 0
}

/// Adds `nosniff` behind the content type, where the response has it.
#[tactic(auto, using(crate::proofs::FieldSteps::few_typed, crate::proofs::FieldSteps::few_typed_values, crate::proofs::FieldSteps::sniffed_with, crate::proofs::FieldSteps::sniffed_without))]
fn put_nosniff(
    alloc: Global,
    fields: &mut HeaderMap<FieldText>,
    response: u32,
) -> Result<(), NoMemory>
    requires { fields.old ≡ spec.typed_fields response }
    ensures { OnOk result (fields.new ≡ spec.sniffed_fields response) }
{
    if has_nosniff(response) {
        put_field(alloc, fields, "x-content-type-options", "nosniff")?;
    }
    Ok(())
}

/// Adds the leave for all origins, where the response has it.
#[tactic(auto, using(crate::proofs::FieldSteps::few_sniffed, crate::proofs::FieldSteps::few_sniffed_values, crate::proofs::FieldSteps::open_with, crate::proofs::FieldSteps::open_without))]
fn put_allowed(
    alloc: Global,
    fields: &mut HeaderMap<FieldText>,
    response: u32,
) -> Result<(), NoMemory>
    requires { fields.old ≡ spec.sniffed_fields response }
    ensures { OnOk result (fields.new ≡ spec.fields response) }
{
    if is_open(response) {
        put_field(alloc, fields, "access-control-allow-origin", "*")?;
    }
    Ok(())
}

/// The header fields of a response.
#[tactic(auto, unfolding(crate::specs::Generated::typed_fields))]
pub fn fields_of(alloc: Global, response: u32) -> Result<HeaderMap<FieldText>, NoMemory>
    ensures { IfOk result (λ fields. fields ≡ spec.fields response) }
{
    let mut fields = HeaderMap::empty(alloc);
    put_field(alloc, &mut fields, "content-type", content_type(response))?;
    put_nosniff(alloc, &mut fields, response)?;
    put_allowed(alloc, &mut fields, response)?;
    Ok(fields)
}
