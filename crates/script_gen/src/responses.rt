//! The responses of a generated script.

ghost use Rattle.std.specs.Prelude.{◌≡◌, ◌<◌, ◌≤◌, IfOk, length};
ghost use Rattle.script_model.specs.ResourceData.{IsResource};
ghost use Rattle.script_gen.specs.Generated as spec;

use crate::fields::fields_of;
use crate::urls::url_of_response;
use bytes::Bytes;
use http::StatusCode;
use http_header::HeaderMap;
use script_model::{Actions, Cuts, FieldText, Head, NoMemory, PageUrl, Resource};
use std::alloc::Global;

/// How many bytes a piece of a body has.
const PIECE: u32 = 256;

/// How many bytes the body of a response has.
fn body_size(response: u32) -> u32
    requires { response < 32 }
    ensures { result ≡ spec.body_size response }
{
    512 * (response + 1)
}

/// What a body begins with in place of letters: what tells HTML, and JSON.
#[tactic(auto, unfolding(crate::specs::Generated::body_front))]
fn body_front(response: u32) -> &'static [u8]
    ensures front { result.now ≡ spec.body_front response }
    ensures short { length result.now ≤ 6 }
{
    match response % 5 {
        0 => b"<html>",
        1 => b"{\"a\":",
        _ => b"",
    }
}

/// The letter at a place of a body.
#[tactic(auto, unfolding(crate::specs::Generated::letter))]
fn letter(place: u32) -> u8
    ensures { result ≡ spec.letter place }
{
    b'a' + (place % 26) as u8
}

#[tactic(auto, unfolding(crate::specs::Generated::body), using(crate::proofs::BodySteps::no_letters))]
fn body_of(alloc: Global, response: u32) -> Result<Bytes, NoMemory>
    requires { response < 32 }
    ensures { IfOk result (λ body. body ≡ spec.body response) }
{
    let front = body_front(response);
    let mut body = Vec::from_slice(alloc, front)?;
    for place in front.len() as u32..body_size(response) {
        body.push(letter(place))?;
    }
    Ok(Bytes::from_vec(body)?)
}

#[tactic(auto, unfolding(crate::specs::Generated::cuts), using(crate::proofs::BodySteps::next_cut))]
fn cuts_of(alloc: Global, response: u32) -> Result<Cuts, NoMemory>
    requires { response < 32 }
    ensures { IfOk result (λ cuts. cuts ≡ spec.cuts response) }
{
    let mut cuts = Vec::new(alloc);
    let pieces = (body_size(response) - 1) / PIECE + 1;
    for piece in 1..pieces {
        cuts.push(PIECE * piece)?;
    }
    Ok(Cuts::from_vec(cuts))
}

/// A resource of these parts, with status 200, whose wire does not fail, and without actions.
fn resource_of(
    alloc: Global,
    url: PageUrl,
    fields: HeaderMap<FieldText>,
    body: Bytes,
    cuts: Cuts,
) -> Resource
    requires { IsResource (spec.plain_response url fields body cuts) }
    ensures { result ≡ spec.plain_response url fields body cuts }
{
    Resource {
        url,
        head: Head {
            status: StatusCode::OK,
            fields,
        },
        body,
        cuts,
        fail_after: None,
        actions: Actions::from_vec(Vec::new(alloc)),
    }
}

/// A response.
#[tactic(auto, unfolding(crate::specs::Generated::response_resource))]
pub fn response_of(alloc: Global, response: u32) -> Result<Resource, NoMemory>
    requires { response < 32 }
    ensures { IfOk result (λ resource. resource ≡ spec.response_resource response) }
{
    let url = url_of_response(alloc, response)?;
    let fields = fields_of(alloc, response)?;
    let body = body_of(alloc, response)?;
    let cuts = cuts_of(alloc, response)?;
    Ok(resource_of(alloc, url, fields, body, cuts))
}
