//! What the types of a script keep of its texts, numbers and bytes.

ghost use Rattle.std.specs.Prelude.{◌≡◌, IfSome, codes, true};
ghost use Rattle.std.specs.List.{AllByRecursion};
ghost use Rattle.hex.specs.Hex.{IsBytes};
ghost use Rattle.http_header.specs.HeaderMap.{get};
ghost use Rattle.page_origin.specs.UrlText.{is_url_spelling};
ghost use Rattle.entry_reading.specs.Entries as entries;
ghost use Rattle.kept_entries.specs.KeptScripts as scripts;

use entry_reading::{source_is_kept, target_is_kept};
use http_header::HeaderMap;
use script_model::{
    Action, FieldText, PageUrl, RawBody, RawMessage, Resource, Script, TupleOrigin,
};

fn number_is_kept(_number: u32)
    ensures { entries.IsNumber _number }
{}

fn port_is_kept(_port: u16)
    ensures { entries.IsPort _port }
{}

fn tuple_is_kept(tuple: &TupleOrigin)
    ensures { scripts.IsTuple tuple.now }
{
    let _host = tuple.host.as_str();
    port_is_kept(tuple.port);
}

fn claim_is_kept(claim: &Option<TupleOrigin>)
    ensures { IfSome claim.now scripts.IsTuple }
{
    match claim {
        Some(tuple) => tuple_is_kept(tuple),
        None => {}
    }
}

fn forged_is_kept(body: &RawBody)
    ensures { scripts.IsKeptBody body.now }
{
    match body {
        RawBody::Navigate {
            frame,
            url,
            initiator,
        } => {
            number_is_kept(*frame);
            let _url = url.as_str();
            claim_is_kept(initiator);
        }
        RawBody::Frame { src, .. } => source_is_kept(src),
        RawBody::Remove { frame } => number_is_kept(*frame),
        RawBody::Page { url } => {
            let _url = url.as_str();
        }
        RawBody::Fetch { url, initiator, .. } => {
            let _url = url.as_str();
            claim_is_kept(initiator);
        }
        RawBody::Post {
            frame,
            target,
            source,
            text,
        } => {
            number_is_kept(*frame);
            target_is_kept(target);
            claim_is_kept(source);
            let _text = text.as_str();
        }
        RawBody::Ask {
            service,
            origin,
            request,
        } => {
            let _service = service.as_str();
            claim_is_kept(origin);
            let _request = request.as_str();
        }
        RawBody::Commit { nav, url, origin } => {
            number_is_kept(*nav);
            let _url = url.as_str();
            tuple_is_kept(origin);
        }
    }
}

fn document_is_kept(document: &Option<u32>)
    ensures { IfSome document.now entries.IsNumber }
{
    match document {
        Some(number) => number_is_kept(*number),
        None => {}
    }
}

fn message_is_kept(message: &RawMessage)
    ensures document { IfSome message.now.document entries.IsNumber }
    ensures body { scripts.IsKeptBody message.now.body }
{
    document_is_kept(&message.document);
    forged_is_kept(&message.body);
}

fn action_is_kept(action: &Action)
    ensures { scripts.IsKeptAction action.now }
{
    match action {
        Action::Frame { src, .. } => source_is_kept(src),
        Action::Remove { .. } => {}
        Action::Navigate { url, .. } => {
            let _url = url.as_str();
        }
        Action::Page { url } => {
            let _url = url.as_str();
        }
        Action::Fetch { url, .. } => {
            let _url = url.as_str();
        }
        Action::Post { target, text, .. } => {
            target_is_kept(target);
            let _text = text.as_str();
        }
        Action::Ask { service, request } => {
            let _service = service.as_str();
            let _request = request.as_str();
        }
        Action::Wait => {}
        Action::Recv => {}
        Action::Crash => {}
        Action::Raw(message) => message_is_kept(message),
    }
}

#[tactic(auto, using(crate::proofs::Told::all_push))]
fn actions_are_kept(actions: &[Action])
    ensures { AllByRecursion scripts.IsKeptAction actions.now }
{
    for action in actions {
        action_is_kept(action);
    }
}

fn bytes_are_kept(_bytes: &[u8])
    ensures { IsBytes _bytes.now }
{}

fn page_is_kept(page: &PageUrl)
    ensures { is_url_spelling page.now ≡ true }
{
    let _text = page.text();
}

#[tactic(auto, using(crate::proofs::Told::all_push))]
fn pages_are_kept(pages: &[PageUrl])
    ensures { AllByRecursion (λ url. is_url_spelling url ≡ true) pages.now }
{
    for page in pages {
        page_is_kept(page);
    }
}

fn location_is_kept(fields: &HeaderMap<FieldText>)
    ensures { IfSome (get fields.now (codes "location")) IsBytes }
{
    match fields.get("location") {
        Some(value) => bytes_are_kept(value.as_bytes()),
        None => {}
    }
}

fn resource_is_kept(resource: &Resource)
    ensures { scripts.IsKeptResource resource.now }
{
    location_is_kept(&resource.head.fields);
    bytes_are_kept(&resource.body);
    actions_are_kept(resource.actions.as_slice());
}

#[tactic(auto, using(crate::proofs::Told::all_push))]
fn resources_are_kept(resources: &[Resource])
    ensures { AllByRecursion scripts.IsKeptResource resources.now }
{
    for resource in resources {
        resource_is_kept(resource);
    }
}

/// Says that a script's texts, numbers and bytes are as their types keep them. It only looks at the script.
pub fn script_is_kept(script: &Script)
    ensures { scripts.IsKeptScript script.now }
{
    pages_are_kept(script.start.as_slice());
    resources_are_kept(script.resources.as_slice());
}
