//! Requests to services.

ghost use Rattle.std.specs.Prelude.{◌≡◌};
ghost use Rattle.std.specs.Option.{option_map};
ghost use Rattle.history_rules.specs.Services as services;
ghost use Rattle.entry_facts.specs.Views.{asked_view};

use crate::asking::Asking;
use page_origin::equal_tuples;
use script_model::{Body, Entry, Origin, Reply, TupleOrigin};

/// Whether the origin is this tuple.
pub fn is_origin(origin: &Origin, tuple: &TupleOrigin) -> bool
    ensures { result ≡ services.is_origin tuple.now origin.now }
{
    match origin {
        Origin::Tuple(own) => equal_tuples(tuple, own),
        Origin::Opaque(_) => false,
    }
}

/// The request of a document's message to the service of this name by this origin.
pub fn body_asked<'a>(
    body: &'a Body,
    document: u32,
    name: &str,
    tuple: &TupleOrigin,
) -> Option<Asking<'a>>
    ensures { option_map asked_view result ≡ services.body_asked name.now tuple.now document body.now }
{
    match body {
        Body::Ask {
            service,
            origin,
            request,
        } => {
            if service.as_str() == name && is_origin(origin, tuple) {
                Some(Asking { document, request })
            } else {
                None
            }
        }
        _ => None,
    }
}

/// Whether the reply is an answer.
pub fn is_answer(reply: &Reply) -> bool
    ensures { result ≡ services.is_answer reply.now }
{
    matches!(reply, Reply::Answer(_))
}

/// A request to the service of this name by this origin that was answered.
pub fn asked_in<'a>(entry: &'a Entry, name: &str, tuple: &TupleOrigin) -> Option<Asking<'a>>
    ensures { option_map asked_view result ≡ services.asked_in name.now tuple.now entry.now }
{
    match entry {
        Entry::Said(_, _, _, message, reply) => {
            if is_answer(reply) {
                body_asked(&message.body, message.document, name, tuple)
            } else {
                None
            }
        }
        _ => None,
    }
}
