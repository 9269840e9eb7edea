//! The texts of origins.

ghost use Rattle.std.specs.Prelude.{◌≡◌, IfOk, codes, string_bytes};
ghost use Rattle.page_origin.specs.Origins as origins;

use crate::origin::{Origin, TupleOrigin};
use crate::site::Scheme;
use call_answers::NoMemory;
use std::alloc::{AllocError, Global};
use std::marker::Model;

/// The text of an origin, as an `Origin` header has it.
#[derive(Drop)]
pub struct OriginText {
    text: String,
}

impl Model for OriginText {
    ghost use Rattle.std.specs.Prelude.{ℕ, List, string_bytes};

    ghost Value = { List ℕ };

    ghost view = { λ o. string_bytes o.text };
}

impl OriginText {
    /// The text `null`, which every opaque origin has.
    pub fn null(alloc: Global) -> Result<Self, NoMemory>
        ensures { IfOk result (λ text. text ≡ codes "null") }
    {
        let text = String::from_str(alloc, "null")?;
        Ok(OriginText { text })
    }

    /// The text, as a header has it.
    pub fn as_str(&self) -> &str
        ensures { result.now ≡ self.now }
    {
        self.text.as_str()
    }
}

impl Scheme {
    /// The scheme's text.
    pub fn as_str(self) -> &'static str
        ensures { result.now ≡ origins.scheme_text self }
    {
        match self {
            Scheme::Http => "http",
            Scheme::Https => "https",
        }
    }

    /// The port that a URL of the scheme has where it writes none.
    pub fn default_port(self) -> u16
        ensures { result ≡ origins.default_port_of self }
    {
        match self {
            Scheme::Http => 80,
            Scheme::Https => 443,
        }
    }
}

fn tuple_text(alloc: Global, tuple: &TupleOrigin) -> Result<String, AllocError>
    ensures { IfOk result (λ text. string_bytes text ≡ origins.tuple_text tuple.now) }
{
    let scheme = tuple.scheme.as_str();
    let host = tuple.host.as_str();
    let port = tuple.port;
    if port == tuple.scheme.default_port() {
        format!(in alloc; "{scheme}://{host}")
    } else {
        format!(in alloc; "{scheme}://{host}:{port}")
    }
}

/// The text of an origin: scheme, host, and port unless it is the scheme's own; `null` of an opaque one.
pub fn origin_text(alloc: Global, origin: &Origin) -> Result<OriginText, NoMemory>
    ensures { IfOk result (λ text. text ≡ origins.origin_text origin.now) }
{
    match origin {
        Origin::Tuple(tuple) => {
            let text = tuple_text(alloc, tuple)?;
            Ok(OriginText { text })
        }
        Origin::Opaque(_) => OriginText::null(alloc),
    }
}
