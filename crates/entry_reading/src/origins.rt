//! Sites and origins.

ghost use Rattle.std.specs.Prelude.{◌≡◌, min, length, option_map};
ghost use Rattle.entry_reading.specs.Answers.{Gives, GivesBy, Takes};
ghost use Rattle.entry_reading.specs.Fields as fields;

use crate::fields::{Fields, around, host_of, number_of, past};
use crate::stop::EntryStop;
use page_origin::{OpaqueOrigin, Origin, Scheme, Site, TupleOrigin};
use std::alloc::Global;

fn scheme_of(text: &[u8]) -> Result<(Scheme, &[u8]), EntryStop>
    ensures { GivesBy (λ p. (p.0, p.1.now)) result (fields.scheme_of text.now) }
{
    if text.starts_with(b"https://") {
        Ok((Scheme::Https, &text[8..]))
    } else if text.starts_with(b"http://") {
        Ok((Scheme::Http, &text[7..]))
    } else {
        Err(EntryStop::BadLine)
    }
}

fn host_length(text: &[u8]) -> usize
    ensures { result ≡ min (fields.host_length text.now) (length text.now) }
{
    match text {
        [b'[', ..] => {
            let (address, _) = around(text, b']');
            text.len().min(address.len() + 1)
        }
        _ => {
            let (name, _) = around(text, b':');
            text.len().min(name.len())
        }
    }
}

fn port_of(scheme: Scheme, text: &[u8]) -> Result<u16, EntryStop>
    ensures { Gives result (fields.port_of scheme text.now) }
{
    match text {
        [] => Ok(scheme.default_port()),
        [b':', digits @ ..] => {
            let port = number_of(digits)?;
            if port > u16::MAX as u32 || port == scheme.default_port() as u32 {
                return Err(EntryStop::BadLine);
            }
            Ok(port as u16)
        }
        _ => Err(EntryStop::BadLine),
    }
}

fn tuple_by(alloc: Global, scheme: Scheme, text: &[u8]) -> Result<TupleOrigin, EntryStop>
    ensures { Gives result (fields.tuple_by scheme text.now) }
{
    let (host, port) = text.split_at(host_length(text));
    let host = host_of(alloc, host)?;
    let port = port_of(scheme, port)?;
    Ok(TupleOrigin { scheme, host, port })
}

#[tactic(auto, unfolding(crate::specs::Fields::tuple_of))]
fn tuple_of(alloc: Global, text: &[u8]) -> Result<TupleOrigin, EntryStop>
    ensures { Gives result (fields.tuple_of text.now) }
{
    let (scheme, text) = scheme_of(text)?;
    tuple_by(alloc, scheme, text)
}

fn shared_site_of(alloc: Global, text: &[u8]) -> Result<Site, EntryStop>
    ensures { Gives result (fields.shared_site_of text.now) }
{
    let (scheme, text) = scheme_of(text)?;
    let host = host_of(alloc, text)?;
    Ok(Site {
        scheme,
        host,
        only: None,
    })
}

fn isolated_site_of(alloc: Global, text: &[u8]) -> Result<Site, EntryStop>
    ensures { Gives result (fields.isolated_site_of text.now) }
{
    let TupleOrigin { scheme, host, port } = tuple_of(alloc, text)?;
    Ok(Site {
        scheme,
        host,
        only: Some(port),
    })
}

#[tactic(auto, unfolding(crate::specs::Fields::site_of))]
fn site_of(alloc: Global, text: &[u8]) -> Result<Site, EntryStop>
    ensures { Gives result (fields.site_of text.now) }
{
    if text.starts_with(b"=") {
        isolated_site_of(alloc, &text[1..])
    } else {
        shared_site_of(alloc, text)
    }
}

fn opaque_of(alloc: Global, text: &[u8]) -> Result<Origin, EntryStop>
    ensures { Gives result (fields.opaque_of text.now) }
{
    let (document, rest) = around(text, b':');
    let document = number_of(document)?;
    let precursor = past(rest, b':')?;
    let precursor = site_of(alloc, precursor)?;
    Ok(Origin::Opaque(OpaqueOrigin {
        document,
        precursor,
    }))
}

#[tactic(auto, unfolding(crate::specs::Fields::origin_of))]
pub fn origin_of(alloc: Global, text: &[u8]) -> Result<Origin, EntryStop>
    ensures { Gives result (fields.origin_of text.now) }
{
    if text.starts_with(b"opaque:") {
        opaque_of(alloc, &text[7..])
    } else {
        Ok(Origin::Tuple(tuple_of(alloc, text)?))
    }
}

impl<'a> Fields<'a> {
    /// The site that the next field is.
    pub fn site(&mut self, alloc: Global) -> Result<Site, EntryStop>
        ensures { Takes result self.new.rest.now (fields.field_by fields.site_of self.old.rest.now) }
    {
        let field = self.field()?;
        site_of(alloc, field)
    }

    /// The origin that the next field is.
    pub fn origin(&mut self, alloc: Global) -> Result<Origin, EntryStop>
        ensures { Takes result self.new.rest.now (fields.field_by fields.origin_of self.old.rest.now) }
    {
        let field = self.field()?;
        origin_of(alloc, field)
    }
}
