//! Sites and origins.

ghost use Rattle.std.specs.Prelude.{◌≡◌, ◌++◌, OnOk};
ghost use Rattle.page_origin.specs.Origins as origins;
ghost use Rattle.entry_text.specs.Lines as lines;
ghost use Rattle.entry_text.specs.Printing.{GrowsTo};

use crate::fields::{put, put_decimal};
use page_origin::{HostText, NoMemory, Origin, Scheme, Site, TupleOrigin};
use std::alloc::Global;

fn put_plain(out: &mut Vec<u8>, scheme: Scheme, host: &HostText) -> Result<(), NoMemory>
    ensures text { OnOk result (out.new.items ≡ out.old.items ++ origins.plain_text scheme host.now) }
    ensures kept { GrowsTo out.old.items out.new.items }
{
    put(out, scheme.as_str().as_bytes())?;
    put(out, b"://")?;
    put(out, host.as_str().as_bytes())
}

fn put_port(alloc: Global, out: &mut Vec<u8>, scheme: Scheme, port: u16) -> Result<(), NoMemory>
    ensures text { OnOk result (out.new.items ≡ out.old.items ++ origins.port_text scheme port) }
    ensures kept { GrowsTo out.old.items out.new.items }
{
    if port == scheme.default_port() {
        return Ok(());
    }
    put(out, b":")?;
    put_decimal(alloc, out, u32::from(port))
}

fn put_site_text(alloc: Global, out: &mut Vec<u8>, site: &Site) -> Result<(), NoMemory>
    ensures text { OnOk result (out.new.items ≡ out.old.items ++ origins.site_text site.now) }
    ensures kept { GrowsTo out.old.items out.new.items }
{
    match site.only {
        None => put_plain(out, site.scheme, &site.host),
        Some(port) => {
            put(out, b"=")?;
            put_plain(out, site.scheme, &site.host)?;
            put_port(alloc, out, site.scheme, port)
        }
    }
}

fn put_tuple_text(alloc: Global, out: &mut Vec<u8>, tuple: &TupleOrigin) -> Result<(), NoMemory>
    ensures text { OnOk result (out.new.items ≡ out.old.items ++ origins.tuple_text tuple.now) }
    ensures kept { GrowsTo out.old.items out.new.items }
{
    put_plain(out, tuple.scheme, &tuple.host)?;
    put_port(alloc, out, tuple.scheme, tuple.port)
}

#[tactic(auto, unfolding(crate::specs::Lines::origin_line))]
fn put_origin_line(alloc: Global, out: &mut Vec<u8>, origin: &Origin) -> Result<(), NoMemory>
    ensures text { OnOk result (out.new.items ≡ out.old.items ++ lines.origin_line origin.now) }
    ensures kept { GrowsTo out.old.items out.new.items }
{
    match origin {
        Origin::Tuple(tuple) => put_tuple_text(alloc, out, tuple),
        Origin::Opaque(opaque) => {
            put(out, b"opaque:")?;
            put_decimal(alloc, out, opaque.document)?;
            put(out, b":")?;
            put_site_text(alloc, out, &opaque.precursor)
        }
    }
}

pub fn put_site(alloc: Global, out: &mut Vec<u8>, site: &Site) -> Result<(), NoMemory>
    ensures text { OnOk result (out.new.items ≡ out.old.items ++ lines.field (origins.site_text site.now)) }
    ensures kept { GrowsTo out.old.items out.new.items }
{
    put(out, b" ")?;
    put_site_text(alloc, out, site)
}

pub fn put_origin(alloc: Global, out: &mut Vec<u8>, origin: &Origin) -> Result<(), NoMemory>
    ensures text { OnOk result (out.new.items ≡ out.old.items ++ lines.field (lines.origin_line origin.now)) }
    ensures kept { GrowsTo out.old.items out.new.items }
{
    put(out, b" ")?;
    put_origin_line(alloc, out, origin)
}
