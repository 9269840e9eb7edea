ghost use Rattle.std.specs.Prelude.{◌≡◌, ◌↔◌, IfOk, IsTrue};
ghost use Rattle.page_origin.specs.Origins.{equal_tuples, same_origin};

use crate::host::HostText;
use crate::site::{Scheme, Site};
use call_answers::NoMemory;
use std::alloc::Global;

/// The tuple origin of a URL: its scheme, host and port.
#[derive(Drop, PartialEq)]
pub struct TupleOrigin {
    pub scheme: Scheme,
    pub host: HostText,
    pub port: u16,
}

/// An origin that equals no tuple: it was made for one document, and keeps the site that it comes from.
#[derive(Drop, PartialEq)]
pub struct OpaqueOrigin {
    /// The number of the document.
    pub document: u32,
    pub precursor: Site,
}

/// An origin of the URL Standard.
#[derive(Drop, PartialEq)]
pub enum Origin {
    Tuple(TupleOrigin),
    Opaque(OpaqueOrigin),
}

impl TupleOrigin {
    /// An equal tuple origin, in memory of its own.
    pub fn copy(&self, alloc: Global) -> Result<Self, NoMemory>
        ensures { IfOk result (λ copy. copy ≡ self.now) }
    {
        Ok(TupleOrigin {
            scheme: self.scheme,
            host: self.host.copy(alloc)?,
            port: self.port,
        })
    }
}

impl OpaqueOrigin {
    /// An equal opaque origin, in memory of its own.
    pub fn copy(&self, alloc: Global) -> Result<Self, NoMemory>
        ensures { IfOk result (λ copy. copy ≡ self.now) }
    {
        Ok(OpaqueOrigin {
            document: self.document,
            precursor: self.precursor.copy(alloc)?,
        })
    }
}

impl Origin {
    /// An equal origin, in memory of its own.
    pub fn copy(&self, alloc: Global) -> Result<Self, NoMemory>
        ensures { IfOk result (λ copy. copy ≡ self.now) }
    {
        match self {
            Origin::Tuple(tuple) => Ok(Origin::Tuple(tuple.copy(alloc)?)),
            Origin::Opaque(opaque) => Ok(Origin::Opaque(opaque.copy(alloc)?)),
        }
    }
}

/// Whether two tuple origins are equal. This takes no memory.
pub fn equal_tuples(a: &TupleOrigin, b: &TupleOrigin) -> bool
    ensures { result ≡ equal_tuples a.now b.now }
{
    a == b
}

/// Whether two origins are equal as whole values, the precursors too.
pub fn equal_origins(a: &Origin, b: &Origin) -> bool
    ensures { IsTrue result ↔ (a.now ≡ b.now) }
{
    a == b
}

/// Whether two origins are the same: equal tuples, or opaque origins that were made for one document. This takes no
/// memory.
pub fn same_origin(a: &Origin, b: &Origin) -> bool
    ensures { result ≡ same_origin a.now b.now }
{
    match (a, b) {
        (Origin::Tuple(a), Origin::Tuple(b)) => a == b,
        (Origin::Opaque(a), Origin::Opaque(b)) => a.document == b.document,
        _ => false,
    }
}
