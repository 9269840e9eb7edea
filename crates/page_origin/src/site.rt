ghost use Rattle.std.specs.Prelude.{◌≡◌, ◌↔◌, IfOk, IsTrue};

use crate::host::HostText;
use call_answers::NoMemory;
use std::alloc::Global;

/// The schemes that a site or a tuple origin has.
#[derive(Clone, Copy, Debug, PartialEq, Eq)]
pub enum Scheme {
    Http,
    Https,
}

/// A scheme with a host, which is shared by all ports and subdomains; or one isolated origin, which is alone.
#[derive(Drop, PartialEq)]
pub struct Site {
    pub scheme: Scheme,
    pub host: HostText,
    /// The port of an isolated origin, and none of a site of any other origin.
    pub only: Option<u16>,
}

impl Site {
    /// An equal site, in memory of its own.
    pub fn copy(&self, alloc: Global) -> Result<Self, NoMemory>
        ensures { IfOk result (λ copy. copy ≡ self.now) }
    {
        Ok(Site {
            scheme: self.scheme,
            host: self.host.copy(alloc)?,
            only: self.only,
        })
    }
}

/// Whether two sites are equal.
pub fn equal_sites(a: &Site, b: &Site) -> bool
    ensures { IsTrue result ↔ (a.now ≡ b.now) }
{
    a == b
}
