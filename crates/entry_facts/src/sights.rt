//! The resource that a message adds a frame with.

ghost use Rattle.std.specs.Prelude.{◌≡◌};
ghost use Rattle.history_rules.specs.Sights as sights;

use script_model::{Body, Src};

/// The number of the resource that a source names.
pub fn src_index(src: &Src) -> Option<u64>
    ensures { result ≡ sights.src_index src.now }
{
    match src {
        Src::Url(_) => None,
        Src::Doc(index) => Some(u64::from(*index)),
    }
}

/// The number of the resource that a message adds a frame with.
pub fn body_srcdoc(body: &Body) -> Option<u64>
    ensures { result ≡ sights.body_srcdoc body.now }
{
    match body {
        Body::AddFrame { src, .. } => src_index(src),
        _ => None,
    }
}
