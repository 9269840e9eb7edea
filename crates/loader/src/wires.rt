ghost use Rattle.std.specs.Prelude.{◌≡◌, [], false};
ghost use Rattle.std.specs.Option.{is_some};
ghost use Rattle.script_model.specs.Pieces.{pieces};

use browser_io::ScriptWire;
use script_model::Resource;

/// A wire that carries the body of a resource, in the pieces in which it comes. It fails after them where the resource's does.
#[tactic(auto, using(crate::proofs::WirePieces::sent_within))]
pub fn wire_of(resource: &Resource) -> ScriptWire<'_>
    ensures { result ≡ record { left = pieces resource.now; fails = is_some resource.now.fail_after; faults = 0 } }
{
    ScriptWire::new(
        &resource.body,
        resource.cuts.as_slice(),
        resource.fail_after,
    )
}

/// A wire that carries nothing, and ends.
pub fn empty_wire<'a>() -> ScriptWire<'a>
    ensures { result ≡ record { left = []; fails = false; faults = 0 } }
{
    ScriptWire::new(b"", &[], None)
}
