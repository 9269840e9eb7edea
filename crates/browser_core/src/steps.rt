//! The history with the first of the next entries.

ghost use Rattle.std.specs.Prelude.{◌≡◌, ◌++◌, IfOk, OnErr, OnOk, length};
ghost use Rattle.std.specs.Option.{option_map, option_to_list};
ghost use Rattle.history_steps.specs.Run.{first_next};
ghost use Rattle.history_steps.specs.ScriptLimits.{IsWithinLimits};
ghost use Rattle.browser_core.specs.Cores.{IsInStep};

use crate::facts::{entry_count, first_entry};
use history::{History, Roomy};
use history_laws::script_is_within_limits;
use origin_service::Service;
use script_model::{NoMemory, Script};
use std::alloc::Global;

/// Fills the room behind a history with the first of the next entries, and gives its place.
#[tactic(auto, using(crate::proofs::InStep::first_in_step, crate::proofs::InStep::same_in_step))]
fn fill_first<V: Service>(
    alloc: Global,
    script: &Script,
    roomy: Roomy,
    services: &mut V,
) -> (History, Result<Option<u32>, NoMemory>)
    requires limits { IsWithinLimits script.now }
    requires kept { IsInStep V.rule (V.kept services.old) script.now roomy }
    ensures first { OnOk result.1 (result.0 ≡ roomy ++ option_to_list (first_next V.rule script.now roomy)) }
    ensures place { IfOk result.1 (λ place. place ≡ option_map (λ _. length roomy) (first_next V.rule script.now roomy)) }
    ensures err { OnErr result.1 (result.0 ≡ roomy) }
    ensures kept { IsInStep V.rule (V.kept services.new) script.now result.0 }
{
    let place = entry_count(roomy.entries());
    match first_entry(alloc, script, roomy.entries(), services) {
        Ok(Some(entry)) => (roomy.push(entry), Ok(Some(place as u32))),
        Ok(None) => (roomy.release(), Ok(None)),
        Err(stop) => (roomy.release(), Err(stop)),
    }
}

/// The history with the first of the next entries, and its place. Where memory runs out both are as before.
pub(crate) fn append_first<V: Service>(
    alloc: Global,
    script: &Script,
    history: History,
    services: &mut V,
) -> (History, Result<Option<u32>, NoMemory>)
    requires kept { IsInStep V.rule (V.kept services.old) script.now history }
    ensures first { OnOk result.1 (result.0 ≡ history ++ option_to_list (first_next V.rule script.now history)) }
    ensures place { IfOk result.1 (λ place. place ≡ option_map (λ _. length history) (first_next V.rule script.now history)) }
    ensures err { OnErr result.1 (result.0 ≡ history) }
    ensures kept { IsInStep V.rule (V.kept services.new) script.now result.0 }
{
    script_is_within_limits(script);
    match history.with_room() {
        Ok(roomy) => fill_first(alloc, script, roomy, services),
        Err((history, stop)) => (history, Err(stop)),
    }
}
