//! The requests that a service accepted.

ghost use Rattle.std.specs.Prelude.{◌≡◌, ◌++◌, IfOk};
ghost use Rattle.std.specs.Option.{option_map, option_to_list};
ghost use Rattle.entry_facts.specs.Views.{asked_view};
ghost use Rattle.history_rules.specs.Services as services;

use entry_facts::Asking;
use entry_facts::services::asked_in;
use page_origin::{NoMemory, TupleOrigin};
use script_model::{Asked, Entry};
use std::alloc::Global;

/// A request behind the others, if there is one.
fn push_asked(
    alloc: Global,
    accepted: &mut Vec<Asked>,
    asking: Option<Asking<'_>>,
) -> Result<(), NoMemory>
    ensures { IfOk result (λ _. accepted.new.items ≡ accepted.old.items ++ option_to_list (option_map asked_view asking.entry)) }
{
    if let Some(asking) = asking {
        let request = asking.request.copy(alloc)?;
        accepted.push(Asked {
            document: asking.document,
            request,
        })?;
    }
    Ok(())
}

/// The requests of a tuple origin that the service of this name answered, in order.
#[tactic(auto, unfolding(history_rules::specs::Services::accepted_requests))]
pub fn accepted_requests(
    alloc: Global,
    entries: &[Entry],
    name: &str,
    tuple: &TupleOrigin,
) -> Result<Vec<Asked>, NoMemory>
    ensures { IfOk result (λ accepted. accepted.items ≡ services.accepted_requests entries.now name.now tuple.now) }
{
    let mut accepted = Vec::new(alloc);
    for entry in entries {
        push_asked(alloc, &mut accepted, asked_in(entry, name, tuple))?;
    }
    Ok(accepted)
}
