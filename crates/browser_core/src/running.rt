//! The run of one thread by a core.

ghost use Rattle.std.specs.Prelude.{◌≡◌, [], IfOk, List, ℕ};
ghost use Rattle.page_origin.specs.declared.origin.TupleOrigin.{TupleOrigin};
ghost use Rattle.history_steps.specs.Run.{IsRun};

use crate::state::Core;
use history::History;
use history_laws::script_is_within_limits;
use origin_service::Service;
use script_model::{NoMemory, Script};
use std::alloc::Global;

/// The run of one thread: the first entry that may follow is added until there is none. It is the history that
/// `history::run1` makes.
pub fn run<V: Service + Drop>(
    alloc: Global,
    script: &Script,
    services: V,
) -> Result<History, NoMemory>
    requires { (name : List ℕ) (tuple : TupleOrigin) → V.kept services name tuple ≡ [] }
    ensures { IfOk result (λ history. IsRun V.rule script.now history) }
{
    script_is_within_limits(script);
    let mut core = Core::new(alloc, script, services)?;
    while core.first(alloc)?.is_some() {}
    Ok(core.close())
}
