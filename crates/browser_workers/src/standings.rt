//! Standings of processes in the history of a core.

ghost use Rattle.std.specs.Prelude.{◌≡◌};
ghost use Rattle.browser_tasks.specs.TaskData.{IsLegal};
ghost use Rattle.process_standings.specs.Changing.{LastChanges};
ghost use Rattle.process_standings.specs.Standings.{table_standing};

use browser_core::Entry;
use history_laws::script_is_within_limits;
use policy_table::Standing;
use process_standings::{last_change, standing_of};
use script_model::Script;

/// The process whose standing the last entry of a legal history changed, with its standing now.
pub(crate) fn change_in(script: &Script, entries: &[Entry]) -> Option<(u32, Standing)>
    requires { IsLegal script.now entries.now }
    ensures { LastChanges entries.now result }
{
    script_is_within_limits(script);
    last_change(entries)
}

/// How a process stands in a legal history.
pub(crate) fn standing_in(script: &Script, entries: &[Entry], process: u32) -> Standing
    requires { IsLegal script.now entries.now }
    ensures { result ≡ table_standing entries.now process }
{
    script_is_within_limits(script);
    standing_of(entries, process)
}
