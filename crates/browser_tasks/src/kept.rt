//! What the types of a script and of entries keep, as facts of their values.

ghost use Rattle.std.specs.List.{AllByRecursion};
ghost use Rattle.entry_reading.specs.Entries.{IsEntry};
ghost use Rattle.kept_entries.specs.KeptScripts.{IsKeptScript};

use entry_reading::entries_are_kept;
use kept_entries::script_is_kept;
use plain_facts::PlainFacts;

/// Says what the types keep of a script and of the entries of its history. It only looks at them.
pub(crate) fn facts_are_kept(facts: &PlainFacts<'_>)
    ensures script { IsKeptScript facts.now.script }
    ensures entries { AllByRecursion IsEntry facts.now.entries }
{
    script_is_kept(facts.script());
    entries_are_kept(facts.entries());
}
