//! What the type of a history keeps.

ghost use Rattle.history_entry.specs.declared.policy.Policy.TheVariants.{Two};
ghost use Rattle.history_text.specs.Texts.{AreEntriesOf};

use entry_reading::entry_is_kept;
use history_entries::History;

/// Says that each entry of a history is one that its type keeps. So `read_text` reads the text of every history under the
/// second policy back as that history. It only looks at the entries.
#[tactic(auto, using(crate::proofs::Lines::entries_more))]
pub fn history_is_kept(history: &History)
    ensures { AreEntriesOf Two history.now }
{
    for entry in history.entries() {
        entry_is_kept(entry);
    }
}
