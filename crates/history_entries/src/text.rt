//! The text of a history.

ghost use Rattle.std.specs.Prelude.{◌≡◌, ◌++◌, IfOk, OnOk};
ghost use Rattle.history_entries.specs.Text as text;

use crate::history::History;
use entry_text::put_line;
use history_entry::{Entry, Policy};
use page_origin::NoMemory;
use std::alloc::Global;

/// The first line of a text of the second policy.
pub const VERSION_LINE: &[u8] = b"history 2\n";

fn head_of(policy: Policy) -> &'static [u8]
    ensures { result.now ≡ text.head_of policy }
{
    match policy {
        Policy::One => b"",
        Policy::Two => VERSION_LINE,
    }
}

#[tactic(auto, unfolding(crate::specs::Text::lines_of))]
fn put_lines(alloc: Global, out: &mut Vec<u8>, entries: &[Entry]) -> Result<(), NoMemory>
    ensures { OnOk result (out.new.items ≡ out.old.items ++ text.lines_of entries.now) }
{
    for entry in entries {
        put_line(alloc, out, entry)?;
    }
    Ok(())
}

/// The text of a history: a line for each entry, and under the second policy the line `history 2` before them.
#[tactic(auto, unfolding(crate::specs::Text::text_of))]
pub fn text_of(alloc: Global, policy: Policy, history: &History) -> Result<Vec<u8>, NoMemory>
    ensures { IfOk result (λ out. out.items ≡ text.text_of policy history.now) }
{
    let mut out = Vec::from_slice(alloc, head_of(policy))?;
    put_lines(alloc, &mut out, history.entries())?;
    Ok(out)
}
