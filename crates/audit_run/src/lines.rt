//! The line that tells of an audit.

ghost use Rattle.std.specs.Prelude.{◌≡◌, IfOk};
ghost use Rattle.audit_run.specs.AuditLines as lines;

use crate::answer::Audit;
use history::EntryKind;
use script_model::NoMemory;
use std::alloc::Global;

/// The first word of the lines of a kind of entry.
pub fn kind_word(kind: EntryKind) -> &'static str
    ensures { result.now ≡ lines.word_of kind }
{
    match kind {
        EntryKind::Opened => "open",
        EntryKind::Warm => "warm",
        EntryKind::Hop => "hop",
        EntryKind::Order => "order",
        EntryKind::NavEnd => "navend",
        EntryKind::Said => "said",
        EntryKind::Crash => "crash",
        EntryKind::Commit => "commit",
        EntryKind::Local => "local",
        EntryKind::Head => "head",
        EntryKind::Piece => "piece",
        EntryKind::End => "end",
        EntryKind::Exit => "exit",
    }
}

/// The line that tells of an audit, with its line feed: `legal 7`, `bad line 1`, `illegal line 8` or `unfinished open`.
#[tactic(auto, unfolding(crate::specs::AuditLines::line_of_audit))]
pub fn audit_line(alloc: Global, audit: &Audit) -> Result<Vec<u8>, NoMemory>
    ensures { IfOk result (λ line. line.items ≡ lines.line_of_audit audit.now) }
{
    let line = match audit {
        Audit::Legal(count) => format!(in alloc; "legal {count}\n")?,
        Audit::BadLine(line) => format!(in alloc; "bad line {line}\n")?,
        Audit::Entry(line) => format!(in alloc; "illegal line {line}\n")?,
        Audit::Unfinished(kind) => format!(in alloc; "unfinished {}\n", kind_word(*kind))?,
    };
    Ok(line.into_bytes())
}
