//! How a run ended, and how that shows outside.

ghost use Rattle.std.specs.Prelude.{◌≡◌, IfOk};
ghost use Rattle.browser_cli.specs.StatusLines as lines;

use history::EntryKind;
use script_input::Refusal;
use script_model::NoMemory;
use std::alloc::Global;
use std::marker::Model;

/// Why a text is not that of a finished legal history. The version line counts as a line.
#[derive(Clone, Copy, Debug, PartialEq, Eq)]
pub enum Finding {
    /// The first line that is no spelling of an entry.
    BadLine(u32),
    /// The line of the first entry that may not follow those before it.
    Entry(u32),
    /// All entries may follow, and so may one of this kind.
    Unfinished(EntryKind),
}

/// How a call of the program ended.
#[derive(Drop)]
pub enum Status {
    /// The input was read to its end, and the whole output was written.
    Ran,
    /// `audit`: the input was read to its end, and its finding was written.
    Illegal(Finding),
    /// The words are no command.
    Usage,
    /// A read failed.
    ReadFault,
    /// A write failed.
    WriteFault,
    /// The script is refused.
    Refused(Refusal),
    /// More than the command's bytes were read.
    TooLarge,
    /// Memory ran out.
    NoMemory,
}

impl Status {
    /// The status with which the program exits.
    pub fn exit_code(&self) -> u8
        ensures { result ≡ lines.exit_code_of self.now }
    {
        match self {
            Status::Ran => 0,
            Status::Illegal(_) => 1,
            Status::Usage => 2,
            Status::ReadFault => 3,
            Status::WriteFault => 4,
            Status::Refused(_) => 5,
            Status::TooLarge => 6,
            Status::NoMemory => 7,
        }
    }
}

/// A line for standard error, without its line feed.
#[derive(Drop)]
pub struct LineText {
    text: String,
}

impl Model for LineText {
    ghost use Rattle.std.specs.Prelude.{ℕ, List, string_bytes};

    ghost Value = { List ℕ };

    ghost view = { λ l. string_bytes l.text };
}

impl LineText {
    /// The line, without its line feed.
    pub fn as_str(&self) -> &str
        ensures { result.now ≡ self.now }
    {
        self.text.as_str()
    }
}

/// The line that the program prints on standard error, empty where it ran.
#[tactic(auto, unfolding(crate::specs::StatusLines::line_of))]
pub fn status_line(alloc: Global, status: &Status) -> Result<LineText, NoMemory>
    ensures { IfOk result (λ line. line ≡ lines.line_of status.now) }
{
    let text = match status {
        Status::Ran => String::new(alloc),
        Status::Illegal(_) => String::from_str(alloc, "illegal")?,
        Status::Usage => String::from_str(alloc, "usage: one | run N | audit | gen NUMBER")?,
        Status::ReadFault => String::from_str(alloc, "read fault")?,
        Status::WriteFault => String::from_str(alloc, "write fault")?,
        Status::Refused(refusal) => format!(in alloc; "{refusal}")?,
        Status::TooLarge => String::from_str(alloc, "too large")?,
        Status::NoMemory => format!(in alloc; "{NoMemory}")?,
    };
    Ok(LineText { text })
}
