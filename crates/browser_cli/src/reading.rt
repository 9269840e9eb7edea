//! Reading the input of a command.

ghost use Rattle.std.specs.Prelude.{◌≡◌, ◌≢◌, ◌≤◌, ◌+◌, IfOk, IfSome, IsOk, OnOk, Some, vec_len};
ghost use Rattle.browser_io.specs.Faults.{Rose};
ghost use Rattle.browser_io.specs.Moved.{KeepsTelling, TakesAtMost, TakesExactly};
ghost use Rattle.browser_cli.specs.Browse.{IsReadWhole, ReadsNothing, input_of};
ghost use Rattle.browser_cli.specs.Commands.{input_limit};

use crate::command::{Command, SCRIPT_LIMIT};
use browser_io::{ReadStop, Source, read_all};
use std::alloc::Global;

/// The most bytes of what `audit` reads.
const AUDIT_LIMIT: usize = 536_870_912;

/// Reads a command's input; for `gen` it reads nothing.
pub fn read_input<S: Source>(
    alloc: Global,
    command: Command,
    source: &mut S,
) -> Result<Vec<u8>, ReadStop>
    ensures whole { IfOk result (λ all. IfSome (input_of command (S.left source.old)) (λ input. all.items ≡ input)) }
    ensures end { OnOk result (IsReadWhole (S.left source.new) command) }
    ensures fits { IfOk result (λ all. vec_len all ≤ input_limit command) }
    ensures large { result ≡ Err ReadStop.TooLarge → TakesExactly (S.left source.old) (S.left source.new) (input_limit command + 1) }
    ensures others { result ≢ Err ReadStop.TooLarge → TakesAtMost (S.left source.old) (S.left source.new) (input_limit command) }
    ensures fault { result ≡ Err ReadStop.Fault → Rose (S.faults source.old) (S.faults source.new) }
    ensures calm { result ≢ Err ReadStop.Fault → S.faults source.new ≡ S.faults source.old }
    ensures later { S.faults source.old ≤ S.faults source.new }
    ensures telling { KeepsTelling (S.left source.old) (S.left source.new) }
    ensures unread { ReadsNothing (Some command) → (source.new ≡ source.old) × IsOk result }
{
    match command {
        Command::One | Command::Run(_) => read_all(alloc, source, SCRIPT_LIMIT),
        Command::Audit => read_all(alloc, source, AUDIT_LIMIT),
        Command::Gen(_) => Ok(Vec::new(alloc)),
    }
}
