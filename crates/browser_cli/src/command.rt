//! The commands that the words of a command line name.

ghost use Rattle.std.specs.Prelude.{◌≡◌, IfSome, map};
ghost use Rattle.browser_cli.specs.Commands as commands;

use decimal_text::{decimal_number, long_decimal_number};

/// The most bytes of a script, by itself and in the frame of what `audit` reads.
pub(crate) const SCRIPT_LIMIT: usize = 4_194_304;

/// The most workers of `run`.
const MOST_WORKERS: u32 = 16;

/// What the words of a command line ask for.
#[derive(Clone, Copy, Debug, PartialEq, Eq)]
pub enum Command {
    /// `one`: the text of the one-thread run of a script.
    One,
    /// `audit`: whether a text is that of a finished legal history of a script.
    Audit,
    /// `gen NUMBER`: the summary of the one-thread run of a generated script.
    Gen(u64),
    /// `run N`: the text of the history that so many workers make of a script, from 1 to 16.
    Run(u32),
}

#[tactic(auto, unfolding(crate::specs::Commands::single_command))]
fn single_command(word: &str) -> Option<Command>
    ensures named { result ≡ commands.single_command word.now }
    ensures workers { IfSome result commands.HasWorkers }
{
    match word {
        "one" => Some(Command::One),
        "audit" => Some(Command::Audit),
        _ => None,
    }
}

#[tactic(auto, unfolding(crate::specs::Commands::worker_count))]
fn worker_count(number: &str) -> Option<u32>
    ensures count { result ≡ commands.worker_count number.now }
    ensures workers { IfSome result (λ count. commands.HasWorkers (Command.Run count)) }
{
    let count = decimal_number(number.as_bytes())?;
    if count == 0 || count > MOST_WORKERS {
        return None;
    }
    Some(count)
}

#[tactic(auto, unfolding(crate::specs::Commands::numbered_command))]
fn numbered_command(word: &str, number: &str) -> Option<Command>
    ensures named { result ≡ commands.numbered_command word.now number.now }
    ensures workers { IfSome result commands.HasWorkers }
{
    match word {
        "gen" => long_decimal_number(number.as_bytes()).map(Command::Gen),
        "run" => worker_count(number).map(Command::Run),
        _ => None,
    }
}

/// The command that the words name, if they name one.
#[tactic(auto, unfolding(crate::specs::Commands::command_of))]
pub fn command_of(words: &[&str]) -> Option<Command>
    ensures named { result ≡ commands.command_of (map (λ w. w.now) words.now) }
    ensures workers { IfSome result commands.HasWorkers }
{
    match words {
        [word] => single_command(word),
        [word, number] => numbered_command(word, number),
        _ => None,
    }
}

/// The command that the words name, if they name one that one thread does.
pub(crate) fn one_thread_command_of(words: &[&str]) -> Option<Command>
    ensures named { result ≡ commands.one_thread_command_of (map (λ w. w.now) words.now) }
    ensures one_thread { IfSome result commands.IsOfOneThread }
{
    match command_of(words) {
        Some(Command::Run(_)) => None,
        named => named,
    }
}
