//! The command `run`: what many workers make of a script.

ghost use Rattle.std.specs.Prelude.{◌≡◌, Err, IfOk};
ghost use Rattle.history_steps.specs.Run.{Finished, Legal};
ghost use Rattle.script_input.specs.declared.refusal.Refusal.{Refusal as RefusalData};
ghost use Rattle.service_rule.specs.Store.{store_rule};
ghost use Rattle.browser_cli.specs.Answers as answers;
ghost use Rattle.browser_cli.specs.Commands.{HasWorkers};
ghost use Rattle.browser_cli.specs.Headline.{IsTextOfHistory};

use crate::answers::{Answer, answer_of};
use crate::command::Command;
use browser_core::{Core, Store};
use browser_workers::{Gate, run_workers};
use history::{History, Policy, text_of};
use history_laws::laws::histories_have_one_spelling;
use history_laws::script_is_within_limits;
use script_input::{ScriptStop, read_script};
use script_model::{NoMemory, Script};
use std::alloc::Global;
use std::sync::Wait;
use std::thread::Threads;

/// The history that so many workers make of a script.
fn worked_history<R: Threads + Wait + Sync, G: Gate + Sync>(
    rt: &R,
    alloc: Global,
    script: &Script,
    count: u32,
    gate: &G,
) -> Result<History, NoMemory>
    requires { HasWorkers (Command.Run count) }
    ensures legal { IfOk result (λ history. Legal store_rule script.now history) }
    ensures finished { IfOk result (λ history. Finished store_rule script.now history) }
{
    let core = Core::new(alloc, script, Store::new(alloc))?;
    let core = run_workers(rt, alloc, script, core, count, gate)?;
    let _legal = core.history();
    Ok(core.close())
}

/// The text of a finished legal history, which is that of no other.
fn finished_text(alloc: Global, script: &Script, history: &History) -> Result<Vec<u8>, NoMemory>
    requires legal { Legal store_rule script.now history.now }
    requires finished { Finished store_rule script.now history.now }
    ensures { IfOk result (λ text. IsTextOfHistory script.now text.items history.now) }
{
    histories_have_one_spelling();
    script_is_within_limits(script);
    text_of(alloc, Policy::Two, history)
}

/// The text of the history that so many workers make of the script that is read.
fn run_script<R: Threads + Wait + Sync, G: Gate + Sync>(
    rt: &R,
    alloc: Global,
    count: u32,
    input: &[u8],
    gate: &G,
) -> Result<Answer, ScriptStop>
    requires { HasWorkers (Command.Run count) }
    ensures ok { IfOk result (λ answer. answers.IsAnswer (Command.Run count) input.now (answers.status_of_finding answer.finding) answer.output.items) }
    ensures refused { (refused : RefusalData) → result ≡ Err (ScriptStop.Refused refused) → answers.IsRefusal (Command.Run count) input.now refused }
{
    let script = read_script(alloc, input)?;
    let history = worked_history(rt, alloc, &script, count, gate)?;
    Ok(Answer {
        finding: None,
        output: finished_text(alloc, &script, &history)?,
    })
}

/// What a command makes of its input, or how it refuses it: of `run` with as many workers as it asks for.
pub fn answer_with_workers<R: Threads + Wait + Sync, G: Gate + Sync>(
    rt: &R,
    alloc: Global,
    command: Command,
    input: &[u8],
    gate: &G,
) -> Result<Answer, ScriptStop>
    requires { HasWorkers command }
    ensures ok { IfOk result (λ answer. answers.IsAnswer command input.now (answers.status_of_finding answer.finding) answer.output.items) }
    ensures refused { (refused : RefusalData) → result ≡ Err (ScriptStop.Refused refused) → answers.IsRefusal command input.now refused }
{
    match command {
        Command::Run(count) => run_script(rt, alloc, count, input, gate),
        _ => answer_of(alloc, command, input),
    }
}
