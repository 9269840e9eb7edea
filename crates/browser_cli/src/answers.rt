//! What each command makes of its input.

ghost use Rattle.std.specs.Prelude.{◌≡◌, ◌≤◌, Err, IfOk};
ghost use Rattle.std.specs.Io.KnownBytes.{Appends};
ghost use Rattle.browser_io.specs.Faults.{Rose};
ghost use Rattle.browser_io.specs.Moved.{KeepsTelling};
ghost use Rattle.script_input.specs.ScriptReading.{script_of};
ghost use Rattle.script_input.specs.declared.refusal.Refusal.{Refusal as RefusalData};
ghost use Rattle.browser_cli.specs.Answers as answers;
ghost use Rattle.browser_cli.specs.Browse.{AppendsPart};
ghost use Rattle.browser_cli.specs.Commands.{IsOfOneThread};
ghost use Rattle.browser_cli.specs.declared.command.Command.TheVariants as commands;

use crate::command::Command;
use crate::framing::framed;
use crate::status::{Finding, Status};
use audit_run::{Audit, audit, audit_line};
use browser_core::{Store, run};
use browser_io::{Sink, write_all};
use history::{Policy, text_of};
use script_gen::{generate, summary_of};
use script_input::{Refusal, ScriptStop, read_script};
use script_model::{NoMemory, PlainStore, Script};
use std::alloc::Global;

/// The code of a refusal of a bad frame: X8.
const BAD_FRAMING: u8 = 8;

/// What a command makes of its input: why the text is not that of a finished legal history, if it says so, and what it writes.
#[derive(Drop)]
pub struct Answer {
    pub finding: Option<Finding>,
    pub output: Vec<u8>,
}

/// The status with which a command ends that wrote its whole output.
fn status_of(finding: Option<Finding>) -> Status
    ensures { result ≡ answers.status_of_finding finding }
{
    match finding {
        None => Status::Ran,
        Some(finding) => Status::Illegal(finding),
    }
}

/// Writes the output of a command, and says how the command ended.
pub fn write_answer<K: Sink>(answer: &Answer, sink: &mut K) -> Status
    ensures ends { ¬ (result ≡ Status.WriteFault) → result ≡ answers.status_of_finding answer.now.finding }
    ensures all { ¬ (result ≡ Status.WriteFault) → Appends (K.written sink.old) (K.written sink.new) answer.now.output.items }

    // A failed write leaves a part of the output written, from its front on.
    ensures part { result ≡ Status.WriteFault → AppendsPart (K.written sink.old) (K.written sink.new) answer.now.output.items }
    ensures fault { result ≡ Status.WriteFault → Rose (K.faults sink.old) (K.faults sink.new) }
    ensures calm { ¬ (result ≡ Status.WriteFault) → K.faults sink.new ≡ K.faults sink.old }

    ensures later { K.faults sink.old ≤ K.faults sink.new }
    ensures telling { KeepsTelling (K.written sink.old) (K.written sink.new) }
{
    match write_all(sink, &answer.output) {
        Ok(()) => status_of(answer.finding),
        Err(_) => Status::WriteFault,
    }
}

fn finding_of(audit: &Audit) -> Option<Finding>
    ensures { answers.status_of_finding result ≡ answers.status_of_audit audit.now }
{
    match audit {
        Audit::Legal(_) => None,
        Audit::BadLine(line) => Some(Finding::BadLine(*line)),
        Audit::Entry(line) => Some(Finding::Entry(*line)),
        Audit::Unfinished(kind) => Some(Finding::Unfinished(*kind)),
    }
}

fn run_script(alloc: Global, input: &[u8]) -> Result<Answer, ScriptStop>
    ensures ok { IfOk result (λ answer. answers.IsAnswer commands.One input.now (answers.status_of_finding answer.finding) answer.output.items) }
    ensures refused { (refused : RefusalData) → result ≡ Err (ScriptStop.Refused refused) → answers.IsRefusal commands.One input.now refused }
{
    let script = read_script(alloc, input)?;
    let history = run(alloc, &script, Store::new(alloc))?;
    Ok(Answer {
        finding: None,
        output: text_of(alloc, Policy::Two, &history)?,
    })
}

fn audit_framed(alloc: Global, script: &[u8], text: &[u8]) -> Result<Answer, ScriptStop>
    ensures ok { IfOk result (λ answer. answers.IsAuditOf script.now text.now (answers.status_of_finding answer.finding) answer.output.items) }
    ensures refused { (refused : RefusalData) → result ≡ Err (ScriptStop.Refused refused) → script_of script.now ≡ Err refused }
{
    let script = read_script(alloc, script)?;
    let audit = audit(alloc, script, &PlainStore, text)?;
    Ok(Answer {
        finding: finding_of(&audit),
        output: audit_line(alloc, &audit)?,
    })
}

fn audit_input(alloc: Global, input: &[u8]) -> Result<Answer, ScriptStop>
    ensures ok { IfOk result (λ answer. answers.IsAnswer commands.Audit input.now (answers.status_of_finding answer.finding) answer.output.items) }
    ensures refused { (refused : RefusalData) → result ≡ Err (ScriptStop.Refused refused) → answers.IsRefusal commands.Audit input.now refused }
{
    match framed(input) {
        Some((script, text)) => audit_framed(alloc, script, text),
        None => Err(ScriptStop::Refused(Refusal::whole(alloc, BAD_FRAMING))),
    }
}

/// The summary of the one-thread run of a script: what `gen` makes of its script.
pub fn summarize(alloc: Global, script: &Script) -> Result<Answer, NoMemory>
    ensures { IfOk result (λ answer. (answers.status_of_finding answer.finding ≡ Status.Ran) × answers.IsSummaryOf script.now answer.output.items) }
{
    let history = run(alloc, script, Store::new(alloc))?;
    Ok(Answer {
        finding: None,
        output: summary_of(alloc, &history)?,
    })
}

/// What a command of one thread makes of its input, or how it refuses it.
pub fn answer_of(alloc: Global, command: Command, input: &[u8]) -> Result<Answer, ScriptStop>
    requires { IsOfOneThread command }
    ensures ok { IfOk result (λ answer. answers.IsAnswer command input.now (answers.status_of_finding answer.finding) answer.output.items) }
    ensures refused { (refused : RefusalData) → result ≡ Err (ScriptStop.Refused refused) → answers.IsRefusal command input.now refused }
{
    match command {
        Command::One => run_script(alloc, input),
        Command::Audit => audit_input(alloc, input),
        Command::Gen(number) => Ok(summarize(alloc, &generate(alloc, number)?)?),
        Command::Run(_) => unreachable!(),
    }
}
