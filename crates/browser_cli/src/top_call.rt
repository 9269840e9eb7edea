//! The top call.

ghost use Rattle.std.specs.Prelude.{◌≡◌, ◌≤◌, ◌↔◌, ◌+◌, IfSome, List, None, Some, map, ℕ};
ghost use Rattle.browser_io.specs.Faults.{Rose};
ghost use Rattle.browser_io.specs.Moved.{KeepsTelling, TakesAtMost, TakesExactly};
ghost use Rattle.script_input.specs.declared.refusal.Refusal.{Refusal as RefusalData};
ghost use Rattle.browser_cli.specs.Answers.{IsRefusal};
ghost use Rattle.browser_cli.specs.Browse.{IfInput, IsReadWhole, IsStatusFor, ReadsNothing, WritesOutput, WritesPart, input_of};
ghost use Rattle.history_laws.specs.CommitLaw.{CommitLaw};
ghost use Rattle.history_laws.specs.JudgementLaw.{HonestLaw, JudgementLaw};
ghost use Rattle.history_laws.specs.KillLaw.{KillLaw};
ghost use Rattle.history_laws.specs.ReceiveLaw.{ReceiveLaw};
ghost use Rattle.history_steps.specs.Run.{Finished, Legal};
ghost use Rattle.service_rule.specs.Store.{store_rule};
ghost use Rattle.browser_cli.specs.Commands.{command_of, input_limit};
ghost use Rattle.browser_cli.specs.Headline.{OfWritten};
ghost use Rattle.browser_cli.specs.declared.command.Command.{Command as CommandData};
ghost use Rattle.browser_cli.specs.declared.status.Finding.{Finding as FindingData};

use crate::answers::write_answer;
use crate::command::command_of;
use crate::reading::read_input;
use crate::status::Status;
use crate::workers::answer_with_workers;
use browser_io::{ReadStop, Sink, Source};
use browser_workers::Gate;
use history_laws::laws::laws_hold;
use script_input::ScriptStop;
use std::alloc::Global;
use std::sync::Wait;
use std::thread::Threads;

/// Does all that the program does: `words` name the command, its input is read from `source` and its output written to `sink`.
/// Nothing is written before the whole output is made. `run N` lets N workers act in threads of their own, and may wait for them; it
/// tells `gate` where each worker is. Every other command is done by this thread alone, as [`browse_one`](crate::browse_one) does it.
pub fn browse<R: Threads + Wait + Sync, S: Source, K: Sink, G: Gate + Sync>(
    rt: &R,
    alloc: Global,
    words: &[&str],
    source: &mut S,
    sink: &mut K,
    gate: &G,
) -> Status
    ensures usage { (result ≡ Status.Usage) ↔ (command_of (map (λ w. w.now) words.now) ≡ None) }

    // Exactly the output was written that the command makes of its input; an `audit` that ran found the text legal.
    ensures ran { result ≡ Status.Ran
        → IfInput (command_of (map (λ w. w.now) words.now)) (S.left source.old) (WritesOutput Status.Ran (K.written sink.old) (K.written sink.new)) }
    ensures ran_read { result ≡ Status.Ran → IfSome (command_of (map (λ w. w.now) words.now)) (IsReadWhole (S.left source.new)) }

    // The headline, of the words `run N`: what was written is the text of one finished legal history of the script, and of it this is
    // promised. Renderers, forged messages included, commit exactly the documents of standing orders that their locks admit.
    ensures history { result ≡ Status.Ran
        → OfWritten (command_of (map (λ w. w.now) words.now)) (S.left source.old) (K.written sink.old) (K.written sink.new) (λ script history. Legal store_rule script history × Finished store_rule script history) }
    ensures commits { result ≡ Status.Ran
        → OfWritten (command_of (map (λ w. w.now) words.now)) (S.left source.old) (K.written sink.old) (K.written sink.new) (CommitLaw store_rule) }

    // They receive response bytes exactly as site, CORS or read blocking allows, whole unless a named end stands.
    ensures receives { result ≡ Status.Ran
        → OfWritten (command_of (map (λ w. w.now) words.now)) (S.left source.old) (K.written sink.old) (K.written sink.new) (ReceiveLaw store_rule) }

    // Every denial or kill carries its rule.
    ensures judges { result ≡ Status.Ran
        → OfWritten (command_of (map (λ w. w.now) words.now)) (S.left source.old) (K.written sink.old) (K.written sink.new) (JudgementLaw store_rule) }

    // A killed renderer receives nothing afterwards, and only a forged message kills.
    ensures kills { result ≡ Status.Ran
        → OfWritten (command_of (map (λ w. w.now) words.now)) (S.left source.old) (K.written sink.old) (K.written sink.new) KillLaw }
    ensures honest { result ≡ Status.Ran
        → OfWritten (command_of (map (λ w. w.now) words.now)) (S.left source.old) (K.written sink.old) (K.written sink.new) HonestLaw }

    // The text is not that of a finished legal history, and exactly the line that says why was written.
    ensures illegal { (f : FindingData) → result ≡ Status.Illegal f
        → IfInput (command_of (map (λ w. w.now) words.now)) (S.left source.old) (WritesOutput (Status.Illegal f) (K.written sink.old) (K.written sink.new)) }
    ensures illegal_read { (f : FindingData) → result ≡ Status.Illegal f → IfSome (command_of (map (λ w. w.now) words.now)) (IsReadWhole (S.left source.new)) }

    // The whole input was read, and this is its first refusal.
    ensures refused { (x : RefusalData) → result ≡ Status.Refused x
        → IfInput (command_of (map (λ w. w.now) words.now)) (S.left source.old) (λ command input. IsRefusal command input x) }
    ensures refused_read { (x : RefusalData) → result ≡ Status.Refused x → IfSome (command_of (map (λ w. w.now) words.now)) (IsReadWhole (S.left source.new)) }

    ensures read_fault { result ≡ Status.ReadFault → Rose (S.faults source.old) (S.faults source.new) }

    // One byte more than the limit was read, and no more than the limit with any other status.
    ensures too_large { result ≡ Status.TooLarge
        → IfSome (command_of (map (λ w. w.now) words.now)) (λ command. TakesExactly (S.left source.old) (S.left source.new) (input_limit command + 1)) }
    ensures within { ¬ (result ≡ Status.TooLarge)
        → IfSome (command_of (map (λ w. w.now) words.now)) (λ command. TakesAtMost (S.left source.old) (S.left source.new) (input_limit command)) }

    // A failed write leaves a part of the whole output written, from its front on.
    ensures write_fault { result ≡ Status.WriteFault → Rose (K.faults sink.old) (K.faults sink.new) }
    ensures write_read { result ≡ Status.WriteFault → IfSome (command_of (map (λ w. w.now) words.now)) (IsReadWhole (S.left source.new)) }
    ensures write_part { result ≡ Status.WriteFault
        → IfInput (command_of (map (λ w. w.now) words.now)) (S.left source.old) (WritesPart (K.written sink.old) (K.written sink.new)) }

    // Nothing is written otherwise, and nothing read for words that are no command, and for `gen`.
    ensures unwritten { ¬ (result ≡ Status.Ran) → ((f : FindingData) → ¬ (result ≡ Status.Illegal f)) → ¬ (result ≡ Status.WriteFault)
        → sink.new ≡ sink.old }
    ensures unread { ReadsNothing (command_of (map (λ w. w.now) words.now)) → source.new ≡ source.old }

    // A count of faults never falls, and rises in a faulty call alone; an object that tells its bytes goes on telling them.
    ensures source_later { S.faults source.old ≤ S.faults source.new }
    ensures source_calm { ¬ (result ≡ Status.ReadFault) → S.faults source.new ≡ S.faults source.old }
    ensures source_telling { KeepsTelling (S.left source.old) (S.left source.new) }
    ensures sink_later { K.faults sink.old ≤ K.faults sink.new }
    ensures sink_calm { ¬ (result ≡ Status.WriteFault) → K.faults sink.new ≡ K.faults sink.old }
    ensures sink_telling { KeepsTelling (K.written sink.old) (K.written sink.new) }

    // The input alone decides where no fault rose and memory was found, but for which history `run` came to.
    ensures complete { (command : CommandData) (input : List ℕ) → command_of (map (λ w. w.now) words.now) ≡ Some command
        → input_of command (S.left source.old) ≡ Some input
        → ¬ Rose (S.faults source.old) (S.faults source.new) → ¬ Rose (K.faults sink.old) (K.faults sink.new)
        → ¬ (result ≡ Status.NoMemory) → IsStatusFor command input result }
{
    laws_hold();
    let Some(command) = command_of(words) else {
        return Status::Usage;
    };
    let input = match read_input(alloc, command, source) {
        Ok(input) => input,
        Err(ReadStop::Fault) => return Status::ReadFault,
        Err(ReadStop::TooLarge) => return Status::TooLarge,
        Err(ReadStop::NoMemory) => return Status::NoMemory,
    };
    match answer_with_workers(rt, alloc, command, &input, gate) {
        Ok(answer) => write_answer(&answer, sink),
        Err(ScriptStop::Refused(refusal)) => Status::Refused(refusal),
        Err(ScriptStop::NoMemory) => Status::NoMemory,
    }
}
