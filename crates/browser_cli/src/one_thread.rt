//! The top call of one thread.

ghost use Rattle.std.specs.Prelude.{◌≡◌, ◌≤◌, ◌↔◌, ◌+◌, IfSome, List, None, Some, map, ℕ};
ghost use Rattle.browser_io.specs.Faults.{Rose};
ghost use Rattle.browser_io.specs.Moved.{KeepsTelling, TakesAtMost, TakesExactly};
ghost use Rattle.script_input.specs.declared.refusal.Refusal.{Refusal as RefusalData};
ghost use Rattle.browser_cli.specs.Answers.{IsRefusal};
ghost use Rattle.browser_cli.specs.Browse.{IfInput, IsReadWhole, IsStatusFor, ReadsNothing, WritesOutput, WritesPart, input_of};
ghost use Rattle.browser_cli.specs.Commands.{input_limit, one_thread_command_of};
ghost use Rattle.browser_cli.specs.declared.command.Command.{Command as CommandData};
ghost use Rattle.browser_cli.specs.declared.status.Finding.{Finding as FindingData};

use crate::answers::{answer_of, write_answer};
use crate::command::one_thread_command_of;
use crate::reading::read_input;
use crate::status::Status;
use browser_io::{ReadStop, Sink, Source};
use script_input::ScriptStop;
use std::alloc::Global;

/// Does all that the program does in one thread: each command but `run`, whose words are no command here. It waits for nobody.
/// Else it is [`browse`](crate::browse).
pub fn browse_one<S: Source, K: Sink>(
    alloc: Global,
    words: &[&str],
    source: &mut S,
    sink: &mut K,
) -> Status
    ensures usage { (result ≡ Status.Usage) ↔ (one_thread_command_of (map (λ w. w.now) words.now) ≡ None) }

    // Exactly the output was written that the command makes of its input; an `audit` that ran found the text legal.
    ensures ran { result ≡ Status.Ran
        → IfInput (one_thread_command_of (map (λ w. w.now) words.now)) (S.left source.old) (WritesOutput Status.Ran (K.written sink.old) (K.written sink.new)) }
    ensures ran_read { result ≡ Status.Ran → IfSome (one_thread_command_of (map (λ w. w.now) words.now)) (IsReadWhole (S.left source.new)) }

    // The text is not that of a finished legal history, and exactly the line that says why was written.
    ensures illegal { (f : FindingData) → result ≡ Status.Illegal f
        → IfInput (one_thread_command_of (map (λ w. w.now) words.now)) (S.left source.old) (WritesOutput (Status.Illegal f) (K.written sink.old) (K.written sink.new)) }
    ensures illegal_read { (f : FindingData) → result ≡ Status.Illegal f → IfSome (one_thread_command_of (map (λ w. w.now) words.now)) (IsReadWhole (S.left source.new)) }

    // The whole input was read, and this is its first refusal.
    ensures refused { (x : RefusalData) → result ≡ Status.Refused x
        → IfInput (one_thread_command_of (map (λ w. w.now) words.now)) (S.left source.old) (λ command input. IsRefusal command input x) }
    ensures refused_read { (x : RefusalData) → result ≡ Status.Refused x → IfSome (one_thread_command_of (map (λ w. w.now) words.now)) (IsReadWhole (S.left source.new)) }

    ensures read_fault { result ≡ Status.ReadFault → Rose (S.faults source.old) (S.faults source.new) }

    // One byte more than the limit was read, and no more than the limit with any other status.
    ensures too_large { result ≡ Status.TooLarge
        → IfSome (one_thread_command_of (map (λ w. w.now) words.now)) (λ command. TakesExactly (S.left source.old) (S.left source.new) (input_limit command + 1)) }
    ensures within { ¬ (result ≡ Status.TooLarge)
        → IfSome (one_thread_command_of (map (λ w. w.now) words.now)) (λ command. TakesAtMost (S.left source.old) (S.left source.new) (input_limit command)) }

    // A failed write leaves a part of the whole output written, from its front on.
    ensures write_fault { result ≡ Status.WriteFault → Rose (K.faults sink.old) (K.faults sink.new) }
    ensures write_read { result ≡ Status.WriteFault → IfSome (one_thread_command_of (map (λ w. w.now) words.now)) (IsReadWhole (S.left source.new)) }
    ensures write_part { result ≡ Status.WriteFault
        → IfInput (one_thread_command_of (map (λ w. w.now) words.now)) (S.left source.old) (WritesPart (K.written sink.old) (K.written sink.new)) }

    // Nothing is written otherwise, and nothing read for words that are no command, and for `gen`.
    ensures unwritten { ¬ (result ≡ Status.Ran) → ((f : FindingData) → ¬ (result ≡ Status.Illegal f)) → ¬ (result ≡ Status.WriteFault)
        → sink.new ≡ sink.old }
    ensures unread { ReadsNothing (one_thread_command_of (map (λ w. w.now) words.now)) → source.new ≡ source.old }

    // A count of faults never falls, and rises in a faulty call alone; an object that tells its bytes goes on telling them.
    ensures source_later { S.faults source.old ≤ S.faults source.new }
    ensures source_calm { ¬ (result ≡ Status.ReadFault) → S.faults source.new ≡ S.faults source.old }
    ensures source_telling { KeepsTelling (S.left source.old) (S.left source.new) }
    ensures sink_later { K.faults sink.old ≤ K.faults sink.new }
    ensures sink_calm { ¬ (result ≡ Status.WriteFault) → K.faults sink.new ≡ K.faults sink.old }
    ensures sink_telling { KeepsTelling (K.written sink.old) (K.written sink.new) }

    // The input alone decides where no fault rose and memory was found.
    ensures complete { (command : CommandData) (input : List ℕ) → one_thread_command_of (map (λ w. w.now) words.now) ≡ Some command
        → input_of command (S.left source.old) ≡ Some input
        → ¬ Rose (S.faults source.old) (S.faults source.new) → ¬ Rose (K.faults sink.old) (K.faults sink.new)
        → ¬ (result ≡ Status.NoMemory) → IsStatusFor command input result }
{
    let Some(command) = one_thread_command_of(words) else {
        return Status::Usage;
    };
    let input = match read_input(alloc, command, source) {
        Ok(input) => input,
        Err(ReadStop::Fault) => return Status::ReadFault,
        Err(ReadStop::TooLarge) => return Status::TooLarge,
        Err(ReadStop::NoMemory) => return Status::NoMemory,
    };
    match answer_of(alloc, command, &input) {
        Ok(answer) => write_answer(&answer, sink),
        Err(ScriptStop::Refused(refusal)) => Status::Refused(refusal),
        Err(ScriptStop::NoMemory) => Status::NoMemory,
    }
}
