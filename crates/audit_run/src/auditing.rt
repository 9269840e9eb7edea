//! The audit of a text.

ghost use Rattle.std.specs.Prelude.{◌≡◌, ℕ, Ok, IfOk, length};
ghost use Rattle.history_steps.specs.Run.{Legal};
ghost use Rattle.history_laws.specs.CommitLaw.{CommitLaw};
ghost use Rattle.history_laws.specs.JudgementLaw.{HonestLaw, JudgementLaw};
ghost use Rattle.history_laws.specs.KillLaw.{KillLaw};
ghost use Rattle.history_laws.specs.ReceiveLaw.{ReceiveLaw};
ghost use Rattle.audit_run.specs.Audits.{HoldsOfText, IsAudit, IsTold, under_text};
ghost use Rattle.audit_run.specs.Steps.{IsFollowed};
ghost use Rattle.audit_run.specs.declared.answer.Audit.{Audit as AuditData};

use crate::answer::Audit;
use history::{Entry, History, may, nexts};
use history_laws::script_is_within_limits;
use history_text::{TextStop, line_number, read_text};
use script_model::{NoMemory, Script, ServiceRule};
use std::alloc::Global;

/// How far entries follow one another.
#[derive(Drop)]
enum Followed {
    /// Each may follow those before it.
    Whole(History),
    /// The place, from 0, of the first that may not.
    UpTo(usize),
}

fn follow<R: ServiceRule>(
    alloc: Global,
    script: &Script,
    services: &R,
    entries: Vec<Entry>,
) -> Result<Followed, NoMemory>
    ensures { IfOk result (IsFollowed R.rule script.now entries.items) }
{
    let mut history = History::new(alloc);
    for entry in entries {
        let follows = may(alloc, script, services, &history, &entry)?;
        if !follows {
            return Ok(Followed::UpTo(history.entries().len()));
        }
        history.push(entry)?;
    }
    Ok(Followed::Whole(history))
}

/// The number of entries of a legal history, which is below 400,000.
fn count_of<R: ServiceRule>(script: &Script, _services: &R, history: &History) -> u32
    requires { Legal R.rule script.now history.now }
    ensures { result ≡ length history.now }
{
    script_is_within_limits(script);
    history.entries().len() as u32
}

fn audit_legal<R: ServiceRule>(
    alloc: Global,
    script: &Script,
    services: &R,
    history: &History,
) -> Result<Audit, NoMemory>
    requires { Legal R.rule script.now history.now }
    ensures { IfOk result (IsTold R.rule script.now history.now) }
{
    let found = nexts(alloc, script, services, history)?;
    match found.first() {
        Some(next) => Ok(Audit::Unfinished(next.kind())),
        None => Ok(Audit::Legal(count_of(script, services, history))),
    }
}

fn audit_history<R: ServiceRule>(
    alloc: Global,
    script: &Script,
    services: &R,
    history: History,
) -> Result<Audit, NoMemory>
    ensures { IfOk result (IsTold R.rule script.now history) }
{
    match follow(alloc, script, services, history.into_entries())? {
        Followed::Whole(history) => audit_legal(alloc, script, services, &history),
        Followed::UpTo(place) => Ok(Audit::Entry(line_number(script.policy, place))),
    }
}

fn audit_text<R: ServiceRule>(
    alloc: Global,
    script: Script,
    services: &R,
    text: &[u8],
) -> Result<Audit, NoMemory>
    ensures { IfOk result (IsAudit R.rule script text.now) }
{
    match read_text(alloc, text) {
        Ok((policy, history)) => {
            let script = Script { policy, ..script };
            audit_history(alloc, &script, services, history)
        }
        Err(TextStop::BadLine(line)) => Ok(Audit::BadLine(line)),
        Err(TextStop::NoMemory) => Err(NoMemory),
    }
}

/// Whether a text is that of a finished legal history of the script, under the policy that the text has, whatever the script's
/// own. A bad line is told first, then the first entry that may not follow those before it, then what is missing.
pub fn audit<R: ServiceRule>(
    alloc: Global,
    script: Script,
    services: &R,
    text: &[u8],
) -> Result<Audit, NoMemory>
    ensures audit { IfOk result (IsAudit R.rule script text.now) }
    ensures exact { (a : AuditData) → IsAudit R.rule script text.now a → IfOk result (λ told. told ≡ a) }

    // Of a text that passes all laws hold.
    ensures commit { (n : ℕ) → result ≡ Ok (Audit.Legal n) → HoldsOfText text.now (CommitLaw R.rule (under_text text.now script)) }
    ensures receive { (n : ℕ) → result ≡ Ok (Audit.Legal n) → HoldsOfText text.now (ReceiveLaw R.rule (under_text text.now script)) }
    ensures judgement { (n : ℕ) → result ≡ Ok (Audit.Legal n) → HoldsOfText text.now (JudgementLaw R.rule (under_text text.now script)) }
    ensures kill { (n : ℕ) → result ≡ Ok (Audit.Legal n) → HoldsOfText text.now (KillLaw (under_text text.now script)) }
    ensures honest { (n : ℕ) → result ≡ Ok (Audit.Legal n) → HoldsOfText text.now (HonestLaw (under_text text.now script)) }
{
    audit_text(alloc, script, services, text)
}
