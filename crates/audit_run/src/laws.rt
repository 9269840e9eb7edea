//! The laws of audits, each the contract of a function without a body, or of one that only looks at a script.

ghost use Rattle.service_rule.specs.Services.{ServiceRule};
ghost use Rattle.service_rule.specs.Store.{store_rule};
ghost use Rattle.script_model.specs.ScriptData.{ScriptData};
ghost use Rattle.history_laws.specs.PolicyLaw.{RefusesByServiceRules};
ghost use Rattle.kept_entries.specs.EntryLaw.{AnswersTexts};
ghost use Rattle.audit_run.specs.AuditLines.{LinesBeginWithWords};
ghost use Rattle.audit_run.specs.Audits.{HasOneAudit, HistoriesPass, RunsPass};

use history_laws::script_is_within_limits;
use kept_entries::script_is_kept;
use script_model::Script;

/// A text has one audit.
pub fn audits_are_unique()
    ensures { (rule : ServiceRule) (s : ScriptData) → HasOneAudit rule s }
{}

/// The text of each finished legal history of a script passes, under either policy and in whatever order its actors took their
/// turns: where the services answer texts of UTF-8 and refuse by rules of their own, as `store` does.
pub fn histories_pass(script: &Script)
    ensures services { (rule : ServiceRule) → AnswersTexts rule → RefusesByServiceRules rule → HistoriesPass rule script.now }
    ensures store { HistoriesPass store_rule script.now }
{
    script_is_kept(script);
    script_is_within_limits(script);
}

/// The text of a script's one-thread run passes.
pub fn runs_pass(script: &Script)
    ensures { RunsPass store_rule script.now }
{
    histories_pass(script);
}

/// The line of each entry begins with the word of its kind.
pub fn lines_begin_with_words()
    ensures { LinesBeginWithWords }
{}
