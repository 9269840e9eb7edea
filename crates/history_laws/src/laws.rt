//! The laws of a legal history, each the contract of a function without a body.

ghost use Rattle.std.specs.Prelude.{List};
ghost use Rattle.history_entry.specs.declared.entry.Entry.{Entry};
ghost use Rattle.history_laws.specs.CommitLaw.{CommitLaw};
ghost use Rattle.history_laws.specs.JudgementLaw.{HonestLaw, JudgementLaw};
ghost use Rattle.history_laws.specs.KillLaw.{KillLaw};
ghost use Rattle.history_laws.specs.Laws.{LawsHold};
ghost use Rattle.history_laws.specs.PolicyLaw.{RefusesByServiceRules, RulesAreOfThePolicy};
ghost use Rattle.history_laws.specs.ReceiveLaw.{ReceiveLaw};
ghost use Rattle.service_rule.specs.Services.{ServiceRule};
ghost use Rattle.service_rule.specs.Store.{store_rule};
ghost use Rattle.history_steps.specs.Objects.{HasOneRun, HasOneSpelling, HasRun, IsBounded, RunsAreLegal};
ghost use Rattle.history_steps.specs.Run.{Legal};
ghost use Rattle.script_model.specs.ScriptData.{ScriptData};

/// Renderers commit exactly the documents of standing orders that their locks admit.
pub fn commits_are_ordered()
    ensures { (rule : ServiceRule) (s : ScriptData) (h : List Entry) → Legal rule s h → CommitLaw rule s h }
{}

/// Renderers receive what the verdicts allow, whole unless a named end stands.
pub fn deliveries_are_right()
    ensures { (rule : ServiceRule) (s : ScriptData) (h : List Entry) → Legal rule s h → ReceiveLaw rule s h }
{}

/// Every denial or kill carries its rule.
pub fn replies_are_judgements()
    ensures { (rule : ServiceRule) (s : ScriptData) (h : List Entry) → Legal rule s h → JudgementLaw rule s h }
{}

/// A killed renderer receives nothing afterwards.
pub fn dead_processes_are_left_alone()
    ensures { (rule : ServiceRule) (s : ScriptData) (h : List Entry) → Legal rule s h → KillLaw s h }
{}

/// Only a forged message kills.
pub fn honest_documents_are_spared()
    ensures { (rule : ServiceRule) (s : ScriptData) (h : List Entry) → Legal rule s h → HonestLaw s h }
{}

/// Under the first policy no entry carries B8, so a text of that policy has none. The services refuse by rules of their own, as
/// `store` does.
pub fn rules_are_of_the_policy()
    ensures law { (rule : ServiceRule) (s : ScriptData) → RulesAreOfThePolicy rule s }
    ensures store { RefusesByServiceRules store_rule }
{}

/// The commit, receive, judgement, kill and honest laws together.
pub fn laws_hold()
    ensures { (rule : ServiceRule) (s : ScriptData) → LawsHold rule s }
{}

/// A legal history of a script within the limits has fewer than 400,000 entries, so runs end.
pub fn histories_are_bounded()
    ensures { (rule : ServiceRule) (s : ScriptData) → IsBounded rule s }
{}

/// Two legal histories of a script within the limits with equal texts under one policy are equal.
pub fn histories_have_one_spelling()
    ensures { (rule : ServiceRule) (s : ScriptData) → HasOneSpelling rule s }
{}

/// A script within the limits has one run.
pub fn scripts_have_one_run()
    ensures some { (rule : ServiceRule) (s : ScriptData) → HasRun rule s }
    ensures one { (rule : ServiceRule) (s : ScriptData) → HasOneRun rule s }
{}

/// A run is legal.
pub fn runs_are_legal()
    ensures { (rule : ServiceRule) (s : ScriptData) → RunsAreLegal rule s }
{}
