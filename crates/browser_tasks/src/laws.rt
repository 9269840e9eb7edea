//! The laws of outcomes, the contracts of functions without a body.

ghost use Rattle.script_model.specs.ScriptData.{ScriptData};
ghost use Rattle.service_rule.specs.Services.{ServiceRule};
ghost use Rattle.browser_tasks.specs.Outcomes.{HasOneNext};

/// Of an outcome at most one entry may follow a legal history.
#[tactic(auto, using(crate::proofs::OneNext::one_next))]
pub fn outcomes_have_one_next()
    ensures { (rule : ServiceRule) (s : ScriptData) → HasOneNext rule s }
{}
