//! What holds of every rule.

ghost use Rattle.std.specs.Prelude.{Contains};
ghost use Rattle.history_entry.specs.RuleText.{all_rules};

use crate::rule::Rule;

/// Every rule stands in the list of all rules.
#[tactic(auto, using(crate::proofs::Listed::rule_listed))]
pub fn rule_is_listed(_rule: Rule)
    ensures { Contains all_rules _rule }
{}
