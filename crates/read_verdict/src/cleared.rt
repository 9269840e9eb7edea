ghost use Rattle.std.specs.Prelude.{◌≡◌, true};
ghost use Rattle.script_model.specs.Verdicts.{is_allow_rule};

use script_model::Rule;
use std::marker::Model;

/// Leave to hand out the response to a request, and the rule that allows it, one of A1 to A5. Only a judge that settled on
/// this rule makes one.
#[derive(Clone, Copy)]
pub struct Cleared {
    request: u32,
    rule: Rule,
}

impl Model for Cleared {
    ghost use Rattle.std.specs.Prelude.{◌≡◌, true};
    ghost use Rattle.script_model.specs.Verdicts.{is_allow_rule};
    ghost use Rattle.read_verdict.specs.ClearedData.{ClearedData};

    ghost Value = { ClearedData };

    ghost view = { λ c. record { request = c.request; rule = c.rule } };

    ghost inverse = { λ d. record { request = d.request; rule = d.rule } };

    ghost invariant = { λ c. is_allow_rule c.rule ≡ true };
}

impl Cleared {
    pub(crate) fn new(request: u32, rule: Rule) -> Cleared
        requires { is_allow_rule rule ≡ true }
        ensures { result ≡ record { request = request; rule = rule } }
    {
        Cleared { request, rule }
    }

    /// The number of the request whose response is allowed.
    pub fn request(&self) -> u32
        ensures { result ≡ self.now.request }
    {
        self.request
    }

    /// The rule that allows it.
    pub fn rule(&self) -> Rule
        ensures rule { result ≡ self.now.rule }
        ensures allows { is_allow_rule result ≡ true }
    {
        self.rule
    }
}
