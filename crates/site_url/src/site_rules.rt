ghost use Rattle.std.specs.Prelude.{◌≡◌};
ghost use Rattle.site_url.specs.Sites.{is_isolated};

use page_origin::{TupleOrigin, equal_tuples};
use public_suffix::Rules;
use std::marker::Model;

/// By what sites are told apart: suffix rules in the format of the Public Suffix List, and isolated origins, each of which
/// is a site of its own.
///
/// Isolation is for exactly the named tuple origins, and not for their subdomains, other ports or other scheme.
#[derive(Drop)]
pub struct SiteRules {
    suffixes: Rules,
    isolated: Vec<TupleOrigin>,
}

impl Model for SiteRules {
    ghost use Rattle.site_url.specs.Sites.{SiteRuleData};

    ghost Value = { SiteRuleData };

    ghost view = { λ r. record { suffixes = r.suffixes; isolated = r.isolated.items } };
}

impl SiteRules {
    /// Sites by these suffix rules and isolated origins, which may be named more than once. This takes no memory.
    pub fn new(suffixes: Rules, isolated: Vec<TupleOrigin>) -> Self
        ensures { result ≡ record { suffixes = suffixes; isolated = isolated.items } }
    {
        SiteRules { suffixes, isolated }
    }

    pub(crate) fn suffixes(&self) -> &Rules
        ensures { result.now ≡ self.now.suffixes }
    {
        &self.suffixes
    }

    /// Whether a tuple is an isolated origin.
    #[tactic(auto, unfolding(crate::specs::Sites::is_isolated))]
    pub(crate) fn is_isolated(&self, tuple: &TupleOrigin) -> bool
        ensures { result ≡ is_isolated self.now.isolated tuple.now }
    {
        self.isolated.iter().any(|other| equal_tuples(tuple, other))
    }
}
