//! One suffix rule.

ghost use Rattle.std.specs.Prelude.{◌≡◌, true};
ghost use Rattle.public_suffix.specs.Labels.{label_count};
ghost use Rattle.public_suffix.specs.RegistrableDomain.{matches};
ghost use Rattle.public_suffix.specs.RuleLines.{is_rule};
ghost use Rattle.public_suffix.specs.Reading.{Gives, line_reading};

use crate::labels;
use crate::refusal::RulesRefusal;
use crate::word::{is_rule, unmarked, word};
use std::alloc::Global;
use std::marker::Model;

/// A suffix rule: its text in lower case, without the `!` of an exception.
#[derive(Drop)]
pub struct Rule {
    exception: bool,
    text: String,
}

impl Model for Rule {
    ghost use Rattle.public_suffix.specs.RegistrableDomain.{SuffixRule};

    ghost Value = { SuffixRule };

    ghost use Rattle.public_suffix.specs.RuleLayout.{rule_view, IsWellFormed};

    ghost view = { rule_view };

    ghost invariant = { IsWellFormed };
}

impl Rule {
    /// The rule on a line, or none where the line is passed over. `number` names the line in a refusal.
    pub fn read(alloc: Global, line: &[u8], number: u32) -> Result<Option<Rule>, RulesRefusal>
        ensures { Gives result (line_reading line.now number) }
    {
        let Some(word) = word(line) else {
            return Ok(None);
        };
        let (exception, text) = unmarked(word);
        let text = text.to_ascii_lowercase(alloc)?;
        if !is_rule(exception, text.as_str()) {
            return Err(RulesRefusal::BadRule(number));
        }
        Ok(Some(Rule { exception, text }))
    }

    /// The rule's text.
    pub fn text(&self) -> &str
        ensures text { result.now ≡ self.now.text }
        ensures form { is_rule self.now ≡ true }
    {
        self.text.as_str()
    }

    /// Whether the rule is an exception.
    pub fn is_exception(&self) -> bool
        ensures { result ≡ self.now.exception }
    {
        self.exception
    }

    /// How many labels the rule has.
    pub fn label_count(&self) -> usize
        ensures { result ≡ label_count self.now.text }
    {
        labels::label_count(self.text.as_str())
    }

    /// Whether the rule matches a host.
    pub fn matches(&self, host: &str) -> bool
        ensures { result ≡ matches host.now self.now }
    {
        labels::fits_last(host, self.text.as_str())
    }
}
