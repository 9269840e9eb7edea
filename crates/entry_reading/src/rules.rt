//! The codes of rules.

ghost use Rattle.std.specs.Prelude.{◌≡◌, find};
ghost use Rattle.entry_reading.specs.Answers.{Takes};
ghost use Rattle.entry_reading.specs.Fields as fields;

use crate::fields::Fields;
use crate::stop::EntryStop;
use history_entry::Rule;

#[tactic(auto, unfolding(crate::specs::Fields::has_code))]
fn has_code(text: &[u8], rule: Rule) -> bool
    ensures { result ≡ fields.has_code text.now rule }
{
    rule.code().as_bytes() == text
}

fn find_rule(rules: &[Rule], text: &[u8]) -> Option<Rule>
    ensures { result ≡ find (fields.has_code text.now) rules.now }
{
    for rule in rules {
        if has_code(text, *rule) {
            return Some(*rule);
        }
    }
    None
}

#[tactic(auto, unfolding(crate::specs::Fields::rule_of))]
fn rule_of(text: &[u8]) -> Option<Rule>
    ensures { result ≡ fields.rule_of text.now }
{
    find_rule(&Rule::ALL, text)
}

impl<'a> Fields<'a> {
    /// The rule whose code the next field is.
    pub fn rule(&mut self) -> Result<Rule, EntryStop>
        ensures { Takes result self.new.rest.now (fields.field_by fields.rule_of self.old.rest.now) }
    {
        let field = self.field()?;
        rule_of(field).ok_or(EntryStop::BadLine)
    }
}
