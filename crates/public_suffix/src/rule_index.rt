//! An index of suffix rules by their texts.

ghost use Rattle.std.specs.Prelude.{◌≡◌, ◌||◌, ◌++◌, ◌∷◌, [], ℕ, List, false, bytes_eq, codes, MatchOption, OnOk, IfOk};
ghost use Rattle.std.specs.HashSet.{contains_text};
ghost use Rattle.public_suffix.specs.RegistrableDomain.{SuffixRule};
ghost use Rattle.public_suffix.specs.RuleTexts.{is_exception_with, is_other_with, is_star_before};
ghost use Rattle.public_suffix.specs.IndexLayout.{IsIndexOf};

use crate::rule::Rule;
use std::alloc::{AllocError, Global};
use std::collections::HashSet;

/// The texts of the rules of a list, by kind.
#[derive(Drop)]
pub struct RuleIndex {
    /// The texts of the exceptions.
    pub exceptions: HashSet<String>,
    /// The texts of the other rules.
    pub others: HashSet<String>,
    /// What follows `*.` in these.
    pub stars: HashSet<String>,
}

fn add_text(alloc: Global, texts: &mut HashSet<String>, text: &str) -> Result<(), AllocError>
    ensures { OnOk result ((asked : List ℕ) → contains_text texts.new asked
        ≡ (bytes_eq asked text.now || contains_text texts.old asked)) }
{
    texts.insert(String::from_str(alloc, text)?)?;
    Ok(())
}

fn add_exception(alloc: Global, texts: &mut HashSet<String>, rule: &Rule) -> Result<(), AllocError>
    ensures { OnOk result ((asked : List ℕ) → contains_text texts.new asked
        ≡ (is_exception_with asked rule.now || contains_text texts.old asked)) }
{
    if rule.is_exception() {
        add_text(alloc, texts, rule.text())?;
    }
    Ok(())
}

fn add_other(alloc: Global, texts: &mut HashSet<String>, rule: &Rule) -> Result<(), AllocError>
    ensures { OnOk result ((asked : List ℕ) → contains_text texts.new asked
        ≡ (is_other_with asked rule.now || contains_text texts.old asked)) }
{
    if !rule.is_exception() {
        add_text(alloc, texts, rule.text())?;
    }
    Ok(())
}

fn add_star(alloc: Global, texts: &mut HashSet<String>, rule: &Rule) -> Result<(), AllocError>
    ensures { OnOk result ((asked : List ℕ) → contains_text texts.new asked
        ≡ (is_star_before asked rule.now || contains_text texts.old asked)) }
{
    if rule.is_exception() {
        return Ok(());
    }
    if let Some(rest) = after_star(rule.text()) {
        add_text(alloc, texts, rest)?;
    }
    Ok(())
}

impl RuleIndex {
    /// The index of no rules.
    pub fn new(alloc: Global) -> RuleIndex
        ensures { IsIndexOf result [] }
    {
        RuleIndex {
            exceptions: HashSet::new(alloc),
            others: HashSet::new(alloc),
            stars: HashSet::new(alloc),
        }
    }

    /// Adds a rule.
    fn add(&mut self, alloc: Global, rule: &Rule) -> Result<(), AllocError>
        ensures { OnOk result ((rules : List SuffixRule) → IsIndexOf self.old rules
            → IsIndexOf self.new (rules ++ rule.now ∷ [])) }
    {
        let _form = rule.text();
        add_exception(alloc, &mut self.exceptions, rule)?;
        add_other(alloc, &mut self.others, rule)?;
        add_star(alloc, &mut self.stars, rule)?;
        Ok(())
    }

    /// The index of a list of rules.
    pub fn of(alloc: Global, rules: &[Rule]) -> Result<RuleIndex, AllocError>
        ensures { IfOk result (λ index. IsIndexOf index rules.now) }
    {
        let mut index = RuleIndex::new(alloc);
        for rule in rules {
            index.add(alloc, rule)?;
        }
        Ok(index)
    }
}

/// What follows `*.` in a rule's text.
fn after_star(text: &str) -> Option<&str>
    ensures { MatchOption result ((asked : List ℕ) → bytes_eq (codes "*." ++ asked) text.now ≡ false)
        (λ rest. text.now ≡ codes "*." ++ rest.now) }
{
    text.strip_prefix("*.")
}
