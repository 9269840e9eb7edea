//! A plain list of suffix rules.

ghost use Rattle.std.specs.Prelude.{◌≡◌, ◌<◌, ◌⊎◌, false, [], ◌∷◌, ◌++◌, length, OnOk, IfOk, IfErr, IfSome};
ghost use Rattle.public_suffix.specs.RegistrableDomain.{most_labels, matching_exceptions, matching_others, suffix_label_count, registrable};
ghost use Rattle.public_suffix.specs.Reading.{Gives, reading, rules_on, line_reading};
ghost use Rattle.public_suffix.specs.RuleLines.{is_bad};
ghost use Rattle.public_suffix.specs.IndexLayout.{IsIndexOf};

use crate::labels::{has_empty_label, label_count, label_start};
use crate::refusal::RulesRefusal;
use crate::rule::Rule;
use crate::rule_index::RuleIndex;
use std::alloc::{AllocError, Global};
use std::marker::Model;

/// Suffix rules as a plain list, each of which is looked at in every look-up.
#[derive(Drop)]
pub struct PlainRules {
    list: Vec<Rule>,
}

impl Model for PlainRules {
    ghost use Rattle.std.specs.Prelude.{List};
    ghost use Rattle.public_suffix.specs.RegistrableDomain.{SuffixRule};

    ghost Value = { List SuffixRule };

    ghost view = { λ rules. rules.list.items };
}

/// The most labels of a matching exception, or 0.
fn longest_exception(rules: &[Rule], host: &str) -> usize
    ensures { result ≡ most_labels (matching_exceptions rules.now host.now) }
{
    let mut most = 0;
    for rule in rules {
        if rule.is_exception() && rule.matches(host) {
            most = most.max(rule.label_count());
        }
    }
    most
}

/// The most labels of a matching rule that is no exception, or 0.
fn longest_other(rules: &[Rule], host: &str) -> usize
    ensures { result ≡ most_labels (matching_others rules.now host.now) }
{
    let mut longest = 0;
    for rule in rules {
        if !rule.is_exception() && rule.matches(host) {
            longest = longest.max(rule.label_count());
        }
    }
    longest
}

/// How many labels a host's public suffix has.
#[tactic(auto, unfolding(crate::specs::RegistrableDomain::suffix_label_count))]
fn suffix_label_count(rules: &[Rule], host: &str) -> usize
    ensures { result ≡ suffix_label_count rules.now host.now }
{
    let exception = longest_exception(rules, host);
    if 0 < exception {
        exception - 1
    } else {
        longest_other(rules, host).max(1)
    }
}

/// Adds to a list of rules what a line with this number gives.
#[tactic(auto, using(crate::proofs::ReadingLemmas::read_line))]
fn add_line(
    alloc: Global,
    list: &mut Vec<Rule>,
    line: &[u8],
    number: u32,
) -> Result<(), RulesRefusal>
    ensures fine { OnOk result (is_bad line.now ≡ false) }
    ensures added { OnOk result (list.new.items ≡ list.old.items ++ rules_on (line.now ∷ [])) }
    ensures refused { IfErr result (λ e. (e ≡ RulesRefusal.NoMemory) ⊎ (line_reading line.now number ≡ Err e)) }
{
    if let Some(rule) = Rule::read(alloc, line, number)? {
        list.push(rule)?;
    }
    Ok(())
}

impl PlainRules {
    /// No rules.
    pub fn new(alloc: Global) -> PlainRules
        ensures { result ≡ [] }
    {
        PlainRules {
            list: Vec::new(alloc),
        }
    }

    /// The rules of a text in the format of the Public Suffix List.
    pub fn read(alloc: Global, text: &[u8]) -> Result<PlainRules, RulesRefusal>
        ensures { Gives result (reading text.now) }
    {
        let mut list = Vec::new(alloc);
        let mut number: u32 = 0;
        for line in text.split(|byte| *byte == b'\n') {
            number = number.saturating_add(1);
            add_line(alloc, &mut list, line, number)?;
        }
        Ok(PlainRules { list })
    }

    /// The index of the rules.
    pub(crate) fn index(&self, alloc: Global) -> Result<RuleIndex, AllocError>
        ensures { IfOk result (λ index. IsIndexOf index self.now) }
    {
        RuleIndex::of(alloc, self.list.as_slice())
    }

    /// The byte of a host at which its registrable domain begins. There is none where the host is a public suffix, is
    /// empty or has an empty label.
    #[tactic(auto, unfolding(crate::specs::RegistrableDomain::registrable), using(crate::proofs::LabelStart::label_start_within))]
    pub fn registrable(&self, host: &str) -> Option<usize>
        ensures value { result ≡ registrable self.now host.now }
        ensures within { IfSome result (λ start. start < length host.now) }
    {
        if has_empty_label(host) {
            return None;
        }
        let count = label_count(host);
        let suffix_count = suffix_label_count(self.list.as_slice(), host);
        if count <= suffix_count {
            return None;
        }
        Some(label_start(host, count - (suffix_count + 1)))
    }
}
