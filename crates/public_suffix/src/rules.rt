//! Suffix rules, found by their texts.

ghost use Rattle.std.specs.Prelude.{◌≡◌, ◌<◌, [], length, max, IfSome};
ghost use Rattle.std.specs.List.{list_any};
ghost use Rattle.public_suffix.specs.RegistrableDomain.{most_labels, matching_exceptions, matching_others, suffix_label_count, registrable};
ghost use Rattle.public_suffix.specs.RuleTexts.{is_exception_with, is_other_with, is_star_before};
ghost use Rattle.public_suffix.specs.Reading.{Gives, reading};

use crate::labels::{has_empty_label, label_count, label_start, without_first_label};
use crate::plain_rules::PlainRules;
use crate::refusal::RulesRefusal;
use crate::rule_index::RuleIndex;
use std::alloc::Global;
use std::marker::Model;

/// Suffix rules in the format of the Public Suffix List. A look-up takes the time of a few look-ups in a hash set for each
/// label of the host, however many rules there are.
#[derive(Drop)]
pub struct Rules {
    plain: PlainRules,
    index: RuleIndex,
}

impl Model for Rules {
    ghost use Rattle.std.specs.Prelude.{List};
    ghost use Rattle.public_suffix.specs.RegistrableDomain.{SuffixRule};

    ghost Value = { List SuffixRule };

    ghost use Rattle.public_suffix.specs.IndexLayout.{IsIndexOf};

    ghost view = { λ rules. rules.plain };

    ghost invariant = { λ rules. IsIndexOf rules.index rules.plain };
}

impl Rules {
    /// No rules. This takes no memory.
    pub fn new(alloc: Global) -> Rules
        ensures { result ≡ [] }
    {
        Rules {
            plain: PlainRules::new(alloc),
            index: RuleIndex::new(alloc),
        }
    }

    /// The rules of a text in the format of the Public Suffix List, or its first bad line.
    pub fn read(alloc: Global, text: &[u8]) -> Result<Rules, RulesRefusal>
        ensures { Gives result (reading text.now) }
    {
        let plain = PlainRules::read(alloc, text)?;
        let index = plain.index(alloc)?;
        Ok(Rules { plain, index })
    }

    fn has_exception(&self, text: &str) -> bool
        ensures { result ≡ list_any (is_exception_with text.now) self.now }
    {
        self.index.exceptions.contains(text)
    }

    fn has_other(&self, text: &str) -> bool
        ensures { result ≡ list_any (is_other_with text.now) self.now }
    {
        self.index.others.contains(text)
    }

    fn has_star(&self, text: &str) -> bool
        ensures { result ≡ list_any (is_star_before text.now) self.now }
    {
        self.index.stars.contains(text)
    }

    /// The most labels of a matching exception, or 0.
    fn longest_exception(&self, host: &str) -> usize
        ensures { result ≡ most_labels (matching_exceptions self.now host.now) }
    {
        let _form = &self.index;
        let mut suffix = host;
        while let Some(rest) = without_first_label(suffix) {
            if self.has_exception(suffix) {
                return label_count(suffix);
            }
            suffix = rest;
        }
        0
    }

    /// The most labels of a matching rule that is no exception, or 1.
    fn longest_other(&self, host: &str) -> usize
        ensures { result ≡ max 1 (most_labels (matching_others self.now host.now)) }
    {
        let _form = &self.index;
        let mut suffix = host;
        while let Some(rest) = without_first_label(suffix) {
            if self.has_other(suffix) || self.has_star(rest) {
                return label_count(suffix);
            }
            suffix = rest;
        }
        1
    }

    /// How many labels a host's public suffix has.
    #[tactic(auto, unfolding(crate::specs::RegistrableDomain::suffix_label_count))]
    fn suffix_label_count(&self, host: &str) -> usize
        ensures { result ≡ suffix_label_count self.now host.now }
    {
        let exception = self.longest_exception(host);
        if 0 < exception {
            exception - 1
        } else {
            self.longest_other(host)
        }
    }

    /// The byte of a host at which its registrable domain begins. There is none where the host is a public suffix, is
    /// empty or has an empty label. This takes no memory.
    #[tactic(auto, unfolding(crate::specs::RegistrableDomain::registrable), using(crate::proofs::LabelStart::label_start_within))]
    pub fn registrable(&self, host: &str) -> Option<usize>
        ensures value { result ≡ registrable self.now host.now }
        ensures within { IfSome result (λ start. start < length host.now) }
    {
        if has_empty_label(host) {
            return None;
        }
        let count = label_count(host);
        let suffix_count = self.suffix_label_count(host);
        if count <= suffix_count {
            return None;
        }
        Some(label_start(host, count - (suffix_count + 1)))
    }
}
