//! Public suffixes and registrable domains, by a list of rules in the format of the Public Suffix List.
//!
//! [`Rules::read`] reads such a list whole: it answers its rules, or exactly its first bad line. [`Rules::registrable`]
//! answers exactly where a host's registrable domain begins: the choice of the Public Suffix List's algorithm among all
//! rules that match the host.
#![tactic(auto)]

mod labels;
mod plain_rules;
mod refusal;
mod rule;
mod rule_index;
mod rules;
mod word;

pub use plain_rules::PlainRules;
pub use refusal::RulesRefusal;
pub use rules::Rules;

#[cfg(test)]
mod tests;
