//! Reading a history's text: its policy, and its entries line by line.

ghost use Rattle.std.specs.Prelude.{◌≡◌, ◌≢◌, ◌⊎◌, ◌↔◌, ℕ, ◌+◌, ◌-◌, ◌^◌, List, ◌++◌, min, Err, Ok, Some, IfOk, IsTrue};
ghost use Rattle.history_entry.specs.CarriedRules.{carried_rule};
ghost use Rattle.history_entry.specs.declared.entry.Entry.{Entry as EntryData};
ghost use Rattle.history_entry.specs.declared.policy.Policy.{Policy as PolicyData};
ghost use Rattle.entry_text.specs.Lines.{line_of};
ghost use Rattle.history_entries.specs.Text.{head_of};
ghost use Rattle.history_text.specs.Texts.{BeginsWithNoLineOf, HasRuleOf, IsEntryOf, IsFirstBadLine, IsTextOf, first_line, line_number, policy_of};

use crate::stop::TextStop;
use entry_reading::{EntryStop, read_line};
use history_entries::{Entry, History, Rule, VERSION_LINE};
use history_entry::Policy;
use std::alloc::Global;

/// The policy of a text, and what stands behind its version line.
fn policy_of(bytes: &[u8]) -> (Policy, &[u8])
    ensures policy { result.0 ≡ policy_of bytes.now }
    ensures whole { head_of result.0 ++ result.1.now ≡ bytes.now }
{
    if bytes.starts_with(VERSION_LINE) {
        (Policy::Two, &bytes[VERSION_LINE.len()..])
    } else {
        (Policy::One, bytes)
    }
}

fn has_resource_rule(entry: &Entry) -> bool
    ensures { IsTrue result ↔ (carried_rule entry.now ≡ Some Rule.B8) }
{
    entry.rule() == Some(Rule::B8)
}

fn has_rule_of(policy: Policy, entry: &Entry) -> bool
    ensures { IsTrue result ↔ HasRuleOf policy entry.now }
{
    match policy {
        Policy::One => !has_resource_rule(entry),
        Policy::Two => true,
    }
}

/// Reads the first line of a text of the policy, and gives what is left behind it.
fn next_line(alloc: Global, policy: Policy, text: &[u8]) -> Result<(Entry, &[u8]), EntryStop>
    ensures found { IfOk result (λ p. IsEntryOf policy p.0 × (line_of p.0 ++ p.1.now ≡ text.now)) }
    ensures bad { result ≡ Err EntryStop.BadLine → BeginsWithNoLineOf policy text.now }
{
    let (entry, rest) = read_line(alloc, text)?;
    if !has_rule_of(policy, &entry) {
        return Err(EntryStop::BadLine);
    }
    Ok((entry, rest))
}

fn first_line(policy: Policy) -> u32
    ensures { result ≡ first_line policy }
{
    match policy {
        Policy::One => 1,
        Policy::Two => 2,
    }
}

/// The number of the line behind those of so many entries of a text, from 1; the version line counts. A line past 2^32 - 1 is told
/// as 2^32 - 1.
pub fn line_number(policy: Policy, entries: usize) -> u32
    ensures { result ≡ line_number policy entries }
{
    match u32::try_from(entries) {
        Ok(entries) => entries.saturating_add(first_line(policy)),
        Err(_) => u32::MAX,
    }
}

fn read_lines(alloc: Global, policy: Policy, lines: &[u8]) -> Result<History, TextStop>
    ensures read { IfOk result (IsTextOf policy (head_of policy ++ lines.now)) }
    ensures bad { (n : ℕ) → result ≡ Err (TextStop.BadLine n) → IsFirstBadLine policy (head_of policy ++ lines.now) n }
{
    let mut history = History::new(alloc);
    let mut rest = lines;
    while !rest.is_empty() {
        match next_line(alloc, policy, rest) {
            Ok((entry, more)) => {
                history.push(entry)?;
                rest = more;
            }
            Err(EntryStop::BadLine) => {
                let number = line_number(policy, history.entries().len());
                return Err(TextStop::BadLine(number));
            }
            Err(EntryStop::NoMemory) => return Err(TextStop::NoMemory),
        }
    }
    Ok(history)
}

fn read_by_policy(alloc: Global, bytes: &[u8]) -> Result<(Policy, History), TextStop>
    ensures read { IfOk result (λ p. IsTextOf p.0 bytes.now p.1) }
    ensures bad { (n : ℕ) → result ≡ Err (TextStop.BadLine n) → IsFirstBadLine (policy_of bytes.now) bytes.now n }
{
    let (policy, lines) = policy_of(bytes);
    let history = read_lines(alloc, policy, lines)?;
    Ok((policy, history))
}

/// Reads the history whose text the bytes are, and the policy that the text has.
pub fn read_text(alloc: Global, bytes: &[u8]) -> Result<(Policy, History), TextStop>
    ensures read { IfOk result (λ p. IsTextOf p.0 bytes.now p.1) }
    ensures back { (policy : PolicyData) (h : List EntryData) → IsTextOf policy bytes.now h → (result ≡ Ok (policy, h)) ⊎ (result ≡ Err TextStop.NoMemory) }
    ensures bad { (n : ℕ) → result ≡ Err (TextStop.BadLine n) → IsFirstBadLine (policy_of bytes.now) bytes.now n }
    ensures first { (n : ℕ) → IsFirstBadLine (policy_of bytes.now) bytes.now n → (result ≡ Err (TextStop.BadLine n)) ⊎ (result ≡ Err TextStop.NoMemory) }
{
    read_by_policy(alloc, bytes)
}
