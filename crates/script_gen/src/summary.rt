//! Summaries of histories.

ghost use Rattle.std.specs.Prelude.{◌≡◌, ◌++◌, IfOk, OnOk, count_by, flat_map, sum_by};
ghost use Rattle.script_gen.specs.Summaries as spec;

use history_entries::{Entry, History, Rule};
use script_model::NoMemory;
use std::alloc::Global;

/// Adds the line of a word and a number.
#[tactic(auto, unfolding(crate::specs::Summaries::line))]
fn put_line(alloc: Global, out: &mut Vec<u8>, word: &str, number: usize) -> Result<(), NoMemory>
    ensures { OnOk result (out.new.items ≡ out.old.items ++ spec.line word.now number) }
{
    let line = format!(in alloc; "{word} {number}\n")?;
    out.extend_from_slice(line.as_bytes())?;
    Ok(())
}

/// How many bytes an entry delivers.
fn delivered_by(entry: &Entry) -> usize
    ensures { result ≡ spec.delivered_by entry.now }
{
    match entry {
        Entry::Piece(_, _, bytes) => bytes.as_bytes().len(),
        _ => 0,
    }
}

/// How many bytes the entries deliver. More than 2^64 - 1 are in no memory.
fn delivered(entries: &[Entry]) -> Result<usize, NoMemory>
    ensures { IfOk result (λ sum. sum ≡ sum_by spec.delivered_by entries.now) }
{
    let mut sum: usize = 0;
    for entry in entries {
        sum = sum.checked_add(delivered_by(entry)).ok_or(NoMemory)?;
    }
    Ok(sum)
}

/// Whether an entry carries a rule.
#[tactic(auto, unfolding(crate::specs::Summaries::carries))]
fn carries(rule: Rule, entry: &Entry) -> bool
    ensures { result ≡ spec.carries rule entry.now }
{
    match entry.rule() {
        Some(carried) => carried.code() == rule.code(),
        None => false,
    }
}

/// How many entries carry a rule.
fn carrier_count(entries: &[Entry], rule: Rule) -> usize
    ensures { result ≡ count_by (spec.carries rule) entries.now }
{
    entries.iter().filter(|entry| carries(rule, entry)).count()
}

/// Adds the line of a rule, where some entry carries it.
#[tactic(auto, unfolding(crate::specs::Summaries::rule_line))]
fn put_rule(alloc: Global, out: &mut Vec<u8>, entries: &[Entry], rule: Rule) -> Result<(), NoMemory>
    ensures { OnOk result (out.new.items ≡ out.old.items ++ spec.rule_line entries.now rule) }
{
    let count = carrier_count(entries, rule);
    if count == 0 {
        return Ok(());
    }
    put_line(alloc, out, rule.code(), count)
}

/// Adds the lines of these rules.
fn put_rules(
    alloc: Global,
    out: &mut Vec<u8>,
    entries: &[Entry],
    rules: &[Rule],
) -> Result<(), NoMemory>
    ensures { OnOk result (out.new.items ≡ out.old.items ++ flat_map (spec.rule_line entries.now) rules.now) }
{
    for rule in rules {
        put_rule(alloc, out, entries, *rule)?;
    }
    Ok(())
}

/// The summary of a history: the lines `entries N` and `delivered N`, the bytes of all pieces, and a line with a rule and a number for
/// each rule that some entry carries, the number being that of these entries.
#[tactic(auto, unfolding(crate::specs::Summaries::summary_text))]
pub fn summary_of(alloc: Global, history: &History) -> Result<Vec<u8>, NoMemory>
    ensures { IfOk result (λ text. text.items ≡ spec.summary_text history.now) }
{
    let entries = history.entries();
    let mut out = Vec::new(alloc);
    put_line(alloc, &mut out, "entries", entries.len())?;
    put_line(alloc, &mut out, "delivered", delivered(entries)?)?;
    put_rules(alloc, &mut out, entries, &Rule::ALL)?;
    Ok(out)
}
