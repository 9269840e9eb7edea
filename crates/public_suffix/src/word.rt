//! The word of a line, and whether it has a rule's form.

ghost use Rattle.std.specs.Prelude.{◌≡◌, ◌≤◌, ◌-◌, length, MatchOption, false, true};
ghost use Rattle.std.specs.List.{list_all, position, position_or_len};
ghost use Rattle.public_suffix.specs.RuleLines.{is_white_space, word_of, has_high_byte, is_exception, unmarked, is_passed_over, is_label_byte, is_name_label, is_rule_label, has_rule_labels, is_rule};

use crate::labels::label_count;
use std::str;

fn first_white_space(line: &[u8]) -> Option<usize>
    ensures { result ≡ position is_white_space line.now }
{
    line.iter()
        .position(|byte| *byte == b' ' || *byte == b'\t' || *byte == b'\r')
}

#[tactic(auto, using(crate::proofs::Words::position_or_length))]
fn word_len(line: &[u8]) -> usize
    ensures value { result ≡ position_or_len is_white_space line.now }
    ensures bound { result ≤ length line.now }
{
    first_white_space(line).unwrap_or(line.len())
}

/// The line up to its first space, tab or carriage return.
fn word_of(line: &[u8]) -> &[u8]
    ensures { result.now ≡ word_of line.now }
{
    &line[..word_len(line)]
}

fn has_high_byte(word: &[u8]) -> bool
    ensures { result ≡ has_high_byte word.now }
{
    word.iter().any(|byte| *byte > 127)
}

/// Whether a line is a comment, has an empty word, or has a byte above 127 in its word.
#[tactic(auto, unfolding(crate::specs::RuleLines::is_passed_over))]
fn is_passed_over(line: &[u8]) -> bool
    ensures { result ≡ is_passed_over line.now }
{
    line.starts_with(b"//") || word_of(line).is_empty() || has_high_byte(word_of(line))
}

/// The word of a line that is not passed over.
pub fn word(line: &[u8]) -> Option<&str>
    ensures { MatchOption result (is_passed_over line.now ≡ true)
        (λ word. (is_passed_over line.now ≡ false) × (word.now ≡ word_of line.now)) }
{
    if is_passed_over(line) {
        return None;
    }
    str::from_utf8(word_of(line)).ok()
}

/// A word without the `!` of an exception, and whether it had one.
pub fn unmarked(word: &str) -> (bool, &str)
    ensures exception { result.0 ≡ is_exception word.now }
    ensures text { result.1.now ≡ unmarked word.now }
{
    match word.strip_prefix('!') {
        Some(text) => (true, text),
        None => (false, word),
    }
}

fn is_label_byte(byte: u8) -> bool
    ensures { result ≡ is_label_byte byte }
{
    byte.is_ascii_lowercase() || byte.is_ascii_digit() || byte == b'-' || byte == b'_'
}

fn has_label_bytes(label: &str) -> bool
    ensures { result ≡ list_all is_label_byte label.now }
{
    label.as_bytes().iter().all(|byte| is_label_byte(*byte))
}

/// Whether a label has 1 to 63 letters in lower case, digits, `-` or `_`.
fn is_name_label(label: &str) -> bool
    ensures { result ≡ is_name_label label.now }
{
    1 <= label.len() && label.len() <= 63 && has_label_bytes(label)
}

/// Whether a label may stand at a place of a rule, counted from its left.
fn is_rule_label(exception: bool, place: usize, label: &str) -> bool
    ensures { result ≡ is_rule_label exception (place, label.now) }
{
    is_name_label(label) || (place == 0 && !exception && label == "*")
}

/// Whether each label is a name, but that the leftmost may be `*` where the rule is no exception.
fn has_rule_labels(exception: bool, text: &str) -> bool
    ensures { result ≡ has_rule_labels exception text.now }
{
    text.split('.')
        .enumerate()
        .all(|(place, label)| is_rule_label(exception, place, label))
}

/// Whether a rule with this text has the form of one.
#[tactic(auto, unfolding(crate::specs::RuleLines::is_rule))]
pub fn is_rule(exception: bool, text: &str) -> bool
    ensures { result ≡ is_rule (record { exception = exception; text = text.now }) }
{
    has_rule_labels(exception, text) && (!exception || label_count(text) >= 2)
}
