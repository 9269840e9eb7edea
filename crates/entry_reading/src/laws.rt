//! The laws of spellings, each the contract of a function without a body.

ghost use Rattle.entry_reading.specs.Spellings as spellings;

/// Equal spellings are of equal entries.
#[tactic(auto, using(crate::proofs::LinesBack::one_spelling))]
pub fn entries_have_one_spelling()
    ensures { spellings.HaveOneSpelling }
{}

/// No line begins the line of another entry.
#[tactic(auto, using(crate::proofs::LinesBack::one_line))]
pub fn no_line_begins_another()
    ensures { spellings.NoLineBeginsAnother }
{}
