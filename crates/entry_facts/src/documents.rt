//! The process of a document.

ghost use Rattle.std.specs.Prelude.{◌≡◌};
ghost use Rattle.history_rules.specs.Documents as documents;

use crate::entries::commit_in;
use script_model::Entry;

/// The process of a commit of a document.
pub fn process_in(entry: &Entry, document: u64) -> Option<u64>
    ensures { result ≡ documents.process_in document entry.now }
{
    match commit_in(entry) {
        Some(commit) => {
            if u64::from(commit.document) == document {
                Some(u64::from(commit.process))
            } else {
                None
            }
        }
        None => None,
    }
}
