use history::Entry;
use history::documents::Saying;

/// What may follow, before services are asked.
#[derive(Drop)]
pub enum Candidate {
    Entry(Entry),
    /// A message whose reply is still to be found.
    Saying(Saying),
}
