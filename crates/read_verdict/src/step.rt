use crate::cleared::Cleared;
use crate::part::Part;
use script_model::Rule;

/// What one step of a load answers.
#[derive(Drop)]
pub enum Step {
    /// One more piece was taken, and whether the response may be read is still open.
    Held,
    /// The response may be read: its head is handed out.
    Head(Cleared),
    /// The next piece of its body.
    Piece(Part),
    /// All of its body was handed out.
    Whole,
    /// The response may not be read, by this rule.
    Blocked(Rule),
    /// The wire failed.
    Fault,
    /// The process that asked is dead.
    Gone,
}
