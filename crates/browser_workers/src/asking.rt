//! What a worker asks of the core under the turn, and what it is told.

use browser_core::{Applied, Claim, Kind, Outcome};

/// What a worker asks of the core.
#[derive(Drop)]
pub enum Ask {
    /// A task for a worker of a kind.
    Claim(Kind),
    /// To add what an outcome may add.
    Apply(Outcome),
}

/// What the core tells.
#[derive(Drop)]
pub enum Told {
    Claim(Claim),
    Applied(Applied),
}
