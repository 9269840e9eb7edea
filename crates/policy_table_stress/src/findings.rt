use std::fmt;

/// What the threads of a run have found.
#[derive(Clone, Copy, Debug)]
pub struct Findings {
    /// The calls that were made.
    pub calls: u64,
    /// Their places in the history, added up.
    pub places: u64,
    /// The looks at a row.
    pub looks: u64,
    /// How often a place or a site was lower than one that the same thread had seen.
    pub steps_back: u64,
}

impl Findings {
    /// Nothing was found yet.
    pub const NONE: Findings = Findings {
        calls: 0,
        places: 0,
        looks: 0,
        steps_back: 0,
    };

    /// What two threads have found.
    pub fn and(self, other: Findings) -> Findings {
        Findings {
            calls: self.calls.saturating_add(other.calls),
            places: self.places.saturating_add(other.places),
            looks: self.looks.saturating_add(other.looks),
            steps_back: self.steps_back.saturating_add(other.steps_back),
        }
    }
}

impl fmt::Display for Findings {
    fn fmt<W: fmt::Write>(&self, f: &mut fmt::Formatter<W>) -> fmt::Result {
        write!(
            f,
            "{} calls at places that add up to {}, {} looks, {} steps back",
            self.calls, self.places, self.looks, self.steps_back
        )
    }
}
