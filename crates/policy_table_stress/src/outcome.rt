use crate::findings::Findings;
use call_answers::NoMemory;
use std::fmt;

/// What became of a line.
#[derive(Clone, Copy, Debug)]
pub enum Outcome {
    /// The history of the table has so many entries, and the threads have found this.
    Ran(u32, Findings),
    /// So many looks found what was there.
    Looked(u32),
    NoMemory,
}

impl Outcome {
    pub fn ran(run: Option<(u32, Findings)>) -> Outcome {
        match run {
            Some((entries, found)) => Outcome::Ran(entries, found),
            None => Outcome::NoMemory,
        }
    }

    pub fn looked(looks: Option<u32>) -> Outcome {
        match looks {
            Some(looks) => Outcome::Looked(looks),
            None => Outcome::NoMemory,
        }
    }
}

impl fmt::Display for Outcome {
    fn fmt<W: fmt::Write>(&self, f: &mut fmt::Formatter<W>) -> fmt::Result {
        match self {
            Outcome::Ran(entries, found) => write!(f, "{entries} entries, {found}"),
            Outcome::Looked(looks) => write!(f, "{looks} looks"),
            Outcome::NoMemory => write!(f, "{NoMemory}"),
        }
    }
}
