ghost use Rattle.std.specs.Prelude.{◌≡◌};
ghost use Rattle.read_verdict.specs.Rulings.{ruling_of};

use script_model::Verdict;

/// The verdict on the bytes so far, if they settle it.
#[derive(Clone, Copy, Debug, PartialEq, Eq)]
pub enum Ruling {
    /// What follows may still decide.
    More,
    /// The verdict, whatever follows.
    Settled(Verdict),
}

/// The ruling that tells a verdict, or that there is none yet.
pub fn ruling_of(verdict: Option<Verdict>) -> Ruling
    ensures { result ≡ ruling_of verdict }
{
    match verdict {
        Some(verdict) => Ruling::Settled(verdict),
        None => Ruling::More,
    }
}
