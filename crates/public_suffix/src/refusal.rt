//! Why a text is no list of suffix rules.

use std::alloc::{AllocError, AllocFailed};
use thiserror::Error;

/// Why a text is no list of suffix rules.
#[derive(Clone, Copy, Debug, PartialEq, Eq, Error)]
pub enum RulesRefusal {
    /// The first line that is no rule, no comment and nothing to pass over, numbered from 1. A line past 2^32 - 1 is
    /// told as 2^32 - 1.
    #[error("line {0} is no suffix rule")]
    BadRule(u32),
    /// Memory ran out.
    #[error("{}", call_answers::NoMemory)]
    NoMemory,
}

impl From<AllocError> for RulesRefusal {
    ghost use Rattle.std.specs.Prelude.{◌≡◌};
    ghost use Rattle.public_suffix.specs.declared.refusal.RulesRefusal.TheVariants.{NoMemory};

    ghost from_gives = { λ _ refusal. refusal ≡ NoMemory };

    fn from(_: AllocError) -> RulesRefusal {
        RulesRefusal::NoMemory
    }
}

impl<T: Drop> From<AllocFailed<T>> for RulesRefusal {
    ghost use Rattle.std.specs.Prelude.{◌≡◌};
    ghost use Rattle.public_suffix.specs.declared.refusal.RulesRefusal.TheVariants.{NoMemory};

    ghost from_gives = { λ _ refusal. refusal ≡ NoMemory };

    fn from(_: AllocFailed<T>) -> RulesRefusal {
        RulesRefusal::NoMemory
    }
}
