//! Why bytes are the text of no history.

use page_origin::NoMemory;
use thiserror::Error;

/// Why bytes are read as no history.
#[derive(Clone, Copy, Debug, PartialEq, Eq, Error)]
pub enum TextStop {
    /// The first line that is no spelling of an entry, numbered from 1; the version line counts. A line past 2^32 - 1 is
    /// told as 2^32 - 1.
    #[error("line {0} is no spelling of an entry")]
    BadLine(u32),
    /// Memory ran out.
    #[error("{}", NoMemory)]
    NoMemory,
}

impl From<NoMemory> for TextStop {
    ghost use Rattle.std.specs.Prelude.{◌≡◌};
    ghost use Rattle.history_text.specs.declared.stop.TextStop.TheVariants.{NoMemory as OutOfMemory};

    ghost from_gives = { λ _ stop. stop ≡ OutOfMemory };

    fn from(_: NoMemory) -> TextStop {
        TextStop::NoMemory
    }
}
