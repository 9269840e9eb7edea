//! Why a text is read as nothing.

use hex::FromHexError;
use page_origin::{NoMemory, TextRefusal};
use thiserror::Error;

/// Why a line is read as no entry.
#[derive(Clone, Copy, Debug, PartialEq, Eq, Error)]
pub enum EntryStop {
    /// The line is no spelling.
    #[error("the line is no spelling of an entry")]
    BadLine,
    /// Memory ran out.
    #[error("{}", NoMemory)]
    NoMemory,
}

impl From<TextRefusal> for EntryStop {
    ghost use Rattle.std.specs.Prelude.{◌≡◌};
    ghost use Rattle.entry_reading.specs.Answers.{stop_of_refusal};

    ghost from_gives = { λ refusal stop. stop ≡ stop_of_refusal refusal };

    fn from(refusal: TextRefusal) -> EntryStop {
        match refusal {
            TextRefusal::BadText => EntryStop::BadLine,
            TextRefusal::NoMemory => EntryStop::NoMemory,
        }
    }
}

impl From<FromHexError> for EntryStop {
    ghost use Rattle.std.specs.Prelude.{◌≡◌};
    ghost use Rattle.entry_reading.specs.Answers.{stop_of_hex};

    ghost from_gives = { λ error stop. stop ≡ stop_of_hex error };

    fn from(error: FromHexError) -> EntryStop {
        match error {
            FromHexError::OutOfMemory => EntryStop::NoMemory,
            _ => EntryStop::BadLine,
        }
    }
}

/// Why a text is read as no message.
#[derive(Clone, Copy, Debug, PartialEq, Eq, Error)]
pub enum MessageStop {
    /// The text is no spelling.
    #[error("the text is no spelling of a message")]
    BadMessage,
    /// Memory ran out.
    #[error("{}", NoMemory)]
    NoMemory,
}

/// Why a text is read as no reply.
#[derive(Clone, Copy, Debug, PartialEq, Eq, Error)]
pub enum ReplyStop {
    /// The text is no spelling.
    #[error("the text is no spelling of a reply")]
    BadReply,
    /// Memory ran out.
    #[error("{}", NoMemory)]
    NoMemory,
}
