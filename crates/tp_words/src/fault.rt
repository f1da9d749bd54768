//! Why words give no request.

ghost use Rattle.std.specs.Prelude.{◌≡◌};

use clap::Error as ParseError;
use clap::error::ErrorKind;
use std::alloc::AllocError;
use thiserror::Error;

/// Why words gave no request.
#[derive(Debug, Drop, Error)]
pub enum WordsFault {
    /// The words are no request.
    #[error("the words are no request")]
    Usage,
    /// No memory was found.
    #[error("no memory for the words")]
    NoMemory,
}

impl From<AllocError> for WordsFault {
    ghost use Rattle.tp_words.specs.declared.fault.WordsFault.TheVariants.{NoMemory};

    ghost from_gives = { λ _ fault. fault ≡ NoMemory };

    fn from(_refused: AllocError) -> WordsFault {
        WordsFault::NoMemory
    }
}

impl From<ParseError> for WordsFault {
    ghost use Rattle.clap.specs.Words.{kind_of};
    ghost use Rattle.tp_words.specs.Command.{fault_by};

    ghost from_gives = { λ error fault. fault ≡ fault_by (kind_of error) };

    fn from(error: ParseError) -> WordsFault {
        match error.kind() {
            ErrorKind::OutOfMemory => WordsFault::NoMemory,
            _ => WordsFault::Usage,
        }
    }
}
