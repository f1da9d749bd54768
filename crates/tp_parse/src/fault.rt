//! Why a text is refused.

use std::alloc::{AllocError, AllocFailed};
use tp_lex::LexFault;
use tp_terms::NoMemory;

/// Why a clause or a goal has no reading.
#[derive(Clone, Copy, Debug, PartialEq, Eq)]
pub enum ReadCause {
    /// No token begins there, or a token is broken.
    Token,
    /// An integer is too large.
    Number,
    /// The text ends inside a clause, inside quotes or inside a comment.
    Unfinished,
    /// The token isn't one that can stand there.
    Syntax,
    /// A term nested deeper than 1,000 levels begins there.
    Depth,
    /// A comma stands behind the 255th argument of a compound.
    Arity,
}

/// Why nothing was read.
#[derive(Clone, Copy, Debug, PartialEq, Eq)]
pub enum ReadFault {
    /// The text is refused.
    Refused {
        /// The byte, from 0, as docs/LANGUAGE.md gives it for each cause.
        byte: usize,
        /// The cause.
        cause: ReadCause,
    },
    /// Memory was refused.
    NoMemory,
}

impl From<LexFault> for ReadFault {
    ghost use Rattle.std.specs.Prelude.{◌≡◌};
    ghost use Rattle.tp_parse.specs.Texts.{refused_token};
    ghost use Rattle.tp_parse.specs.declared.fault.ReadFault.TheVariants.{Refused};

    ghost from_gives = { λ fault e. let r = refused_token fault in e ≡ Refused r.0 r.1 };

    fn from(fault: LexFault) -> Self {
        let (byte, cause) = match fault {
            LexFault::BadToken(byte) => (byte, ReadCause::Token),
            LexFault::NumberRange(byte) => (byte, ReadCause::Number),
            LexFault::Unfinished(byte) => (byte, ReadCause::Unfinished),
        };
        ReadFault::Refused { byte, cause }
    }
}

impl From<NoMemory> for ReadFault {
    ghost use Rattle.std.specs.Prelude.{◌≡◌};
    ghost use Rattle.tp_parse.specs.declared.fault.ReadFault.TheVariants.{NoMemory as Refusal};

    ghost from_gives = { λ _ e. e ≡ Refusal };

    fn from(_refused: NoMemory) -> Self {
        ReadFault::NoMemory
    }
}

impl<T: Drop> From<AllocFailed<T>> for ReadFault {
    ghost use Rattle.std.specs.Prelude.{◌≡◌};
    ghost use Rattle.tp_parse.specs.declared.fault.ReadFault.TheVariants.{NoMemory as Refusal};

    ghost from_gives = { λ _ e. e ≡ Refusal };

    fn from(_refused: AllocFailed<T>) -> Self {
        ReadFault::NoMemory
    }
}
