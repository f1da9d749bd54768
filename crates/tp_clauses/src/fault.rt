//! Why a model is refused.

ghost use Rattle.std.specs.Prelude.{◌≡◌};
ghost use Rattle.tp_clauses.specs.Model.{cause_of};

use tp_parse::ReadCause;

/// The cause of a refusal (docs/LANGUAGE.md says exactly where each comes).
#[derive(Clone, Copy, Debug, PartialEq, Eq)]
pub enum Cause {
    /// The text isn't UTF-8.
    Utf8,
    /// No token begins there, or a token is broken.
    Token,
    /// An integer is too large.
    Number,
    /// The text ends inside a clause, inside quotes or inside a comment.
    Unfinished,
    /// The token isn't one that can stand there.
    Syntax,
    /// A term nested deeper than 1,000 levels begins there.
    Depth,
    /// A comma stands behind the 255th argument of a compound.
    Arity,
    /// The head of a clause is a variable or an integer.
    Head,
    /// What stands behind `:-` is no goal.
    Body,
    /// The head is a goal that no clause may define.
    Builtin,
    /// The term is a grammar rule.
    Grammar,
    /// The directive isn't one that may be given.
    Directive,
    /// It would be the 1,000,001st read term.
    Many,
}

/// Why there is no base.
#[derive(Clone, Copy, Debug, PartialEq, Eq)]
pub enum LoadFault {
    /// The text is refused.
    Refused {
        /// The number of the read term, from 1; 0 where the text isn't UTF-8.
        clause: u64,
        /// The byte, from 0.
        byte: u64,
        /// The cause.
        cause: Cause,
    },
    /// Memory was refused.
    NoMemory,
}

/// The cause of a refusal by the reader, of a clause or of a goal.
pub fn cause_of(cause: ReadCause) -> Cause
    ensures { result ≡ cause_of cause }
{
    match cause {
        ReadCause::Token => Cause::Token,
        ReadCause::Number => Cause::Number,
        ReadCause::Unfinished => Cause::Unfinished,
        ReadCause::Syntax => Cause::Syntax,
        ReadCause::Depth => Cause::Depth,
        ReadCause::Arity => Cause::Arity,
    }
}
