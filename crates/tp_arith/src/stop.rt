//! Why an evaluation stops.

use std::alloc::AllocFailed;
use tp_terms::AtomId;

/// Why an operation gives no number (ISO/IEC 13211-1, clause 7.12.2, evaluation errors).
#[derive(Clone, Copy, Debug, PartialEq, Eq)]
pub enum EvaluationError {
    /// The result is outside 64 bits.
    Overflow,
    /// A division by 0.
    ZeroDivisor,
    /// A shift by less than 0 or more than 63 bits.
    Undefined,
}

/// Why a term has no value.
#[derive(Clone, Copy, Debug, PartialEq, Eq)]
pub enum Fault {
    /// An unbound variable.
    Unbound,
    /// A name with so many arguments, which stands for no operation.
    NotEvaluable(AtomId, u8),
    /// An operation gives no number.
    Evaluation(EvaluationError),
}

/// Why an evaluation stops without a value.
#[derive(Clone, Copy, Debug, PartialEq, Eq)]
pub enum Stop {
    /// The term has none.
    Fault(Fault),
    /// Memory was refused.
    NoMemory,
}

impl From<EvaluationError> for Stop {
    ghost use Rattle.std.specs.Prelude.{◌≡◌};
    ghost use Rattle.tp_arith.specs.declared.stop.Fault.TheVariants.{Evaluation};
    ghost use Rattle.tp_arith.specs.declared.stop.Stop.TheVariants.{Fault as Faulty};

    ghost from_gives = { λ error stop. stop ≡ Faulty (Evaluation error) };

    fn from(error: EvaluationError) -> Self {
        Stop::Fault(Fault::Evaluation(error))
    }
}

impl<T: Drop> From<AllocFailed<T>> for Stop {
    ghost use Rattle.std.specs.Prelude.{◌≡◌};
    ghost use Rattle.tp_arith.specs.declared.stop.Stop.TheVariants.{NoMemory as Refused};

    ghost from_gives = { λ _ stop. stop ≡ Refused };

    fn from(_refused: AllocFailed<T>) -> Self {
        Stop::NoMemory
    }
}
