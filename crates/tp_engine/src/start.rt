//! Why an engine can't start.

use tp_terms::NoMemory;

/// Why there is no engine.
#[derive(Clone, Copy, Debug, PartialEq, Eq)]
pub enum StartFault {
    /// The goal has no body: a part of it that is to be a goal is an integer.
    Body,
    /// Memory was refused.
    NoMemory,
}

impl From<NoMemory> for StartFault {
    ghost use Rattle.std.specs.Prelude.{◌≡◌};
    ghost use Rattle.tp_engine.specs.declared.start.StartFault.TheVariants.{NoMemory};

    ghost from_gives = { λ _ fault. fault ≡ NoMemory };

    fn from(_refused: NoMemory) -> Self {
        StartFault::NoMemory
    }
}
