//! What takes the answers of a run.

ghost use Rattle.std.specs.Prelude.{◌≡◌, ℕ, ◌≤◌, Err, OnOk, IfErr};
ghost use Rattle.tp_outside.specs.Count.{Rose};
ghost use Rattle.tp_engine.specs.Told.{IsSound};
ghost use Rattle.tp_engine.specs.Answers.{Answer, answer_in};
ghost use Rattle.tp_engine.specs.declared.answers.AnswerFault.{AnswerFault};

use crate::phase::Phase;
use crate::view::AnswerView;
use tp_terms::NoMemory;

/// Why an answer wasn't taken.
#[derive(Clone, Copy, Debug, PartialEq, Eq)]
pub enum AnswerFault {
    /// It couldn't be written.
    Write,
    /// Memory was refused.
    NoMemory,
}

impl From<NoMemory> for AnswerFault {
    ghost use Rattle.std.specs.Prelude.{◌≡◌};
    ghost use Rattle.tp_engine.specs.declared.answers.AnswerFault.TheVariants.{NoMemory};

    ghost from_gives = { λ _ fault. fault ≡ NoMemory };

    fn from(_refused: NoMemory) -> Self {
        AnswerFault::NoMemory
    }
}

impl AnswerFault {
    ghost use Rattle.tp_engine.specs.Phases.{phase_after};

    /// The phase of an engine whose run met this fault: after `Write` the view may be asked.
    pub(crate) fn phase(self) -> Phase
        ensures { result ≡ phase_after self }
    {
        match self {
            AnswerFault::Write => Phase::Ran,
            AnswerFault::NoMemory => Phase::Broken,
        }
    }
}

/// What takes answers, one at a time.
pub trait Answers {
    /// What stands after an answer was taken, by what stood before it.
    ghost takes: { Self → Answer → Self → Type 0 };

    /// What may stand after a fault, by what stood before it, the answer and the fault.
    ghost leaves: { Self → Answer → AnswerFault → Self → Type 0 };

    /// How many faults there were.
    ghost faults: { Self → ℕ };

    /// Takes an answer as it is seen in an engine that met no want of memory.
    ///
    /// # Errors
    /// `Write` only where the count of faults rose. A count that stands at its last value counts as
    /// risen.
    fn answer(&mut self, view: &AnswerView<'_>) -> Result<(), AnswerFault>
        requires { IsSound view.now }
        ensures taken { OnOk result (takes self.old (answer_in view.now) self.new) }
        ensures left { IfErr result (λ fault. leaves self.old (answer_in view.now) fault self.new) }
        ensures never_falls { faults self.old ≤ faults self.new }
        ensures write { result ≡ Err AnswerFault.Write → Rose (faults self.old) (faults self.new) };
}
