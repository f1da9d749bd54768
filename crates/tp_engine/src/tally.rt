//! What a run has found so far.

ghost use Rattle.std.specs.Prelude.{◌≡◌, ◌<◌, ◌-◌, ◌^◌};

use tp_machine::Stepped;
use tp_meaning::DeadCause;

/// The counts of a run: steps, answers, and dead ends by their cause.
#[derive(Clone, Copy, Debug)]
pub struct Tally {
    pub steps: u64,
    pub found: u64,
    pub failed: u64,
    pub deadlock: u64,
    pub late: u64,
}

impl Tally {
    ghost use Rattle.tp_engine.specs.Run.{CountsFit, counted, died_in};

    /// One step more, to a dead end.
    fn died(self, cause: DeadCause) -> Tally
        requires fit { CountsFit self }
        requires few { self.steps < 2 ^ 64 - 1 }
        ensures value { result ≡ died_in cause self }
        ensures fit { CountsFit result }
    {
        let steps = self.steps + 1;
        match cause {
            DeadCause::Failed => Tally {
                steps,
                failed: self.failed + 1,
                ..self
            },
            DeadCause::Deadlock => Tally {
                steps,
                deadlock: self.deadlock + 1,
                ..self
            },
            DeadCause::Late => Tally {
                steps,
                late: self.late + 1,
                ..self
            },
        }
    }

    /// One step more, with its answer.
    pub fn counted(self, stepped: Stepped) -> Tally
        requires fit { CountsFit self }
        requires few { self.steps < 2 ^ 64 - 1 }
        ensures value { result ≡ counted stepped self }
        ensures fit { CountsFit result }
    {
        let steps = self.steps + 1;
        match stepped {
            Stepped::Success => Tally {
                steps,
                found: self.found + 1,
                ..self
            },
            Stepped::Dead(cause) => self.died(cause),
            _ => Tally { steps, ..self },
        }
    }
}
