//! A whole run of an engine.

ghost use Rattle.std.specs.Prelude.{◌≡◌, ◌≤◌, ◌<◌, [], Err, IfOk, IfErr, OnOk, OnErr};
ghost use Rattle.tp_outside.specs.Count.{Rose};
ghost use Rattle.tp_machine.specs.Machine.{IsMachine, SameProgram};
ghost use Rattle.tp_engine.specs.Answers.{IsCutShort, Took};
ghost use Rattle.tp_engine.specs.Ended.{Finds, Reaches, answers_of, outcome_of};
ghost use Rattle.tp_engine.specs.Phases.{phase_after};
ghost use Rattle.tp_engine.specs.Run.{at_end, at_start, ended_by};
ghost use Rattle.tp_engine.specs.Told.{IsSame, IsUncounted, MayRun};
ghost use Rattle.tp_engine.specs.declared.phase.Phase.{Phase};
ghost use Rattle.tp_engine.specs.declared.answers.AnswerFault.{AnswerFault};

use crate::answers::{AnswerFault, Answers};
use crate::engine::Engine;
use crate::phase::Phase;
use crate::tally::Tally;
use crate::turns::turn;
use tp_machine::Machine;
use tp_terms::Ref;

/// How a run ends.
#[derive(Clone, Copy, Debug, PartialEq, Eq)]
pub enum How {
    /// There are no more answers.
    NoMore,
    /// The last answer that was wanted was found.
    Stopped,
    /// An error was raised: the place of its term, and the simulated time.
    Raised {
        /// The place of the error's term.
        term: Ref,
        /// The simulated time.
        clock: i64,
    },
    /// The steps were used up.
    Budget,
}

/// What a run found.
#[derive(Clone, Copy, Debug, PartialEq, Eq)]
pub struct Ended {
    /// How many steps were made.
    pub steps: u64,
    /// How many answers were found.
    pub found: u64,
    /// How many goals failed.
    pub failed: u64,
    /// How many worlds were deadlocks.
    pub deadlock: u64,
    /// How many worlds were late.
    pub late: u64,
    /// How it ended.
    pub how: How,
}

/// What was found, with this end.
fn summed(tally: Tally, how: How) -> Ended
    ensures { result ≡ ended_by tally how }
{
    Ended {
        steps: tally.steps,
        found: tally.found,
        failed: tally.failed,
        deadlock: tally.deadlock,
        late: tally.late,
        how,
    }
}

/// Turns, until the search ends.
fn search<A: Answers>(
    machine: &mut Machine<'_>,
    budget: u64,
    wanted: u64,
    answers: &mut A,
) -> Result<Ended, AnswerFault>
    requires machine { IsMachine machine.old }
    requires choices { machine.old.choices ≡ [] }
    requires stamp { machine.old.stamp ≤ 0 }
    requires wanted { 0 < wanted }
    ensures found { IfOk result (λ e.
        Finds (outcome_of (at_start machine.old) budget wanted) (at_end machine.new e) e) }
    ensures reached { IfOk result (λ e.
        Reaches (at_start machine.old) wanted (at_end machine.new e) e) }
    ensures took { OnOk result (Took A.takes answers.old
        (answers_of (at_start machine.old) budget wanted) answers.new) }
    ensures cut { IfErr result (λ fault. IsCutShort A.takes A.leaves
        (answers_of (at_start machine.old) budget wanted) fault answers.old answers.new) }
    ensures same { SameProgram machine.old machine.new }
    ensures machine { OnOk result (IsMachine machine.new) }
    ensures refused { IfErr result (λ fault.
        fault ≡ AnswerFault.Write → IsMachine machine.new) }
    ensures never_falls { A.faults answers.old ≤ A.faults answers.new }
    ensures write { result ≡ Err AnswerFault.Write →
        Rose (A.faults answers.old) (A.faults answers.new) }
{
    let mut tally = Tally {
        steps: 0,
        found: 0,
        failed: 0,
        deadlock: 0,
        late: 0,
    };
    'turns: while tally.steps < budget {
        if let Some(how) = turn(machine, &mut tally, wanted, answers)? {
            return Ok(summed(tally, how));
        }
    }
    Ok(summed(tally, How::Budget))
}

impl<'a> Engine<'a> {
    /// Searches with so many steps for so many answers, at least one, and hands each answer to
    /// `answers` as it is found. It may come after `new`.
    ///
    /// Afterwards the engine stands at the last answer that was wanted, at the world whose step
    /// raised the error, at the last dead end or answer where there are no more, or at the world
    /// whose step would be the next.
    ///
    /// # Errors
    /// A fault of `answers` ends the run at once with that fault. Answers `NoMemory` also where the
    /// memory for the search isn't had, and from then on. After `Write` only the view may be asked.
    /// A fault leaves the counts of steps and answers as they were.
    pub fn run_to_end<A: Answers>(
        &mut self,
        budget: u64,
        wanted: u64,
        answers: &mut A,
    ) -> Result<Ended, AnswerFault>
        requires run { MayRun self.old.phase }
        requires wanted { 0 < wanted }
        ensures found { IfOk result (Finds (outcome_of self.old budget wanted) self.new) }
        ensures reached { IfOk result (Reaches self.old wanted self.new) }
        ensures took { OnOk result (Took A.takes answers.old
            (answers_of self.old budget wanted) answers.new) }
        ensures cut { IfErr result (λ fault. IsCutShort A.takes A.leaves
            (answers_of self.old budget wanted) fault answers.old answers.new) }
        ensures never_falls { A.faults answers.old ≤ A.faults answers.new }
        ensures write { result ≡ Err AnswerFault.Write →
            Rose (A.faults answers.old) (A.faults answers.new) }
        ensures same { IsSame self.old self.new }
        ensures uncounted { OnErr result (IsUncounted self.old self.new) }
        ensures phase { OnOk result (self.new.phase ≡ Phase.Ran) }
        ensures fault { IfErr result (λ fault. self.new.phase ≡ phase_after fault) }
        ensures stays { self.old.phase ≡ Phase.Broken → result ≡ Err AnswerFault.NoMemory }
    {
        if let Phase::Broken = self.phase {
            return Err(AnswerFault::NoMemory);
        }
        match search(&mut self.machine, budget, wanted, answers) {
            Ok(ended) => {
                self.steps = ended.steps;
                self.number = ended.found;
                self.phase = Phase::Ran;
                Ok(ended)
            }
            Err(fault) => {
                self.phase = fault.phase();
                Err(fault)
            }
        }
    }
}
