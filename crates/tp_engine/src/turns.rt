//! Turns of a run: one step, and the way back where it failed.

ghost use Rattle.std.specs.Prelude.{◌≡◌, ◌<◌, ◌≤◌, ◌-◌, ◌^◌, Err, IfOk, IfErr, OnOk, OnErr, length};
ghost use Rattle.tp_outside.specs.Count.{Rose};
ghost use Rattle.tp_machine.specs.Machine.{ErrorStands, IsMachine, SameProgram};
ghost use Rattle.tp_engine.specs.Answers.{Took, answer_in};
ghost use Rattle.tp_engine.specs.Told.{seen_of};
ghost use Rattle.tp_engine.specs.Run.{CountsFit, Follows, GoesBack, IsCutAt, Turns, answers_by};
ghost use Rattle.tp_engine.specs.declared.answers.AnswerFault.{AnswerFault};
ghost use Rattle.tp_machine.specs.declared.stepped.Stepped.{Stepped};

use crate::answers::{AnswerFault, Answers};
use crate::run::How;
use crate::tally::Tally;
use crate::view::AnswerView;
use tp_machine::{Machine, Stepped};
use tp_terms::NoMemory;

/// Hands over the world that a machine stands at, where its step was an answer, which the tally has
/// counted.
fn hand_over<A: Answers>(
    machine: &Machine<'_>,
    stepped: Stepped,
    tally: Tally,
    answers: &mut A,
) -> Result<(), AnswerFault>
    requires { IsMachine machine.now }
    ensures took { OnOk result (Took A.takes answers.old
        (answers_by stepped (answer_in (seen_of machine.now tally.found tally.steps)))
        answers.new) }
    ensures left { IfErr result (λ fault. (stepped ≡ Stepped.Success)
        × A.leaves answers.old (answer_in (seen_of machine.now tally.found tally.steps))
        fault answers.new) }
    ensures never_falls { A.faults answers.old ≤ A.faults answers.new }
    ensures write { result ≡ Err AnswerFault.Write →
        Rose (A.faults answers.old) (A.faults answers.new) }
{
    match stepped {
        Stepped::Success => answers.answer(&AnswerView::of(machine, tally.found, tally.steps)),
        _ => Ok(()),
    }
}

/// Back to the newest choice and on with it. Where there is none, the search ends.
fn go_back(machine: &mut Machine<'_>) -> Result<Option<How>, NoMemory>
    requires machine { IsMachine machine.old }
    requires stamp { machine.old.stamp < 2 ^ 64 }
    ensures went { IfOk result (λ how. GoesBack machine.old how machine.new) }
    ensures same { OnErr result (SameProgram machine.old machine.new) }
{
    if machine.rewind() {
        machine.resume()?;
        Ok(None)
    } else {
        Ok(Some(How::NoMore))
    }
}

/// Goes on after a step with this answer, where so many answers were found.
fn follow(
    machine: &mut Machine<'_>,
    stepped: Stepped,
    found: u64,
    wanted: u64,
) -> Result<Option<How>, NoMemory>
    requires machine { IsMachine machine.old }
    requires stamp { machine.old.stamp < 2 ^ 64 }
    requires place { ErrorStands machine.old stepped }
    requires found { found ≤ wanted }
    ensures follows { IfOk result (λ how.
        Follows stepped found wanted machine.old how machine.new) }
    ensures same { OnErr result (SameProgram machine.old machine.new) }
{
    match stepped {
        Stepped::Went => Ok(None),
        Stepped::Success => {
            if found == wanted {
                Ok(Some(How::Stopped))
            } else {
                go_back(machine)
            }
        }
        Stepped::Dead(_) => go_back(machine),
        Stepped::Raised(term) => Ok(Some(How::Raised {
            term,
            clock: machine.state.clock,
        })),
    }
}

/// One step, and the way back where it failed. The search goes on where no end is answered.
pub fn turn<A: Answers>(
    machine: &mut Machine<'_>,
    tally: &mut Tally,
    wanted: u64,
    answers: &mut A,
) -> Result<Option<How>, AnswerFault>
    requires machine { IsMachine machine.old }
    requires fit { CountsFit tally.old }
    requires steps { tally.old.steps < 2 ^ 64 - 1 }
    requires few { tally.old.found < wanted }
    requires stamp { machine.old.stamp < 2 ^ 64 - 1 }
    ensures turns { IfOk result (Turns A.takes wanted
        machine.old tally.old answers.old machine.new tally.new answers.new) }
    ensures cut { IfErr result (λ fault. IsCutAt A.takes A.leaves
        machine.old tally.old fault answers.old answers.new machine.new) }
    ensures never_falls { A.faults answers.old ≤ A.faults answers.new }
    ensures write { result ≡ Err AnswerFault.Write →
        Rose (A.faults answers.old) (A.faults answers.new) }
{
    let stepped = machine.step()?;
    *tally = tally.counted(stepped);
    hand_over(machine, stepped, *tally, answers)?;
    let how = follow(machine, stepped, tally.found, wanted)?;
    Ok(how)
}
