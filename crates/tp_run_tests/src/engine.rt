//! Steps and runs over a base, with values from outside.

ghost use Rattle.std.specs.Prelude.{◌≡◌, ◌<◌, length, true, IfOk, OnOk, IsTrue};
ghost use Rattle.tp_terms.specs.Names.{Grows};
ghost use Rattle.tp_terms.specs.Shown.{AreNamed};
ghost use Rattle.tp_machine.specs.Program.{GoalFits};
ghost use Rattle.tp_engine.specs.Told.{MayStep, MayRewind, MayResume, MayRun};

use std::alloc::Global;
use std::test::Fail;
use tp_clauses::Base;
use tp_engine::{AnswerFault, AnswerView, Answers, Ended, Engine, How, Phase, StartFault, Stepped};
use tp_parse::{ReadTerm, read_goal};
use tp_terms::{Atoms, Binds, Cell};

/// The base of a text.
fn base_of(alloc: Global, text: &str, atoms: &mut Atoms) -> Result<Base, Fail>
    ensures { IfOk result (λ base. AreNamed (length atoms.new) base.cells) }
{
    match Base::load(alloc, text.as_bytes(), atoms) {
        Ok(base) => Ok(base),
        Err(_) => Err(Fail::new("no base")),
    }
}

/// The goal of a text, read by the operators of a base.
fn goal_of(alloc: Global, text: &str, base: &Base, atoms: &mut Atoms) -> Result<ReadTerm, Fail>
    ensures fits { IfOk result (GoalFits atoms.new) }
    ensures grows { OnOk result (Grows atoms.old atoms.new) }
{
    match read_goal(alloc, text, base.ops(), atoms) {
        Ok(goal) => Ok(goal),
        Err(_) => Err(Fail::new("no goal")),
    }
}

// ---- step by step

/// A call, and what it is to answer.
enum Call {
    Step(Stepped),
    Rewind(bool),
    Resume,
}

/// Whether a step may come.
fn may_step(engine: &Engine<'_>) -> bool
    ensures { IsTrue result → MayStep engine.now.phase engine.now.seen.steps }
{
    match engine.phase() {
        Phase::New | Phase::Resumed | Phase::Stepped(Stepped::Went) => engine.view().steps()
            < u64::MAX,
        _ => false,
    }
}

/// Whether rewinding may come.
fn may_rewind(engine: &Engine<'_>) -> bool
    ensures { IsTrue result → MayRewind engine.now.phase }
{
    matches!(
        engine.phase(),
        Phase::Stepped(Stepped::Success | Stepped::Dead(_))
    )
}

/// Whether resuming may come.
fn may_resume(engine: &Engine<'_>) -> bool
    ensures { IsTrue result → MayResume engine.now.phase }
{
    matches!(engine.phase(), Phase::Rewound(true))
}

/// Whether a call may come, and answers what it is to.
fn agrees(engine: &mut Engine<'_>, call: &Call) -> Result<bool, Fail> {
    match call {
        Call::Step(wanted) => Ok(may_step(engine) && engine.step()? == *wanted),
        Call::Rewind(wanted) => Ok(may_rewind(engine) && engine.rewind() == *wanted),
        Call::Resume => {
            if may_resume(engine) {
                engine.resume()?;
                Ok(true)
            } else {
                Ok(false)
            }
        }
    }
}

/// Both answers over two facts, one step after the other.
const WALK: [Call; 9] = [
    Call::Step(Stepped::Went),
    Call::Step(Stepped::Went),
    Call::Step(Stepped::Went),
    Call::Step(Stepped::Success),
    Call::Rewind(true),
    Call::Resume,
    Call::Step(Stepped::Went),
    Call::Step(Stepped::Success),
    Call::Rewind(false),
];

/// The value of the goal's one named variable.
fn value(view: &AnswerView<'_>) -> Option<i64> {
    let [named] = view.named() else {
        return None;
    };
    let place = view.store().bound(named.number)?;
    if place.at >= view.cells().len() {
        return None;
    }
    match view.cells().get(place) {
        Cell::Int(value) => Some(value),
        _ => None,
    }
}

/// Whether the one process is `main`.
fn is_main_alone(view: &AnswerView<'_>) -> bool {
    if view.processes() != 1 {
        return false;
    }
    let name = view.process_name(0);
    (name.at as usize) < view.atoms().len() && view.atoms().name(name) == "main"
}

/// Whether the second answer over two facts is seen.
fn shows_second(view: &AnswerView<'_>) -> bool {
    (view.number(), view.steps(), view.clock()) == (2, 6, 0)
        && value(view) == Some(2)
        && view.events().len() == 2
        && is_main_alone(view)
        && view.ops().infix("then").is_some()
}

/// Whether the calls of the walk answer what they are to, and what is seen then.
fn walk(engine: &mut Engine<'_>) -> Result<bool, Fail> {
    for call in &WALK {
        if !agrees(engine, call)? {
            return Ok(false);
        }
    }
    Ok(shows_second(&engine.view()))
}

// ---- whole runs

/// The number of the last answer.
#[derive(Drop)]
struct Last {
    number: u64,
}

impl Answers for Last {
    ghost use Rattle.std.specs.Prelude.{◌≡◌};

    ghost takes = { λ before answer now. now.number ≡ answer.number };

    ghost leaves = { λ before answer fault now. Unit {0} };

    ghost faults = { λ last. 0 };

    fn answer(&mut self, view: &AnswerView<'_>) -> Result<(), AnswerFault> {
        self.number = view.number();
        Ok(())
    }
}

/// Whether a run with six steps for three answers ends so, and the last answer has its number.
fn run(engine: &mut Engine<'_>) -> Result<bool, Fail>
    requires { MayRun engine.old.phase }
{
    let mut last = Last { number: 0 };
    match engine.run_to_end(6, 3, &mut last) {
        Ok(ended) => Ok(ended == BOTH && last.number == 2),
        Err(_) => Err(Fail::new("no end")),
    }
}

/// Both answers over two facts, and no more.
const BOTH: Ended = Ended {
    steps: 6,
    found: 2,
    failed: 0,
    deadlock: 0,
    late: 0,
    how: How::NoMore,
};

// ---- rows

/// What is to come of a goal.
enum Wanted {
    Walk,
    Run,
    Fault(StartFault),
}

/// Whether a goal over a base does what is wanted.
fn starts(
    alloc: Global,
    base: &Base,
    atoms: Atoms,
    goal: &ReadTerm,
    wanted: &Wanted,
) -> Result<bool, Fail>
    requires base { AreNamed (length atoms) base.now.cells }
    requires goal { GoalFits atoms goal.now }
{
    match (Engine::new(alloc, base, atoms, goal), wanted) {
        (Ok(mut engine), Wanted::Walk) => walk(&mut engine),
        (Ok(mut engine), Wanted::Run) => run(&mut engine),
        (Err(fault), Wanted::Fault(other)) => Ok(fault == *other),
        _ => Ok(false),
    }
}

/// Whether the goal of a text over the base of a text does what is wanted.
fn asks(alloc: Global, text: &str, goal: &str, wanted: &Wanted) -> Result<bool, Fail> {
    let mut atoms = Atoms::start(alloc)?;
    let base = base_of(alloc, text, &mut atoms)?;
    let goal = goal_of(alloc, goal, &base, &mut atoms)?;
    starts(alloc, &base, atoms, &goal, wanted)
}

const FACTS: &str = ":- op(200, xfy, then). p(1). p(2).";

#[test]
fn steps_and_runs(rt: HostRuntime) -> Result<(), Fail> {
    assert!(rt; asks(rt.alloc(), FACTS, "p(X)", &Wanted::Walk)?);
    assert!(rt; asks(rt.alloc(), FACTS, "p(X)", &Wanted::Run)?);
    assert!(rt; asks(rt.alloc(), "", "1", &Wanted::Fault(StartFault::Body))?);
    Ok(())
}
