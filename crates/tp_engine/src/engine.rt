//! The engine.

ghost use Rattle.std.specs.Prelude.{◌≡◌, IfOk, OnOk, OnErr, IsErr, ◌<◌, ◌+◌, ◌-◌, ◌^◌, length};
ghost use Rattle.std.specs.Prelude.{IsTrue, is_some, Err, None};
ghost use Rattle.tp_terms.specs.Shown.{AreNamed};
ghost use Rattle.tp_meaning.specs.Body.{body};
ghost use Rattle.tp_meaning.specs.Machine.{stepped, rewound, resumed};
ghost use Rattle.tp_meaning.specs.Step.{searched};
ghost use Rattle.tp_machine.specs.Program.{GoalFits, goal_term};
ghost use Rattle.tp_engine.specs.Told.{IsStarted, IsSound, IsSame, IsCounted, IsUncounted};
ghost use Rattle.tp_engine.specs.Told.{IsStacked, IsWhole, MayStep, MayRewind, MayResume};
ghost use Rattle.tp_engine.specs.Told.{PlaceStands, answer_of, number_after, state_of};
ghost use Rattle.tp_engine.specs.declared.phase.Phase.{Phase};
ghost use Rattle.tp_engine.specs.declared.start.StartFault.{StartFault};

use crate::phase::Phase;
use crate::start::StartFault;
use crate::view::AnswerView;
use std::alloc::Global;
use std::marker::Model;
use tp_clauses::Base;
use tp_machine::{Machine, Stepped};
use tp_parse::ReadTerm;
use tp_terms::{Atoms, NoMemory};

/// A search under way: one world, and the choices that stand open. Contracts see `Told` of
/// specs/Told.antt.
#[derive(Drop)]
pub struct Engine<'a> {
    pub(crate) machine: Machine<'a>,
    pub(crate) phase: Phase,
    pub(crate) steps: u64,
    pub(crate) number: u64,
}

impl<'a> Model for Engine<'a> {
    ghost use Rattle.tp_engine.specs.Told.{Told};
    ghost use Rattle.tp_terms.specs.Code.{term_code};
    ghost use Rattle.std.specs.Coded.{codes};
    ghost use Rattle.tp_engine.specs.Code.{terms_code};

    ghost Value = { Told };

    ghost coded = { Prim.hlevel (codes, term_code, terms_code) };

    ghost use Rattle.tp_engine.specs.Told.{told_of};
    ghost use Rattle.tp_engine.specs.Phases.{Keeps};

    ghost view = { λ e. told_of e.phase e.machine e.number e.steps };

    ghost invariant = { λ e. Keeps e.phase e.machine e.number e.steps };
}

/// How many answers there are after a step.
fn count_answer(stepped: Stepped, number: u64) -> u64
    requires { number < 2 ^ 64 - 1 }
    ensures { result ≡ number_after stepped number }
{
    match stepped {
        Stepped::Success => number + 1,
        _ => number,
    }
}

impl<'a> Engine<'a> {
    /// The engine at the start of a goal over a base. Base and goal have their atoms in the table.
    ///
    /// # Errors
    /// `Body` exactly where the goal has no body, and `NoMemory` where memory was refused. The
    /// table is dropped then.
    pub fn new(
        alloc: Global,
        base: &'a Base,
        atoms: Atoms,
        goal: &'a ReadTerm,
    ) -> Result<Engine<'a>, StartFault>
        requires base { AreNamed (length atoms) base.now.cells }
        requires goal { GoalFits atoms goal.now }
        ensures started { IfOk result (IsStarted atoms base.entry.now goal.entry.now) }
        ensures stack { IfOk result (λ e. IsStacked e e.seen.stamp) }
        ensures body { IfOk result (λ _. IsTrue (is_some (body (goal_term atoms goal.entry.now)))) }
        ensures no_body { result ≡ Err StartFault.Body →
            body (goal_term atoms goal.entry.now) ≡ None }
    {
        let Some(machine) = Machine::start(alloc, base, atoms, goal)? else {
            return Err(StartFault::Body);
        };
        Ok(Engine {
            machine,
            phase: Phase::New,
            steps: 0,
            number: 0,
        })
    }

    /// One step of the world that the engine stands for. It may come after `new`, `resume` or a
    /// step that answered `Went`, where fewer than 18446744073709551615 steps were made.
    ///
    /// # Errors
    /// `NoMemory` where the memory for it isn't had. The counts of steps and answers stay then.
    /// From then on `step`, `resume` and `run_to_end` answer that, and may always come; for which
    /// world and choices the engine stands is left open.
    pub fn step(&mut self) -> Result<Stepped, NoMemory>
        requires { MayStep self.old.phase self.old.seen.steps }
        ensures step { IfOk result (λ r. (answer_of self.new.seen r, state_of self.new)
            ≡ stepped (searched self.old.base) (state_of self.old)) }
        ensures stack { OnOk result (IsStacked self.new self.new.seen.stamp) }
        ensures place { IfOk result (PlaceStands self.new.seen) }
        ensures counts { IfOk result (λ r. IsCounted r self.old self.new) }
        ensures phase { IfOk result (λ r. self.new.phase ≡ Phase.Stepped r) }
        ensures same { IsSame self.old self.new }
        ensures uncounted { OnErr result (IsUncounted self.old self.new) }
        ensures broken { OnErr result (self.new.phase ≡ Phase.Broken) }
        ensures stays { self.old.phase ≡ Phase.Broken → IsErr result }
    {
        if let Phase::Broken = self.phase {
            return Err(NoMemory);
        }
        self.phase = Phase::Broken;
        let stepped = self.machine.step()?;
        self.number = count_answer(stepped, self.number);
        self.steps += 1;
        self.phase = Phase::Stepped(stepped);
        Ok(stepped)
    }

    /// Back to the world of the newest choice, where there is one. It may come after a step that
    /// answered `Success` or `Dead`. Takes no memory.
    pub fn rewind(&mut self) -> bool
        requires { MayRewind self.old.phase }
        ensures back { (result, state_of self.new) ≡ rewound (state_of self.old) }
        ensures stack { IsStacked self.new (self.new.seen.stamp + 1) }
        ensures phase { self.new.phase ≡ Phase.Rewound result }
        ensures rest { IsUncounted self.old self.new }
    {
        let found = self.machine.rewind();
        self.phase = Phase::Rewound(found);
        found
    }

    /// On with the first untried world of the newest choice, which is that of the engine. It may
    /// come after a `rewind` that answered true. This is no step.
    ///
    /// # Errors
    /// `NoMemory` where the memory for it isn't had, and from then on.
    pub fn resume(&mut self) -> Result<(), NoMemory>
        requires { MayResume self.old.phase }
        ensures resumed { OnOk result (state_of self.new ≡ resumed (state_of self.old)) }
        ensures stack { OnOk result (IsStacked self.new self.new.seen.stamp) }
        ensures phase { OnOk result (self.new.phase ≡ Phase.Resumed) }
        ensures rest { IsUncounted self.old self.new }
        ensures broken { OnErr result (self.new.phase ≡ Phase.Broken) }
        ensures stays { self.old.phase ≡ Phase.Broken → IsErr result }
    {
        if let Phase::Broken = self.phase {
            return Err(NoMemory);
        }
        self.phase = Phase::Broken;
        self.machine.resume()?;
        self.phase = Phase::Resumed;
        Ok(())
    }

    /// Which call was the last, with its answer; the calls that may come next follow from it.
    /// Takes no memory.
    pub fn phase(&self) -> Phase
        ensures { result ≡ self.now.phase }
    {
        self.phase
    }

    /// The engine's own state, as it stands. Takes no memory.
    pub fn view(&self) -> AnswerView<'_>
        ensures view { result ≡ self.now.seen }
        ensures sound { IsWhole self.now.phase → IsSound self.now.seen }
    {
        AnswerView::of(&self.machine, self.number, self.steps)
    }
}
