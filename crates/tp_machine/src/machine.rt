//! One current world, and the choices that stand open.

ghost use Rattle.std.specs.Prelude.{◌≡◌, ◌<◌, ◌^◌, ◌-◌, IfOk, OnOk, OnErr, IfSome, IfNone, length};
ghost use Rattle.tp_terms.specs.Shown.{AreNamed};
ghost use Rattle.tp_meaning.specs.Body.{body};
ghost use Rattle.tp_machine.specs.Program.{GoalFits, goal_term};

use crate::begin::first_state;
use crate::stepped::Stepped;
use std::alloc::Global;
use tp_clauses::Base;
use tp_control::{Alt, Choices};
use tp_parse::ReadTerm;
use tp_state::State;
use tp_terms::{Atoms, NoMemory};
use tp_view::View;

/// A search under way: the clauses, the goal and the names that it runs on, the contents of the
/// current world with its stamp, and the choices that stand open, the newest last.
#[derive(Drop)]
pub struct Machine<'a> {
    pub base: &'a Base,
    pub goal: &'a ReadTerm,
    pub atoms: Atoms,
    pub state: State,
    pub stamp: u64,
    pub choices: Choices,
    /// After going back: what is next in the choice whose contents these are.
    pub waiting: Option<Alt>,
    /// Where the terms, the log and the names stand while a built-in goal runs; nothing else
    /// looks here.
    pub view: View,
}

impl<'a> Machine<'a> {
    ghost use Rattle.tp_machine.specs.Machine.{IsMachine, IsBegun, IsBack, SameProgram, Steps};
    ghost use Rattle.tp_machine.specs.Machine.{Forgets, Rewinds, Resumes};

    /// The start of the goal, where it has a body.
    pub fn start(
        alloc: Global,
        base: &'a Base,
        atoms: Atoms,
        goal: &'a ReadTerm,
    ) -> Result<Option<Machine<'a>>, NoMemory>
        requires base { AreNamed (length atoms) base.now.cells }
        requires goal { GoalFits atoms goal.now }
        ensures begun { IfOk result (λ found. IfSome found (λ m. IsBegun m)) }
        ensures program { IfOk result (λ found. IfSome found (λ m.
            (m.base.now ≡ base.now) × (m.goal.now ≡ goal.now) × (m.atoms ≡ atoms))) }
        ensures none { IfOk result (λ found.
            IfNone found (body (goal_term atoms goal.now) ≡ None)) }
    {
        // Its contract says what holds of every base.
        let _cells = base.cells();
        let view = View::start(alloc)?;
        let Some(state) = first_state(alloc, goal)? else {
            return Ok(None);
        };
        Ok(Some(Machine {
            base,
            goal,
            atoms,
            state,
            stamp: 0,
            choices: Choices::new(alloc),
            waiting: None,
            view,
        }))
    }

    /// One step. Where no choice is open behind it, nothing will be taken back any more.
    pub fn step(&mut self) -> Result<Stepped, NoMemory>
        requires machine { IsMachine self.old }
        requires few { self.old.stamp < 2 ^ 64 - 1 }
        ensures stepped { IfOk result (Steps self.old self.new) }
        ensures same { OnErr result (SameProgram self.old self.new) }
    {
        let stepped = self.act()?;
        self.forget();
        Ok(stepped)
    }

    /// The scheduler acts where no process runs, and else the running process.
    fn act(&mut self) -> Result<Stepped, NoMemory>
        requires machine { IsMachine self.old }
        requires few { self.old.stamp < 2 ^ 64 - 1 }
        ensures stepped { IfOk result (Steps self.old self.new) }
        ensures same { OnErr result (SameProgram self.old self.new) }
    {
        match self.state.running {
            None => self.schedule(),
            Some(process) => self.advance(process),
        }
    }

    /// Empties the log where no choice is open. Takes no memory.
    fn forget(&mut self)
        requires { IsMachine self.old }
        ensures { Forgets self.old self.new }
    {
        if self.choices.is_empty() {
            self.state.log.clear();
        }
    }

    /// Back to the world of the newest choice. Takes no memory.
    pub fn rewind(&mut self) -> bool
        requires { IsMachine self.old }
        ensures { Rewinds self.old result self.new }
    {
        match self.choices.pop() {
            None => false,
            Some(choice) => {
                self.state.rewind(&choice.marks);
                self.stamp = choice.stamp;
                self.waiting = Some(choice.next);
                true
            }
        }
    }

    /// On with what is next in the choice that the machine went back to.
    pub fn resume(&mut self) -> Result<(), NoMemory>
        requires back { IsBack self.old }
        requires few { self.old.stamp < 2 ^ 64 - 1 }
        ensures resumed { OnOk result (Resumes self.old self.new) }
        ensures same { OnErr result (SameProgram self.old self.new) }
    {
        let Some(next) = self.waiting.take() else {
            unreachable!()
        };
        match next {
            Alt::Clause(place) => self.resume_clauses(place),
            Alt::Second => self.resume_second(),
            Alt::Message(place) => self.resume_messages(place),
        }
    }
}
