//! Goals that clauses define.

ghost use Rattle.std.specs.Prelude.{◌≡◌, ℕ, List, ◌+◌, ◌<◌, ◌∷◌, true, false, Ok, Some, None, IfOk};
ghost use Rattle.std.specs.Prelude.{IfSome, OnOk, OnErr, length};
ghost use Rattle.std.specs.List.{position_from};
ghost use Rattle.tp_control.specs.declared.choices.Choice.{Choice};
ghost use Rattle.tp_machine.specs.declared.task.Call.{Call};

use crate::errors::Cause;
use crate::goals::met;
use crate::heads::{Head, try_head};
use crate::machine::Machine;
use crate::stepped::Stepped;
use crate::task::{Call, Met, Task};
use tp_clauses::ClauseId;
use tp_control::{Alt, Item};
use tp_meaning::DeadCause;
use tp_terms::NoMemory;

impl<'a> Machine<'a> {
    ghost use Rattle.tp_control.specs.declared.choices.Alt.{Alt};
    ghost use Rattle.tp_machine.specs.Machine.{IsMachine, SameProgram, Steps, Resumes};
    ghost use Rattle.tp_machine.specs.Meets.{Calls, IsCurrent, Meets};
    ghost use Rattle.tp_machine.specs.Goes.{IsKept, Enters, Returns};
    ghost use Rattle.tp_machine.specs.Trying.{AreTried, HasPushed, IsPlaced, MissesFirst};
    ghost use Rattle.tp_machine.specs.Trying.{StillTries, TriesAll, hits_at};

    /// A goal goes on with the first of its clauses that has a unifier with it, and a choice is
    /// kept where another one has.
    pub(crate) fn run_clauses(&mut self, task: Task, call: Call) -> Result<Stepped, NoMemory>
        requires machine { IsMachine self.old }
        requires call { Calls self.old task call None }
        ensures done { IfOk result (Steps self.old self.new) }
        ensures program { OnErr result (SameProgram self.old self.new) }
    {
        let Some(ids) = self.candidates(call) else {
            return self.raise(task, Cause::Unknown(call.name, call.count));
        };
        if ids.is_empty() {
            return Ok(Stepped::Dead(DeadCause::Failed));
        }
        self.run_first(task, ids[0], &ids[1..])
    }

    /// A goal goes on with a clause, and a choice is kept where one of the others has a unifier
    /// with it; where the clause has none, it goes on with the first of the others that has.
    fn run_first(
        &mut self,
        task: Task,
        id: ClauseId,
        others: &[ClauseId],
    ) -> Result<Stepped, NoMemory>
        requires machine { IsMachine self.old }
        requires tries { TriesAll self.old task (id ∷ others.now) }
        ensures done { IfOk result (Steps self.old self.new) }
        ensures program { OnErr result (SameProgram self.old self.new) }
    {
        let next = self.next_match(task.goal, others)?;
        self.keep_found(task, others, next)?;
        if self.enter(task, id)? {
            return Ok(Stepped::Went);
        }
        self.let_go(next);
        self.run_behind(task, others, next)
    }

    /// A goal whose first clause has no unifier with it goes on with the first of the others that
    /// has one, and a choice is kept where another one has.
    fn run_behind(
        &mut self,
        task: Task,
        others: &[ClauseId],
        next: Option<usize>,
    ) -> Result<Stepped, NoMemory>
        requires machine { IsMachine self.old }
        requires misses { MissesFirst self.old task others.now }
        requires found { next ≡ position_from (hits_at self.old task.goal) 0 others.now }
        requires within { IfSome next (λ k. k < length others.now) }
        ensures done { IfOk result (Steps self.old self.new) }
        ensures program { OnErr result (SameProgram self.old self.new) }
    {
        match next {
            None => Ok(Stepped::Dead(DeadCause::Failed)),
            Some(next) => {
                self.keep_clauses(task, &others[next + 1..])?;
                self.enter(task, others[next])?;
                Ok(Stepped::Went)
            }
        }
    }

    /// Keeps a choice of that one of some clauses which is the first to have a unifier with the
    /// goal, where there is one.
    fn keep_found(
        &mut self,
        task: Task,
        ids: &[ClauseId],
        next: Option<usize>,
    ) -> Result<(), NoMemory>
        requires machine { IsMachine self.old }
        requires tries { StillTries self.old task ids.now }
        requires found { next ≡ position_from (hits_at self.old task.goal) 0 ids.now }
        requires within { IfSome next (λ k. k < length ids.now) }
        ensures done { OnOk result ((call : Call) (from : ℕ) → Calls self.old task call None →
            AreTried self.old task call from ids.now → IsKept self.old (Alt.Clause from) self.new) }
        ensures same { OnOk result
            (self.new ≡ record self.old { choices = self.new.choices }) }
        ensures pushed { OnOk result (HasPushed next self.old.choices self.new.choices) }
        ensures program { OnErr result (SameProgram self.old self.new) }
    {
        if let Some(next) = next {
            let place = self.base.place(ids[next]);
            self.keep(Alt::Clause(place))?;
        }
        Ok(())
    }

    /// Lets the choice go that was kept last, where one was. Takes no memory.
    fn let_go(&mut self, next: Option<usize>)
        ensures same { self.new ≡ record self.old { choices = self.new.choices } }
        ensures back { (older : List Choice) → HasPushed next older self.old.choices →
            self.new.choices ≡ older }
    {
        if next.is_some() {
            self.choices.pop();
        }
    }

    /// Keeps a choice, where one of some clauses has a unifier with the goal.
    fn keep_clauses(&mut self, task: Task, ids: &[ClauseId]) -> Result<(), NoMemory>
        requires machine { IsMachine self.old }
        requires tries { StillTries self.old task ids.now }
        ensures done { OnOk result ((call : Call) (from : ℕ) → Calls self.old task call None →
            AreTried self.old task call from ids.now → IsKept self.old (Alt.Clause from) self.new) }
        ensures same { OnOk result
            (self.new ≡ record self.old { choices = self.new.choices }) }
        ensures program { OnErr result (SameProgram self.old self.new) }
    {
        let next = self.next_match(task.goal, ids)?;
        self.keep_found(task, ids, next)
    }

    /// Replaces a goal by the body of a clause, where its head has a unifier with the goal; else
    /// all stays.
    fn enter(&mut self, task: Task, id: ClauseId) -> Result<bool, NoMemory>
        requires meets { Meets self.old task }
        requires clause { id.at < length self.old.base.now.clauses }
        ensures met { IfOk result (λ found. found ≡ hits_at self.old task.goal id) }
        ensures done { result ≡ Ok true → (call : Call) (place : ℕ) →
            IsPlaced self.old task call place id → Enters self.old place self.new }
        ensures stays { result ≡ Ok false → self.new ≡ self.old }
        ensures program { OnErr result (SameProgram self.old self.new) }
    {
        let clause = self.base.clause(id);
        let Head::Met(body) = try_head(&mut self.state, task.goal, self.base.cells(), clause)?
        else {
            return Ok(false);
        };
        self.state.items = task.rest;
        self.state.push_body(body, self.stamp)?;
        self.stamp += 1;
        Ok(true)
    }

    /// On with the clause at a place.
    pub(crate) fn resume_clauses(&mut self, place: usize) -> Result<(), NoMemory>
        requires { Returns self.old (Alt.Clause place) }
        ensures done { OnOk result
            (Resumes (record self.old { waiting = Some (Alt.Clause place) }) self.new) }
        ensures program { OnErr result (SameProgram self.old self.new) }
    {
        let Some((task, call)) = self.current() else {
            unreachable!()
        };
        let id = self.clause_at(call, place);
        let behind = self.candidates_behind(call, id);
        self.keep_clauses(task, behind)?;
        self.enter(task, id)?;
        Ok(())
    }

    /// The goal that the running process stands at, where it has a name.
    pub(crate) fn current(&self) -> Option<(Task, Call)>
        requires { IsMachine self.now }
        ensures { IsCurrent self.now result }
    {
        let process = self.state.running?;
        let first = self.state.items?;
        let (Item::Goal { goal, barrier }, rest) = self.state.frames.get(first) else {
            return None;
        };
        let Met::Named(call) = met(&self.state.store, goal) else {
            return None;
        };
        Some((
            Task {
                process,
                goal,
                barrier,
                rest,
            },
            call,
        ))
    }
}
