//! Goals, by their kinds.

ghost use Rattle.std.specs.Prelude.{OnErr, ◌≡◌, ◌<◌, ◌+◌, List, Option, Some, IfOk, length};
ghost use Rattle.tp_terms.specs.Term.{Name};
ghost use Rattle.tp_terms.specs.Shown.{AreNamed};
ghost use Rattle.tp_store.specs.Contents.{IsStore};
ghost use Rattle.tp_machine.specs.declared.task.Met.{Met};
ghost use Rattle.tp_machine.specs.Meets.{IsMet};

use crate::errors::{Cause, raised};
use crate::machine::Machine;
use crate::stepped::Stepped;
use crate::task::{Call, Met, Task};
use tp_meaning::{GoalKind, goal_kind};
use tp_store::Store;
use tp_terms::{Cell, NoMemory, Ref};

/// What a goal is, by its cell.
pub fn met(store: &Store, goal: Ref) -> Met
    requires goal { goal.at < length store.now.cells }
    requires store { IsStore store.now }
    ensures { (names : List Name) → AreNamed (length names) store.now.cells →
        IsMet names store.now goal result }
{
    match store.top(goal) {
        Cell::Var(_) => Met::Unbound,
        Cell::Int(value) => Met::Number(value),
        Cell::Atom(name) => Met::Named(Call {
            name,
            first: goal,
            count: 0,
        }),
        Cell::Comp { name, first, count } => Met::Named(Call { name, first, count }),
    }
}

impl<'a> Machine<'a> {
    ghost use Rattle.tp_machine.specs.Machine.{IsMachine, SameProgram, Steps};
    ghost use Rattle.tp_machine.specs.Meets.{Meets, Calls, IsCall, IsCause};

    /// The running process meets a goal.
    pub(crate) fn meet(&mut self, task: Task) -> Result<Stepped, NoMemory>
        requires machine { IsMachine self.old }
        requires meets { Meets self.old task }
        ensures done { IfOk result (Steps self.old self.new) }
        ensures program { OnErr result (SameProgram self.old self.new) }
    {
        match met(&self.state.store, task.goal) {
            Met::Unbound => self.raise(task, Cause::Unbound),
            Met::Number(value) => self.raise(task, Cause::Number(value)),
            Met::Named(call) => self.call(task, call),
        }
    }

    /// The running process meets a goal with a name.
    fn call(&mut self, task: Task, call: Call) -> Result<Stepped, NoMemory>
        requires machine { IsMachine self.old }
        requires meets { Meets self.old task }
        requires call { IsCall self.old.atoms self.old.state.store task.goal call }
        ensures done { IfOk result (Steps self.old self.new) }
        ensures program { OnErr result (SameProgram self.old self.new) }
    {
        match goal_kind(call.name, call.count) {
            None => self.run_clauses(task, call),
            Some(kind) => self.take(task, call, kind),
        }
    }

    /// A goal that the language has of its own.
    fn take(&mut self, task: Task, call: Call, kind: GoalKind) -> Result<Stepped, NoMemory>
        requires machine { IsMachine self.old }
        requires call { Calls self.old task call (Some kind) }
        ensures done { IfOk result (Steps self.old self.new) }
        ensures program { OnErr result (SameProgram self.old self.new) }
    {
        match kind {
            GoalKind::Control(goal) => self.control(task, call, goal),
            GoalKind::BuiltIn(id) => self.built_in(task, call, id),
            GoalKind::Process(goal) => self.perform(task, call, goal),
        }
    }

    /// A goal raises an error.
    pub(crate) fn raise(&mut self, task: Task, cause: Cause) -> Result<Stepped, NoMemory>
        requires machine { IsMachine self.old }
        requires meets { Meets self.old task }
        requires cause { IsCause self.old task cause }
        ensures done { IfOk result (Steps self.old self.new) }
        ensures program { OnErr result (SameProgram self.old self.new) }
    {
        let process = self.state.name_of(task.process);
        let place = raised(&mut self.state.store, cause, process)?;
        Ok(Stepped::Raised(place))
    }

    /// The place of an argument behind the first.
    pub(crate) fn argument(&self, call: Call, n: usize) -> Ref
        requires { call.first.at + n < length self.now.state.store.cells }
        ensures { result.at ≡ call.first.at + n }
    {
        let _places = self.state.store.cells().len();
        Ref {
            at: call.first.at + n,
        }
    }
}
