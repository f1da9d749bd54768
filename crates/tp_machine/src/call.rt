//! `call`, whose first argument is a goal, and the others are further arguments of it (ISO/IEC
//! 13211-1, 7.8.3, and 8.15.4 of its second corrigendum).

ghost use Rattle.std.specs.Prelude.{◌≡◌, ◌≤◌, ◌<◌, ◌+◌, ◌-◌, Some, IfOk, OnOk, OnErr, length};
ghost use Rattle.tp_meaning.specs.declared.goals.GoalKind.TheVariants.{Control};
ghost use Rattle.tp_meaning.specs.declared.goals.ControlGoal.{ControlGoal};

use crate::enter::{Entered, enter};
use crate::errors::Cause;
use crate::goals::met;
use crate::machine::Machine;
use crate::stepped::Stepped;
use crate::task::{Call, Met, Task};
use tp_control::Item;
use tp_terms::{NoMemory, Ref};

impl<'a> Machine<'a> {
    ghost use Rattle.tp_machine.specs.Calling.{CallsGoal, CallStands, CallEntered};
    ghost use Rattle.tp_machine.specs.Enters.{Rests};
    ghost use Rattle.tp_machine.specs.Machine.{IsMachine, SameProgram, Steps};
    ghost use Rattle.tp_machine.specs.Meets.{Calls, IsCall};

    /// `call` goes on with its first argument, which gets the others at its end.
    pub(crate) fn call_all(&mut self, task: Task, call: Call) -> Result<Stepped, NoMemory>
        requires machine { IsMachine self.old }
        requires call { Calls self.old task call (Some (Control ControlGoal.Call)) }
        ensures done { IfOk result (Steps self.old self.new) }
        ensures program { OnErr result (SameProgram self.old self.new) }
    {
        if call.count == 1 {
            return self.call_goal(task, call, call.first);
        }
        self.call_more(task, call)
    }

    /// `call` with further arguments. Its goal must be an atom or a compound.
    fn call_more(&mut self, task: Task, call: Call) -> Result<Stepped, NoMemory>
        requires machine { IsMachine self.old }
        requires call { Calls self.old task call (Some (Control ControlGoal.Call)) }
        requires more { call.count ≡ 1 → ⊥ }
        ensures done { IfOk result (Steps self.old self.new) }
        ensures program { OnErr result (SameProgram self.old self.new) }
    {
        match met(&self.state.store, call.first) {
            Met::Unbound => self.raise(task, Cause::Unbound),
            Met::Number(_) => self.raise(task, Cause::NotCallable(call.first)),
            Met::Named(goal) => self.call_named(task, call, goal),
        }
    }

    /// A goal with a name, which must have at most 255 arguments with the further ones.
    fn call_named(&mut self, task: Task, call: Call, goal: Call) -> Result<Stepped, NoMemory>
        requires machine { IsMachine self.old }
        requires call { Calls self.old task call (Some (Control ControlGoal.Call)) }
        requires more { call.count ≡ 1 → ⊥ }
        requires goal { IsCall self.old.atoms self.old.state.store call.first goal }
        ensures done { IfOk result (Steps self.old self.new) }
        ensures program { OnErr result (SameProgram self.old self.new) }
    {
        if goal.count as usize + call.count as usize > 256 {
            return self.raise(task, Cause::TooManyArguments);
        }
        let place = self.join_goal(task, call, goal)?;
        self.call_goal(task, call, place)
    }

    /// A place for the goal with the further arguments at its end.
    fn join_goal(&mut self, _task: Task, call: Call, _goal: Call) -> Result<Ref, NoMemory>
        requires machine { IsMachine self.old }
        requires call { Calls self.old _task call (Some (Control ControlGoal.Call)) }
        requires more { call.count ≡ 1 → ⊥ }
        requires goal { IsCall self.old.atoms self.old.state.store call.first _goal }
        requires few { _goal.count + call.count ≤ 256 }
        ensures rests { OnOk result (Rests self.old self.new) }
        ensures calls { IfOk result (CallsGoal self.new _task call) }
        ensures program { OnErr result (SameProgram self.old self.new) }
    {
        let more = self.argument(call, 1);
        let place = self.state.store.join(call.first, more, call.count - 1)?;
        Ok(place)
    }

    /// Goes on with the goal of a place, whose cuts reach no further than the goal.
    fn call_goal(&mut self, task: Task, call: Call, goal: Ref) -> Result<Stepped, NoMemory>
        requires machine { IsMachine self.old }
        requires calls { CallsGoal self.old task call goal }
        ensures done { IfOk result (Steps self.old self.new) }
        ensures program { OnErr result (SameProgram self.old self.new) }
    {
        match self.enter_called(task, call, goal)? {
            Entered::Goal(place) => self.go_into(task, call, place),
            Entered::Refused(why) => self.raise(task, why),
        }
    }

    /// Enters the goal of a place.
    fn enter_called(&mut self, _task: Task, _call: Call, goal: Ref) -> Result<Entered, NoMemory>
        requires machine { IsMachine self.old }
        requires calls { CallsGoal self.old _task _call goal }
        ensures rests { OnOk result (Rests self.old self.new) }
        ensures entered { IfOk result (CallEntered self.new _task _call) }
        ensures program { OnErr result (SameProgram self.old self.new) }
    {
        let entered = enter(&mut self.state, goal)?;
        Ok(entered)
    }

    /// On with a goal whose cuts reach no further than itself.
    fn go_into(&mut self, task: Task, _call: Call, place: Ref) -> Result<Stepped, NoMemory>
        requires machine { IsMachine self.old }
        requires stands { CallStands self.old task _call place }
        ensures done { IfOk result (Steps self.old self.new) }
        ensures program { OnErr result (SameProgram self.old self.new) }
    {
        self.state.items = task.rest;
        self.state.push(Item::Goal {
            goal: place,
            barrier: self.stamp + 1,
        })?;
        self.stamp += 1;
        Ok(Stepped::Went)
    }
}
