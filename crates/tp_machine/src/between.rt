//! `between`, which counts from one number to another.

ghost use Rattle.std.specs.Prelude.{◌≡◌, ◌<◌, ◌+◌, true, int_lt, Some, IfOk, OnOk, OnErr, length};
ghost use Rattle.std.specs.Ordering.{int_eq};
ghost use Rattle.tp_control.specs.declared.choices.Alt.{Alt};
ghost use Rattle.tp_meaning.specs.declared.goals.GoalKind.TheVariants.{Control};
ghost use Rattle.tp_meaning.specs.declared.goals.ControlGoal.{ControlGoal};

use crate::errors::Cause;
use crate::goals::met;
use crate::machine::Machine;
use crate::numbers::{Bounds, equal_first, is_empty, is_single, is_within, next_goal};
use crate::stepped::Stepped;
use crate::task::{Call, Met, Task};
use tp_control::{Alt, Item};
use tp_meaning::DeadCause;
use tp_terms::{NoMemory, Ref};

impl<'a> Machine<'a> {
    ghost use Rattle.tp_machine.specs.Goes.{Returns, ResumesSecond};
    ghost use Rattle.tp_machine.specs.Machine.{IsMachine, SameProgram, Steps};
    ghost use Rattle.tp_machine.specs.Meets.{Calls};
    ghost use Rattle.tp_machine.specs.Between.{Bounded, Counts, HasBounds, Tests, IsGiven};

    /// The integer of a place, or why there is none.
    fn integer_at(&self, place: Ref) -> Result<i64, Cause>
        requires machine { IsMachine self.now }
        requires place { place.at < length self.now.state.store.cells }
        ensures { IsGiven self.now.atoms self.now.state.store place result }
    {
        match met(&self.state.store, place) {
            Met::Unbound => Err(Cause::Unbound),
            Met::Number(value) => Ok(value),
            Met::Named(_) => Err(Cause::NotInteger(place)),
        }
    }

    /// The two numbers that `between` counts from and to, or why it raises an error.
    fn bounds(&self, _task: Task, call: Call) -> Result<Bounds, Cause>
        requires machine { IsMachine self.now }
        requires call { Calls self.now _task call (Some (Control ControlGoal.Between)) }
        ensures { HasBounds self.now _task call result }
    {
        let low = match self.integer_at(call.first) {
            Ok(low) => low,
            Err(why) => return Err(why),
        };
        match self.integer_at(self.argument(call, 1)) {
            Ok(high) => Ok(Bounds { low, high }),
            Err(why) => Err(why),
        }
    }

    /// `between` tests a number, and counts for a variable.
    pub(crate) fn between(&mut self, task: Task, call: Call) -> Result<Stepped, NoMemory>
        requires machine { IsMachine self.old }
        requires call { Calls self.old task call (Some (Control ControlGoal.Between)) }
        ensures done { IfOk result (Steps self.old self.new) }
        ensures program { OnErr result (SameProgram self.old self.new) }
    {
        match self.bounds(task, call) {
            Ok(bounds) => self.between_bounds(task, call, bounds),
            Err(why) => self.raise(task, why),
        }
    }

    /// With its two numbers.
    fn between_bounds(
        &mut self,
        task: Task,
        call: Call,
        bounds: Bounds,
    ) -> Result<Stepped, NoMemory>
        requires machine { IsMachine self.old }
        requires bounds { Bounded self.old task call bounds }
        ensures done { IfOk result (Steps self.old self.new) }
        ensures program { OnErr result (SameProgram self.old self.new) }
    {
        let place = self.argument(call, 2);
        match met(&self.state.store, place) {
            Met::Unbound => self.count(task, call, bounds, place),
            Met::Number(value) => Ok(self.test_number(task, call, bounds, value)),
            Met::Named(_) => self.raise(task, Cause::NotInteger(place)),
        }
    }

    /// Whether a number is one of those from the first to the last.
    fn test_number(&mut self, task: Task, _call: Call, bounds: Bounds, value: i64) -> Stepped
        requires machine { IsMachine self.old }
        requires tests { Tests self.old task _call bounds value }
        ensures { Steps self.old self.new result }
    {
        if is_within(bounds, value) {
            self.state.items = task.rest;
            self.stamp += 1;
            Stepped::Went
        } else {
            Stepped::Dead(DeadCause::Failed)
        }
    }

    /// A variable is the first number, and a choice is kept for the others.
    fn count(
        &mut self,
        task: Task,
        call: Call,
        bounds: Bounds,
        variable: Ref,
    ) -> Result<Stepped, NoMemory>
        requires machine { IsMachine self.old }
        requires counts { Counts self.old task call bounds variable }
        ensures done { IfOk result (Steps self.old self.new) }
        ensures program { OnErr result (SameProgram self.old self.new) }
    {
        if is_empty(bounds) {
            return Ok(Stepped::Dead(DeadCause::Failed));
        }
        if is_single(bounds) {
            return self.take_last(task, call, bounds, variable);
        }
        self.take_first(task, call, bounds, variable)
    }

    /// The first number is the last one.
    fn take_last(
        &mut self,
        task: Task,
        _call: Call,
        bounds: Bounds,
        variable: Ref,
    ) -> Result<Stepped, NoMemory>
        requires machine { IsMachine self.old }
        requires counts { Counts self.old task _call bounds variable }
        requires last { int_eq bounds.low bounds.high ≡ true }
        ensures done { IfOk result (Steps self.old self.new) }
        ensures program { OnErr result (SameProgram self.old self.new) }
    {
        self.state.items = task.rest;
        equal_first(&mut self.state, variable, bounds)?;
        self.stamp += 1;
        Ok(Stepped::Went)
    }

    /// There are others behind the first number.
    fn take_first(
        &mut self,
        task: Task,
        _call: Call,
        bounds: Bounds,
        variable: Ref,
    ) -> Result<Stepped, NoMemory>
        requires machine { IsMachine self.old }
        requires counts { Counts self.old task _call bounds variable }
        requires more { int_lt bounds.low bounds.high ≡ true }
        ensures done { IfOk result (Steps self.old self.new) }
        ensures program { OnErr result (SameProgram self.old self.new) }
    {
        self.keep(Alt::Second)?;
        self.state.items = task.rest;
        equal_first(&mut self.state, variable, bounds)?;
        self.stamp += 1;
        Ok(Stepped::Went)
    }

    /// On with the numbers behind the first.
    pub(crate) fn go_counting(&mut self, task: Task, call: Call) -> Result<(), NoMemory>
        requires back { Returns self.old Alt.Second }
        requires call { Calls self.old task call (Some (Control ControlGoal.Between)) }
        ensures done { OnOk result (ResumesSecond self.old self.new) }
        ensures program { OnErr result (SameProgram self.old self.new) }
    {
        let Ok(bounds) = self.bounds(task, call) else {
            unreachable!()
        };
        let variable = self.argument(call, 2);
        let goal = next_goal(&mut self.state.store, call, bounds, variable)?;
        self.state.items = task.rest;
        self.state.push(Item::Goal {
            goal,
            barrier: task.barrier,
        })?;
        self.stamp += 1;
        Ok(())
    }
}
