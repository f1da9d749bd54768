//! The control goals (ISO/IEC 13211-1, 7.8).

ghost use Rattle.std.specs.Prelude.{OnErr, ◌≡◌, None, ◌<◌, ◌^◌, ◌-◌, Some, IfOk, IfSome, OnOk};
ghost use Rattle.std.specs.Prelude.{length};
ghost use Rattle.tp_state.specs.Going.{Follows};
ghost use Rattle.tp_state.specs.State.{plain_of, held_of};
ghost use Rattle.tp_meaning.specs.declared.goals.GoalKind.TheVariants.{Control};
ghost use Rattle.tp_meaning.specs.declared.goals.ControlGoal.{ControlGoal};

use crate::enter::Entered;
use crate::machine::Machine;
use crate::parts::parts_of;
use crate::stepped::Stepped;
use crate::task::{Call, Task};
use tp_control::{Alt, Item};
use tp_meaning::{ControlGoal, DeadCause, GoalKind, goal_kind};
use tp_terms::symbols::FAIL;
use tp_terms::{Cell, NoMemory, Ref};

impl<'a> Machine<'a> {
    ghost use Rattle.tp_machine.specs.Machine.{IsMachine, SameProgram, Steps};
    ghost use Rattle.tp_machine.specs.Meets.{Calls, HasCurrent};
    ghost use Rattle.tp_machine.specs.Goes.{Returns, ResumesSecond};
    ghost use Rattle.tp_machine.specs.Enters.{FirstStands, Rests};
    ghost use Rattle.tp_machine.specs.Chooses.{Chooses, ChoosesBy, HasFailure};
    ghost use Rattle.tp_machine.specs.Parts.{HasParts};
    ghost use Rattle.tp_control.specs.declared.choices.Alt.{Alt};
    ghost use Rattle.tp_machine.specs.Conditions.{conditional, pushes};

    /// A control goal.
    pub(crate) fn control(
        &mut self,
        task: Task,
        call: Call,
        goal: ControlGoal,
    ) -> Result<Stepped, NoMemory>
        requires machine { IsMachine self.old }
        requires call { Calls self.old task call (Some (Control goal)) }
        ensures done { IfOk result (Steps self.old self.new) }
        ensures program { OnErr result (SameProgram self.old self.new) }
    {
        match goal {
            ControlGoal::True => Ok(self.succeed(task, call)),
            ControlGoal::Fail => Ok(Stepped::Dead(DeadCause::Failed)),
            ControlGoal::Conjunction => self.conjoin(task, call),
            ControlGoal::Cut => Ok(self.cut(task, call)),
            ControlGoal::IfThen => self.condition(task, call),
            ControlGoal::Disjunction => self.disjoin(task, call),
            ControlGoal::Repeat => self.repeat(task, call),
            ControlGoal::NotProvable => self.deny(task, call),
            ControlGoal::Call => self.call_all(task, call),
            ControlGoal::Once => self.call_once(task, call),
            ControlGoal::Between => self.between(task, call),
        }
    }

    /// `true` goes on with what is behind it.
    fn succeed(&mut self, task: Task, _call: Call) -> Stepped
        requires machine { IsMachine self.old }
        requires call { Calls self.old task _call (Some (Control ControlGoal.True)) }
        ensures { Steps self.old self.new result }
    {
        self.state.items = task.rest;
        self.stamp += 1;
        Stepped::Went
    }

    /// A conjunction becomes its two goals.
    fn conjoin(&mut self, task: Task, call: Call) -> Result<Stepped, NoMemory>
        requires machine { IsMachine self.old }
        requires call { Calls self.old task call (Some (Control ControlGoal.Conjunction)) }
        ensures done { IfOk result (Steps self.old self.new) }
        ensures program { OnErr result (SameProgram self.old self.new) }
    {
        let second = self.argument(call, 1);
        self.state.items = task.rest;
        self.state.push(Item::Goal {
            goal: second,
            barrier: task.barrier,
        })?;
        self.state.push(Item::Goal {
            goal: call.first,
            barrier: task.barrier,
        })?;
        self.stamp += 1;
        Ok(Stepped::Went)
    }

    /// `!` removes the choices from its barrier on (ISO/IEC 13211-1, 7.8.4).
    fn cut(&mut self, task: Task, _call: Call) -> Stepped
        requires machine { IsMachine self.old }
        requires call { Calls self.old task _call (Some (Control ControlGoal.Cut)) }
        ensures { Steps self.old self.new result }
    {
        // Its contract says that stamps rise.
        let _open = self.choices.len();
        self.state.items = task.rest;
        self.choices.cut_from(task.barrier);
        self.stamp += 1;
        Stepped::Went
    }

    /// The running process has a condition more, whose first solution commits, and a goal behind
    /// it.
    fn push_condition(&mut self, condition: Ref, goal: Ref, barrier: u64) -> Result<(), NoMemory>
        requires items { IfSome self.old.state.items (λ i. i.at < length self.old.state.frames) }
        requires few { self.old.stamp < 2 ^ 64 - 1 }
        ensures same { self.new ≡ record self.old { state = self.new.state } }
        ensures plain { OnOk result (plain_of self.new.state ≡ pushes
            (conditional self.old.stamp condition goal barrier) (plain_of self.old.state)) }
        ensures follows { OnOk result (Follows (held_of self.old.state) (held_of self.new.state)) }
    {
        self.state.push(Item::Goal { goal, barrier })?;
        self.state.push(Item::Commit(self.stamp))?;
        self.state.push(Item::Goal {
            goal: condition,
            barrier: self.stamp + 1,
        })?;
        Ok(())
    }

    /// A condition with a goal becomes the condition, a commit to its first solution, and the goal.
    fn condition(&mut self, task: Task, call: Call) -> Result<Stepped, NoMemory>
        requires machine { IsMachine self.old }
        requires call { Calls self.old task call (Some (Control ControlGoal.IfThen)) }
        ensures done { IfOk result (Steps self.old self.new) }
        ensures program { OnErr result (SameProgram self.old self.new) }
    {
        let goal = self.argument(call, 1);
        self.state.items = task.rest;
        self.push_condition(call.first, goal, task.barrier)?;
        self.stamp += 1;
        Ok(Stepped::Went)
    }

    /// `repeat` goes on, and succeeds again when it is come back to.
    fn repeat(&mut self, task: Task, _call: Call) -> Result<Stepped, NoMemory>
        requires machine { IsMachine self.old }
        requires call { Calls self.old task _call (Some (Control ControlGoal.Repeat)) }
        ensures done { IfOk result (Steps self.old self.new) }
        ensures program { OnErr result (SameProgram self.old self.new) }
    {
        self.keep(Alt::Second)?;
        self.state.items = task.rest;
        self.stamp += 1;
        Ok(Stepped::Went)
    }

    // ---- goals that are entered

    /// `once` goes on with its argument, and commits to its first solution.
    fn call_once(&mut self, task: Task, call: Call) -> Result<Stepped, NoMemory>
        requires machine { IsMachine self.old }
        requires call { Calls self.old task call (Some (Control ControlGoal.Once)) }
        ensures done { IfOk result (Steps self.old self.new) }
        ensures program { OnErr result (SameProgram self.old self.new) }
    {
        match self.enter_first(task, call, ControlGoal::Once)? {
            Entered::Goal(place) => self.go_into_once(task, call, place),
            Entered::Refused(why) => self.raise(task, why),
        }
    }

    /// On with a goal, and then with a commit to its first solution.
    fn go_into_once(&mut self, task: Task, _call: Call, place: Ref) -> Result<Stepped, NoMemory>
        requires machine { IsMachine self.old }
        requires stands { FirstStands self.old task _call ControlGoal.Once place }
        ensures done { IfOk result (Steps self.old self.new) }
        ensures program { OnErr result (SameProgram self.old self.new) }
    {
        self.state.items = task.rest;
        let commit = Item::Commit(self.stamp);
        self.state.push(commit)?;
        self.state.push(Item::Goal {
            goal: place,
            barrier: self.stamp + 1,
        })?;
        self.stamp += 1;
        Ok(Stepped::Went)
    }

    /// `\+` fails where its argument has a solution, and else goes on.
    fn deny(&mut self, task: Task, call: Call) -> Result<Stepped, NoMemory>
        requires machine { IsMachine self.old }
        requires call { Calls self.old task call (Some (Control ControlGoal.NotProvable)) }
        ensures done { IfOk result (Steps self.old self.new) }
        ensures program { OnErr result (SameProgram self.old self.new) }
    {
        match self.enter_first(task, call, ControlGoal::NotProvable)? {
            Entered::Goal(place) => self.deny_at(task, call, place),
            Entered::Refused(why) => self.raise(task, why),
        }
    }

    /// A goal whose first solution fails is tried, and the other world is kept.
    fn deny_at(&mut self, task: Task, call: Call, place: Ref) -> Result<Stepped, NoMemory>
        requires machine { IsMachine self.old }
        requires stands { FirstStands self.old task call ControlGoal.NotProvable place }
        ensures done { IfOk result (Steps self.old self.new) }
        ensures program { OnErr result (SameProgram self.old self.new) }
    {
        let failure = self.place_failure(task, call, place)?;
        self.try_denied(task, call, place, failure)
    }

    /// A place for `fail`.
    fn place_failure(&mut self, _task: Task, _call: Call, _place: Ref) -> Result<Ref, NoMemory>
        requires machine { IsMachine self.old }
        requires stands { FirstStands self.old _task _call ControlGoal.NotProvable _place }
        ensures rests { OnOk result (Rests self.old self.new) }
        ensures failure { IfOk result (HasFailure self.new) }
        ensures stands { OnOk result
            (FirstStands self.new _task _call ControlGoal.NotProvable _place) }
        ensures program { OnErr result (SameProgram self.old self.new) }
    {
        let place = self.state.store.place(Cell::Atom(FAIL))?;
        Ok(place)
    }

    /// The first world of `\+`.
    fn try_denied(
        &mut self,
        task: Task,
        _call: Call,
        place: Ref,
        failure: Ref,
    ) -> Result<Stepped, NoMemory>
        requires machine { IsMachine self.old }
        requires stands { FirstStands self.old task _call ControlGoal.NotProvable place }
        requires failure { HasFailure self.old failure }
        ensures done { IfOk result (Steps self.old self.new) }
        ensures program { OnErr result (SameProgram self.old self.new) }
    {
        self.keep(Alt::Second)?;
        self.state.items = task.rest;
        self.push_condition(place, failure, task.barrier)?;
        self.stamp += 1;
        Ok(Stepped::Went)
    }

    // ---- disjunctions

    /// `;` goes on with its first side, and keeps the second one.
    fn disjoin(&mut self, task: Task, call: Call) -> Result<Stepped, NoMemory>
        requires machine { IsMachine self.old }
        requires call { Calls self.old task call (Some (Control ControlGoal.Disjunction)) }
        ensures done { IfOk result (Steps self.old self.new) }
        ensures program { OnErr result (SameProgram self.old self.new) }
    {
        match parts_of(&self.state.store, call.first) {
            Some((condition, goal)) => self.choose_if(task, call, condition, goal),
            None => self.choose(task, call),
        }
    }

    /// The first side is a condition with a goal.
    fn choose_if(
        &mut self,
        task: Task,
        _call: Call,
        condition: Ref,
        goal: Ref,
    ) -> Result<Stepped, NoMemory>
        requires machine { IsMachine self.old }
        requires call { Calls self.old task _call (Some (Control ControlGoal.Disjunction)) }
        requires parts { HasParts self.old.atoms self.old.state.store _call.first
            (Some (condition, goal)) }
        ensures done { IfOk result (Steps self.old self.new) }
        ensures program { OnErr result (SameProgram self.old self.new) }
    {
        self.keep(Alt::Second)?;
        self.state.items = task.rest;
        self.push_condition(condition, goal, task.barrier)?;
        self.stamp += 1;
        Ok(Stepped::Went)
    }

    /// The first side is any other goal.
    fn choose(&mut self, task: Task, call: Call) -> Result<Stepped, NoMemory>
        requires machine { IsMachine self.old }
        requires call { Calls self.old task call (Some (Control ControlGoal.Disjunction)) }
        requires parts { HasParts self.old.atoms self.old.state.store call.first None }
        ensures done { IfOk result (Steps self.old self.new) }
        ensures program { OnErr result (SameProgram self.old self.new) }
    {
        self.keep(Alt::Second)?;
        self.state.items = task.rest;
        self.state.push(Item::Goal {
            goal: call.first,
            barrier: task.barrier,
        })?;
        self.stamp += 1;
        Ok(Stepped::Went)
    }

    // ---- second worlds

    /// On with the second world of a control goal or of `wait`.
    pub(crate) fn choose_second(&mut self, task: Task, call: Call) -> Result<(), NoMemory>
        requires back { Returns self.old Alt.Second }
        requires at { HasCurrent self.old task call }
        ensures done { OnOk result (ResumesSecond self.old self.new) }
        ensures program { OnErr result (SameProgram self.old self.new) }
    {
        match goal_kind(call.name, call.count) {
            Some(kind) => self.choose_by(task, call, kind),
            None => unreachable!(),
        }
    }

    /// The goal is one of the control goals, or `wait`.
    fn choose_by(&mut self, task: Task, call: Call, kind: GoalKind) -> Result<(), NoMemory>
        requires back { Returns self.old Alt.Second }
        requires chooses { ChoosesBy self.old task call kind }
        ensures done { OnOk result (ResumesSecond self.old self.new) }
        ensures program { OnErr result (SameProgram self.old self.new) }
    {
        match kind {
            GoalKind::Control(goal) => self.second_of(task, call, goal),
            GoalKind::Process(_) => self.park(task, call),
            _ => unreachable!(),
        }
    }

    /// It is one of those that give two worlds.
    fn second_of(&mut self, task: Task, call: Call, goal: ControlGoal) -> Result<(), NoMemory>
        requires back { Returns self.old Alt.Second }
        requires chooses { Chooses self.old task call goal }
        ensures done { OnOk result (ResumesSecond self.old self.new) }
        ensures program { OnErr result (SameProgram self.old self.new) }
    {
        match goal {
            ControlGoal::Disjunction => self.go_aside(task, call),
            ControlGoal::NotProvable => {
                self.go_behind(task, call);
                Ok(())
            }
            ControlGoal::Repeat => self.go_again(task, call),
            ControlGoal::Between => self.go_counting(task, call),
            _ => unreachable!(),
        }
    }

    /// The second side of a disjunction.
    fn go_aside(&mut self, task: Task, call: Call) -> Result<(), NoMemory>
        requires back { Returns self.old Alt.Second }
        requires call { Calls self.old task call (Some (Control ControlGoal.Disjunction)) }
        ensures done { OnOk result (ResumesSecond self.old self.new) }
        ensures program { OnErr result (SameProgram self.old self.new) }
    {
        let second = self.argument(call, 1);
        self.state.items = task.rest;
        self.state.push(Item::Goal {
            goal: second,
            barrier: task.barrier,
        })?;
        self.stamp += 1;
        Ok(())
    }

    /// What is behind a goal that has no solution.
    fn go_behind(&mut self, task: Task, _call: Call)
        requires back { Returns self.old Alt.Second }
        requires call { Calls self.old task _call (Some (Control ControlGoal.NotProvable)) }
        ensures { ResumesSecond self.old self.new }
    {
        self.state.items = task.rest;
        self.stamp += 1;
    }

    /// The goal itself.
    fn go_again(&mut self, task: Task, _call: Call) -> Result<(), NoMemory>
        requires back { Returns self.old Alt.Second }
        requires call { Calls self.old task _call (Some (Control ControlGoal.Repeat)) }
        ensures done { OnOk result (ResumesSecond self.old self.new) }
        ensures program { OnErr result (SameProgram self.old self.new) }
    {
        self.state.items = task.rest;
        self.state.push(Item::Goal {
            goal: task.goal,
            barrier: task.barrier,
        })?;
        self.stamp += 1;
        Ok(())
    }
}
