//! The goals of processes.

ghost use Rattle.std.specs.Prelude.{◌≡◌, ◌<◌, Some, IfOk, OnOk, OnErr, length};
ghost use Rattle.tp_terms.specs.declared.cells.Cell.{Cell};
ghost use Rattle.tp_meaning.specs.declared.goals.GoalKind.TheVariants.{Process};
ghost use Rattle.tp_meaning.specs.declared.goals.ProcessGoal.{ProcessGoal};

use crate::enter::{Entered, enter};
use crate::errors::{Cause, Domain};
use crate::machine::Machine;
use crate::stepped::Stepped;
use crate::task::{Call, Task};
use crate::values::Given;
use tp_control::{Alt, Item};
use tp_meaning::{DeadCause, ProcessGoal};
use tp_state::State;
use tp_terms::{Cell, EventKind, NoMemory, ProcStatus, Ref};

/// The time, as an integer.
fn time_cell(state: &State) -> Cell
    ensures { result ≡ Cell.Int state.now.clock }
{
    Cell::Int(state.clock)
}

impl<'a> Machine<'a> {
    ghost use Rattle.tp_machine.specs.Acting.{ConditionEntered, ConditionStands, Delays, HasNoMail};
    ghost use Rattle.tp_machine.specs.Acting.{Tells, Unites};
    ghost use Rattle.tp_control.specs.declared.choices.Alt.{Alt};
    ghost use Rattle.tp_machine.specs.Enters.{Rests};
    ghost use Rattle.tp_machine.specs.Goes.{Returns, ResumesSecond};
    ghost use Rattle.tp_machine.specs.Machine.{IsMachine, SameProgram, Steps};
    ghost use Rattle.tp_machine.specs.Meets.{Calls};
    ghost use Rattle.tp_machine.specs.Times.{IsDuration, Lasts};

    /// A goal of processes.
    pub(crate) fn perform(
        &mut self,
        task: Task,
        call: Call,
        goal: ProcessGoal,
    ) -> Result<Stepped, NoMemory>
        requires machine { IsMachine self.old }
        requires call { Calls self.old task call (Some (Process goal)) }
        ensures done { IfOk result (Steps self.old self.new) }
        ensures program { OnErr result (SameProgram self.old self.new) }
    {
        match goal {
            ProcessGoal::New => self.make_new(task, call),
            ProcessGoal::Hold => self.hold(task, call),
            ProcessGoal::Send => self.send(task, call),
            ProcessGoal::WaitFor => self.wait_for(task, call),
            ProcessGoal::Wait => self.wait(task, call),
            ProcessGoal::Now => self.tell_time(task, call),
            ProcessGoal::OwnName => self.tell_name(task, call),
            ProcessGoal::Note => self.note(task, call),
        }
    }

    /// `note` adds an event of its argument.
    pub(crate) fn note(&mut self, task: Task, call: Call) -> Result<Stepped, NoMemory>
        requires machine { IsMachine self.old }
        requires call { Calls self.old task call (Some (Process ProcessGoal.Note)) }
        ensures done { IfOk result (Steps self.old self.new) }
        ensures program { OnErr result (SameProgram self.old self.new) }
    {
        self.state.items = task.rest;
        self.state.note(task.process, EventKind::Note(call.first))?;
        self.stamp += 1;
        Ok(Stepped::Went)
    }

    // ---- now and self

    /// `now` makes its argument equal to the time.
    pub(crate) fn tell_time(&mut self, task: Task, call: Call) -> Result<Stepped, NoMemory>
        requires machine { IsMachine self.old }
        requires call { Calls self.old task call (Some (Process ProcessGoal.Now)) }
        ensures done { IfOk result (Steps self.old self.new) }
        ensures program { OnErr result (SameProgram self.old self.new) }
    {
        let value = time_cell(&self.state);
        self.tell(task, call, ProcessGoal::Now, value)
    }

    /// `self` makes its argument equal to the name of the running process.
    pub(crate) fn tell_name(&mut self, task: Task, call: Call) -> Result<Stepped, NoMemory>
        requires machine { IsMachine self.old }
        requires call { Calls self.old task call (Some (Process ProcessGoal.OwnName)) }
        ensures done { IfOk result (Steps self.old self.new) }
        ensures program { OnErr result (SameProgram self.old self.new) }
    {
        let value = Cell::Atom(self.state.name_of(task.process));
        self.tell(task, call, ProcessGoal::OwnName, value)
    }

    /// The argument is made equal to an integer or an atom.
    fn tell(
        &mut self,
        task: Task,
        call: Call,
        goal: ProcessGoal,
        value: Cell,
    ) -> Result<Stepped, NoMemory>
        requires machine { IsMachine self.old }
        requires tells { Tells self.old task call goal value }
        ensures done { IfOk result (Steps self.old self.new) }
        ensures program { OnErr result (SameProgram self.old self.new) }
    {
        let place = self.place_told(task, call, goal, value)?;
        self.unite(task, call.first, place)
    }

    /// A place for an integer or an atom that a goal's argument is made equal to.
    fn place_told(
        &mut self,
        _task: Task,
        _call: Call,
        _goal: ProcessGoal,
        value: Cell,
    ) -> Result<Ref, NoMemory>
        requires machine { IsMachine self.old }
        requires tells { Tells self.old _task _call _goal value }
        ensures rests { OnOk result (Rests self.old self.new) }
        ensures unites { IfOk result (Unites self.new _task _call.first) }
        ensures program { OnErr result (SameProgram self.old self.new) }
    {
        let place = self.state.store.place(value)?;
        Ok(place)
    }

    /// Goes on where the terms of two places can be made equal, and is a dead end where not.
    fn unite(&mut self, task: Task, left: Ref, right: Ref) -> Result<Stepped, NoMemory>
        requires machine { IsMachine self.old }
        requires unites { Unites self.old task left right }
        ensures done { IfOk result (Steps self.old self.new) }
        ensures program { OnErr result (SameProgram self.old self.new) }
    {
        let found = self.state.unify(left, right)?;
        if found {
            self.state.items = task.rest;
            self.stamp += 1;
            Ok(Stepped::Went)
        } else {
            Ok(Stepped::Dead(DeadCause::Failed))
        }
    }

    // ---- hold

    /// `hold` evaluates its argument, and the running process holds for so long.
    pub(crate) fn hold(&mut self, task: Task, call: Call) -> Result<Stepped, NoMemory>
        requires machine { IsMachine self.old }
        requires call { Calls self.old task call (Some (Process ProcessGoal.Hold)) }
        ensures done { IfOk result (Steps self.old self.new) }
        ensures program { OnErr result (SameProgram self.old self.new) }
    {
        match self.duration(task, call)? {
            Given::Time(duration) => self.hold_for(task, call, duration),
            Given::Refused(why) => self.raise(task, why),
        }
    }

    /// How long the running process is to hold.
    fn duration(&mut self, _task: Task, call: Call) -> Result<Given, NoMemory>
        requires machine { IsMachine self.old }
        requires call { Calls self.old _task call (Some (Process ProcessGoal.Hold)) }
        ensures rests { OnOk result (Rests self.old self.new) }
        ensures duration { IfOk result (IsDuration self.new _task call) }
        ensures program { OnErr result (SameProgram self.old self.new) }
    {
        let given = self.time_at(call.first, Domain::Duration, 0)?;
        Ok(given)
    }

    /// The running process holds for a duration, to a time within 64 bits.
    fn hold_for(&mut self, task: Task, call: Call, duration: i64) -> Result<Stepped, NoMemory>
        requires machine { IsMachine self.old }
        requires lasts { Lasts self.old task call duration }
        ensures done { IfOk result (Steps self.old self.new) }
        ensures program { OnErr result (SameProgram self.old self.new) }
    {
        match self.state.clock.checked_add(duration) {
            Some(time) => self.hold_until(task, call, duration, time),
            None => self.raise(task, Cause::Overflow),
        }
    }

    /// The running process holds for a duration, and lets go.
    fn hold_until(
        &mut self,
        task: Task,
        _call: Call,
        duration: i64,
        time: i64,
    ) -> Result<Stepped, NoMemory>
        requires machine { IsMachine self.old }
        requires delays { Delays self.old task _call duration time }
        ensures done { IfOk result (Steps self.old self.new) }
        ensures program { OnErr result (SameProgram self.old self.new) }
    {
        self.state.items = task.rest;
        self.state.note(task.process, EventKind::Hold(duration))?;
        self.state.plan(task.process, time)?;
        self.state.leave(task.process, ProcStatus::Scheduled)?;
        self.state.mark_others(task.process)?;
        self.stamp += 1;
        Ok(Stepped::Went)
    }

    // ---- wait

    /// `wait` tries its argument. Where that fails, the process waits.
    pub(crate) fn wait(&mut self, task: Task, call: Call) -> Result<Stepped, NoMemory>
        requires machine { IsMachine self.old }
        requires call { Calls self.old task call (Some (Process ProcessGoal.Wait)) }
        ensures done { IfOk result (Steps self.old self.new) }
        ensures program { OnErr result (SameProgram self.old self.new) }
    {
        match self.enter_condition(task, call)? {
            Entered::Goal(place) => self.try_condition(task, call, place),
            Entered::Refused(why) => self.raise(task, why),
        }
    }

    /// Enters the argument.
    fn enter_condition(&mut self, _task: Task, call: Call) -> Result<Entered, NoMemory>
        requires machine { IsMachine self.old }
        requires call { Calls self.old _task call (Some (Process ProcessGoal.Wait)) }
        ensures rests { OnOk result (Rests self.old self.new) }
        ensures condition { IfOk result (ConditionEntered self.new _task call) }
        ensures program { OnErr result (SameProgram self.old self.new) }
    {
        let entered = enter(&mut self.state, call.first)?;
        Ok(entered)
    }

    /// The condition is tried.
    fn try_condition(&mut self, task: Task, _call: Call, place: Ref) -> Result<Stepped, NoMemory>
        requires machine { IsMachine self.old }
        requires stands { ConditionStands self.old task _call place }
        ensures done { IfOk result (Steps self.old self.new) }
        ensures program { OnErr result (SameProgram self.old self.new) }
    {
        self.keep(Alt::Second)?;
        self.state.items = task.rest;
        self.state.push(Item::Commit(self.stamp))?;
        self.state.push(Item::Goal {
            goal: place,
            barrier: self.stamp + 1,
        })?;
        self.stamp += 1;
        Ok(Stepped::Went)
    }

    /// The process is parked with its condition, and lets go.
    pub(crate) fn park(&mut self, task: Task, call: Call) -> Result<(), NoMemory>
        requires back { Returns self.old Alt.Second }
        requires call { Calls self.old task call (Some (Process ProcessGoal.Wait)) }
        ensures done { OnOk result (ResumesSecond self.old self.new) }
        ensures program { OnErr result (SameProgram self.old self.new) }
    {
        let Entered::Goal(place) = enter(&mut self.state, call.first)? else {
            unreachable!()
        };
        self.state.items = task.rest;
        self.state.push(Item::Retry(place))?;
        self.state
            .leave(task.process, ProcStatus::Parked { marked: false })?;
        self.state.mark_others(task.process)?;
        self.stamp += 1;
        Ok(())
    }

    // ---- wait_for

    /// The running process awaits mail, since no message of its box can be taken, and lets go.
    pub(crate) fn await_mail(&mut self, task: Task, _call: Call) -> Result<Stepped, NoMemory>
        requires machine { IsMachine self.old }
        requires none { HasNoMail self.old task _call }
        ensures done { IfOk result (Steps self.old self.new) }
        ensures program { OnErr result (SameProgram self.old self.new) }
    {
        self.state.leave(task.process, ProcStatus::AwaitsMail)?;
        self.state.mark_others(task.process)?;
        self.stamp += 1;
        Ok(Stepped::Went)
    }
}
