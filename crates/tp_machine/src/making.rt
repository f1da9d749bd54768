//! The goal `new`, which makes a process.

ghost use Rattle.std.specs.Prelude.{◌≡◌, ◌<◌, Some, IfOk, OnOk, OnErr, length};
ghost use Rattle.tp_terms.specs.declared.cells.Cell.{Cell};
ghost use Rattle.tp_terms.specs.Shown.{name_at};
ghost use Rattle.tp_terms.specs.Term.{Atom};
ghost use Rattle.tp_terms.specs.declared.symbols.TheConstants.{CALL};
ghost use Rattle.tp_meaning.specs.declared.goals.GoalKind.TheVariants.{Process};
ghost use Rattle.tp_meaning.specs.declared.goals.ProcessGoal.{ProcessGoal};
ghost use Rattle.tp_meaning.specs.Process.{is_inf};
ghost use Rattle.tp_store.specs.Contents.{seen};
ghost use Rattle.tp_machine.specs.Making.{ending_by};

use crate::errors::{Cause, Domain};
use crate::goals::met;
use crate::machine::Machine;
use crate::stepped::Stepped;
use crate::task::{Call, Met, Task};
use crate::values::Given;
use tp_terms::symbols::{CALL, EMPTY_LIST, INF};
use tp_terms::{AtomId, Cell, EventKind, Limit, NoMemory, Ref};

/// A process that is to be made.
#[derive(Clone, Copy, Debug)]
pub struct NewProcess {
    pub name: AtomId,
    /// When it starts.
    pub start: i64,
    /// When it ends at the latest.
    pub end: Limit,
}

/// An end time that a goal gives.
#[derive(Clone, Copy, Debug)]
pub enum Ending {
    /// The end time.
    Ends(Limit),
    /// Why there is none.
    Refused(Cause),
}

/// The cell of a goal that calls the goal of a place.
fn calling(goal: Ref) -> Cell
    ensures { result ≡ Cell.Comp CALL goal 1 }
{
    Cell::Comp {
        name: CALL,
        first: goal,
        count: 1,
    }
}

/// The end at a time that a goal gives.
fn end_given(given: Given) -> Ending
    ensures { result ≡ ending_by given }
{
    match given {
        Given::Time(time) => Ending::Ends(Limit::At(time)),
        Given::Refused(why) => Ending::Refused(why),
    }
}

impl<'a> Machine<'a> {
    ghost use Rattle.tp_machine.specs.Enters.{Rests};
    ghost use Rattle.tp_machine.specs.Machine.{IsMachine, SameProgram, Steps};
    ghost use Rattle.tp_machine.specs.Making.{HasEnd, HasGoal, HasName, HasStart, IsEnd, IsFree};
    ghost use Rattle.tp_machine.specs.Making.{IsName, IsStart};
    ghost use Rattle.tp_machine.specs.Meets.{Calls};

    /// `new` makes a process.
    pub(crate) fn make_new(&mut self, task: Task, call: Call) -> Result<Stepped, NoMemory>
        requires machine { IsMachine self.old }
        requires call { Calls self.old task call (Some (Process ProcessGoal.New)) }
        ensures done { IfOk result (Steps self.old self.new) }
        ensures program { OnErr result (SameProgram self.old self.new) }
    {
        match self.new_name(task, call) {
            Ok(name) => self.make_named(task, call, name),
            Err(why) => self.raise(task, why),
        }
    }

    /// With its name.
    fn make_named(&mut self, task: Task, call: Call, name: AtomId) -> Result<Stepped, NoMemory>
        requires machine { IsMachine self.old }
        requires name { HasName self.old task call name }
        ensures done { IfOk result (Steps self.old self.new) }
        ensures program { OnErr result (SameProgram self.old self.new) }
    {
        match self.start_time(task, call, name)? {
            Given::Time(start) => self.make_from(task, call, name, start),
            Given::Refused(why) => self.raise(task, why),
        }
    }

    /// With its start time.
    fn make_from(
        &mut self,
        task: Task,
        call: Call,
        name: AtomId,
        start: i64,
    ) -> Result<Stepped, NoMemory>
        requires machine { IsMachine self.old }
        requires start { HasStart self.old task call name start }
        ensures done { IfOk result (Steps self.old self.new) }
        ensures program { OnErr result (SameProgram self.old self.new) }
    {
        match self.end_time(task, call, name, start)? {
            Ending::Ends(end) => self.make(task, call, NewProcess { name, start, end }),
            Ending::Refused(why) => self.raise(task, why),
        }
    }

    // ---- its name

    /// The name of the new process, where the goal may be called, or why there is none.
    fn new_name(&self, _task: Task, call: Call) -> Result<AtomId, Cause>
        requires machine { IsMachine self.now }
        requires call { Calls self.now _task call (Some (Process ProcessGoal.New)) }
        ensures { IsName self.now _task call result }
    {
        match met(&self.state.store, call.first) {
            Met::Unbound => Err(Cause::Unbound),
            Met::Number(_) => Err(Cause::NotCallable(call.first)),
            Met::Named(_) => self.free_name(self.argument(call, 1)),
        }
    }

    /// The atom of a place, where it may be the name of a new process.
    fn free_name(&self, place: Ref) -> Result<AtomId, Cause>
        requires machine { IsMachine self.now }
        requires place { place.at < length self.now.state.store.cells }
        ensures { IsFree self.now place result }
    {
        match self.state.store.top(place) {
            Cell::Var(_) => Err(Cause::Unbound),
            Cell::Int(_) => Err(Cause::NotAtom(place)),
            Cell::Atom(name) => self.unused(place, name),
            Cell::Comp { .. } => Err(Cause::NotAtom(place)),
        }
    }

    /// The atom that a place shows, where it may be the name of a new process.
    fn unused(&self, place: Ref, name: AtomId) -> Result<AtomId, Cause>
        requires machine { IsMachine self.now }
        requires place { place.at < length self.now.state.store.cells }
        requires within { name.at < length self.now.atoms }
        requires shows { seen self.now.atoms self.now.state.store place.at
            ≡ Atom (name_at self.now.atoms name.at) }
        ensures { IsFree self.now place result }
    {
        if name.at == EMPTY_LIST.at {
            return Err(Cause::EmptyName);
        }
        match self.state.procs.by_name(name) {
            Some(_) => Err(Cause::NameTaken(place)),
            None => Ok(name),
        }
    }

    // ---- its times

    /// When the new process starts: no sooner than now.
    fn start_time(&mut self, _task: Task, call: Call, _name: AtomId) -> Result<Given, NoMemory>
        requires machine { IsMachine self.old }
        requires name { HasName self.old _task call _name }
        ensures rests { OnOk result (Rests self.old self.new) }
        ensures start { IfOk result (IsStart self.new _task call _name) }
        ensures program { OnErr result (SameProgram self.old self.new) }
    {
        let place = self.argument(call, 2);
        let now = self.state.clock;
        let given = self.time_at(place, Domain::StartTime, now)?;
        Ok(given)
    }

    /// When the new process ends at the latest: no sooner than it starts.
    fn end_time(
        &mut self,
        _task: Task,
        call: Call,
        _name: AtomId,
        start: i64,
    ) -> Result<Ending, NoMemory>
        requires machine { IsMachine self.old }
        requires start { HasStart self.old _task call _name start }
        ensures rests { OnOk result (Rests self.old self.new) }
        ensures end { IfOk result (IsEnd self.new _task call _name start) }
        ensures program { OnErr result (SameProgram self.old self.new) }
    {
        let place = self.argument(call, 3);
        if self.is_inf(place) {
            return Ok(Ending::Ends(Limit::Inf));
        }
        let given = self.time_at(place, Domain::EndTime, start)?;
        Ok(end_given(given))
    }

    /// Whether a place shows `inf`.
    fn is_inf(&self, place: Ref) -> bool
        requires machine { IsMachine self.now }
        requires place { place.at < length self.now.state.store.cells }
        ensures { result ≡ is_inf (seen self.now.atoms self.now.state.store place.at) }
    {
        match self.state.store.top(place) {
            Cell::Var(_) => false,
            Cell::Int(_) => false,
            Cell::Atom(name) => name.at == INF.at,
            Cell::Comp { .. } => false,
        }
    }

    // ---- the process

    /// Makes the process.
    fn make(&mut self, task: Task, call: Call, wanted: NewProcess) -> Result<Stepped, NoMemory>
        requires machine { IsMachine self.old }
        requires end { HasEnd self.old task call wanted }
        ensures done { IfOk result (Steps self.old self.new) }
        ensures program { OnErr result (SameProgram self.old self.new) }
    {
        let goal = self.place_call(task, call, wanted)?;
        self.make_with(task, call, wanted, goal)
    }

    /// A place for the goal of the process.
    fn place_call(&mut self, _task: Task, call: Call, _wanted: NewProcess) -> Result<Ref, NoMemory>
        requires machine { IsMachine self.old }
        requires end { HasEnd self.old _task call _wanted }
        ensures rests { OnOk result (Rests self.old self.new) }
        ensures goal { IfOk result (HasGoal self.new _task call _wanted) }
        ensures program { OnErr result (SameProgram self.old self.new) }
    {
        let goal = self.state.store.place(calling(call.first))?;
        Ok(goal)
    }

    /// Makes the process with its goal, which starts at its time.
    fn make_with(
        &mut self,
        task: Task,
        _call: Call,
        wanted: NewProcess,
        goal: Ref,
    ) -> Result<Stepped, NoMemory>
        requires machine { IsMachine self.old }
        requires goal { HasGoal self.old task _call wanted goal }
        ensures done { IfOk result (Steps self.old self.new) }
        ensures program { OnErr result (SameProgram self.old self.new) }
    {
        self.state.items = task.rest;
        let pid = self.state.make_process(wanted.name, wanted.end, goal)?;
        self.state.plan(pid, wanted.start)?;
        self.state.note(
            task.process,
            EventKind::New {
                name: wanted.name,
                start: wanted.start,
                end: wanted.end,
            },
        )?;
        self.stamp += 1;
        Ok(Stepped::Went)
    }
}
